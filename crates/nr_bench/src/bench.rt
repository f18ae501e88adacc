// A machine with a thousand connections on one channel and a text at one key, and what is asked of it in a round.
use crate::queue::Queue;
use nr_blob::Memory;
use nr_test_parts::Subscribed;
use std::alloc::Global;
use std::hash::RandomState;

/// How many connections of node 0 are subscribed, and how many replies are made in a round.
const CONNECTIONS: u64 = 1000;

/// The machine, with what it is asked.
#[derive(Drop)]
pub(crate) struct Bench {
    alloc: Global,
    subscribed: Subscribed,
}

impl Bench {
    pub(crate) fn new(alloc: Global, keys: RandomState) -> Result<Bench, Memory> {
        let subscribed = Subscribed::new(alloc, keys, CONNECTIONS)?;
        Ok(Bench { alloc, subscribed })
    }

    /// A PUBLISH, into a new queue.
    pub(crate) fn publish(&mut self) -> Result<Queue, Memory> {
        let mut queue = Queue::new(self.alloc);
        self.subscribed.publish(&mut queue)?;
        Ok(queue)
    }

    /// A reply to each of the connections, into a new queue.
    pub(crate) fn reply(&self) -> Result<Queue, Memory> {
        let mut queue = Queue::new(self.alloc);
        for serial in 0..CONNECTIONS {
            self.subscribed.reply(serial, &mut queue)?;
        }
        Ok(queue)
    }

    /// So many PUBLISHes. Each queue is dropped before the next one.
    pub(crate) fn publish_all(&mut self, rounds: u32) -> Result<(), Memory> {
        for _ in 0..rounds {
            self.publish()?;
        }
        Ok(())
    }

    /// So many rounds of replies. Each queue is dropped before the next one.
    pub(crate) fn reply_all(&self, rounds: u32) -> Result<(), Memory> {
        for _ in 0..rounds {
            self.reply()?;
        }
        Ok(())
    }
}

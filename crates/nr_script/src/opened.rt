// The connections of a script, by the order in which they were opened, with what each was handed.
ghost use Rattle.std.specs.Prelude.{◌≡◌, ◌<◌, ◌≤◌, ◌++◌, ◌∷◌, [], length, map, slice_index_or, slice_set, IfOk, OnOk, MatchOption};
ghost use Rattle.nr_entry.specs.Jobs.{connection_of};
ghost use Rattle.nr_world.specs.Seen.{handed_seen};
ghost use Rattle.nr_script.specs.Receivers.{Received, with_handed};

use nr_blob::Memory;
use nr_entry::ConnId;
use nr_world::HandedBytes;
use std::alloc::Global;
use std::marker::Model;
use std::mem;

// A connection, and what it was handed and nobody has taken.
#[derive(Drop)]
struct Receiver {
    conn: ConnId,
    received: Vec<u8>,
}

impl Model for Receiver {
    ghost use Rattle.nr_entry.specs.Jobs.{connection_of};
    ghost use Rattle.nr_script.specs.Receivers.{Received};

    ghost Value = { Received };

    ghost view = { λ r. record { connection = connection_of r.conn; bytes = r.received.items } };
}

/// The connections that were opened, in that order.
#[derive(Drop)]
pub(crate) struct Opened {
    alloc: Global,
    list: Vec<Receiver>,
}

impl Model for Opened {
    ghost use Rattle.std.specs.Prelude.{List};
    ghost use Rattle.nr_script.specs.Receivers.{Received};

    ghost Value = { List Received };

    ghost view = { λ o. o.list.items };
}

impl Receiver {
    // Takes a part, where it is its own.
    fn receive(&mut self, part: &HandedBytes) -> Result<(), Memory>
        ensures { OnOk result (self.new ≡ with_handed (handed_seen part.now ∷ []) self.old) }
    {
        if part.conn == self.conn {
            self.received.extend_from_slice(&part.bytes)?;
        }
        Ok(())
    }
}

impl Opened {
    pub(crate) fn new(alloc: Global) -> Opened
        ensures { result ≡ [] }
    {
        Opened {
            alloc,
            list: Vec::new(alloc),
        }
    }

    /// How many were opened.
    pub(crate) fn count(&self) -> usize
        ensures { result ≡ length self.now }
    {
        self.list.len()
    }

    /// The connection of a number, if so many were opened.
    pub(crate) fn conn_of(&self, number: u64) -> Option<ConnId>
        ensures { MatchOption result (length self.now ≤ number) (λ conn. (number < length self.now) × ((d : Received) → (slice_index_or self.now number d).connection ≡ connection_of conn)) }
    {
        if number < self.list.len() as u64 {
            Some(self.list[number as usize].conn)
        } else {
            None
        }
    }

    /// One more, and its number.
    pub(crate) fn add(&mut self, alloc: Global, conn: ConnId) -> Result<u64, Memory>
        ensures number { IfOk result (λ number. number ≡ length self.old) }
        ensures added { OnOk result (self.new ≡ self.old ++ record { connection = connection_of conn; bytes = [] } ∷ []) }
    {
        let number = self.list.len() as u64;
        self.list.push(Receiver {
            conn,
            received: Vec::new(alloc),
        })?;
        Ok(number)
    }

    /// Gives to each what it was handed. Linear in the connections for each part.
    pub(crate) fn receive(&mut self, handed: &[HandedBytes]) -> Result<(), Memory>
        ensures { OnOk result (self.new ≡ map (with_handed (map handed_seen handed.now)) self.old) }
    {
        receive_each(&mut self.list, handed)?;
        Ok(())
    }

    /// Takes what the connection of this number was handed.
    pub(crate) fn take_received(&mut self, number: usize) -> Vec<u8>
        ensures taken { (d : Received) → number < length self.old → result.items ≡ (slice_index_or self.old number d).bytes }
        ensures none { length self.old ≤ number → result.items ≡ [] }
        ensures left { (d : Received) → number < length self.old → self.new ≡ slice_set self.old number (record (slice_index_or self.old number d) { bytes = [] }) }
    {
        let empty = Vec::new(self.alloc);
        match self.list.get_mut(number) {
            Some(receiver) => mem::replace(&mut receiver.received, empty),
            None => empty,
        }
    }
}

fn receive_each(receivers: &mut [Receiver], handed: &[HandedBytes]) -> Result<(), Memory>
    ensures { OnOk result (receivers.new ≡ map (with_handed (map handed_seen handed.now)) receivers.old) }
{
    for part in handed {
        receive_part(receivers, part)?;
    }
    Ok(())
}

fn receive_part(receivers: &mut [Receiver], part: &HandedBytes) -> Result<(), Memory>
    ensures { OnOk result (receivers.new ≡ map (with_handed (handed_seen part.now ∷ [])) receivers.old) }
{
    for receiver in receivers.iter_mut() {
        receiver.receive(part)?;
    }
    Ok(())
}

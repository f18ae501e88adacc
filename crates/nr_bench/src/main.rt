//! What the figures of the pages come from. Without an argument it does each thing once and says how often: commands at nodes behind their locks, a message to
//! a thousand connections, keys with a deadline, a set that grows and is emptied. With one it measures: `nodes` how many commands a second nodes behind their locks execute, each worker on a
//! thread of its own, beside one thread over the server of several nodes in one value; `messages` how long a PUBLISH takes beside as many replies of its size;
//! `expiry` how long a SET takes before a million keys are gone, and after. `memory BYTES KEYS` stores so many keys with values of so many bytes, a million
//! where no number is given, and waits for a line. `copy KEYS` stores so many at two nodes, of which one falls and comes back with a copy, and says how long that
//! takes. `connections COUNT` lets so many connections come and go at a node, and waits for a line. `set MEMBERS` puts so many members into a set and takes them out, a
//! million where no number is given, and says how long one takes of either, and the slowest.
#![tactic(auto)]

mod bench;
mod connections;
mod copies;
mod expiry;
mod keys;
mod messages;
mod nodes;
mod queue;
mod sets;
mod stored;
mod times;

use nr_blob::Memory;
use nr_test_parts::HeldError;
use std::env;
use std::hash::RandomState;
use std::io::{self, ErrorKind};
use std::rt::Runtime;
use std::sync::Wait;
use std::thread::Threads;

/// How many keys are stored where no argument says it and their size is read.
const MANY_KEYS: u32 = 1_000_000;

/// How many members a set gets where no argument says it.
const MANY_MEMBERS: u32 = 1_000_000;

/// How many connections come and go where no argument says it.
const MANY_CONNECTIONS: u32 = 100_000;

/// The millisecond from which keys with a deadline are gone.
pub(crate) const DEADLINE: u64 = 1000;

/// How many bytes a value has where no argument says it.
pub(crate) const TEXT_BYTES: usize = 3;

pub(crate) fn no_memory(_memory: Memory) -> io::Error {
    io::Error::other("out of memory")
}

pub(crate) fn as_io(error: HeldError) -> io::Error {
    match error {
        HeldError::Memory(memory) => no_memory(memory),
        HeldError::Invalid => io::Error::from(ErrorKind::Other),
    }
}

// Each thing once.
fn say_counts(
    rt: &HostRuntime,
    threads: &(impl Runtime + Threads + Wait + Sync),
) -> io::Result<()> {
    let alloc = rt.alloc();
    nodes::say_counts(threads, alloc, RandomState::new(rt)?)?;
    messages::say_count(rt, alloc, RandomState::new(rt)?)?;
    stored::say_counts(rt, alloc, RandomState::new(rt)?)?;
    sets::say_counts(rt, alloc, RandomState::new(rt)?)?;
    copies::say_count(rt, alloc, RandomState::new(rt)?)
}

// The runtime lends its threads to `main` alone, which hands them on.
fn perform(rt: &HostRuntime, threads: &(impl Runtime + Threads + Wait + Sync)) -> io::Result<()> {
    let alloc = rt.alloc();
    let mut words = env::args(rt)?.skip(1);
    let task = words.next();
    let first = words.next().and_then(|word| word.as_str().parse().ok());
    let keys = words.next().and_then(|word| word.as_str().parse().ok());
    let hasher = RandomState::new(rt)?;
    match task {
        Some(word) if word.as_str() == "nodes" => nodes::say_times(threads, alloc, hasher),
        Some(word) if word.as_str() == "messages" => messages::say_times(rt, alloc, hasher),
        Some(word) if word.as_str() == "expiry" => expiry::say_times(rt, alloc, hasher),
        Some(word) if word.as_str() == "connections" => {
            connections::hold(rt, threads, hasher, first.unwrap_or(MANY_CONNECTIONS))
        }
        Some(word) if word.as_str() == "copy" => copies::hold(
            rt,
            hasher,
            first.unwrap_or(MANY_KEYS),
        ),
        Some(word) if word.as_str() == "set" => {
            sets::say_times(rt, alloc, hasher, first.unwrap_or(MANY_MEMBERS))
        }
        Some(word) if word.as_str() == "memory" => stored::hold(
            rt,
            hasher,
            first.map_or(TEXT_BYTES, |bytes| bytes as usize),
            keys.unwrap_or(MANY_KEYS),
        ),
        _ => say_counts(rt, threads),
    }
}

fn main(rt: HostRuntime) -> io::Result<()> {
    perform(&rt, &rt)
}

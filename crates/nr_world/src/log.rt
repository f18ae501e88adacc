// The circle of the operation log: the entries that some node has still to pass.
ghost use Rattle.std.specs.Prelude.{◌≡◌, ◌<◌, ◌≤◌, ◌+◌, ◌-◌, ◌^◌, ◌++◌, ◌∷◌, [], OnOk, OnErr, length, drop, slice_index_or};
ghost use Rattle.nr_model.specs.Nodes as nodes;
ghost use Rattle.nr_world.specs.Served.{entry_seen};
ghost use Rattle.nr_world.specs.Logs.{log_seen};

use nr_blob::Memory;
use nr_entry::Entry;
use std::alloc::Global;
use std::collections::VecDeque;
use std::sync::Arc;

/// The entries of the log that some node hasn't passed, and the number of the first of them.
#[derive(Drop)]
pub(crate) struct Log {
    pub entries: VecDeque<Arc<Entry>>,
    pub base: u64,
}

impl Log {
    /// No entry. It takes no memory.
    pub(crate) fn new(alloc: Global) -> Log
        ensures entries { log_seen result ≡ [] }
        ensures base { result.base ≡ 0 }
    {
        Log {
            entries: VecDeque::new(alloc),
            base: 0,
        }
    }

    /// How many entries were reserved.
    pub(crate) fn tail(&self) -> u64
        requires { self.now.base + length (log_seen self.now) < 2 ^ 64 }
        ensures { result ≡ self.now.base + length (log_seen self.now) }
    {
        self.base + self.entries.len() as u64
    }

    /// The entry of a number.
    pub(crate) fn entry(&self, number: u64) -> &Entry
        requires base { self.now.base ≤ number }
        requires tail { number - self.now.base < length (log_seen self.now) }
        ensures { (d : nodes.Logged) → entry_seen result.now ≡ slice_index_or (log_seen self.now) (number - self.now.base) d }
    {
        &self.entries[(number - self.base) as usize]
    }

    /// One entry more. Where memory runs out nothing changes.
    pub(crate) fn push(&mut self, alloc: Global, entry: Entry) -> Result<(), Memory>
        requires { self.old.base + length (log_seen self.old) + 1 < 2 ^ 64 }
        ensures entries { OnOk result (log_seen self.new ≡ log_seen self.old ++ entry_seen entry ∷ []) }
        ensures base { self.new.base ≡ self.old.base }
        ensures fits { OnOk result (self.new.base + length (log_seen self.new) < 2 ^ 64) }
        ensures unchanged { OnErr result (log_seen self.new ≡ log_seen self.old) }
    {
        self.entries.push_back(Arc::new(alloc, entry)?)?;
        Ok(())
    }

    /// Lets go of the entries before a number, which every node has passed. Linear in them.
    pub(crate) fn pass(&mut self, number: u64)
        requires { self.old.base ≤ number }
        ensures entries { log_seen self.new ≡ drop (number - self.old.base) (log_seen self.old) }
        ensures base { self.new.base ≡ number }
    {
        for _ in self.base..number {
            self.entries.pop_front();
        }
        self.base = number;
    }
}

// The connections for which bytes wait, by their workers.
ghost use Rattle.std.specs.Prelude.{◌≡◌, ◌<◌, ◌≤◌, ℕ, true, false, [], length, IfOk, IfSome, IfNone, OnOk, OnErr};
ghost use Rattle.nr_model.specs.Connections.{is_some_bytes};
ghost use Rattle.nr_model.specs.Queues.{cut_off};
ghost use Rattle.nr_replica.specs.Ready.{has_serial, IsMarked, IsAsBefore};

use crate::backlog::Backlogs;
use crate::outbox::Outbox;
use nr_blob::Memory;
use std::alloc::Global;
use std::collections::BTreeSet;

/// For each worker the serials of its connections for which bytes wait, and how far these hold their node up.
#[derive(Drop)]
pub(crate) struct ReadySerials {
    alloc: Global,
    // They are made as far as bytes ever came to a worker. One past them has none.
    pub(crate) sets: Vec<BTreeSet<u64>>,
    pub(crate) backlogs: Backlogs,
}

impl ReadySerials {
    /// Bytes wait for none of the connections of so many workers.
    pub(crate) fn new(alloc: Global, workers: usize) -> Result<ReadySerials, Memory>
        ensures { IfOk result (λ ready. ready.sets.items ≡ []) }
    {
        Ok(ReadySerials {
            alloc,
            sets: Vec::new(alloc),
            backlogs: Backlogs::new(alloc, workers)?,
        })
    }

    // Puts a connection in. Where memory runs out all are as before.
    fn insert(&mut self, worker: usize, serial: u64) -> Result<(), Memory>
        ensures marked { OnOk result (IsMarked worker serial true self.old.sets.items self.new.sets.items) }
        ensures kept { OnErr result (IsAsBefore self.old.sets.items self.new.sets.items) }
    {
        reach(self.alloc, &mut self.sets, worker)?;
        self.sets[worker].insert(serial)?;
        Ok(())
    }

    /// Takes a connection out, if it is there. Logarithmic.
    pub(crate) fn remove(&mut self, worker: usize, serial: u64)
        ensures { IsMarked worker serial false self.old.sets.items self.new.sets.items }
    {
        if worker < self.sets.len() {
            self.sets[worker].remove(&serial);
        }
    }

    /// Bytes are about to come to a connection: it is put in, where none wait for it yet. Logarithmic. Where memory for that is refused its
    /// queue is cut, and the answer is false.
    pub(crate) fn announce(&mut self, worker: usize, serial: u64, outbox: &mut Outbox) -> bool
        requires { has_serial self.old.sets.items worker serial ≡ is_some_bytes outbox.old.waiting }
        ensures there { result ≡ true → IsMarked worker serial true self.old.sets.items self.new.sets.items }
        ensures open { result ≡ true → outbox.new ≡ outbox.old }
        ensures cut { result ≡ false → outbox.new ≡ cut_off outbox.old }
        ensures kept { result ≡ false → IsAsBefore self.old.sets.items self.new.sets.items }
    {
        if !outbox.is_empty() {
            return true;
        }
        match self.insert(worker, serial) {
            Ok(()) => true,
            Err(memory) => {
                outbox.refuse(memory);
                false
            }
        }
    }

    /// Takes a connection out where no bytes wait for it any more. Logarithmic.
    pub(crate) fn withdraw(&mut self, worker: usize, serial: u64, outbox: &Outbox)
        ensures { (is_some_bytes outbox.now.waiting ≡ true → has_serial self.old.sets.items worker serial ≡ true)
            → IsMarked worker serial (is_some_bytes outbox.now.waiting) self.old.sets.items self.new.sets.items }
    {
        if outbox.is_empty() {
            self.remove(worker, serial);
        }
    }

    /// The first connection of a worker, by serial from `from` on. Logarithmic.
    pub(crate) fn next(&self, worker: usize, from: usize) -> Option<usize>
        ensures has { IfSome result (λ serial. has_serial self.now.sets.items worker serial ≡ true) }
        ensures behind { IfSome result (λ serial. from ≤ serial) }
        ensures least { (other : ℕ) → from ≤ other → has_serial self.now.sets.items worker other ≡ true → IfSome result (λ serial. serial ≤ other) }
        ensures none { (other : ℕ) → from ≤ other → IfNone result (has_serial self.now.sets.items worker other ≡ false) }
    {
        if worker >= self.sets.len() {
            return None;
        }
        match self.sets[worker].range(from as u64..).next() {
            Some(serial) => Some(*serial as usize),
            None => None,
        }
    }
}

// Makes a set for a worker, and for each before it, where there is none yet.
fn reach(alloc: Global, sets: &mut Vec<BTreeSet<u64>>, worker: usize) -> Result<(), Memory>
    ensures there { OnOk result (worker < length sets.new.items) }
    ensures kept { IsAsBefore sets.old.items sets.new.items }
{
    while sets.len() <= worker {
        sets.push(BTreeSet::new(alloc))?;
    }
    Ok(())
}

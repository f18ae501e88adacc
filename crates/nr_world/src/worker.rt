// A worker of a node: the jobs of its connections, and its slot.
ghost use Rattle.std.specs.Prelude.{◌≡◌, ℕ, Option, None, IfOk, OnOk, [], take, drop, unwrap_or};
ghost use Rattle.std.specs.List.{list_any};
ghost use Rattle.nr_model.specs.Nodes as nodes;
ghost use Rattle.nr_model.specs.Nodes.Steps as steps;
ghost use Rattle.nr_model.specs.Nodes.Steps.{has_batch, is_free, is_posted, is_lifted, posted_worker, posted_jobs, cleared};
ghost use Rattle.nr_model.specs.Asked.{own_jobs, first_number};
ghost use Rattle.nr_entry.specs.Jobs.{connection_of, items_of};
ghost use Rattle.nr_world.specs.Workers.{slot_seen, worker_seen};
ghost use Rattle.nr_world.specs.Batches.{post_outcome, lift_outcome, answer_outcome, executed_in};
ghost use Rattle.nr_world.specs.Taken.{idle_or};
ghost use Rattle.nr_world.specs.declared.worker.Slot.TheVariants as slots;

use crate::dropped_jobs::first_own;
use nr_blob::Memory;
use nr_entry::{ConnId, Job, MOST_JOBS, take_front};
use nr_model::reason::Reason;
use std::alloc::Global;
use std::mem;

/// A worker's slot. What is owed of a batch that was lifted stands with its node's replica.
#[derive(Drop)]
pub(crate) enum Slot {
    Empty,
    Posted(Vec<Job>),
    Lifted,
    /// Whether all jobs of the batch were executed.
    Answered(bool),
}

/// A worker: the jobs of its connections that it hasn't posted, how many batches it has posted, and its slot.
#[derive(Drop)]
pub(crate) struct WorldWorker {
    pub pending: Vec<Job>,
    pub batches: u64,
    pub slot: Slot,
}

impl Slot {
    pub(crate) fn is_free(&self) -> bool
        ensures { (owed : Option ℕ) → result ≡ is_free (slot_seen self.now owed) }
    {
        matches!(self, Slot::Empty)
    }

    pub(crate) fn is_posted(&self) -> bool
        ensures { (owed : Option ℕ) → result ≡ is_posted (slot_seen self.now owed) }
    {
        matches!(self, Slot::Posted(_))
    }

    pub(crate) fn is_lifted(&self) -> bool
        ensures { (owed : Option ℕ) → result ≡ is_lifted (slot_seen self.now owed) }
    {
        matches!(self, Slot::Lifted)
    }
}

impl WorldWorker {
    pub(crate) fn new(alloc: Global) -> WorldWorker
        ensures { (owed : Option ℕ) → worker_seen result owed ≡ nodes.fresh_worker }
    {
        WorldWorker {
            pending: Vec::new(alloc),
            batches: 0,
            slot: Slot::Empty,
        }
    }

    /// Whether a batch of it was posted, or lifted, and isn't answered.
    pub(crate) fn has_batch(&self) -> bool
        ensures { result ≡ has_batch (worker_seen self.now None) }
    {
        self.slot.is_posted() || self.slot.is_lifted()
    }

    /// The number of the first of a connection's jobs that it has posted, where there is one and its node hasn't lifted them. Linear in
    /// those.
    pub(crate) fn first_posted(&self, conn: ConnId) -> Option<u64>
        ensures { (owed : Option ℕ) → result ≡ first_number (own_jobs (connection_of conn) (posted_jobs (slot_seen self.now.slot owed))) }
    {
        match &self.slot {
            Slot::Posted(jobs) => first_own(conn, jobs),
            _ => None,
        }
    }

    /// Why it can't post a batch, where its node is up.
    pub(crate) fn why_not_post(&self) -> Option<Reason>
        ensures { (owed : Option ℕ) → idle_or result steps.Done ≡ post_outcome (worker_seen self.now owed) }
    {
        if !self.slot.is_free() {
            return Some(Reason::Busy);
        }
        if self.pending.is_empty() {
            return Some(Reason::Nothing);
        }
        None
    }

    /// Why its node, which is up, can't lift a batch of it.
    pub(crate) fn why_not_lift(&self) -> Option<Reason>
        ensures { (owed : Option ℕ) → idle_or result steps.Done ≡ lift_outcome (worker_seen self.now owed) }
    {
        if !self.slot.is_posted() {
            return Some(Reason::Nothing);
        }
        None
    }

    /// Why its node can't answer its batch, of which so many jobs are neither applied nor run where it was lifted.
    pub(crate) fn why_not_answer(&self, is_down: bool, owed: usize) -> Option<Reason>
        ensures { (o : Option ℕ) → owed ≡ unwrap_or o 0 → idle_or result steps.Done ≡ answer_outcome is_down (worker_seen self.now o) }
    {
        if !self.slot.is_lifted() && !(is_down && self.slot.is_posted()) {
            return Some(Reason::Nothing);
        }
        if !is_down && owed != 0 {
            return Some(Reason::NotYet);
        }
        None
    }

    /// Posts its first jobs as a batch. Linear in the jobs that it keeps, where there are any. A worker posts at most 2^64 - 1 batches.
    pub(crate) fn post(&mut self, alloc: Global) -> Result<(), Memory>
        ensures { (owed : Option ℕ) → OnOk result (worker_seen self.new owed ≡ posted_worker (worker_seen self.old owed)) }
    {
        if let Some(memory) = Memory::at_last(self.batches) {
            return Err(memory);
        }
        let batch = take_front(alloc, &mut self.pending, MOST_JOBS)?;
        self.batches += 1;
        self.slot = Slot::Posted(batch);
        Ok(())
    }

    /// Takes the batch out of the slot, which its node lifts.
    pub(crate) fn lift(&mut self, alloc: Global) -> Vec<Job>
        ensures jobs { (owed : Option ℕ) → items_of result.items ≡ posted_jobs (slot_seen self.old.slot owed) }
        ensures slot { self.new.slot ≡ slots.Lifted }
        ensures pending { self.new.pending ≡ self.old.pending }
        ensures batches { self.new.batches ≡ self.old.batches }
    {
        match mem::replace(&mut self.slot, Slot::Lifted) {
            Slot::Posted(jobs) => jobs,
            Slot::Empty | Slot::Lifted | Slot::Answered(_) => Vec::new(alloc),
        }
    }

    /// Answers its batch.
    pub(crate) fn answer(&mut self, executed: bool)
        ensures { (owed other : Option ℕ) → worker_seen self.new other ≡ record (worker_seen self.old owed) { slot = nodes.Answered executed } }
    {
        self.slot = Slot::Answered(executed);
    }

    /// Takes the answer out of the slot, where there is one.
    pub(crate) fn collect(&mut self) -> Option<bool>
        ensures worker { (owed : Option ℕ) → worker_seen self.new owed ≡ record (worker_seen self.old owed) { slot = cleared (worker_seen self.old owed).slot } }
        ensures answer { (owed : Option ℕ) → result ≡ executed_in (slot_seen self.old.slot owed) }
    {
        if let Slot::Answered(executed) = self.slot {
            self.slot = Slot::Empty;
            return Some(executed);
        }
        None
    }
}

/// Whether a batch of one of these was posted, or lifted, and isn't answered.
pub(crate) fn any_batch(workers: &[WorldWorker]) -> bool
    ensures { result ≡ list_any (λ worker. has_batch (worker_seen worker None)) workers.now }
{
    workers.iter().any(|worker| worker.has_batch())
}

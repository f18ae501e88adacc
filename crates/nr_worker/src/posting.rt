// Jobs are handed in.
ghost use Rattle.std.specs.Prelude.{◌≡◌, ◌≢◌, ◌==◌, ◌+◌, ◌++◌, ◌^◌, ◌<◌, ◌≤◌, ◌||◌, not, take, drop, length, [], true, false, IsOk, IfOk, OnOk, OnErr};
ghost use Rattle.std.specs.Bool.{OnTrue, OnFalse};
ghost use Rattle.nr_slots.specs.Names.{IsTold};
ghost use Rattle.nr_slots.specs.Seats.{one_if};
ghost use Rattle.nr_combiner.specs.Workers.{HasPosted};
ghost use Rattle.nr_worker.specs.Working.{due, unchanged, Goes, HandsIn};

use crate::due::DueJobs;
use crate::worker::Worker;
use nr_blob::Memory;
use nr_combiner::{NodeHandle, ServerName};
use nr_entry::{Job, MOST_JOBS};
use std::alloc::Global;
use std::mem;
use std::sync::Wait;

// Takes those that were handed back, else the first of the others. Where memory runs out nothing changes.
fn take_due(
    alloc: Global,
    returned: &mut Vec<Job>,
    jobs: &mut DueJobs,
    most: usize,
) -> Result<Vec<Job>, Memory>
    requires few { length returned.old.items ≤ most }
    ensures front { IfOk result (λ front. front.items ≡ take (due most (length returned.old.items)) (returned.old.items ++ jobs.old.jobs)) }
    ensures behind { OnOk result (jobs.new.jobs ≡ drop (due most (length returned.old.items)) (returned.old.items ++ jobs.old.jobs)) }
    ensures few { IfOk result (λ front. length front.items ≤ most) }
    ensures none { OnOk result (returned.new.items ≡ []) }
    ensures same { OnErr result ((returned.new.items ≡ returned.old.items) × (jobs.new ≡ jobs.old)) }
    ensures room { jobs.new.room ≡ jobs.old.room }
    ensures all { jobs.old.late ≡ 0 → length (returned.old.items ++ jobs.old.jobs) ≤ most → IsOk result }
{
    if returned.is_empty() {
        return jobs.take_front(alloc, most);
    }
    Ok(mem::replace(returned, Vec::new(alloc)))
}

// Hands jobs in as the next batch.
fn hand_in<B: ServerName>(worker: &mut NodeHandle<B>, jobs: Vec<Job>)
    requires few { length jobs.items ≤ MOST_JOBS }
    requires answered { length worker.old.seat.lane.posted ≡ length worker.old.seat.lane.collected }
    requires counted { worker.old.next + 1 < 2 ^ 64 }
    ensures { HasPosted jobs.items worker.old worker.new }
{
    let _posted = worker.post(jobs);
}

impl<'a, R: Wait, B: ServerName> Worker<'a, R, B> {
    // Whether no jobs wait.
    fn has_none(&self) -> bool
        ensures { result ≡ (length self.now.jobs == 0) }
    {
        self.returned.is_empty() && self.due.is_empty()
    }

    /// Whether jobs wait, or the answer to a batch does.
    pub fn is_at_work(&self) -> bool
        ensures told { result ≡ (self.now.waiting || not (length self.now.jobs == 0)) }
        ensures counted { length self.now.worker.seat.lane.posted ≡ length self.now.worker.seat.lane.collected + one_if self.now.waiting }
        ensures heard { IsTold self.now.worker.seat.noted self.now.worker.seat.lane }
        ensures lifted { length self.now.worker.seat.noted.answered ≤ length self.now.worker.seat.noted.lifted }
    {
        self.worker.told();
        self.is_waiting || !self.has_none()
    }

    /// How many batches were handed in. Constant.
    pub fn batches(&self) -> u64
        ensures { result ≡ length self.now.worker.seat.lane.posted }
    {
        self.batches
    }

    /// Hands the first jobs that wait in as the next batch, those of a batch that was handed back, else at most [`MOST_JOBS`]: one load and one store. Whether it did:
    /// exactly where some wait, no answer is awaited, and a u64 counts one batch more; else nothing changes. Linear in the jobs that are left and in the late ones, and
    /// nothing is copied where there are none.
    ///
    /// # Errors
    ///
    /// `Memory` where memory runs out: then nothing changes. It doesn't where at most [`MOST_JOBS`] wait, none of them late.
    #[tactic(auto, using(crate::proofs::Batched::stays))]
    pub fn post(&mut self) -> Result<bool, Memory>
        ensures posted { IfOk result (λ posted. OnTrue posted (HandsIn MOST_JOBS self.old self.new)) }
        ensures none { IfOk result (λ posted. OnFalse posted (self.new ≡ self.old)) }
        ensures told { self.old.waiting ≡ false → self.old.jobs ≢ [] → self.old.worker.next + 1 < 2 ^ 64 → IfOk result (λ posted. posted ≡ true) }
        ensures same { OnErr result (self.new ≡ self.old) }
        ensures few { self.old.late ≡ 0 → length self.old.jobs ≤ MOST_JOBS → IsOk result }
        ensures goes { Goes unchanged self.old self.new }
    {
        if self.is_waiting || self.has_none() || self.batches == u64::MAX {
            return Ok(false);
        }
        let jobs = take_due(self.alloc, &mut self.returned, &mut self.due, MOST_JOBS)?;
        hand_in(&mut self.worker, jobs);
        self.batches += 1;
        self.is_waiting = true;
        Ok(true)
    }
}

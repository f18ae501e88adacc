// Reads that are run beside the lock of the worker's node.
ghost use Rattle.std.specs.Prelude.{◌≡◌, ◌<◌, ◌≤◌, ◌+◌, [], true, false, take, length, IfSome, IfNone};
ghost use Rattle.nr_entry.specs.Jobs.{items_of};
ghost use Rattle.nr_node.specs.Lending.{AreReadyFor};
ghost use Rattle.nr_worker.specs.Reading.{KeepsJobs, ReadsAside, Reorders};
ghost use Rattle.nr_worker.specs.Working.{unchanged, Goes};

use crate::due::DueJobs;
use crate::worker::Worker;
use crate::working::take_in;
use nr_combiner::{NodeHandle, ServerName, Turned};
use nr_entry::{Job, MOST_JOBS};
use nr_node::Prepared;
use nr_replica::Spares;
use std::alloc::Global;
use std::sync::Wait;

/// The fewest reads that are run at once.
const FEWEST: usize = 128;

/// How many more are run at once where the server was lent.
const MORE: usize = 32;

// How many reads are run at once where so many were, and the server was lent for them or wasn't.
fn paced(most: usize, is_lent: bool) -> usize
    ensures range { (128 ≤ result) × (result ≤ MOST_JOBS) }
    ensures more { is_lent ≡ true → 128 ≤ most → most + 32 ≤ MOST_JOBS → result ≡ most + 32 }
    ensures fewer { is_lent ≡ false → 256 ≤ most → result + result ≤ most }
{
    let paced = if is_lent {
        most.saturating_add(MORE)
    } else {
        most / 2
    };
    paced.max(FEWEST).min(MOST_JOBS)
}

// Whether there are no jobs.
fn are_none(jobs: &Vec<Job>) -> bool
    ensures { result ≡ true → jobs.now.items ≡ [] }
{
    jobs.is_empty()
}

// Runs the first so many jobs, where all are reads, against its node's server, which is lent for that.
fn prepare<R: Wait, B: ServerName>(
    alloc: Global,
    rt: &R,
    worker: &NodeHandle<B>,
    due: &DueJobs,
    count: usize,
    limit: usize,
    spares: &mut Spares,
) -> Option<Prepared<B>>
    ensures ready { IfSome result (λ prepared. AreReadyFor (items_of (take count due.now.jobs)) prepared) }
    ensures there { IfSome result (λ _. count ≤ length due.now.jobs) }
{
    let front = due.front(count)?;
    let loan = worker.lend(rt)?;
    loan.answer(alloc, limit, spares, front)
}

impl<'a, R: Wait, B: ServerName> Worker<'a, R, B> {
    /// How many reads stand in front of all updates that wait, at most as many as are run at once now ([`Worker::pace_reads`]); none where an answer is awaited, where jobs were handed
    /// back, or where no other worker is at its node. A hint: [`Worker::read_aside`] runs these where they are reads. Linear in them.
    pub fn reads_due(&self) -> usize
        ensures few { result ≤ MOST_JOBS }
    {
        if self.is_waiting || !self.returned.is_empty() || self.worker.shared().workers() < 2 {
            return 0;
        }
        self.due.reads_in_front(self.most_reads.min(MOST_JOBS))
    }

    /// Puts the jobs of connections of which no update waits in front of the others, at most a batch, where there are at least so many of them, so that a writer's pipeline in front
    /// doesn't hide the reads behind it. Those of each connection stay in their order. How many stand in front then, at most as many as are run at once now; none where
    /// [`Worker::reads_due`] says none, where there are fewer, where updates of more than 32 connections wait, or where memory runs out. A hint. Linear in the jobs, for each of them in
    /// the connections of which updates wait.
    pub fn put_reads_first(&mut self, least: usize) -> usize
        ensures few { result ≤ MOST_JOBS }
        ensures reorders { Reorders self.old self.new }
        ensures goes { Goes unchanged self.old self.new }
    {
        if self.is_waiting || !self.returned.is_empty() || self.worker.shared().workers() < 2 {
            return 0;
        }
        let count = self.due.put_reads_first(self.alloc, least, MOST_JOBS);
        count.min(self.most_reads)
    }

    /// Says that its node lent its server for reads, or didn't. An update waits for reads that are under way, so where it didn't at most half as many are run at once from then on, and
    /// not fewer than 128; and where it did 32 more, up to a batch. Constant.
    pub fn pace_reads(&mut self, is_lent: bool)
        ensures { self.new ≡ self.old }
    {
        self.most_reads = paced(self.most_reads, is_lent);
    }

    /// Has the first so many jobs run beside the lock of its node, where all are reads, and hands them in with their replies: as [`Worker::post`] and then [`Worker::turn`] with the own
    /// slot do, under one hold of the lock. The lock is taken twice, for a short time each, and is free while the reads are run. `None` where an answer is awaited or jobs were handed
    /// back, where the node lends nothing now, where one of them is no read, or where memory runs out: then the same jobs wait.
    pub fn read_aside(&mut self, count: usize, most: usize) -> Option<Turned>
        requires all { 0 < most }
        requires some { 0 < count }
        requires few { count ≤ MOST_JOBS }
        ensures read { IfSome result (λ turned. ReadsAside B.places count most turned self.old self.new) }
        ensures none { IfNone result (KeepsJobs self.old self.new) }
        ensures goes { IfNone result (Goes unchanged self.old self.new) }
    {
        if self.is_waiting || !are_none(&self.returned) || self.batches == u64::MAX {
            return None;
        }
        let spares = &mut self.spares;
        let prepared = prepare(
            self.alloc,
            self.rt,
            &self.worker,
            &self.due,
            count,
            self.limit,
            spares,
        )?;
        let Ok(jobs) = self.due.take_front(self.alloc, count) else {
            return None;
        };
        let pieces = &mut self.pieces;
        let spares = &mut self.spares;
        match self
            .worker
            .read(self.rt, jobs, prepared, most, spares, pieces)
        {
            Err(back) => {
                self.returned = back;
                None
            }
            Ok((turned, token)) => {
                self.batches += 1;
                self.is_waiting = true;
                take_in(
                    self.worker.shared().log(),
                    token,
                    &mut self.mark,
                    &mut self.pieces,
                    &mut self.seats,
                    self.limit,
                );
                Some(turned)
            }
        }
    }
}

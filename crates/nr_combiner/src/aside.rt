// Reads that a worker runs beside its node's lock: it borrows the node's server, and hands the jobs in with the replies prepared.
ghost use Rattle.std.specs.Prelude.{◌≡◌, ◌<◌, ◌≤◌, length, Some, IfOk, IfErr, IfSome, IfNone, OnOk, OnErr};
ghost use Rattle.nr_entry.specs.Jobs.{items_of};
ghost use Rattle.nr_slots.specs.Seats.{with_heard, with_posted};
ghost use Rattle.nr_node.specs.Lending.{AreReadyFor};
ghost use Rattle.nr_node.specs.Sound.{IsSound};
ghost use Rattle.nr_combiner.specs.Aside.{IsPreparedLast, LendsBehind, ReadsBehind};
ghost use Rattle.nr_combiner.specs.Behind.{TurnsBehind};
ghost use Rattle.nr_combiner.specs.Counts.{generation_of};
ghost use Rattle.nr_combiner.specs.Workers.{CountFrom};

use crate::answering::{Lifts, Turned};
use crate::combiner::Combiner;
use crate::name::ServerName;
use crate::node::Node;
use crate::node_handle::NodeHandle;
use crate::turn_results::Told;
use nr_entry::{Batch, Job, MOST_JOBS};
use nr_node::{LastPiece, Loan, Prepared};
use nr_oplog::{LogName, Token};
use nr_replica::Spares;
use nr_slots::WorkerSeat;
use std::sync::Wait;

impl<B: ServerName> Node<B> {
    /// Lends the node's server, where it is up, no job waits, no entry is due, and all entries are passed that there are by a load of the tail: whoever has the loan reads from it
    /// beside the lock, which is taken once for this, for a short time. `None` too where another node stands behind the lock, which there never is.
    pub fn lend<R: Wait>(&self, rt: &R) -> Option<Loan<B>>
        ensures { IfSome result (LendsBehind self.now.node) }
    {
        let mut combiner = self.hold(rt);
        if combiner.node() != self.node {
            return None;
        }
        combiner.level();
        let loan = combiner.lend()?;
        combiner.level();
        Some(loan)
    }

    /// A worker hands a batch in by its seat, the replies to which are prepared, and takes a turn with its own slot, under one hold of the lock.
    ///
    /// # Errors
    ///
    /// The batch comes back, and nothing is done, where the answer to the last one wasn't collected; and where another node stands behind the lock, or the worker has another
    /// generation there, which there never is.
    pub(crate) fn read<R: Wait>(
        &self,
        rt: &R,
        seat: &mut WorkerSeat,
        generation: u64,
        batch: Batch,
        prepared: Prepared<B>,
        most: usize,
        spares: &mut Spares,
        taken: &mut Vec<LastPiece>,
    ) -> Result<Told<B>, Batch>
        requires some { 0 < most }
        requires slots { seat.old.slots ≡ self.now.slots.id }
        requires worker { batch.worker ≡ seat.old.worker }
        requires counted { CountFrom 0 seat.old.lane.posted }
        requires number { batch.number ≡ length seat.old.lane.posted }
        requires ready { AreReadyFor (items_of batch.jobs.items) prepared }
        ensures posted { OnOk result (seat.new ≡ with_heard seat.new.noted (with_posted batch seat.old)) }
        ensures turned { IfOk result (λ told. TurnsBehind B.places self.now.node batch.worker generation Lifts.Own most taken.old.items taken.new.items told.turned told.token.standing told.note) }
        ensures sound { IfOk result (λ told. IsSound told.token.standing) }
        ensures named { IfOk result (λ told. told.note.slots ≡ B.slots self.now.node) }
        ensures back { IfErr result (λ back. back ≡ batch) }
        ensures unchanged { OnErr result ((seat.new ≡ seat.old) × (taken.new.items ≡ taken.old.items)) }
    {
        let mut combiner = self.hold(rt);
        let worker = batch.worker;
        let number = batch.number;
        if combiner.node() != self.node || combiner.generation(worker) != generation {
            return Err(batch);
        }
        if let Err(back) = seat.post(&self.slots, batch) {
            return Err(back);
        }
        Ok(self.read_lifted(
            &mut combiner,
            seat,
            worker,
            number,
            prepared,
            most,
            spares,
            taken,
        ))
    }

    // A turn of what stands behind the lock, for a worker whose batch of this number was posted just now.
    fn read_lifted(
        &self,
        combiner: &mut Combiner<B>,
        seat: &mut WorkerSeat,
        worker: usize,
        number: u64,
        prepared: Prepared<B>,
        most: usize,
        spares: &mut Spares,
        taken: &mut Vec<LastPiece>,
    ) -> Told<B>
        requires some { 0 < most }
        requires node { combiner.old.node.book.node ≡ self.now.node }
        requires slots { seat.old.slots ≡ self.now.slots.id }
        requires worker { worker ≡ seat.old.worker }
        requires last { IsPreparedLast number prepared seat.old.lane.posted }
        ensures heard { seat.new ≡ with_heard seat.new.noted seat.old }
        ensures turned { TurnsBehind B.places self.now.node worker (generation_of worker combiner.old.counts) Lifts.Own most taken.old.items taken.new.items result.turned result.token.standing result.note }
        ensures sound { IsSound result.token.standing }
        ensures named { result.note.slots ≡ B.slots self.now.node }
    {
        combiner.level();
        let lifted = combiner.lift_alone(worker);
        let note = combiner.note();
        seat.hear(&self.slots, note);
        let prepared = prepared_for(lifted, number, prepared);
        let told = combiner.turn_lifted(worker, 0, prepared, most, spares, taken);
        combiner.level();
        told
    }
}

impl<B: ServerName> NodeHandle<B> {
    /// Its node's server, lent: [`Node::lend`].
    pub fn lend<R: Wait>(&self, rt: &R) -> Option<Loan<B>>
        ensures { IfSome result (LendsBehind self.now.node) }
    {
        self.shared.lend(rt)
    }

    /// Hands these jobs in as its next batch, which are reads and the replies to which were prepared by a loan, and takes a turn at its node with its own slot, under one hold of the
    /// lock: [`NodeHandle::post`], and then [`NodeHandle::turn`]. The replies are taken where nothing else waits at the node, which has passed as many entries as it had when it lent its
    /// server; else the reads are run.
    ///
    /// # Errors
    ///
    /// The jobs come back, and nothing is done, while the answer to the last batch wasn't collected, and once a u64 doesn't count the batches.
    pub fn read<R: Wait>(
        &mut self,
        rt: &R,
        jobs: Vec<Job>,
        prepared: Prepared<B>,
        most: usize,
        spares: &mut Spares,
        taken: &mut Vec<LastPiece>,
    ) -> Result<(Turned, Token<B>), Vec<Job>>
        requires some { 0 < most }
        requires few { length jobs.items ≤ MOST_JOBS }
        requires ready { AreReadyFor (items_of jobs.items) prepared }
        ensures read { IfOk result (λ told. ReadsBehind B.places jobs.items most taken.old.items taken.new.items told.0 told.1.standing self.old self.new) }
        ensures back { IfErr result (λ back. back.items ≡ jobs.items) }
        ensures unchanged { OnErr result ((self.new ≡ self.old) × (taken.new.items ≡ taken.old.items)) }
    {
        if self.next == u64::MAX {
            return Err(jobs);
        }
        let batch = Batch {
            node: self.shared.node(),
            worker: self.worker,
            number: self.next,
            jobs,
        };
        let told = match self.shared.read(
            rt,
            &mut self.seat,
            self.generation,
            batch,
            prepared,
            most,
            spares,
            taken,
        ) {
            Ok(told) => told,
            Err(back) => return Err(back.jobs),
        };
        let Told {
            turned,
            token,
            note,
        } = told;
        self.seat.hear(self.shared.slots(), note);
        self.next += 1;
        self.generation = self.generation.wrapping_add(1);
        Ok((turned, token))
    }
}

// The replies that were prepared, where the batch that was lifted alone is that of this number.
fn prepared_for<B: LogName>(
    lifted: Option<u64>,
    number: u64,
    prepared: Prepared<B>,
) -> Option<Prepared<B>>
    ensures kept { IfSome result (λ kept. (kept ≡ prepared) × (lifted ≡ Some number)) }
    ensures none { IfNone result (lifted ≡ Some number → ⊥) }
{
    if lifted != Some(number) {
        return None;
    }
    Some(prepared)
}

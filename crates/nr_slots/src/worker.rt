// A worker's seat at the slots.
ghost use Rattle.std.specs.Prelude.{◌≡◌, ◌↔◌, ◌*◌, ◌<◌, ◌≤◌, [], length, slice_index_or, MatchResult, IsOk, IfOk, IfErr, OnErr};
ghost use Rattle.nr_slots.specs.Names.{IsForLast, IsTold};
ghost use Rattle.nr_slots.specs.Seats.{new_worker, with_posted, with_collected, with_heard, IsOfWorkers};
ghost use Rattle.nr_slots.specs.Rule.{worker_view, no_lane, no_desk};
ghost use Rattle.nr_slots.specs.declared.worker.Uncollected.TheVariants as Uncollected;

use crate::note::Note;
use crate::slots::Slots;
use crate::steps::{Unanswered, compare, put_batch, recall, take_answer};
use crate::view::SlotSeat;
use nr_entry::{Answer, Batch};
use std::marker::Model;

/// Why a worker has no answer to its last batch.
#[derive(Debug, Drop, PartialEq, Eq)]
pub enum Uncollected {
    /// It awaits none.
    NoneAwaited,
    /// There is none yet.
    Unanswered(Unanswered),
}

/// A worker's seat at the slots of its node. Contracts see whose it is, the batches that it posted, the answers that it collected, and what it heard last of what the
/// combiner had done at its slot.
#[derive(Drop)]
pub struct WorkerSeat {
    seat: SlotSeat,
    worker: usize,
    // Whether the answer to the batch posted last wasn't collected.
    waiting: bool,
}

impl Model for WorkerSeat {
    ghost use Rattle.std.specs.Prelude.{◌≡◌, ◌*◌, ◌<◌, ◌≤◌, [], length, slice_index_or};
    ghost use Rattle.nr_slots.specs.Names.{IsTold};
    ghost use Rattle.nr_slots.specs.Seats.{WorkerView, IsWaiting};
    ghost use Rattle.nr_slots.specs.Rule.{worker_view, no_desk};

    ghost Value = { WorkerView };

    ghost use Rattle.nr_slots.specs.Codes.{worker_code};

    ghost coded = { worker_code };

    ghost view = { λ s. record { slots = s.seat.table_id; worker = s.worker; lane = s.seat.me.0.lane; noted = slice_index_or s.seat.me.0.noted s.worker no_desk } };

    ghost invariant = { λ s. (s.seat.me ≡ (worker_view s.worker s.seat.me.0.lane s.seat.me.0.noted, [])) × (s.worker < 16) × (2 * s.worker < s.seat.table_id.slots) × IsWaiting s.waiting s.seat.me.0.lane × IsTold (slice_index_or s.seat.me.0.noted s.worker no_desk) s.seat.me.0.lane × (length (slice_index_or s.seat.me.0.noted s.worker no_desk).answered ≤ length (slice_index_or s.seat.me.0.noted s.worker no_desk).lifted) };
}

impl WorkerSeat {
    pub(crate) fn first(seat: SlotSeat, worker: usize) -> WorkerSeat
        requires seat { seat.me ≡ (worker_view worker no_lane [], []) }
        requires worker { (worker < 16) × (2 * worker < seat.table_id.slots) }
        ensures { result ≡ new_worker seat.table_id worker }
    {
        WorkerSeat {
            seat,
            worker,
            waiting: false,
        }
    }

    /// Hands a batch to the combiner: one load and one store. The batch comes back while the answer to the last one wasn't collected.
    pub fn post(&mut self, slots: &Slots, batch: Batch) -> Result<(), Batch>
        requires { self.old.slots ≡ slots.now.id }
        ensures exactly { IsOk result ↔ (length self.old.lane.posted ≡ length self.old.lane.collected) }
        ensures posted { MatchResult result (λ _. self.new ≡ with_posted batch self.old) (λ back. (back ≡ batch) × (self.new ≡ self.old)) }
    {
        if self.waiting {
            return Err(batch);
        }
        put_batch(&slots.table.shared, &mut self.seat, self.worker, batch);
        self.waiting = true;
        Ok(())
    }

    /// Takes the answer to the batch that was posted last, if it is there: one load; two loads and one store where it is, since it looks at the slot once more
    /// behind that, for what it heard last of the combiner.
    ///
    /// # Errors
    ///
    /// `NoneAwaited` exactly where each batch was answered and the answer collected, else `Unanswered`: the slot held none as it was looked at.
    pub fn collect(&mut self, slots: &Slots) -> Result<Answer, Uncollected>
        requires { self.old.slots ≡ slots.now.id }
        ensures collected { IfOk result (λ answer. self.new ≡ with_collected answer self.old) }
        ensures own { IfOk result (λ answer. IsForLast answer self.old.lane.posted self.old.lane.collected) }
        ensures none { IfErr result (λ why. (why ≡ Uncollected.NoneAwaited) ↔ (length self.old.lane.posted ≡ length self.old.lane.collected)) }
        ensures same { OnErr result (self.new ≡ self.old) }
    {
        if !self.waiting {
            return Err(Uncollected::NoneAwaited);
        }
        match take_answer(&slots.table.shared, &mut self.seat, self.worker) {
            Ok(answer) => {
                recall(&slots.table.shared, &mut self.seat, self.worker);
                self.waiting = false;
                Ok(answer)
            }
            Err(why) => Err(Uncollected::Unanswered(why)),
        }
    }

    /// Looks at the slot, told of a note that the combiner made: the batches that it had lifted are a beginning of those that this worker
    /// posted, and of the answers that it had given and those that this worker collected one is a beginning of the other. The seat keeps what it heard. It takes two
    /// loads.
    pub fn hear(&mut self, slots: &Slots, note: Note)
        requires slots { self.old.slots ≡ slots.now.id }
        requires note { note.slots ≡ slots.now.id }
        ensures told { IsTold (slice_index_or note.desks self.old.worker no_desk) self.old.lane }
        ensures heard { self.new ≡ with_heard (slice_index_or note.desks self.old.worker no_desk) self.old }
    {
        compare(
            &slots.table.shared,
            &mut self.seat,
            self.worker,
            note.into_seat(),
        );
    }

    /// A law: what the seat heard last goes on to hold while the worker posts and collects. The batches that the combiner had lifted then are a beginning of those
    /// that the worker has posted until now, and of the answers given then and those collected until now one is a beginning of the other. No more were answered than
    /// lifted.
    pub fn told(&self)
        ensures told { IsTold self.now.noted self.now.lane }
        ensures lifted { length self.now.noted.answered ≤ length self.now.noted.lifted }
    {
        let _seat = &self.seat;
    }
}

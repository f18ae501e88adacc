// The combiner's seat at the slots.
ghost use Rattle.std.specs.Prelude.{◌≡◌, ◌-◌, ◌^◌, ◌<◌, ◌≤◌, min, [], length, MatchOption, IfSome};
ghost use Rattle.nr_slots.specs.Names.{IsForLast, IsUnanswered};
ghost use Rattle.nr_slots.specs.Seats.{new_combiner, with_lifted, with_answered, desk_of, note_of, FoundNone, IsOfWorkers};
ghost use Rattle.nr_slots.specs.Rule.{opening_view};

use crate::note::Note;
use crate::slots::Slots;
use crate::steps::{keep, put_answer, take_batch};
use crate::view::SlotSeat;
use nr_entry::{Answer, Batch};
use std::marker::Model;

/// The seat of a node's combiner at the slots of its workers. Contracts see for each worker the batches that it lifted, and the answers
/// that it gave, and what each of its looks at a slot met.
#[derive(Drop)]
pub struct CombinerSeat {
    seat: SlotSeat,
    // For each worker whether the batch lifted last wasn't answered.
    holds: [bool; 16],
    // For each worker how many of its batches were answered, as far as a u64 counts.
    counts: [u64; 16],
}

impl Model for CombinerSeat {
    ghost use Rattle.std.specs.Prelude.{◌≡◌, ◌≤◌, [], length};
    ghost use Rattle.nr_slots.specs.Seats.{CombinerView, AreCounted, AreHolding, IsOfWorkers};
    ghost use Rattle.nr_slots.specs.Rule.{combiner_view};

    ghost Value = { CombinerView };

    ghost use Rattle.nr_slots.specs.Codes.{combiner_code};

    ghost coded = { combiner_code };

    ghost view = { λ s. record { slots = s.seat.table_id; desks = s.seat.me.0.desks; looks = s.seat.me.0.looks } };

    ghost invariant = { λ s. (s.seat.me ≡ (combiner_view (length s.seat.me.0.desks) s.seat.me.0.desks s.seat.me.0.looks, [])) × (length s.seat.me.0.desks ≤ 16) × IsOfWorkers s.seat.table_id (length s.seat.me.0.desks) × AreHolding s.holds s.seat.me.0.desks × AreCounted s.counts s.seat.me.0.desks };
}

impl CombinerSeat {
    pub(crate) fn first(seat: SlotSeat, workers: usize) -> CombinerSeat
        requires seat { seat.me ≡ (opening_view workers workers, []) }
        requires workers { (workers ≤ 16) × IsOfWorkers seat.table_id workers }
        ensures { result ≡ new_combiner seat.table_id workers }
    {
        CombinerSeat {
            seat,
            holds: [false; 16],
            counts: [0; 16],
        }
    }

    /// Takes a worker's batch out of its slot, if one is offered: two loads, or one where none is, or no step where the batch lifted last
    /// wasn't answered. Where it finds none, its look at the slot met none.
    pub fn lift(&mut self, slots: &Slots, worker: usize) -> Option<Batch>
        requires slots { self.old.slots ≡ slots.now.id }
        requires worker { worker < length self.old.desks }
        ensures lifted { MatchOption result (FoundNone worker self.old self.new) (λ batch. self.new ≡ with_lifted worker batch self.old) }
        ensures unanswered { IfSome result (λ batch. IsUnanswered batch (desk_of self.new worker).lifted (desk_of self.new worker).answered) }
    {
        if self.holds[worker] {
            return None;
        }
        let batch = take_batch(&slots.table.shared, &mut self.seat, worker)?;
        self.holds[worker] = true;
        Some(batch)
    }

    /// Puts the answer to the batch that was lifted last from a worker's slot into that slot: one load and one store.
    pub fn answer(&mut self, slots: &Slots, worker: usize, answer: Answer)
        requires slots { self.old.slots ≡ slots.now.id }
        requires worker { worker < length self.old.desks }
        requires lifted { IsForLast answer (desk_of self.old worker).lifted (desk_of self.old worker).answered }
        ensures { self.new ≡ with_answered worker answer self.old }
    {
        put_answer(&slots.table.shared, &mut self.seat, worker, answer);
        self.holds[worker] = false;
        self.counts[worker] = self.counts[worker].saturating_add(1);
    }

    /// How many batches of a worker were answered, as far as a u64 counts: 0 of a worker that there isn't. It takes no step.
    pub fn answered(&self, worker: usize) -> u64
        ensures { result ≡ min (length (desk_of self.now worker).answered) (2 ^ 64 - 1) }
    {
        self.counts.get(worker).copied().unwrap_or(0)
    }

    /// A note that keeps what this combiner has done until now: one load.
    pub fn note(&mut self, slots: &Slots) -> Note
        requires { self.old.slots ≡ slots.now.id }
        ensures kept { result ≡ note_of self.old }
        ensures same { self.new ≡ self.old }
    {
        Note::new(keep(&slots.table.shared, &mut self.seat))
    }
}

// What a seat at the slots knows, and what lies in a slot.
use atomic_table::{Seat, Shared, Table, TableRule};
use nr_entry::{Answer, Batch};
use std::alloc::Global;
use std::collections::LinkedList;

/// What lies in a slot.
#[derive(Drop)]
pub enum Parcel {
    Posted(Batch),
    Answered(Answer),
}

/// What a worker is doing at its slot.
pub enum Hand {
    /// Nothing: so it is between two calls.
    Still,
    /// It puts a batch in.
    Placing,
    /// It takes this answer out.
    Fetching(Answer),
}

/// What a combiner is doing at a slot.
pub enum Grip {
    /// Nothing: so it is between two calls.
    Loose,
    /// It takes a batch out.
    Lifting,
    /// It puts an answer in.
    Answering,
}

/// What a worker did at its slot, in order. No value of it is made: contracts alone speak of it.
pub struct WorkerPast {
    pub posted: LinkedList<Batch>,
    pub collected: LinkedList<Answer>,
    pub hand: Hand,
}

/// What a combiner did at a worker's slot, in order. No value of it is made: contracts alone speak of it.
pub struct CombinerPast {
    pub lifted: LinkedList<Batch>,
    pub answered: LinkedList<Answer>,
    pub grip: Grip,
}

/// What a combiner's look at a worker's slot met. No value of it is made: contracts alone speak of it.
pub enum Found {
    /// A batch of this worker that wasn't lifted yet.
    Batch(u64),
    /// None: all batches that this worker had posted until then were lifted before.
    Nothing(u64),
}

// What a seat knows: that of the workers from one on and below another, and of the combiner, if it combines.
pub struct SlotView {
    pub from: u64,
    pub upto: u64,
    pub combines: bool,
    pub lane: WorkerPast,
    pub desks: LinkedList<CombinerPast>,
    // What the combiner's looks met, in order.
    pub looks: LinkedList<Found>,
    // For each worker what the combiner had done at some moment, as far as the seat was told.
    pub noted: LinkedList<CombinerPast>,
}

pub(crate) type SlotTable = Table<Option<Parcel>, SlotView, usize, SlotLaw, Global>;

pub(crate) type SlotWords = Shared<Option<Parcel>, SlotView, usize, SlotLaw>;

pub(crate) type SlotSeat = Seat<Option<Parcel>, SlotView>;

// The rule of so many workers' slots.
pub struct SlotLaw;

impl TableRule<Option<Parcel>, SlotView, usize> for SlotLaw {
    ghost use Rattle.nr_slots.specs.Rule.{SlotRule, opening_view};

    ghost holds = { λ workers. SlotRule workers };

    ghost first = { λ workers. opening_view workers 0 };
}

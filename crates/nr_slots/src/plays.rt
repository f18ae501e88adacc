// What each step tells its seat. These types are for the proofs alone.
ghost use Rattle.nr_slots.specs.Plays.{placed, published, looked, cleared, sought, lifted, reached, answered, worker_left, worker_right, noted_now, with_noted, nobody, compared};

use crate::view::{Parcel, SlotView};
use atomic_table::{Join, Play, Split};

pub(crate) struct TakePlace;

impl Play<Option<Parcel>, SlotView> for TakePlace {
    ghost then = { λ _ m _. placed m };
}

pub(crate) struct Publish;

impl Play<Option<Parcel>, SlotView> for Publish {
    ghost then = { λ _ m _. published m };
}

pub(crate) struct Look;

impl Play<Option<Parcel>, SlotView> for Look {
    ghost then = { λ _. looked };
}

pub(crate) struct Clear;

impl Play<Option<Parcel>, SlotView> for Clear {
    ghost then = { λ _ m _. cleared m };
}

pub(crate) struct Seek;

impl Play<Option<Parcel>, SlotView> for Seek {
    ghost then = { sought };
}

pub(crate) struct Lift;

impl Play<Option<Parcel>, SlotView> for Lift {
    ghost then = { λ st m _. lifted st m };
}

pub(crate) struct Reach;

impl Play<Option<Parcel>, SlotView> for Reach {
    ghost then = { λ st m _. reached st m };
}

pub(crate) struct PutAnswer;

impl Play<Option<Parcel>, SlotView> for PutAnswer {
    ghost then = { λ st m _. answered st m };
}

// The next worker's seat is cut from the seat of all workers from there on and of the combiner.
pub(crate) struct NextWorker;

impl Split<SlotView> for NextWorker {
    ghost left = { worker_left };

    ghost right = { worker_right };
}

// A note is cut from the combiner's seat.
pub(crate) struct Keep;

impl Split<SlotView> for Keep {
    ghost left = { λ v. v };

    ghost right = { noted_now };
}

// A worker is told of a note.
pub(crate) struct Tell;

impl Join<SlotView> for Tell {
    ghost both = { with_noted };

    ghost spent = { nobody };
}

pub(crate) struct Compare;

impl Play<Option<Parcel>, SlotView> for Compare {
    ghost then = { λ _ m _. compared m };
}

// A note of what a combiner did.
ghost use Rattle.std.specs.Prelude.{◌≡◌, []};
ghost use Rattle.nr_slots.specs.Rule.{note_view};
ghost use Rattle.nr_slots.specs.Seats.{AreLifted};

use crate::view::SlotSeat;
use std::marker::Model;

/// What a combiner had done at one moment. Contracts see its desks, which stay. It has no bytes.
#[derive(Drop)]
pub struct Note {
    seat: SlotSeat,
}

impl Model for Note {
    ghost use Rattle.std.specs.Prelude.{◌≡◌, []};
    ghost use Rattle.nr_slots.specs.Seats.{AreLifted, NoteView};

    ghost Value = { NoteView };

    ghost use Rattle.nr_slots.specs.Codes.{note_code};

    ghost coded = { note_code };

    ghost view = { λ n. record { slots = n.seat.table_id; desks = n.seat.me.0.noted } };

    ghost invariant = { λ n. (n.seat.me.1 ≡ []) × AreLifted n.seat.me.0.noted };
}

impl Note {
    pub(crate) fn new(seat: SlotSeat) -> Note
        requires free { seat.me.1 ≡ [] }
        requires lifted { AreLifted seat.me.0.noted }
        ensures { result ≡ record { slots = seat.table_id; desks = seat.me.0.noted } }
    {
        Note { seat }
    }

    pub(crate) fn into_seat(self) -> SlotSeat
        ensures seat { (result.table_id ≡ self.slots) × (result.me.0.noted ≡ self.desks) × (result.me.1 ≡ []) }
        ensures lifted { AreLifted self.desks }
    {
        self.seat
    }
}

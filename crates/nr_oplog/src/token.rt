// What a seat knew at one moment.
ghost use Rattle.std.specs.Prelude.{◌≡◌, ◌+◌, length, ◌∷◌, [], ◌++◌, None};
ghost use Rattle.std.specs.Ordering.{nat_cmp};
ghost use Rattle.nr_log_end.specs.Standings.{known_of};
ghost use Rattle.nr_oplog.specs.Plays.{AreOfOneLog, later_of};
ghost use Rattle.nr_oplog.specs.Calls.{LookedOnce};

use crate::log::{LogName, Oplog};
use crate::view::LogSlotSeat;
use std::cmp::Ordering;
use std::marker::{Model, PhantomData};

/// What a seat knew at one moment. Contracts see its standing, which stays. It has the size of a number.
#[derive(Drop)]
pub struct Token<B: LogName> {
    seat: LogSlotSeat,
    // How many entries were known.
    known: u64,
    of: PhantomData<B>,
}

impl<B: LogName> Model for Token<B> {
    ghost use Rattle.std.specs.Prelude.{◌≡◌, [], length};
    ghost use Rattle.nr_log_end.specs.Standings.{known_of};
    ghost use Rattle.nr_oplog.specs.declared.view.LogView.{LogView};
    ghost use Rattle.nr_oplog.specs.contracts.view.LogView as of_view;

    ghost Value = { LogView };

    ghost coded = { of_view.the_row.coded };

    ghost view = { λ t. t.seat.me.0 };

    ghost invariant = { λ t. (t.seat.table_id ≡ B.log) × (t.seat.me.1 ≡ []) × (t.seat.me.0.upto ≡ 0) × (t.known ≡ length (known_of t.seat.me.0.standing)) };
}

impl<B: LogName> Token<B> {
    pub(crate) fn new(seat: LogSlotSeat, known: u64) -> Token<B>
        requires seat { (seat.table_id ≡ B.log) × (seat.me.1 ≡ []) × (seat.me.0.upto ≡ 0) }
        requires known { known ≡ length (known_of seat.me.0.standing) }
        ensures { result ≡ seat.me.0 }
    {
        Token {
            seat,
            known,
            of: PhantomData,
        }
    }

    /// Compares how many entries two tokens of one log know. What the one that knows less knows is a beginning of what the other knows; and of
    /// two tokens of one node the record of one is a beginning of the other's. It takes three loads of the tail.
    pub fn order(&mut self, log: &Oplog<B>, other: &mut Token<B>) -> Ordering
        ensures order { result ≡ nat_cmp (length (known_of self.old.standing)) (length (known_of other.old.standing)) }
        ensures of_one_log { AreOfOneLog self.old.standing other.old.standing }
        ensures standing { self.new.standing ≡ self.old.standing }
        ensures looks { LookedOnce self.old self.new }
        ensures other { other.new ≡ other.old }
    {
        let told = log.keep(&mut other.seat);
        log.compare(&mut self.seat, told);
        self.known.cmp(&other.known)
    }

    /// Takes over what another token of the same node keeps, where that is the later one: of two records of a node one is a beginning of the other, and the
    /// longer one is kept. It takes three loads of the tail.
    pub fn adopt(&mut self, log: &Oplog<B>, other: &mut Token<B>)
        requires node { other.old.standing.node ≡ self.old.standing.node }
        requires idle { (self.old.standing.held ≡ None) × (other.old.standing.held ≡ None) }
        ensures of_one_log { AreOfOneLog self.old.standing other.old.standing }
        ensures later { self.new.standing ≡ record (later_of self.old.standing other.old.standing) { seen = self.new.standing.seen } }
        ensures other { other.new ≡ other.old }
    {
        let told = log.keep(&mut other.seat);
        log.adopt(&mut self.seat, told);
        self.known = self.known.max(other.known);
    }
}

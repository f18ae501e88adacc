// A turn at the node, and what it hands out.
ghost use Rattle.std.specs.Prelude.{◌≡◌, ◌<◌, [], map, length, Some, IfSome, IfNone};
ghost use Rattle.nr_node.specs.Sound.{IsSound};
ghost use Rattle.nr_taps.specs.Marks.{Adopts};
ghost use Rattle.nr_taps.specs.Taps.{HaveMet};
ghost use Rattle.nr_worker.specs.Portions.{portion_of, AcceptsPortions};
ghost use Rattle.nr_worker.specs.Working.{HandsOn, TakesPieces, TakesTurn};

use crate::open_connections::OpenConnections;
use crate::worker::Worker;
use nr_combiner::{Collected, Lifts, ServerName, Turned};
use nr_node::LastPiece;
use nr_oplog::{Oplog, Token};
use nr_taps::Mark;
use std::sync::Wait;

/// Takes in what was handed out: the mark adopts its token, and each piece waits at its connection's seat.
pub(crate) fn take_in<B: ServerName>(
    log: &Oplog<B>,
    token: Token<B>,
    mark: &mut Mark<B>,
    pieces: &mut Vec<LastPiece>,
    seats: &mut OpenConnections,
    limit: usize,
)
    requires sound { IsSound token.standing }
    requires node { IfSome mark.old.standing (λ s. s.node ≡ token.standing.node) }
    ensures adopted { Adopts mark.old.standing token.standing mark.new.standing }
    ensures met { HaveMet mark.old.standing (Some token.standing) }
    ensures accepts { AcceptsPortions limit (map portion_of pieces.old.items) seats.old seats.new }
    ensures count { length seats.new ≡ length seats.old }
    ensures none { pieces.new.items ≡ [] }
{
    mark.adopt(log, token);
    seats.put_each(pieces, limit);
}

impl<'a, R: Wait, B: ServerName> Worker<'a, R, B> {
    /// A turn at its node, which takes the lock once, as [`NodeHandle::turn`](nr_combiner::NodeHandle::turn) says: at most so many bytes are handed out for each of its
    /// connections. They wait at their seats behind what waited, and the mark keeps of which record they are. `None` where another node stands behind the lock,
    /// which there never is: then nothing changes. It costs what the turn does, three loads, and for each piece a look-up by its serial.
    pub fn turn(&mut self, lifts: Lifts, most: usize) -> Option<Turned>
        requires { 0 < most }
        ensures turned { IfSome result (λ _. HandsOn self.old self.new) }
        ensures took { IfSome result (λ turned. TakesTurn B.places lifts most turned self.old self.new) }
        ensures none { IfNone result (self.new ≡ self.old) }
    {
        let pieces = &mut self.pieces;
        let spares = &mut self.spares;
        let Some((turned, token)) = self.worker.turn(self.rt, lifts, most, spares, pieces) else {
            return None;
        };
        take_in(
            self.worker.shared().log(),
            token,
            &mut self.mark,
            &mut self.pieces,
            &mut self.seats,
            self.limit,
        );
        Some(turned)
    }

    /// The same where its node's lock is free: one try. `None` where it is held, too.
    pub fn try_turn(&mut self, lifts: Lifts, most: usize) -> Option<Turned>
        requires { 0 < most }
        ensures turned { IfSome result (λ _. HandsOn self.old self.new) }
        ensures took { IfSome result (λ turned. TakesTurn B.places lifts most turned self.old self.new) }
        ensures none { IfNone result (self.new ≡ self.old) }
    {
        let pieces = &mut self.pieces;
        let spares = &mut self.spares;
        let Some((turned, token)) = self.worker.try_turn(lifts, most, spares, pieces) else {
            return None;
        };
        take_in(
            self.worker.shared().log(),
            token,
            &mut self.mark,
            &mut self.pieces,
            &mut self.seats,
            self.limit,
        );
        Some(turned)
    }

    /// What waits at its node for its connections, without a turn, as [`NodeHandle::collect_pieces`](nr_combiner::NodeHandle::collect_pieces) says: for one whose batch was
    /// answered in another's turn. It takes the lock once, and does with the pieces what a turn does. `None` where another node stands behind the lock, which there
    /// never is: then nothing changes.
    pub fn collect_pieces(&mut self, most: usize) -> Option<Collected>
        requires { 0 < most }
        ensures handed { IfSome result (λ _. HandsOn self.old self.new) }
        ensures took { IfSome result (λ collected. TakesPieces most collected self.old self.new) }
        ensures none { IfNone result (self.new ≡ self.old) }
    {
        let pieces = &mut self.pieces;
        let spares = &mut self.spares;
        let Some((collected, token)) = self.worker.collect_pieces(self.rt, most, spares, pieces)
        else {
            return None;
        };
        take_in(
            self.worker.shared().log(),
            token,
            &mut self.mark,
            &mut self.pieces,
            &mut self.seats,
            self.limit,
        );
        Some(collected)
    }

    /// This worker waits for its node's lock, as [`Node::begin_to_wait`](nr_combiner::Node::begin_to_wait) says.
    pub fn begin_to_wait(&self) {
        self.worker.shared().begin_to_wait();
    }

    /// It waits no more.
    pub fn end_waiting(&self) {
        self.worker.shared().end_waiting();
    }

    /// Lets others have the lock that wait for it, as [`Node::let_others`](nr_combiner::Node::let_others) says.
    pub fn let_others(&self) {
        self.worker.shared().let_others();
    }
}

// A worker at its node.
ghost use Rattle.std.specs.Prelude.{◌≡◌, ◌↔◌, ◌+◌, ◌^◌, ◌<◌, ◌≤◌, length, IsOk, IfOk, IfErr, IfSome, IfNone, OnOk, OnErr};
ghost use Rattle.std.specs.Arc.{arc_value};
ghost use Rattle.nr_slots.specs.Seats.{NoteView, new_worker};
ghost use Rattle.nr_slots.specs.declared.worker.Uncollected.TheVariants as Uncollected;
ghost use Rattle.nr_node.specs.Sound.{IsSound};
ghost use Rattle.nr_entry.specs.Jobs.{connection_of};
ghost use Rattle.nr_node.specs.Level.{connection_at};
ghost use Rattle.nr_combiner.specs.Behind.{CollectsBehind, CutsBehind, CutsFrontBehind, EndsBehind, OpensBehind, TurnsBehind};
ghost use Rattle.nr_combiner.specs.Pieces.{IsPieceOf};
ghost use Rattle.nr_combiner.specs.Heard.{HasHeard, KnowsOpened, KnowsUnended};
ghost use Rattle.nr_combiner.specs.Turned.{tells_down};
ghost use Rattle.nr_slots.specs.Names.{IsTold};
ghost use Rattle.nr_combiner.specs.Workers.{fresh_worker, shared_of, told_of, with_more, HasPosted, HasCollected, MayHaveClosed};

use crate::answering::{AskError, Collected, Lifts, Turned};
use crate::combiner::ClosedQueue;
use crate::name::ServerName;
use crate::node::Node;
use crate::turn_results::{Told, ToldOpened, ToldPieces, ToldUnended};
use nr_blob::Memory;
use nr_entry::{Batch, ConnId, Job, MOST_JOBS, Outcome};
use nr_job_numbers::Unended;
use nr_node::{LastPiece, OpenError};
use nr_oplog::Token;
use nr_replica::{Piece, Spares};
use nr_slots::{Uncollected, WorkerSeat};
use std::alloc::Global;
use std::marker::Model;
use std::sync::{Arc, Wait};

/// A worker at its node: its seat at the slots, with the node that its workers share. It may go to a thread of its own.
#[derive(Drop)]
pub struct NodeHandle<B: ServerName> {
    pub(crate) shared: Arc<Node<B>, Global>,
    pub(crate) worker: usize,
    pub(crate) seat: WorkerSeat,
    // The number of its next batch.
    pub(crate) next: u64,
    // How often something was handed out for its connections, or one of them was closed.
    pub(crate) generation: u64,
}

impl<B: ServerName> Model for NodeHandle<B> {
    ghost use Rattle.std.specs.Prelude.{◌≡◌, ◌<◌, length};
    ghost use Rattle.std.specs.Arc.{arc_value};
    ghost use Rattle.nr_combiner.specs.Workers.{NodeHandleState, coded_worker, CountFrom};

    ghost Value = { NodeHandleState };

    ghost coded = { coded_worker };

    ghost view = { λ w. record { node = (arc_value w.shared).node; workers = (arc_value w.shared).slots.workers; connections = (arc_value w.shared).connections; limit = (arc_value w.shared).limit; seat = w.seat; next = w.next; generation = w.generation } };

    ghost invariant = { λ w. (w.seat.slots ≡ (arc_value w.shared).slots.id) × (w.worker ≡ w.seat.worker) × (w.worker < 16) × (w.worker < (arc_value w.shared).slots.workers) × CountFrom 0 w.seat.lane.posted × (w.next ≡ length w.seat.lane.posted) };
}

impl<B: ServerName> NodeHandle<B> {
    // A worker of a node that has handed in nothing yet, by its seat.
    pub(crate) fn new(
        shared: Arc<Node<B>, Global>,
        worker: usize,
        seat: WorkerSeat,
    ) -> NodeHandle<B>
        requires seat { seat ≡ new_worker (arc_value shared).slots.id worker }
        requires worker { (worker < 16) × (worker < (arc_value shared).slots.workers) }
        ensures { result ≡ fresh_worker (arc_value shared) worker }
    {
        NodeHandle {
            shared,
            worker,
            seat,
            next: 0,
            generation: 0,
        }
    }

    /// Which worker of its node it is, from 0 on.
    pub fn number(&self) -> usize
        ensures { result ≡ self.now.seat.worker }
    {
        self.worker
    }

    /// The node, as all its workers share it.
    pub fn shared(&self) -> &Node<B>
        ensures { result.now ≡ shared_of self.now }
    {
        &self.shared
    }

    /// The same, to be held beside its workers.
    ///
    /// # Errors
    ///
    /// `Memory` where it is shared by as many as can be counted.
    pub fn share_node(&self) -> Result<Arc<Node<B>, Global>, Memory>
        ensures { IfOk result (λ node. arc_value node ≡ shared_of self.now) }
    {
        let node = Arc::try_clone(&self.shared)?;
        Ok(node)
    }

    /// Opens a connection that this worker serves, which knows that its node had so many as it came back last, and hears what its node and its combiner have done:
    /// [`Node::open`], and two loads. The token is of a record in which each job of a connection that was opened for this worker, as this one was, was handed in by it.
    pub fn open<R: Wait>(&mut self, rt: &R, since: u64) -> Result<(ConnId, Token<B>), OpenError>
        ensures behind { IfOk result (λ opened. (note : NoteView) × OpensBehind (shared_of self.old) self.old.seat.worker self.old.generation since opened.0 opened.1.standing note) }
        ensures opened { IfOk result (λ opened. KnowsOpened self.old.seat.worker opened.0 self.new.seat.noted opened.1.standing self.old.seat.lane) }
        ensures sound { IfOk result (λ opened. IsSound opened.1.standing × (opened.1.standing.node ≡ self.old.node)) }
        ensures heard { OnOk result (self.new ≡ told_of self.new.seat.noted self.old) }
        ensures same { OnErr result (self.new ≡ self.old) }
    {
        let ToldOpened { conn, token, note } = self
            .shared
            .open(rt, self.worker as u8, self.generation, since)?;
        self.seat.hear(self.shared.slots(), note);
        Ok((conn, token))
    }

    /// Hears of the first connection after one, by serial, of those that its node had as it came back last, that it serves, and of which a job was taken, but not its end:
    /// [`Node::next_unended`], and two loads. A batch that it handed in has a job of that.
    pub fn next_unended<R: Wait>(
        &mut self,
        rt: &R,
        last: Option<u64>,
    ) -> Option<(Unended, Token<B>)>
        ensures behind { IfSome result (λ told. (note : NoteView) × EndsBehind self.old.node self.old.seat.worker self.old.generation last told.0 told.1.standing note) }
        ensures unended { IfSome result (λ told. KnowsUnended self.old.seat.worker (connection_at self.old.node told.0.serial) self.new.seat.noted told.1.standing self.old.seat.lane) }
        ensures sound { IfSome result (λ told. IsSound told.1.standing × (told.1.standing.node ≡ self.old.node)) }
        ensures heard { IfSome result (λ _. self.new ≡ told_of self.new.seat.noted self.old) }
        ensures same { IfNone result (self.new ≡ self.old) }
    {
        let ToldUnended {
            unended,
            token,
            note,
        } = self
            .shared
            .next_unended(rt, self.worker, self.generation, last)?;
        self.seat.hear(self.shared.slots(), note);
        Some((unended, token))
    }

    /// A turn at its node, which takes the lock once and lifts from all slots or from its own: [`Combiner::turn`](crate::Combiner::turn) for this worker, whose note
    /// it hears then by two loads. What it hands out, and its token, are of one record, in which each job of a connection that a piece is for was handed in by this
    /// worker; and each batch that the combiner had answered as executed is in it. `None` where another node stands behind the lock, which there never is: then
    /// nothing is done.
    pub fn turn<R: Wait>(
        &mut self,
        rt: &R,
        lifts: Lifts,
        most: usize,
        spares: &mut Spares,
        taken: &mut Vec<LastPiece>,
    ) -> Option<(Turned, Token<B>)>
        requires { 0 < most }
        ensures turned { IfSome result (λ told. (note : NoteView) × TurnsBehind B.places self.old.node self.old.seat.worker self.old.generation lifts most taken.old.items taken.new.items told.0 told.1.standing note) }
        ensures heard { IfSome result (λ told. HasHeard self.old.seat.worker most (tells_down told.0.combined) self.new.seat.noted told.1.standing self.old.seat.lane taken.old.items taken.new.items) }
        ensures sound { IfSome result (λ told. IsSound told.1.standing × (told.1.standing.node ≡ self.old.node)) }
        ensures more { IfSome result (λ _. self.new ≡ with_more (told_of self.new.seat.noted self.old)) }
        ensures counted { IfSome result (λ told. told.0.answered ≤ length self.new.seat.noted.answered) }
        ensures none { IfNone result ((taken.new.items ≡ taken.old.items) × (self.new ≡ self.old)) }
    {
        let shared = &self.shared;
        let Told {
            turned,
            token,
            note,
        } = shared.turn(rt, self.worker, self.generation, lifts, most, spares, taken)?;
        self.seat.hear(self.shared.slots(), note);
        self.generation = self.generation.wrapping_add(1);
        Some((turned, token))
    }

    /// The same where its node's lock is free: one try. `None` where it is held, too, and then nothing is done.
    pub fn try_turn(
        &mut self,
        lifts: Lifts,
        most: usize,
        spares: &mut Spares,
        taken: &mut Vec<LastPiece>,
    ) -> Option<(Turned, Token<B>)>
        requires { 0 < most }
        ensures turned { IfSome result (λ told. (note : NoteView) × TurnsBehind B.places self.old.node self.old.seat.worker self.old.generation lifts most taken.old.items taken.new.items told.0 told.1.standing note) }
        ensures heard { IfSome result (λ told. HasHeard self.old.seat.worker most (tells_down told.0.combined) self.new.seat.noted told.1.standing self.old.seat.lane taken.old.items taken.new.items) }
        ensures sound { IfSome result (λ told. IsSound told.1.standing × (told.1.standing.node ≡ self.old.node)) }
        ensures more { IfSome result (λ _. self.new ≡ with_more (told_of self.new.seat.noted self.old)) }
        ensures counted { IfSome result (λ told. told.0.answered ≤ length self.new.seat.noted.answered) }
        ensures none { IfNone result ((taken.new.items ≡ taken.old.items) × (self.new ≡ self.old)) }
    {
        let shared = &self.shared;
        let Told {
            turned,
            token,
            note,
        } = shared.try_turn(self.worker, self.generation, lifts, most, spares, taken)?;
        self.seat.hear(self.shared.slots(), note);
        self.generation = self.generation.wrapping_add(1);
        Some((turned, token))
    }

    /// What waits for its connections, without a turn: [`Combiner::collect_pieces`](crate::Combiner::collect_pieces) behind the lock, which it takes once, and whose
    /// note it hears then by two loads. So it gets what another worker's turn made for it, and says of that what a turn says. `None` where another node stands
    /// behind the lock, which there never is: then nothing is done.
    pub fn collect_pieces<R: Wait>(
        &mut self,
        rt: &R,
        most: usize,
        spares: &mut Spares,
        taken: &mut Vec<LastPiece>,
    ) -> Option<(Collected, Token<B>)>
        requires { 0 < most }
        ensures handed { IfSome result (λ told. (note : NoteView) × CollectsBehind self.old.node self.old.seat.worker self.old.generation most taken.old.items taken.new.items told.0 told.1.standing note) }
        ensures heard { IfSome result (λ told. HasHeard self.old.seat.worker most told.0.is_down self.new.seat.noted told.1.standing self.old.seat.lane taken.old.items taken.new.items) }
        ensures sound { IfSome result (λ told. IsSound told.1.standing × (told.1.standing.node ≡ self.old.node)) }
        ensures more { IfSome result (λ _. self.new ≡ with_more (told_of self.new.seat.noted self.old)) }
        ensures counted { IfSome result (λ told. told.0.answered ≤ length self.new.seat.noted.answered) }
        ensures none { IfNone result ((taken.new.items ≡ taken.old.items) × (self.new ≡ self.old)) }
    {
        let shared = &self.shared;
        let ToldPieces {
            collected,
            token,
            note,
        } = shared.collect_pieces(rt, self.worker, self.generation, most, spares, taken)?;
        self.seat.hear(self.shared.slots(), note);
        self.generation = self.generation.wrapping_add(1);
        Some((collected, token))
    }

    /// At most so many of the bytes that wait for one of its connections: [`Node::take_piece`]. `None` where none wait, or the connection isn't its own. It is for
    /// tests.
    pub fn take_piece<R: Wait>(
        &mut self,
        rt: &R,
        conn: ConnId,
        most: usize,
    ) -> Result<Option<(Piece, Token<B>)>, Memory>
        requires { 0 < most }
        ensures piece { IfOk result (λ taken. IfSome taken (λ t. IsPieceOf (connection_of conn) most t.0 t.1.standing)) }
        ensures more { IfOk result (λ taken. IfSome taken (λ _. self.new ≡ with_more self.old)) }
        ensures none { IfOk result (λ taken. IfNone taken (self.new ≡ self.old)) }
        ensures unchanged { OnErr result (self.new ≡ self.old) }
    {
        let Some(taken) = self.shared.take_piece(rt, self.worker, conn, most)? else {
            return Ok(None);
        };
        self.generation = self.generation.wrapping_add(1);
        Ok(Some(taken))
    }

    /// Closes a connection of its node: [`Node::close`].
    pub fn close<R: Wait>(&mut self, rt: &R, conn: ConnId) -> ClosedQueue
        ensures told { result ≡ connection_of conn }
        ensures closed { MayHaveClosed self.old self.new }
    {
        let closed = self.shared.close(rt, conn);
        if closed.worker() == Some(self.worker) {
            self.generation = self.generation.wrapping_add(1);
        }
        closed
    }

    /// Those of these connections for which nothing more comes to wait: [`Node::cut_among`].
    ///
    /// # Errors
    ///
    /// Those of [`Node::cut_among`].
    pub fn cut_among<R: Wait>(
        &self,
        rt: &R,
        conns: &[ConnId],
        cut: &mut Vec<ConnId>,
    ) -> Result<(), AskError>
        ensures all { OnOk result (CutsBehind self.now.node self.now.seat.worker self.now.generation conns.now cut.old.items cut.new.items) }
        ensures front { OnErr result (CutsFrontBehind conns.now cut.old.items cut.new.items) }
    {
        self.shared
            .cut_among(rt, self.worker, self.generation, conns, cut)
    }

    /// A law: what it heard last of its node's combiner goes on to hold as it posts and collects, [`WorkerSeat::told`].
    pub fn told(&self)
        ensures told { IsTold self.now.seat.noted self.now.seat.lane }
        ensures lifted { length self.now.seat.noted.answered ≤ length self.now.seat.noted.lifted }
    {
        self.seat.told();
    }

    /// The next entry that its node applies is refused, as where memory runs out: then the node's replica falls. It is for tests.
    pub fn refuse<R: Wait>(&self, rt: &R) {
        self.shared.refuse(rt);
    }

    /// Hands these jobs in as its next batch: one load and one store. They come back while the answer to the last batch wasn't collected, and once a u64
    /// doesn't count the batches.
    pub fn post(&mut self, jobs: Vec<Job>) -> Result<(), Vec<Job>>
        requires few { length jobs.items ≤ MOST_JOBS }
        ensures exactly { IsOk result ↔ ((length self.old.seat.lane.posted ≡ length self.old.seat.lane.collected) × (self.old.next + 1 < 2 ^ 64)) }
        ensures posted { OnOk result (HasPosted jobs.items self.old self.new) }
        ensures back { IfErr result (λ back. back.items ≡ jobs.items) }
        ensures unchanged { OnErr result (self.new ≡ self.old) }
    {
        if self.next == u64::MAX {
            return Err(jobs);
        }
        let batch = Batch {
            node: self.shared.node(),
            worker: self.worker,
            number: self.next,
            jobs,
        };
        match self.seat.post(self.shared.slots(), batch) {
            Ok(()) => {
                self.next += 1;
                Ok(())
            }
            Err(back) => Err(back.jobs),
        }
    }

    /// What became of the batch that it handed in last, once that is answered: one load, and one store where it is.
    ///
    /// # Errors
    ///
    /// Those of [`WorkerSeat::collect`].
    pub fn collect(&mut self) -> Result<Outcome, Uncollected>
        ensures collected { IfOk result (λ outcome. HasCollected outcome self.old self.new) }
        ensures none { IfErr result (λ why. (why ≡ Uncollected.NoneAwaited) ↔ (length self.old.seat.lane.posted ≡ length self.old.seat.lane.collected)) }
        ensures same { OnErr result (self.new ≡ self.old) }
    {
        let answer = self.seat.collect(self.shared.slots())?;
        Ok(answer.outcome)
    }
}

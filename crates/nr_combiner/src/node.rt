// A node as all its workers share it: behind a lock, with the log and the slots beside it.
ghost use Rattle.std.specs.Prelude.{◌≡◌, ◌<◌, IfOk, IfSome, IfNone, OnOk, OnErr, slice_index_or};
ghost use Rattle.std.specs.Arc.{arc_value};
ghost use Rattle.nr_entry.specs.Jobs.{connection_of};
ghost use Rattle.nr_log_end.specs.Standings.{record_of};
ghost use Rattle.nr_slots.specs.Rule.{no_desk};
ghost use Rattle.nr_node.specs.Sound.{IsSound, ServesOpened};
ghost use Rattle.nr_node.specs.Level.{connection_at};
ghost use Rattle.nr_combiner.specs.Pieces.{AreHandedIn, HasAdded, HasExecuted, HasJobOf, HasOwn, IsPieceOf};
ghost use Rattle.nr_combiner.specs.Behind.{CollectsBehind, CombinesBehind, CutsBehind, CutsFrontBehind, EndsBehind, OpensBehind, RefusesBehind, RevivesBehind, TurnsBehind};
ghost use Rattle.nr_combiner.specs.Shared.{IsTakenOut};
ghost use Rattle.nr_combiner.specs.Turned.{tells_down};

use crate::answering::{AskError, Lifts};
use crate::combiner::{ClosedQueue, Combiner};
use crate::name::ServerName;
use crate::reviving::RevivalError;
use crate::turn_results::{Told, ToldOpened, ToldPieces, ToldUnended};
use nr_blob::Memory;
use nr_entry::ConnId;
use nr_node::{LastPiece, NodeOffer, OpenError, Round};
use nr_oplog::{Oplog, Token};
use nr_replica::{Piece, Replica, Spares};
use nr_slots::Slots;
use std::alloc::Global;
use std::hint;
use std::marker::Model;
use std::sync::atomic::{AtomicUsize, Ordering};
use std::sync::{Arc, Mutex, MutexGuard, Wait};

/// How often a node's lock is tried before it is waited for: some 20 microseconds. Who waits for it is put to sleep by the system and woken again, which takes longer
/// than most turns, and those that come meanwhile queue behind.
const TRIES: u32 = 400;

/// How often one looks at most whether another has held the lock since: some 50 microseconds.
const MOST_LOOKS: u32 = 1_000;

/// A node, as its workers share it. Each call takes its lock once, for as long as its work takes. Contracts see which it is, its slots and its limits: what stands
/// behind the lock changes between any two calls, so what they say of it is what was handed out.
#[derive(Drop)]
pub struct Node<B: ServerName> {
    pub(crate) node: usize,
    combiner: Mutex<Combiner<B>>,
    log: Arc<Oplog<B>, Global>,
    pub(crate) slots: Arc<Slots, Global>,
    workers: usize,
    // How many connections are open at most, and how many bytes wait for one at most.
    connections: usize,
    limit: usize,
    // How many wait for the lock, and how often it was held. Hints.
    waiting: AtomicUsize,
    holds: AtomicUsize,
}

impl<B: ServerName> Model for Node<B> {
    ghost use Rattle.std.specs.Prelude.{◌≡◌};
    ghost use Rattle.std.specs.Arc.{arc_value};
    ghost use Rattle.nr_combiner.specs.Shared.{NodeView};

    ghost Value = { NodeView };

    ghost view = { λ n. record { node = n.node; slots = arc_value n.slots; connections = n.connections; limit = n.limit } };

    ghost invariant = { λ n. ((arc_value n.slots).id ≡ B.slots n.node) × ((arc_value n.slots).workers ≡ n.workers) };
}

impl<B: ServerName> Node<B> {
    /// The node of this number behind its lock, with the log and the slots of so many workers beside it, of which at most so many connections are open, and for each of which
    /// at most `limit` bytes wait.
    pub fn new(
        node: usize,
        combiner: Combiner<B>,
        log: Arc<Oplog<B>, Global>,
        slots: Arc<Slots, Global>,
        workers: usize,
        connections: usize,
        limit: usize,
    ) -> Node<B>
        requires node { combiner.node.book.node ≡ node }
        requires slots { (arc_value slots).id ≡ B.slots node }
        requires workers { (arc_value slots).workers ≡ workers }
        ensures { result ≡ record { node = node; slots = arc_value slots; connections = connections; limit = limit } }
    {
        Node {
            node,
            combiner: Mutex::new(combiner),
            log,
            slots,
            workers,
            connections,
            limit,
            waiting: AtomicUsize::new(0),
            holds: AtomicUsize::new(0),
        }
    }

    /// Which node it is, from 0 on.
    pub fn node(&self) -> usize
        ensures { result ≡ self.now.node }
    {
        self.node
    }

    /// How many workers share it.
    pub fn workers(&self) -> usize
        ensures { result ≡ self.now.slots.workers }
    {
        self.workers
    }

    /// What stands behind its lock, once nobody shares the node any more: its replica, with a token that keeps how the replica's end of the log stood. `None` where
    /// another node stands there, which there never is.
    pub fn into_replica(self) -> Option<(Replica, Token<B>)>
        ensures { IfSome result (λ left. IsTakenOut self.node left.1.standing left.0) }
    {
        let node = self.node;
        let combiner = self.combiner.into_inner();
        if combiner.node() != node {
            return None;
        }
        Some(combiner.into_replica())
    }

    /// The log that all nodes share.
    pub fn log(&self) -> &Oplog<B> {
        &self.log
    }

    /// The same, to be held beside the nodes.
    pub fn share_log(&self) -> Result<Arc<Oplog<B>, Global>, Memory> {
        let log = Arc::try_clone(&self.log)?;
        Ok(log)
    }

    /// The slots in which its workers hand in their batches.
    pub fn slots(&self) -> &Slots
        ensures slots { result.now ≡ self.now.slots }
        ensures named { result.now.id ≡ B.slots self.now.node }
    {
        &self.slots
    }

    // Takes the lock, where it is free.
    fn try_hold(&self) -> Option<MutexGuard<'_, Combiner<B>>> {
        let held = self.combiner.try_lock()?;
        self.holds.fetch_add(1, Ordering::SeqCst);
        Some(held)
    }

    // Takes the lock: it is tried for a while, and then waited for.
    pub(crate) fn hold<R: Wait>(&self, rt: &R) -> MutexGuard<'_, Combiner<B>> {
        if let Some(held) = self.try_hold() {
            return held;
        }
        self.begin_to_wait();
        let held = self.wait(rt);
        self.end_waiting();
        held
    }

    // Tries to take the lock for a while, and then waits for it.
    fn wait<R: Wait>(&self, rt: &R) -> MutexGuard<'_, Combiner<B>> {
        for _ in 0..TRIES {
            if let Some(held) = self.try_hold() {
                return held;
            }
            hint::spin_loop();
        }
        let held = self.combiner.lock(rt);
        self.holds.fetch_add(1, Ordering::SeqCst);
        held
    }

    /// One more waits for the lock: those who have just held it let it have its turn ([`Node::let_others`]). For each call there is one of [`Node::end_waiting`].
    pub fn begin_to_wait(&self) {
        self.waiting.fetch_add(1, Ordering::SeqCst);
    }

    /// One waits no more.
    pub fn end_waiting(&self) {
        self.waiting.fetch_sub(1, Ordering::SeqCst);
    }

    /// Where somebody waits for the lock: waits until another has held it, or nobody waits any more, at most some 50 microseconds. So one who takes the lock time and
    /// again passes nobody over who is awake, and neither one who sleeps in the system nor one who never comes stops it. Two loads where nobody waits.
    pub fn let_others(&self) {
        let holds = self.holds.load(Ordering::SeqCst);
        for _ in 0..MOST_LOOKS {
            if self.waiting.load(Ordering::SeqCst) == 0 {
                return;
            }
            if self.holds.load(Ordering::SeqCst) != holds {
                return;
            }
            hint::spin_loop();
        }
    }

    /// [`Combiner::open`] behind the lock, of a connection that one of its workers serves, whose generation is this, and which knows that the node had so many connections as
    /// it came back last; with a token and a note that keep how the node stands then: two loads more. [`OpenError::Down`] also where the node came back since, and where
    /// another node stands behind the lock, or the worker has another generation there, which there never is.
    pub fn open<R: Wait>(
        &self,
        rt: &R,
        worker: u8,
        generation: u64,
        since: u64,
    ) -> Result<ToldOpened<B>, OpenError>
        requires { worker < self.now.slots.workers }
        ensures node { IfOk result (λ told. told.conn.node ≡ self.now.node) }
        ensures opened { IfOk result (λ told. OpensBehind self.now worker generation since told.conn told.token.standing told.note) }
        ensures serves { IfOk result (λ told. ServesOpened told.token.standing worker (connection_of told.conn)) }
        ensures own { IfOk result (λ told. HasOwn worker (slice_index_or told.note.desks worker no_desk) told.token.standing) }
        ensures executed { IfOk result (λ told. HasExecuted (slice_index_or told.note.desks worker no_desk) told.token.standing) }
        ensures sound { IfOk result (λ told. IsSound told.token.standing × (told.token.standing.node ≡ self.now.node)) }
        ensures named { IfOk result (λ told. told.note.slots ≡ B.slots self.now.node) }
    {
        let mut combiner = self.hold(rt);
        if combiner.node() != self.node() || combiner.generation(worker as usize) != generation {
            return Err(OpenError::Down);
        }
        if combiner.since() != since {
            return Err(OpenError::Down);
        }
        combiner.level();
        let conn = combiner.open(worker, self.limit, self.connections)?;
        combiner.level();
        let (token, note) = combiner.keep();
        Ok(ToldOpened { conn, token, note })
    }

    /// [`Combiner::close`] behind the lock.
    pub fn close<R: Wait>(&self, rt: &R, conn: ConnId) -> ClosedQueue
        ensures { result ≡ connection_of conn }
    {
        self.hold(rt).close(conn)
    }

    /// [`Combiner::combine`] behind the lock.
    pub fn combine<R: Wait>(&self, rt: &R) -> Result<Round, Memory>
        ensures { CombinesBehind B.places result }
    {
        let mut combiner = self.hold(rt);
        combiner.level();
        let round = combiner.combine();
        combiner.level();
        round
    }

    /// [`Combiner::take_piece`] behind the lock. Its token keeps of which record the bytes are.
    pub fn take_piece<R: Wait>(
        &self,
        rt: &R,
        worker: usize,
        conn: ConnId,
        most: usize,
    ) -> Result<Option<(Piece, Token<B>)>, Memory>
        requires { 0 < most }
        ensures { IfOk result (λ taken. IfSome taken (λ t. IsPieceOf (connection_of conn) most t.0 t.1.standing)) }
    {
        self.hold(rt).take_piece(worker, conn, most)
    }

    // [`Combiner::turn`] of what stands behind the lock.
    fn turn_behind(
        &self,
        combiner: &mut Combiner<B>,
        worker: usize,
        generation: u64,
        lifts: Lifts,
        most: usize,
        spares: &mut Spares,
        taken: &mut Vec<LastPiece>,
    ) -> Option<Told<B>>
        requires { 0 < most }
        ensures turned { IfSome result (λ told. TurnsBehind B.places self.now.node worker generation lifts most taken.old.items taken.new.items told.turned told.token.standing told.note) }
        ensures added { IfSome result (λ told. HasAdded most (tells_down told.turned.combined) told.token.standing (AreHandedIn (slice_index_or told.note.desks worker no_desk) (record_of told.token.standing.history)) taken.old.items taken.new.items) }
        ensures own { IfSome result (λ told. HasOwn worker (slice_index_or told.note.desks worker no_desk) told.token.standing) }
        ensures executed { IfSome result (λ told. HasExecuted (slice_index_or told.note.desks worker no_desk) told.token.standing) }
        ensures sound { IfSome result (λ told. IsSound told.token.standing × (told.token.standing.node ≡ self.now.node)) }
        ensures named { IfSome result (λ told. told.note.slots ≡ B.slots self.now.node) }
        ensures none { IfNone result (taken.new.items ≡ taken.old.items) }
    {
        if combiner.node() != self.node || combiner.generation(worker) != generation {
            return None;
        }
        combiner.level();
        let told = combiner.turn(worker, lifts, most, spares, taken);
        combiner.level();
        Some(told)
    }

    /// [`Combiner::turn`] behind the lock, which it takes once, of a worker whose generation is this. `None` where another node stands behind it, or the worker has
    /// another generation there, which there never is: then nothing is done.
    pub fn turn<R: Wait>(
        &self,
        rt: &R,
        worker: usize,
        generation: u64,
        lifts: Lifts,
        most: usize,
        spares: &mut Spares,
        taken: &mut Vec<LastPiece>,
    ) -> Option<Told<B>>
        requires { 0 < most }
        ensures turned { IfSome result (λ told. TurnsBehind B.places self.now.node worker generation lifts most taken.old.items taken.new.items told.turned told.token.standing told.note) }
        ensures added { IfSome result (λ told. HasAdded most (tells_down told.turned.combined) told.token.standing (AreHandedIn (slice_index_or told.note.desks worker no_desk) (record_of told.token.standing.history)) taken.old.items taken.new.items) }
        ensures own { IfSome result (λ told. HasOwn worker (slice_index_or told.note.desks worker no_desk) told.token.standing) }
        ensures executed { IfSome result (λ told. HasExecuted (slice_index_or told.note.desks worker no_desk) told.token.standing) }
        ensures sound { IfSome result (λ told. IsSound told.token.standing × (told.token.standing.node ≡ self.now.node)) }
        ensures named { IfSome result (λ told. told.note.slots ≡ B.slots self.now.node) }
        ensures none { IfNone result (taken.new.items ≡ taken.old.items) }
    {
        let mut combiner = self.hold(rt);
        self.turn_behind(
            &mut combiner,
            worker,
            generation,
            lifts,
            most,
            spares,
            taken,
        )
    }

    /// The same where the lock is free: one try. `None` where it is held, too, and then nothing is done.
    pub fn try_turn(
        &self,
        worker: usize,
        generation: u64,
        lifts: Lifts,
        most: usize,
        spares: &mut Spares,
        taken: &mut Vec<LastPiece>,
    ) -> Option<Told<B>>
        requires { 0 < most }
        ensures turned { IfSome result (λ told. TurnsBehind B.places self.now.node worker generation lifts most taken.old.items taken.new.items told.turned told.token.standing told.note) }
        ensures added { IfSome result (λ told. HasAdded most (tells_down told.turned.combined) told.token.standing (AreHandedIn (slice_index_or told.note.desks worker no_desk) (record_of told.token.standing.history)) taken.old.items taken.new.items) }
        ensures own { IfSome result (λ told. HasOwn worker (slice_index_or told.note.desks worker no_desk) told.token.standing) }
        ensures executed { IfSome result (λ told. HasExecuted (slice_index_or told.note.desks worker no_desk) told.token.standing) }
        ensures sound { IfSome result (λ told. IsSound told.token.standing × (told.token.standing.node ≡ self.now.node)) }
        ensures named { IfSome result (λ told. told.note.slots ≡ B.slots self.now.node) }
        ensures none { IfNone result (taken.new.items ≡ taken.old.items) }
    {
        let mut combiner = self.try_hold()?;
        self.turn_behind(
            &mut combiner,
            worker,
            generation,
            lifts,
            most,
            spares,
            taken,
        )
    }

    /// [`Combiner::collect_pieces`] behind the lock, which it takes once: what waits for the connections of a worker, whose generation is this, is handed out without a
    /// turn. `None` as for a turn: then nothing is done.
    pub fn collect_pieces<R: Wait>(
        &self,
        rt: &R,
        worker: usize,
        generation: u64,
        most: usize,
        spares: &mut Spares,
        taken: &mut Vec<LastPiece>,
    ) -> Option<ToldPieces<B>>
        requires { 0 < most }
        ensures handed { IfSome result (λ told. CollectsBehind self.now.node worker generation most taken.old.items taken.new.items told.collected told.token.standing told.note) }
        ensures added { IfSome result (λ told. HasAdded most told.collected.is_down told.token.standing (AreHandedIn (slice_index_or told.note.desks worker no_desk) (record_of told.token.standing.history)) taken.old.items taken.new.items) }
        ensures own { IfSome result (λ told. HasOwn worker (slice_index_or told.note.desks worker no_desk) told.token.standing) }
        ensures executed { IfSome result (λ told. HasExecuted (slice_index_or told.note.desks worker no_desk) told.token.standing) }
        ensures sound { IfSome result (λ told. IsSound told.token.standing × (told.token.standing.node ≡ self.now.node)) }
        ensures named { IfSome result (λ told. told.note.slots ≡ B.slots self.now.node) }
        ensures none { IfNone result (taken.new.items ≡ taken.old.items) }
    {
        let mut combiner = self.hold(rt);
        if self.node != combiner.node() || combiner.generation(worker) != generation {
            return None;
        }
        combiner.level();
        let told = combiner.collect_pieces(worker, most, spares, taken);
        combiner.level();
        Some(told)
    }

    /// [`Combiner::cut_among`] behind the lock, which it takes once for all of these connections, as a worker asks whose generation is this.
    ///
    /// # Errors
    ///
    /// `Elsewhere` where another node stands behind the lock, or the worker has another generation there: none is added. `Memory` where there is none for one more: the
    /// first are added.
    pub fn cut_among<R: Wait>(
        &self,
        rt: &R,
        worker: usize,
        generation: u64,
        conns: &[ConnId],
        cut: &mut Vec<ConnId>,
    ) -> Result<(), AskError>
        ensures all { OnOk result (CutsBehind self.now.node worker generation conns.now cut.old.items cut.new.items) }
        ensures front { OnErr result (CutsFrontBehind conns.now cut.old.items cut.new.items) }
    {
        let combiner = self.hold(rt);
        combiner.level();
        if self.node() != combiner.node() || combiner.generation(worker) != generation {
            return Err(AskError::Elsewhere);
        }
        combiner.cut_among(conns, cut)?;
        Ok(())
    }

    /// [`Combiner::next_unended`] behind the lock, as a worker asks whose generation is this, with a token and a note that keep how the node stands: two loads more. `None`
    /// also where another node stands behind the lock, or the worker has another generation there, which there never is.
    pub fn next_unended<R: Wait>(
        &self,
        rt: &R,
        worker: usize,
        generation: u64,
        last: Option<u64>,
    ) -> Option<ToldUnended<B>>
        ensures unended { IfSome result (λ told. EndsBehind self.now.node worker generation last told.unended told.token.standing told.note) }
        ensures serves { IfSome result (λ told. ServesOpened told.token.standing worker (connection_at self.now.node told.unended.serial)) }
        ensures handed_in { IfSome result (λ told. HasJobOf (connection_at self.now.node told.unended.serial) (slice_index_or told.note.desks worker no_desk).lifted) }
        ensures own { IfSome result (λ told. HasOwn worker (slice_index_or told.note.desks worker no_desk) told.token.standing) }
        ensures executed { IfSome result (λ told. HasExecuted (slice_index_or told.note.desks worker no_desk) told.token.standing) }
        ensures sound { IfSome result (λ told. IsSound told.token.standing × (told.token.standing.node ≡ self.now.node)) }
        ensures named { IfSome result (λ told. told.note.slots ≡ B.slots self.now.node) }
    {
        let mut combiner = self.hold(rt);
        if combiner.node() != self.node() || combiner.generation(worker) != generation {
            return None;
        }
        combiner.level();
        let unended = combiner.next_unended(worker, last)?;
        let (token, note) = combiner.keep();
        Some(ToldUnended {
            unended,
            token,
            note,
        })
    }

    // A turn of its combiner, by which a node that is down owes no answer; from then on it passes nothing, until it goes on or comes back.
    pub(crate) fn halt<R: Wait>(&self, rt: &R) -> Result<(), RevivalError> {
        let mut combiner = self.hold(rt);
        if !combiner.is_down() {
            return Err(RevivalError::NotDown);
        }
        let _is_down = combiner.combine();
        combiner.halt();
        Ok(())
    }

    // It passes what there is again.
    pub(crate) fn go_on<R: Wait>(&self, rt: &R) {
        self.hold(rt).go_on();
    }

    // A turn of its combiner, and a copy of its server, where that left nothing to be done, so that all entries that there were are in it.
    pub(crate) fn offer<R: Wait>(&self, rt: &R) -> Result<NodeOffer<B>, RevivalError> {
        let mut combiner = self.hold(rt);
        match combiner.combine() {
            Ok(Round::Done | Round::Down) => {}
            Ok(Round::Full | Round::Again | Round::NotYet) => return Err(RevivalError::NotYet),
            Err(memory) => return Err(RevivalError::Memory(memory)),
        }
        match combiner.offer() {
            Ok(offer) => Ok(offer),
            Err(why) => Err(why.into()),
        }
    }

    // [`Combiner::revive`] behind the lock. The offer comes back with why it didn't.
    pub(crate) fn come_back<R: Wait>(
        &self,
        rt: &R,
        offer: NodeOffer<B>,
    ) -> Result<(), (NodeOffer<B>, RevivalError)>
        ensures { OnOk result (RevivesBehind self.now.node) }
    {
        let mut combiner = self.hold(rt);
        if combiner.node() != self.node() {
            return Err((offer, RevivalError::Elsewhere));
        }
        combiner.level();
        offer.place();
        if let Err((offer, why)) = combiner.revive(offer) {
            return Err((offer, why.into()));
        }
        combiner.level();
        Ok(())
    }

    /// [`Combiner::refuse`] behind the lock. It is for tests.
    pub fn refuse<R: Wait>(&self, rt: &R)
        ensures { RefusesBehind }
    {
        let mut combiner = self.hold(rt);
        combiner.level();
        combiner.refuse();
        combiner.level();
    }
}

// What stands behind a node's lock: the node, and its combiner's seat at the slots.
ghost use Rattle.std.specs.Prelude.{Bool, cond, ◌∷◌, filter, ◌≡◌, ◌↔◌, ◌⊎◌, ◌-◌, ◌^◌, ◌<◌, min, ◌++◌, [], ℕ, length, replicate, true, false, Ok, Err, Some, None, IfOk, IfErr, IfSome, IfNone, OnOk, OnErr, List};
ghost use Rattle.std.specs.Arc.{arc_value};
ghost use Rattle.std.specs.List.{AllByRecursion, list_any};
ghost use Rattle.std.specs.FinMap as finmap;
ghost use Rattle.nr_entry.specs.Jobs.{connection_of, item_of, items_of};
ghost use Rattle.nr_slots.specs.Seats.{desk_of, new_combiner, note_of};
ghost use Rattle.nr_job_numbers.specs.Stored.{is_unended, ComesAfter};
ghost use Rattle.nr_replica.specs.declared.offer.OfferError.TheVariants as offers;
ghost use Rattle.nr_log_end.specs.Standings.{opened_of, passed_of};
ghost use Rattle.nr_node.specs.Level.{connection_at, is_closed_at, queue_at, worker_at, workers_of};
ghost use Rattle.nr_node.specs.Batches.{AreSame, is_cut_at, IsOpened, IsPiece};
ghost use Rattle.nr_node.specs.Lending.{AreReadyFor, HasLent, LooksAtTail};
ghost use Rattle.nr_node.specs.Owing.{IsServedBy};
ghost use Rattle.nr_node.specs.Revived.{IsOffered, revive_refusal};
ghost use Rattle.nr_node.specs.Sound.{IsSound};
ghost use Rattle.nr_node.specs.Steps.{taken_node, refusing_node, HasHandedOut, IsStill};
ghost use Rattle.nr_combiner.specs.Aside.{HasTakenIn, HoldsAlone};
ghost use Rattle.nr_combiner.specs.Counts.{fresh_counts, generation_of, with_next};
ghost use Rattle.nr_combiner.specs.Pieces.{ListsFront, HasJobOf};
ghost use Rattle.nr_combiner.specs.Served.{owed_at, CombinerState, HasNoJobs, IsServed, StandsLevel};
ghost use Rattle.nr_combiner.specs.Steps.{HasRoom, OpensFor, closed_combiner, refusal_at, has_lost, is_lost, ComesBack, IsNotBack, IsRefusedFor, IsUnendedAt, HasLifted, HasLiftedAll, HasLiftedBy, HasLiftedOwn, HasAnswered, HasAnsweredAll, HasTried, HasCombined, outcome_of};
ghost use Rattle.nr_combiner.specs.Turned.{HandsOutTo, HasCollectedFor, HasTurned};

use crate::answering::{Collected, Lifts, Turned, hand_back};
use crate::counts::Counts;
use crate::looking::{look, where_idle};
use crate::name::ServerName;
use crate::turn_results::{Told, ToldPieces};
use nr_blob::Memory;
use nr_entry::{Answer, Batch, ConnId, Job};
use nr_job_numbers::Unended;
use nr_node::{
    Core, LastPiece, Loan, NodeOffer, OpenError, Prepared, ReviveError, Round, TakeError,
};
use nr_oplog::{LogName, Token};
use nr_replica::{OfferError, Piece, Replica, Spares};
use nr_slots::{CombinerSeat, Note, Slots};
use std::alloc::Global;
use std::marker::Model;
use std::sync::Arc;

/// A node with the seat of its combiner. Whatever other threads do, between two calls each job of a batch that was answered as executed is in the node's
/// record, and of each worker at most one batch that was lifted isn't answered.
#[derive(Drop)]
pub struct Combiner<B: ServerName> {
    alloc: Global,
    core: Core<B>,
    seat: CombinerSeat,
    slots: Arc<Slots, Global>,
    // For each worker the number of the batch that was taken last.
    numbers: Vec<u64>,
    node: usize,
    counts: Counts,
    // A node that is down passes nothing, until it goes on or comes back.
    is_halted: bool,
}

impl<B: ServerName> Model for Combiner<B> {
    ghost use Rattle.std.specs.Prelude.{◌≡◌};
    ghost use Rattle.std.specs.Arc.{arc_value};
    ghost use Rattle.nr_combiner.specs.Served.{CombinerState, coded_combiner, IsServed};

    ghost Value = { CombinerState };

    ghost coded = { coded_combiner };

    ghost view = { λ c. record { node = c.core; seat = c.seat; counts = c.counts } };

    ghost invariant = { λ c. IsServed c.core c.seat c.numbers.items × (c.seat.slots ≡ (arc_value c.slots).id) × (c.node ≡ c.core.book.node) × (c.seat.slots ≡ B.slots c.core.book.node) };
}

/// That a combiner closed a connection, if that is one of its node. It comes of [`Combiner::close`] alone, so that no call that hands one on can leave the close
/// out. It is seen as the connection.
#[derive(Debug, Drop)]
pub struct ClosedQueue {
    conn: ConnId,
    // The worker whose generation went up by that: the one that served it, where it wasn't closed before.
    worker: Option<usize>,
}

impl Model for ClosedQueue {
    ghost use Rattle.nr_entry.specs.Jobs.{connection_of};
    ghost use Rattle.nr_model.specs.Items.{Connection};

    ghost Value = { Connection };

    ghost view = { λ closed. connection_of closed.conn };
}

impl ClosedQueue {
    // The worker whose generation went up by that.
    pub(crate) fn worker(&self) -> Option<usize> {
        self.worker
    }
}

// What came of a look at a worker's slot: whether a batch was handed back at once, and the number of one that was taken in.
#[derive(Clone, Copy, Debug)]
struct Lifted {
    is_handed_back: bool,
    taken: Option<u64>,
}

// What came of a turn of the combiner, and whom it answered.
#[derive(Clone, Copy, Debug)]
struct Combined {
    round: Result<Round, Memory>,
    is_behind: bool,
    has_put: bool,
    answered: u16,
}

impl<B: ServerName> Combiner<B> {
    /// A node that has no job and no connection yet, with the seat of its combiner at these slots.
    pub fn new(
        alloc: Global,
        node: usize,
        workers: usize,
        core: Core<B>,
        seat: CombinerSeat,
        slots: Arc<Slots, Global>,
    ) -> Result<Combiner<B>, Memory>
        requires node { core.book.node ≡ node }
        requires owed { core.replica.owed ≡ replicate workers None }
        requires idle { HasNoJobs core }
        requires connections { core.replica.members ≡ [] }
        requires seat { seat ≡ new_combiner (arc_value slots).id workers }
        requires named { (arc_value slots).id ≡ B.slots node }
        ensures { IfOk result (λ combiner. combiner ≡ record { node = core; seat = seat; counts = fresh_counts workers }) }
    {
        let mut numbers = Vec::with_capacity(alloc, workers)?;
        numbers.resize(workers, 0)?;
        let counts = Counts::new(alloc, workers)?;
        Ok(Combiner {
            alloc,
            core,
            seat,
            slots,
            numbers,
            node,
            counts,
            is_halted: false,
        })
    }

    /// Which node it is, from 0 on.
    pub fn node(&self) -> usize
        ensures { result ≡ self.now.node.book.node }
    {
        self.node
    }

    /// The generation of a worker: how often something was handed out for its connections, or one of them was closed.
    pub fn generation(&self, worker: usize) -> u64
        ensures { result ≡ generation_of worker self.now.counts }
    {
        self.counts.generation(worker)
    }

    /// How many connections the node had as it came back last; 0 where it never did. Of these, which have the serials below, only ends are taken.
    pub fn since(&self) -> u64
        ensures { result ≡ self.now.counts.since }
    {
        self.counts.since()
    }

    /// Whether the replica is down.
    pub fn is_down(&self) -> bool
        ensures { result ≡ self.now.node.replica.down }
    {
        self.core.is_down()
    }

    /// [`Core::level`] of its node.
    pub fn level(&self) -> u64
        ensures passed { result ≡ passed_of self.now.node.seat.standing }
        ensures level { StandsLevel self.now }
    {
        self.core.level()
    }

    /// [`Core::into_replica`] of its node.
    pub fn into_replica(self) -> (Replica, Token<B>)
        ensures replica { result.0 ≡ self.node.replica }
        ensures kept { result.1.standing ≡ self.node.seat.standing }
        ensures level { StandsLevel self }
        ensures sound { IsSound self.node.seat.standing }
    {
        let Combiner { core, .. } = self;
        core.into_replica()
    }

    /// Opens a connection that a worker serves, for which at most `limit` bytes wait. There is no room for it where `most` connections aren't closed, or the node
    /// has no such worker. Logarithmic.
    pub fn open(&mut self, worker: u8, limit: usize, most: usize) -> Result<ConnId, OpenError>
        ensures conn { IfOk result (λ conn. connection_of conn ≡ connection_at self.old.node.replica.node (length self.old.node.replica.members)) }
        ensures node { IfOk result (λ conn. conn.node ≡ self.old.node.book.node) }
        ensures opened { OnOk result (OpensFor limit worker self.old self.new) }
        ensures room { OnOk result (HasRoom worker most self.old × (self.old.node.replica.down ≡ false)) }
        ensures unchanged { OnErr result (self.new ≡ self.old) }
        ensures too_many { (result ≡ Err OpenError.TooMany) ↔ (HasRoom worker most self.old → ⊥) }
        ensures down { (result ≡ Err OpenError.Down) ↔ (HasRoom worker most self.old × (self.old.node.replica.down ≡ true)) }
    {
        if !self.has_room(worker as usize, most) {
            return Err(OpenError::TooMany);
        }
        match self.core.open(worker, limit) {
            Ok(conn) => {
                self.counts.add_opened();
                Ok(conn)
            }
            Err(why) => Err(why),
        }
    }

    /// Closes a connection: what waits for it is dropped, and it gets nothing more. One that isn't the node's is passed over. Logarithmic.
    pub fn close(&mut self, conn: ConnId) -> ClosedQueue
        ensures told { result ≡ connection_of conn }
        ensures closed { IsOpened self.old.node (connection_of conn) → self.new ≡ closed_combiner conn.serial self.old }
        ensures other { (IsOpened self.old.node (connection_of conn) → ⊥) → self.new ≡ self.old }
    {
        let worker = open_worker(&self.core, conn);
        self.core.close(conn);
        self.counts.close(worker);
        ClosedQueue { conn, worker }
    }

    /// Hands out at most so many of the first bytes that wait for a connection of a worker, and at least one, with a token that keeps of which record they are; or
    /// `None` where nothing waits, or the connection isn't the worker's. Linear in them. Where memory runs out nothing changes.
    pub fn take_piece(
        &mut self,
        worker: usize,
        conn: ConnId,
        most: usize,
    ) -> Result<Option<(Piece, Token<B>)>, Memory>
        requires some { 0 < most }
        ensures piece { IfOk result (λ taken. IfSome taken (λ t. IsPiece self.old.node (connection_of conn) most t.0 t.1.standing)) }
        ensures sound { IfOk result (λ taken. IfSome taken (λ t. IsSound t.1.standing)) }
        ensures none { IfOk result (λ taken. IfNone taken ((IsOpened self.old.node (connection_of conn) → worker_at conn.serial self.old.node.replica.members ≡ worker → (queue_at conn.serial self.old.node.replica.members).waiting ≡ []) × (self.new ≡ self.old))) }
        ensures taken { IfOk result (λ taken. IfSome taken (λ t. HasHandedOut conn.serial most self.old.node self.new.node × (self.new.seat ≡ self.old.seat) × (self.new.counts ≡ with_next worker self.old.counts))) }
        ensures unchanged { OnErr result (self.new ≡ self.old) }
    {
        if self.core.worker_of(conn) != Some(worker) {
            return Ok(None);
        }
        let Some(taken) = self.core.take_piece(conn, most)? else {
            return Ok(None);
        };
        self.counts.go_on(worker);
        Ok(Some(taken))
    }

    /// [`Core::collect`], of a worker that the node has. Any other gets nothing.
    pub fn collect(
        &mut self,
        worker: usize,
        most: usize,
        spares: &mut Spares,
        taken: &mut Vec<LastPiece>,
    ) -> Result<(), Memory>
        requires { 0 < most }
        ensures { HasCollectedFor worker most taken.old.items taken.new.items result self.old self.new }
    {
        if worker >= self.numbers.len() {
            return Ok(());
        }
        self.counts.go_on(worker);
        self.core.collect(worker, most, spares, taken)
    }

    /// [`Combiner::collect`], with a token and a note that keep how the node stands behind it, also where nothing was handed out: two loads. No slot is looked at,
    /// and nothing is put into the log or passed there.
    pub fn collect_pieces(
        &mut self,
        worker: usize,
        most: usize,
        spares: &mut Spares,
        taken: &mut Vec<LastPiece>,
    ) -> ToldPieces<B>
        requires { 0 < most }
        ensures handed { HandsOutTo worker most taken.old.items taken.new.items result.collected.result result.token.standing result.note self.old self.new }
        ensures down { result.collected.is_down ≡ self.new.node.replica.down }
        ensures answered { result.collected.answered ≡ min (length (desk_of self.new.seat worker).answered) (2 ^ 64 - 1) }
        ensures since { result.collected.since ≡ self.new.counts.since }
        ensures served { (numbers : List ℕ) × IsServed self.new.node self.new.seat numbers }
        ensures sound { IsSound result.token.standing }
        ensures node { result.token.standing.node ≡ self.old.node.book.node }
        ensures named { result.note.slots ≡ B.slots self.old.node.book.node }
    {
        let result = self.collect(worker, most, spares, taken);
        let (token, note) = self.keep();
        let is_down = self.is_down();
        let has_cut = self.take_cut(worker);
        let answered = self.answered(worker);
        let since = self.since();
        ToldPieces {
            collected: Collected {
                result,
                is_down,
                answered,
                has_cut,
                since,
            },
            token,
            note,
        }
    }

    /// A turn for a worker: [`Combiner::combine`], or the same with the worker's own slot alone, and then, whatever came of it, [`Combiner::collect_pieces`].
    pub fn turn(
        &mut self,
        worker: usize,
        lifts: Lifts,
        most: usize,
        spares: &mut Spares,
        taken: &mut Vec<LastPiece>,
    ) -> Told<B>
        requires { 0 < most }
        ensures turned { HasTurned B.places worker lifts most taken.old.items taken.new.items result.turned result.token.standing result.note self.old self.new }
        ensures down { (result.turned.combined ≡ Ok Round.Down) ↔ (self.new.node.replica.down ≡ true) }
        ensures answered { result.turned.answered ≡ min (length (desk_of self.new.seat worker).answered) (2 ^ 64 - 1) }
        ensures since { result.turned.since ≡ self.new.counts.since }
        ensures served { (numbers : List ℕ) × IsServed self.new.node self.new.seat numbers }
        ensures sound { IsSound result.token.standing }
        ensures node { result.token.standing.node ≡ self.old.node.book.node }
        ensures named { result.note.slots ≡ B.slots self.old.node.book.node }
    {
        let workers = self.numbers.len();
        let handed_back = lift_by(self, lifts, worker, workers);
        self.turn_lifted(worker, handed_back, None, most, spares, taken)
    }

    /// The rest of a turn for a worker, behind the lifting, by which the batches of these workers came back: a bit for each. Where the replies to all that waits, which are reads,
    /// were prepared, they may be taken.
    pub(crate) fn turn_lifted(
        &mut self,
        worker: usize,
        handed_back: u16,
        prepared: Option<Prepared<B>>,
        most: usize,
        spares: &mut Spares,
        taken: &mut Vec<LastPiece>,
    ) -> Told<B>
        requires some { 0 < most }
        requires ready { IfSome prepared (AreReadyFor (items_of self.old.node.replica.waiting)) }
        ensures turned { (which : Lifts) (c : CombinerState) → HasLiftedBy which worker c self.old → HasTurned B.places worker which most taken.old.items taken.new.items result.turned result.token.standing result.note c self.new }
        ensures down { (result.turned.combined ≡ Ok Round.Down) ↔ (self.new.node.replica.down ≡ true) }
        ensures answered { result.turned.answered ≡ min (length (desk_of self.new.seat worker).answered) (2 ^ 64 - 1) }
        ensures since { result.turned.since ≡ self.new.counts.since }
        ensures served { (numbers : List ℕ) × IsServed self.new.node self.new.seat numbers }
        ensures sound { IsSound result.token.standing }
        ensures node { result.token.standing.node ≡ self.old.node.book.node }
        ensures named { result.note.slots ≡ B.slots self.old.node.book.node }
    {
        let combined = self.combine_lifted(prepared, spares);
        let told = self.collect_pieces(worker, most, spares, taken);
        let others = self.others(worker, handed_back | combined.answered);
        let turned = Turned {
            combined: combined.round,
            collected: told.collected.result,
            is_behind: combined.is_behind,
            answered: told.collected.answered,
            has_put: combined.has_put,
            others,
            has_cut: told.collected.has_cut,
            since: told.collected.since,
        };
        Told {
            turned,
            token: told.token,
            note: told.note,
        }
    }

    /// [`Core::lend`] of its node.
    pub(crate) fn lend(&mut self) -> Option<Loan<B>>
        ensures lent { IfSome result (λ loan. HasLent loan self.old.node self.new.node) }
        ensures node { IfSome result (λ loan. loan.node ≡ self.old.node.book.node) }
        ensures none { IfNone result (self.new.node.replica ≡ self.old.node.replica) }
        ensures same { LooksAtTail self.old.node self.new.node × (self.new.seat ≡ self.old.seat) × (self.new.counts ≡ self.old.counts) }
    {
        self.core.lend()
    }

    /// Lifts a worker's batch, as a turn with its own slot does. The number of the batch, where it was taken in and nothing but its jobs waits then.
    pub(crate) fn lift_alone(&mut self, worker: usize) -> Option<u64>
        ensures lifted { HasLiftedOwn worker self.old self.new }
        ensures alone { IfSome result (λ number. HoldsAlone worker number self.old self.new) }
    {
        if self.numbers.len() <= worker {
            return None;
        }
        let is_idle = self.core.is_idle();
        let lifted = self.lift(worker);
        where_idle(is_idle, lifted.taken)
    }

    /// A note that keeps what it has done at the slots of its workers: one load.
    pub(crate) fn note(&mut self) -> Note
        ensures kept { result ≡ note_of self.old.seat }
        ensures named { result.slots ≡ B.slots self.old.node.book.node }
        ensures same { self.new ≡ self.old }
    {
        self.seat.note(&self.slots)
    }

    /// Adds those of these connections for which nothing more comes to wait: they were closed, or their queues were cut. Logarithmic for each. Where memory runs
    /// out the last of them are left out.
    pub fn cut_among(&self, conns: &[ConnId], cut: &mut Vec<ConnId>) -> Result<(), Memory>
        ensures all { OnOk result (cut.new.items ≡ cut.old.items ++ filter (is_cut_at self.now.node) conns.now) }
        ensures front { OnErr result ((left : List ConnId) × ListsFront (filter (is_cut_at self.now.node) conns.now) cut.old.items cut.new.items left) }
    {
        add_cut(&self.core, conns, cut)
    }

    /// [`Core::offer`] of its node.
    pub fn offer(&mut self) -> Result<NodeOffer<B>, OfferError>
        ensures copied { IfOk result (λ offer. offer ≡ record { server = self.old.node.replica.server; standing = self.old.node.seat.standing }) }
        ensures offered { IfOk result IsOffered }
        ensures down { (result ≡ Err offers.Down) ↔ (self.old.node.replica.down ≡ true) }
        ensures same { IsStill self.old.node self.new.node × (self.new.seat ≡ self.old.seat) × (self.new.counts ≡ self.old.counts) }
    {
        self.core.offer()
    }

    /// [`Core::revive`] of its node. From then on a batch with a job of one of the connections that the node has now is answered as one that its fall dropped, unless
    /// that ends the connection.
    ///
    /// # Errors
    ///
    /// Those of [`Core::revive`].
    pub fn revive(&mut self, offer: NodeOffer<B>) -> Result<(), (NodeOffer<B>, ReviveError)>
        ensures revived { OnOk result ((revive_refusal self.old.node offer ≡ None) × ComesBack offer self.old self.new) }
        ensures refused { IfErr result (λ back. ((revive_refusal self.old.node offer ≡ Some back.1) × (self.new ≡ self.old)) ⊎ ((revive_refusal self.old.node offer ≡ None) × (back.1 ≡ ReviveError.NotYet) × IsNotBack offer self.old self.new)) }
        ensures back { IfErr result (λ back. back.0 ≡ offer) }
    {
        if let Err(back) = self.core.revive(offer) {
            return Err(back);
        }
        self.counts.come_back(self.core.connections());
        self.is_halted = false;
        Ok(())
    }

    /// From now on the node, where it is down, passes nothing, until it goes on or comes back.
    pub(crate) fn halt(&mut self)
        ensures { self.new ≡ self.old }
    {
        self.is_halted = true;
    }

    /// It passes what there is again.
    pub(crate) fn go_on(&mut self)
        ensures { self.new ≡ self.old }
    {
        self.is_halted = false;
    }

    /// The first connection after one, by serial, of those that the node had as it came back last, that this worker serves, and of which a job was taken, but not its
    /// end: with the number of its next job. Its cost is that of [`Core::next_unended`].
    pub fn next_unended(&self, worker: usize, last: Option<u64>) -> Option<Unended>
        ensures found { IfSome result (λ one. IsUnendedAt worker last one self.now) }
        ensures serves { IfSome result (λ one. (one.serial < length self.now.node.replica.members) × (worker_at one.serial self.now.node.replica.members ≡ worker)) }
        ensures handed_in { IfSome result (λ one. HasJobOf (connection_at self.now.node.book.node one.serial) (desk_of self.now.seat worker).lifted) }
        ensures none { IfNone result ((other : ℕ) → ComesAfter last other → other < self.now.counts.since → is_unended worker (finmap.get self.now.node.book.held other) ≡ false) }
    {
        let unended = self.core.next_unended(worker, last)?;
        if unended.serial >= self.since() {
            return None;
        }
        Some(unended)
    }

    /// The next entry that the node applies is refused, as where memory runs out: then its replica falls. Where it is down, nothing is done. It is for tests.
    pub fn refuse(&mut self)
        ensures { self.new ≡ record self.old { node = refusing_node self.old.node } }
    {
        self.core.refuse();
    }

    // Whether a queue of the worker's connections was cut since this was last asked.
    fn take_cut(&mut self, worker: usize) -> bool
        ensures { self.new ≡ self.old }
    {
        self.core.take_cut(worker)
    }

    // How many batches of a worker were answered, as far as a u64 counts.
    fn answered(&self, worker: usize) -> u64
        ensures { result ≡ min (length (desk_of self.now.seat worker).answered) (2 ^ 64 - 1) }
    {
        self.seat.answered(worker)
    }

    // The other workers that were answered, which are these, or for which bytes wait: a bit for each.
    fn others(&self, worker: usize, answered: u16) -> u16 {
        let mut others = answered;
        for other in 0..self.numbers.len() {
            others = marked(others, other, self.core.has_ready(other));
        }
        others & !marked(0, worker, true)
    }

    // A token and a note that keep how it stands.
    pub(crate) fn keep(&mut self) -> (Token<B>, Note)
        ensures token { (result.0.standing ≡ self.old.node.seat.standing) × IsSound result.0.standing × (result.0.standing.node ≡ self.old.node.book.node) }
        ensures opened { workers_of self.old.node.replica.members ≡ opened_of result.0.standing.history }
        ensures note { (result.1 ≡ note_of self.old.seat) × (result.1.slots ≡ B.slots self.old.node.book.node) }
        ensures still { IsStill self.old.node self.new.node × (self.new.seat ≡ self.old.seat) × (self.new.counts ≡ self.old.counts) }
        ensures served { (numbers : List ℕ) × IsServed self.new.node self.new.seat numbers }
    {
        let token = self.core.token();
        let note = self.seat.note(&self.slots);
        (token, note)
    }

    /// A turn of the combiner: it lifts the batches that its workers offer, one each, and takes in their jobs; puts one entry of updates into the log, those of an
    /// entry that found no place before, else the first that lead, at most 1,024; applies and passes the entries that are there, and runs the reads that lead
    /// behind them; and answers the batches that are executed.
    ///
    /// It is [`Round::Done`] where the entry that was due stands in the log, or none was, and the reads that led were run: more updates may lead, which the next
    /// turn takes. It is [`Round::Full`] or [`Round::Again`] where updates go on waiting, as the next turn will find them, and no read was run before them;
    /// [`Round::NotYet`] where an entry isn't filled yet; [`Round::Down`] where the replica is down, or fell, with which all that waited is lost. An error for want
    /// of memory loses no job. Its cost is that of its steps: two loads for each worker, and then for each job and each entry what it costs there.
    pub fn combine(&mut self) -> Result<Round, Memory>
        ensures combined { (behind : Bool) × HasCombined B.places Lifts.All 0 result behind self.old self.new }
        ensures down { (result ≡ Ok Round.Down) ↔ (self.new.node.replica.down ≡ true) }
    {
        let workers = self.numbers.len();
        let mut spares = Spares::new(self.alloc);
        lift_all(self, workers);
        self.combine_lifted(None, &mut spares).round
    }

    // So it goes on behind the lifting. Where the replies to all that waits, which are reads, were prepared, they may be taken.
    fn combine_lifted(&mut self, prepared: Option<Prepared<B>>, spares: &mut Spares) -> Combined
        requires ready { IfSome prepared (AreReadyFor (items_of self.old.node.replica.waiting)) }
        ensures combined { (which : Lifts) (worker : ℕ) (c : CombinerState) → HasLiftedBy which worker c self.old → HasCombined B.places which worker result.round result.is_behind c self.new }
        ensures down { (result.round ≡ Ok Round.Down) ↔ (self.new.node.replica.down ≡ true) }
    {
        let workers = self.numbers.len();
        let was_due = self.core.is_due();
        let tried = try_to_reserve(&mut self.core);
        let looked = look(&mut self.core, self.is_halted, prepared, spares);
        let answered = answer_all(self, workers);
        Combined {
            round: outcome(tried, looked.round),
            is_behind: looked.is_behind,
            has_put: has_put(was_due, tried),
            answered,
        }
    }

    // Whether there is room for a connection that this worker serves, where so many may be open.
    fn has_room(&self, worker: usize, most: usize) -> bool
        ensures room { result ≡ true → HasRoom worker most self.now }
        ensures full { result ≡ false → HasRoom worker most self.now → ⊥ }
    {
        self.counts.unclosed() < most && worker < self.numbers.len()
    }

    // Lifts a worker's batch, if one is offered, and takes its jobs in, or answers it where it is refused. Which of these it does.
    fn lift(&mut self, worker: usize) -> Lifted
        requires { worker < length self.old.seat.desks }
        ensures lifted { HasLifted worker self.old self.new }
        ensures taken { IfSome result.taken (λ number. HasTakenIn worker number self.old self.new) }
    {
        let Some(batch) = self.seat.lift(&self.slots, worker) else {
            return Lifted {
                is_handed_back: false,
                taken: None,
            };
        };
        let number = batch.number;
        let since = self.counts.since();
        let Err((batch, why)) = take_in(&mut self.core, worker, since, batch) else {
            self.numbers[worker] = number;
            return Lifted {
                is_handed_back: false,
                taken: Some(number),
            };
        };
        hand_back(&mut self.seat, &self.slots, worker, batch, why);
        Lifted {
            is_handed_back: true,
            taken: None,
        }
    }

    // Answers a worker's batch, once it is known what became of it. Whether it is.
    fn answer(&mut self, worker: usize) -> bool
        requires { worker < length self.old.seat.desks }
        ensures answered { HasAnswered worker self.old self.new }
    {
        let Some(outcome) = self.core.answer(worker) else {
            return false;
        };
        let answer = Answer {
            node: self.node,
            worker,
            batch: self.numbers[worker],
            outcome,
        };
        self.seat.answer(&self.slots, worker, answer);
        true
    }
}

// The worker that serves a connection of the node, where it isn't closed.
fn open_worker<B: LogName>(core: &Core<B>, conn: ConnId) -> Option<usize>
    ensures some { IfSome result (λ worker. IsOpened core.now (connection_of conn) × (is_closed_at conn.serial core.now.replica.members ≡ false) × (worker ≡ worker_at conn.serial core.now.replica.members)) }
    ensures none { IfNone result (IsOpened core.now (connection_of conn) × (is_closed_at conn.serial core.now.replica.members ≡ false) → ⊥) }
{
    if !core.is_open(conn) {
        return None;
    }
    core.worker_of(conn)
}

// Lifts a batch of each worker, of which there are so many, or of this one alone, and tells whose were handed back.
fn lift_by<B: ServerName>(
    combiner: &mut Combiner<B>,
    lifts: Lifts,
    worker: usize,
    workers: usize,
) -> u16
    requires { workers ≡ length combiner.old.seat.desks }
    ensures { HasLiftedBy lifts worker combiner.old combiner.new }
{
    match lifts {
        Lifts::All => lift_all(combiner, workers),
        Lifts::Own => lift_own(combiner, worker, workers),
    }
}

// Lifts a batch of this worker, where there is such a one among so many, and tells whose was handed back.
fn lift_own<B: ServerName>(combiner: &mut Combiner<B>, worker: usize, workers: usize) -> u16
    requires { workers ≡ length combiner.old.seat.desks }
    ensures { HasLiftedOwn worker combiner.old combiner.new }
{
    if worker >= workers {
        return 0;
    }
    let lifted = combiner.lift(worker);
    marked(0, worker, lifted.is_handed_back)
}

// Lifts a batch of each worker, and tells whose were handed back.
fn lift_all<B: ServerName>(combiner: &mut Combiner<B>, workers: usize) -> u16
    requires { workers ≡ length combiner.old.seat.desks }
    ensures { HasLiftedAll workers combiner.old combiner.new }
{
    let mut handed_back = 0;
    for worker in 0..workers {
        let lifted = combiner.lift(worker);
        handed_back = marked(handed_back, worker, lifted.is_handed_back);
    }
    handed_back
}

// Answers all batches of which it is known what became of them, and tells whose these are.
fn answer_all<B: ServerName>(combiner: &mut Combiner<B>, workers: usize) -> u16
    requires { workers ≡ length combiner.old.seat.desks }
    ensures { HasAnsweredAll workers combiner.old combiner.new }
{
    let mut answered = 0;
    for worker in 0..workers {
        let is_answered = combiner.answer(worker);
        answered = marked(answered, worker, is_answered);
    }
    answered
}

// The bits, with that of a worker where it is to be set.
fn marked(bits: u16, worker: usize, is_set: bool) -> u16 {
    if is_set && worker < 16 {
        bits | (1 << worker)
    } else {
        bits
    }
}

// Whether an entry was put into the log, by whether one was due.
fn has_put(was_due: bool, tried: Result<Round, Memory>) -> bool {
    was_due && matches!(tried, Ok(Round::Done))
}

// Adds those of these connections for which nothing more comes to wait.
fn add_cut<B: LogName>(
    core: &Core<B>,
    conns: &[ConnId],
    cut: &mut Vec<ConnId>,
) -> Result<(), Memory>
    ensures all { OnOk result (cut.new.items ≡ cut.old.items ++ filter (is_cut_at core.now) conns.now) }
    ensures front { OnErr result ((left : List ConnId) × ListsFront (filter (is_cut_at core.now) conns.now) cut.old.items cut.new.items left) }
{
    for conn in conns {
        add_if_cut(core, conn, cut)?;
    }
    Ok(())
}

// Adds a connection, where nothing more comes to wait for it.
fn add_if_cut<B: LogName>(
    core: &Core<B>,
    conn: &ConnId,
    cut: &mut Vec<ConnId>,
) -> Result<(), Memory>
    ensures added { OnOk result (cut.new.items ≡ cond (is_cut_at core.now conn.now) (cut.old.items ++ conn.now ∷ []) cut.old.items) }
    ensures same { OnErr result (cut.new.items ≡ cut.old.items) }
{
    if !core.is_cut(*conn) {
        return Ok(());
    }
    cut.push(*conn)?;
    Ok(())
}

// Whether one of these jobs is of a connection with a lower serial than this, and doesn't end it. Linear in them.
#[tactic(auto, using(crate::proofs::Due::lost_by))]
fn has_lost(jobs: &[Job], since: u64) -> bool
    ensures { result ≡ has_lost since (items_of jobs.now) }
{
    any_lost(jobs, since)
}

// The same, said of the jobs themselves.
fn any_lost(jobs: &[Job], since: u64) -> bool
    ensures { result ≡ list_any (λ (job : Job). is_lost since (item_of job)) jobs.now }
{
    jobs.iter().any(|job| is_lost(job, since))
}

// Whether it is of a connection with a lower serial than this, and doesn't end it.
fn is_lost(job: &Job, since: u64) -> bool
    ensures { result ≡ is_lost since (item_of job.now) }
{
    job.conn.serial < since && !job.kind.is_end()
}

// Takes in a batch that lay in a worker's slot, of a node that had so many connections as it came back last.
fn take_in<B: LogName>(
    core: &mut Core<B>,
    worker: usize,
    since: u64,
    batch: Batch,
) -> Result<(), (Batch, TakeError)>
    requires idle { owed_at worker core.old ≡ None }
    ensures taken { OnOk result (core.new ≡ taken_node batch core.old) }
    ensures served { OnOk result (AllByRecursion (IsServedBy worker core.old.replica.members) (items_of batch.jobs.items)) }
    ensures due { OnOk result (refusal_at worker since core.old batch ≡ None) }
    ensures refused { IfErr result (λ r. IsRefusedFor worker since core.old batch r.1) }
    ensures back { IfErr result (λ r. AreSame r.0 batch) }
    ensures unchanged { OnErr result (core.new ≡ core.old) }
{
    if core.is_down() || has_lost(&batch.jobs, since) {
        return Err((batch, TakeError::Down));
    }
    if batch.worker != worker {
        return Err((batch, TakeError::Stranger));
    }
    core.take_batch(batch)
}

// Tries to put the updates that lead into the log.
fn try_to_reserve<B: LogName>(core: &mut Core<B>) -> Result<Round, Memory>
    ensures { HasTried B.places result core.old core.new }
{
    core.reserve()
}

// What a turn came to: the replica is down; or else memory ran out; or updates go on waiting; or what the look came to.
fn outcome(tried: Result<Round, Memory>, looked: Result<Round, Memory>) -> Result<Round, Memory>
    ensures { result ≡ outcome_of tried looked }
{
    let looked = looked?;
    if matches!(looked, Round::Down) {
        return Ok(Round::Down);
    }
    match tried? {
        Round::Done => Ok(looked),
        Round::Full => Ok(Round::Full),
        Round::Again | Round::NotYet | Round::Down => Ok(Round::Again),
    }
}

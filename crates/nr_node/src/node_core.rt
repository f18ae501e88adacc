// What all workers of a node share.
ghost use Rattle.std.specs.Prelude.{◌≡◌, ◌≢◌, ◌↔◌, ◌⊎◌, ◌+◌, ◌++◌, ◌<◌, ◌≤◌, [], ℕ, List, length, true, false, cond, is_some, Ok, Err, Some, None, IfOk, IfErr, IfSome, IfNone, OnOk, OnErr, slice_index_or};
ghost use Rattle.std.specs.FinMap as finmap;
ghost use Rattle.std.specs.List.{AllByRecursion, range_with_len};
ghost use Rattle.nr_job_numbers.specs.Stored.{is_unended, numbers_in, ComesAfter};
ghost use Rattle.nr_model.specs.Entries.{read_jobs};
ghost use Rattle.nr_entry.specs.Jobs.{connection_of, items_of};
ghost use Rattle.nr_entry.specs.declared.entry.Entry.{Entry};
ghost use Rattle.nr_entry.specs.declared.job.Job.{Job};
ghost use Rattle.nr_blob.specs.declared.memory.Memory.{Memory};
ghost use Rattle.nr_log_end.specs.Standings.{opened_of, passed_of};
ghost use Rattle.nr_log_end.specs.Tries.{IsFull, IsLost};
ghost use Rattle.nr_oplog.specs.Rule.{opening_view};
ghost use Rattle.nr_replica.specs.Members.{next_ready, worker_of};
ghost use Rattle.nr_replica.specs.declared.offer.OfferError.TheVariants as offers;
ghost use Rattle.nr_node.specs.Level.{all_jobs, connection_at, queue_at, is_closed_at, worker_at, workers_of, IsLevel};
ghost use Rattle.nr_node.specs.Advanced.{HasStopped};
ghost use Rattle.nr_node.specs.Batches.{AreSame, refusal, is_cut_at, IsOpened, IsPiece};
ghost use Rattle.nr_node.specs.Collected.{IsHanded};
ghost use Rattle.nr_node.specs.Lending.{AreReadyFor, HasLent, LooksAtTail};
ghost use Rattle.nr_node.specs.Owing.{answer_of, answered_node, IsServedBy, HasAllExecuted};
ghost use Rattle.nr_node.specs.Revived.{IsOffered, HasRevived, IsNotYet, revive_refusal};
ghost use Rattle.nr_node.specs.Sound.{IsSound};
ghost use Rattle.nr_node.specs.Steps.{fresh_node, closed_node, taken_node, refusing_node, is_due, HasOpened, HasReserved, GoesOnWaiting, HasNoneDue, GoesOnBy, HasRead, IsStill, HasHandedOut};

use crate::advancing::catch_up;
use crate::answers::{Looked, OpenError, Round, TakeError, take_error};
use crate::collecting::LastPiece;
use crate::lending::{Loan, Prepared, lend};
use crate::next::Next;
use crate::own_entries::{EntryPut, OwnEntries};
use crate::reading::read;
use crate::reserving::{put_in, take_shares};
use crate::reviving::{NodeOffer, ReviveError, come_back, is_busy, reach};
use nr_blob::Memory;
use nr_entry::{Batch, ConnId, Outcome, Setup};
use nr_job_numbers::{JobNumbers, Unended};
use nr_log_end::{Load, LogEnd};
use nr_oplog::{End, LogName, Token};
use nr_replica::{OfferError, Piece, Replica, Spares};
use std::alloc::Global;
use std::hash::RandomState;
use std::marker::Model;

/// A node without its lock: its replica, its end of the operation log, and the accounts of its batches. Whatever other nodes do, between two calls the replica
/// is the sequential Redis after the record of its end, or is down.
#[derive(Drop)]
pub struct Core<B: LogName> {
    alloc: Global,
    // How many nodes the log has.
    nodes: usize,
    end: End<B>,
    kept: OwnEntries,
    replica: Replica,
    accounts: JobNumbers,
    next: Option<Next>,
}

impl<B: LogName> Model for Core<B> {
    ghost use Rattle.std.specs.Prelude.{◌≡◌, ◌<◌, None};
    ghost use Rattle.nr_log_end.specs.Standings.{IsAllFilled};
    ghost use Rattle.nr_node.specs.OwnEntries.{AreLast};
    ghost use Rattle.nr_node.specs.Level.{NodeState, coded_node};
    ghost use Rattle.nr_node.specs.Next.{jobs_next};
    ghost use Rattle.nr_node.specs.Kept.{IsKept};

    ghost Value = { NodeState };

    ghost coded = { coded_node };

    ghost view = { λ c. record { seat = c.end; replica = c.replica; book = c.accounts; next = jobs_next c.next } };

    ghost invariant = { λ c. IsKept c.end.standing c.replica c.accounts c.next c.nodes × (c.end.standing.held ≡ None) × IsAllFilled c.end.standing
        × (c.nodes ≡ c.end.standing.nodes) × (0 < c.nodes) × AreLast c.kept c.end };
}

impl<B: LogName> Core<B> {
    /// A node of that number of a server so large, with no key and no connection. Strangers choose the keys, so the hasher takes a seed of its own.
    pub fn new(
        alloc: Global,
        keys: RandomState,
        end: End<B>,
        node: usize,
        setup: Setup,
    ) -> Result<Core<B>, Memory>
        requires end { end ≡ opening_view B.nodes B.places node (node + 1) }
        requires nodes { setup.nodes ≡ B.nodes }
        ensures { IfOk result (λ core. core ≡ fresh_node end node setup.workers) }
    {
        let nodes = setup.nodes();
        let workers = setup.workers();
        Ok(Core {
            alloc,
            nodes,
            replica: Replica::new(alloc, keys, node, workers)?,
            accounts: JobNumbers::new(alloc, node, workers)?,
            next: None,
            end,
            kept: OwnEntries::new(alloc),
        })
    }

    /// Whether the replica is down.
    pub fn is_down(&self) -> bool
        ensures { result ≡ self.now.replica.down }
    {
        self.replica.is_down()
    }

    /// The level at which it stands: how many entries of the log it has passed, by no load. Whatever other threads do, a replica that is up is the sequential Redis after the
    /// record of its end, and what waits for each connection is what that record emits for it behind what was handed out: all of it, where the replica is up and the
    /// queue isn't cut.
    pub fn level(&self) -> u64
        ensures passed { result ≡ passed_of self.now.seat.standing }
        ensures level { IsLevel self.now.seat.standing self.now.replica }
    {
        self.end.passed()
    }

    /// Its replica, with a token that keeps how its end of the log stood: they are level.
    pub fn into_replica(self) -> (Replica, Token<B>)
        ensures replica { result.0 ≡ self.replica }
        ensures kept { result.1.standing ≡ self.seat.standing }
        ensures level { IsLevel self.seat.standing self.replica }
        ensures sound { IsSound self.seat.standing }
    {
        let mut core = self;
        let token = core.token();
        core.level();
        let Core { replica, .. } = core;
        (replica, token)
    }

    /// Opens a connection that one of the node's workers serves, for which at most `limit` bytes wait, and notes at its end of the log which worker that is, by one
    /// load. Logarithmic.
    pub fn open(&mut self, worker: u8, limit: usize) -> Result<ConnId, OpenError>
        requires { worker < length self.old.replica.owed }
        ensures conn { IfOk result (λ conn. connection_of conn ≡ connection_at self.old.replica.node (length self.old.replica.members)) }
        ensures node { IfOk result (λ conn. conn.node ≡ self.old.book.node) }
        ensures opened { OnOk result (HasOpened limit worker self.old self.new) }
        ensures unchanged { OnErr result (self.new ≡ self.old) }
        ensures new { IfOk result (λ conn. finmap.get self.old.book.held conn.serial ≡ None) }
        ensures down { (result ≡ Err OpenError.Down) ↔ (self.old.replica.down ≡ true) }
        ensures room { result ≡ Err OpenError.TooMany → ⊥ }
    {
        if self.replica.is_down() {
            return Err(OpenError::Down);
        }
        let serial = self.replica.connections() as u64;
        if let Err(memory) = self.accounts.open(serial, worker) {
            return Err(OpenError::Memory(memory));
        }
        match self.replica.open(worker as usize, limit) {
            Ok(conn) => {
                self.end.note_opened(worker);
                Ok(conn)
            }
            Err(memory) => {
                self.accounts.forget(serial);
                Err(OpenError::Memory(memory))
            }
        }
    }

    /// Which worker serves a connection of the node, whether it was closed or not; `None` of one that wasn't opened here. Constant.
    pub fn worker_of(&self, conn: ConnId) -> Option<usize>
        ensures some { IfSome result (λ worker. IsOpened self.now (connection_of conn) × (worker ≡ worker_at conn.serial self.now.replica.members)) }
        ensures none { IfNone result (IsOpened self.now (connection_of conn) → ⊥) }
    {
        if !self.has(conn) {
            return None;
        }
        Some(self.replica.worker(conn.serial as usize))
    }

    /// Whether a connection is the node's, was opened, and isn't closed. Logarithmic.
    pub fn is_open(&self, conn: ConnId) -> bool
        ensures { (result ≡ true) ↔ (IsOpened self.now (connection_of conn) × (is_closed_at conn.serial self.now.replica.members ≡ false)) }
    {
        self.has(conn) && !self.replica.is_closed(conn.serial as usize)
    }

    /// Closes a connection: what waits for it is dropped, and it gets nothing more. One that isn't the node's is passed over. Logarithmic.
    pub fn close(&mut self, conn: ConnId)
        ensures closed { IsOpened self.old (connection_of conn) → self.new ≡ closed_node conn.serial self.old }
        ensures other { (IsOpened self.old (connection_of conn) → ⊥) → self.new ≡ self.old }
    {
        if !self.has(conn) {
            return;
        }
        self.replica.close(conn.serial as usize);
    }

    /// Takes in the batch of a worker that waits for no answer: its jobs wait behind the others. Logarithmic in the connections for each job. A batch that is
    /// refused comes back, and nothing changes: that the replica is down is told first, then the others in the order of [`TakeError`]'s, and want of memory
    /// last.
    pub fn take_batch(&mut self, batch: Batch) -> Result<(), (Batch, TakeError)>
        requires idle { slice_index_or self.old.replica.owed batch.worker None ≡ None }
        ensures taken { OnOk result (self.new ≡ taken_node batch self.old) }
        ensures due { OnOk result (refusal self.old batch ≡ None) }
        ensures served { OnOk result (AllByRecursion (IsServedBy batch.worker self.old.replica.members) (items_of batch.jobs.items)) }
        ensures refused { IfErr result (λ r. (refusal self.old batch ≡ Some r.1) ⊎ ((refusal self.old batch ≡ None) × ((memory : Memory) × (r.1 ≡ TakeError.Memory memory)))) }
        ensures back { IfErr result (λ r. AreSame r.0 batch) }
        ensures unchanged { OnErr result (self.new ≡ self.old) }
    {
        if self.replica.is_down() {
            return Err((batch, TakeError::Down));
        }
        let before = match self.accounts.take(&batch) {
            Ok(before) => before,
            Err(why) => return Err((batch, take_error(why))),
        };
        let Batch {
            node,
            worker,
            number,
            jobs,
        } = batch;
        match self.replica.lift(worker, jobs) {
            Ok(()) => Ok(()),
            Err((jobs, memory)) => {
                let batch = Batch {
                    node,
                    worker,
                    number,
                    jobs,
                };
                self.accounts.give_back(&batch, before);
                Err((batch, TakeError::Memory(memory)))
            }
        }
    }

    /// What became of the batch that was taken last from a worker, once it is known, or `None` where a job of it is owed, or it was told before.
    pub fn answer(&mut self, worker: usize) -> Option<Outcome>
        requires { worker < length self.old.replica.owed }
        ensures outcome { result ≡ answer_of self.old worker }
        ensures answered { IfSome result (λ _. self.new ≡ answered_node worker self.old) }
        ensures waits { IfNone result (self.new ≡ self.old) }
        ensures executed { result ≡ Some Outcome.Executed → HasAllExecuted worker self.new }
    {
        let Some(outcome) = self.outcome(worker) else {
            return None;
        };
        self.replica.answered(worker);
        Some(outcome)
    }

    /// Puts the updates that lead into the log, at most 1,024 of them in one entry: first those of an entry that found no place before. Its cost is that of
    /// [`Waiting::lend_updates`](nr_entry::Waiting::lend_updates), and some loads and stores for each node. An error for want
    /// of memory loses no job.
    pub fn reserve(&mut self) -> Result<Round, Memory>
        ensures done { result ≡ Ok Round.Done → ((at : ℕ) × (entry : Entry) × HasReserved at entry self.old self.new) ⊎ HasNoneDue self.old self.new }
        ensures full { result ≡ Ok Round.Full → GoesOnWaiting self.old self.new }
        ensures again { result ≡ Ok Round.Again → GoesOnWaiting self.old self.new }
        ensures met_full { result ≡ Ok Round.Full → IsFull self.old.seat.standing self.old.seat.looks B.places self.new.seat.standing self.new.seat.looks }
        ensures met_lost { result ≡ Ok Round.Again → IsLost self.old.seat.standing self.old.seat.looks self.new.seat.standing self.new.seat.looks }
        ensures not_yet { result ≢ Ok Round.NotYet }
        ensures is_down { (result ≡ Ok Round.Down) ↔ (self.old.replica.down ≡ true) }
        ensures down { result ≡ Ok Round.Down → self.new ≡ self.old }
        ensures memory { OnErr result ((self.new ≡ self.old) ⊎ GoesOnWaiting self.old self.new) }
        ensures looks { (more : List Load) × (self.new.seat.looks ≡ self.old.seat.looks ++ more) }
    {
        if self.replica.is_down() {
            return Ok(Round::Down);
        }
        let shares = take_shares(self.alloc, self.nodes, &mut self.replica, &mut self.next)?;
        let Some(shares) = shares else {
            return Ok(Round::Done);
        };
        match put_in(&mut self.end, &mut self.kept, self.nodes, shares) {
            EntryPut::Taken(_) => Ok(Round::Done),
            EntryPut::Full(shares) => {
                self.next = Some(Next::Shared(shares));
                Ok(Round::Full)
            }
            EntryPut::Lost(shares) => {
                self.next = Some(Next::Shared(shares));
                Ok(Round::Again)
            }
            EntryPut::Refused(shares, memory) => {
                self.next = Some(Next::Shared(shares));
                Err(memory)
            }
        }
    }

    /// Applies and passes all entries that there are when it begins, and the next one where that is there, and runs no read. It stops where one isn't filled yet,
    /// and where much waits for a connection, until that was handed out: see [`Replica::holds_back`](nr_replica::Replica::holds_back). While its server is lent it takes
    /// none in: it waits some 50 microseconds for the loans to end, where there are entries, and stops where one is still out. A node that is down passes
    /// them too, and stops for nothing that waits. The account of each connection whose end is among them goes. Where the node falls over one of them, what it has
    /// lifted and not reserved is dropped, and the account of each connection that has a job there goes back to the first of these: linear in the accounts, times
    /// the runs of jobs that wait and the jobs of an entry. It is never an error for want of memory.
    pub fn catch_up(&mut self) -> Looked
        ensures goes { (entries : List Entry) × ((tail : ℕ) × GoesOnBy entries [] tail self.old self.new × (result.is_behind ≡ false → tail ≤ passed_of self.new.seat.standing) × (result.is_behind ≡ true → passed_of self.new.seat.standing < tail)) }
        ensures done { (result.round ≡ Ok Round.Done) ↔ ((result.is_behind ≡ false) × (self.new.replica.down ≡ false)) }
        ensures not_yet { (result.round ≡ Ok Round.NotYet) ↔ ((result.is_behind ≡ true) × (self.new.replica.down ≡ false)) }
        ensures down { (result.round ≡ Ok Round.Down) ↔ (self.new.replica.down ≡ true) }
        ensures stopped { result.is_behind ≡ true → HasStopped self.old.seat.looks self.new.seat self.new.replica }
        ensures waiting { self.new.replica.down ≡ false → (self.old.replica.down ≡ false) × (self.new.replica.waiting ≡ self.old.replica.waiting) × (self.new.next ≡ self.old.next) }
    {
        let reached = catch_up(
            &mut self.end,
            &mut self.kept,
            &mut self.replica,
            &mut self.accounts,
            &mut self.next,
        );
        let is_behind = !reached;
        Looked {
            round: Ok(came_to(self.replica.is_down(), is_behind)),
            is_behind,
        }
    }

    /// Applies and passes all entries that there are when it begins, as [`Core::catch_up`] does, and then runs the reads that lead, all of which it notes behind
    /// them. They are run only where all those entries were passed, and where no entry of the node's own found no place: so none runs before an update of its
    /// connection. Where memory runs out none is run. A node that is down passes the entries that are there, executes none, and runs no read. What becomes
    /// of the accounts is as there.
    pub fn look(&mut self) -> Looked
        ensures goes { (entries : List Entry) × ((ran : List Job) × ((tail : ℕ) × GoesOnBy entries ran tail self.old self.new × (result.round ≡ Ok Round.Done → HasRead ran tail self.old self.new) × (result.round ≢ Ok Round.Done → ran ≡ []) × (result.is_behind ≡ false → tail ≤ passed_of self.new.seat.standing) × (result.is_behind ≡ true → passed_of self.new.seat.standing < tail))) }
        ensures not_yet { (result.round ≡ Ok Round.NotYet) ↔ ((result.is_behind ≡ true) × (self.new.replica.down ≡ false)) }
        ensures down { (result.round ≡ Ok Round.Down) ↔ (self.new.replica.down ≡ true) }
        ensures stopped { result.is_behind ≡ true → HasStopped self.old.seat.looks self.new.seat self.new.replica }
        ensures waiting { result.round ≢ Ok Round.Done → self.new.replica.down ≡ false → (self.new.replica.waiting ≡ self.old.replica.waiting) × (self.new.next ≡ self.old.next) }
        ensures again { result.round ≡ Ok Round.Again → self.old.next ≢ [] }
        ensures never_full { result.round ≢ Ok Round.Full }
    {
        let mut spares = Spares::new(self.alloc);
        self.look_by(None, &mut spares)
    }

    /// [`Core::look`], where the replies to the reads that lead were prepared. They are taken where the node has passed as many entries as the one that prepared them had
    /// then; else the reads are run. Queues that give their buffers away take spare ones.
    pub fn look_with(&mut self, prepared: Prepared<B>, spares: &mut Spares) -> Looked
        requires ready { AreReadyFor (read_jobs (items_of self.old.replica.waiting)) prepared }
        ensures goes { (entries : List Entry) × ((ran : List Job) × ((tail : ℕ) × GoesOnBy entries ran tail self.old self.new × (result.round ≡ Ok Round.Done → HasRead ran tail self.old self.new) × (result.round ≢ Ok Round.Done → ran ≡ []) × (result.is_behind ≡ false → tail ≤ passed_of self.new.seat.standing) × (result.is_behind ≡ true → passed_of self.new.seat.standing < tail))) }
        ensures not_yet { (result.round ≡ Ok Round.NotYet) ↔ ((result.is_behind ≡ true) × (self.new.replica.down ≡ false)) }
        ensures down { (result.round ≡ Ok Round.Down) ↔ (self.new.replica.down ≡ true) }
        ensures stopped { result.is_behind ≡ true → HasStopped self.old.seat.looks self.new.seat self.new.replica }
        ensures waiting { result.round ≢ Ok Round.Done → self.new.replica.down ≡ false → (self.new.replica.waiting ≡ self.old.replica.waiting) × (self.new.next ≡ self.old.next) }
        ensures again { result.round ≡ Ok Round.Again → self.old.next ≢ [] }
        ensures never_full { result.round ≢ Ok Round.Full }
    {
        self.look_by(Some(prepared), spares)
    }

    // A look, where replies to the reads that lead may have been prepared.
    fn look_by(&mut self, prepared: Option<Prepared<B>>, spares: &mut Spares) -> Looked
        requires ready { IfSome prepared (AreReadyFor (read_jobs (items_of self.old.replica.waiting))) }
        ensures goes { (entries : List Entry) × ((ran : List Job) × ((tail : ℕ) × GoesOnBy entries ran tail self.old self.new × (result.round ≡ Ok Round.Done → HasRead ran tail self.old self.new) × (result.round ≢ Ok Round.Done → ran ≡ []) × (result.is_behind ≡ false → tail ≤ passed_of self.new.seat.standing) × (result.is_behind ≡ true → passed_of self.new.seat.standing < tail))) }
        ensures not_yet { (result.round ≡ Ok Round.NotYet) ↔ ((result.is_behind ≡ true) × (self.new.replica.down ≡ false)) }
        ensures down { (result.round ≡ Ok Round.Down) ↔ (self.new.replica.down ≡ true) }
        ensures stopped { result.is_behind ≡ true → HasStopped self.old.seat.looks self.new.seat self.new.replica }
        ensures waiting { result.round ≢ Ok Round.Done → self.new.replica.down ≡ false → (self.new.replica.waiting ≡ self.old.replica.waiting) × (self.new.next ≡ self.old.next) }
        ensures again { result.round ≡ Ok Round.Again → self.old.next ≢ [] }
        ensures never_full { result.round ≢ Ok Round.Full }
    {
        let reached = catch_up(
            &mut self.end,
            &mut self.kept,
            &mut self.replica,
            &mut self.accounts,
            &mut self.next,
        );
        if self.replica.is_down() {
            return Looked {
                round: Ok(Round::Down),
                is_behind: !reached,
            };
        }
        if !reached {
            return Looked {
                round: Ok(Round::NotYet),
                is_behind: true,
            };
        }
        if self.next.is_some() {
            return Looked {
                round: Ok(Round::Again),
                is_behind: false,
            };
        }
        let _ran = match read(&mut self.end, &mut self.replica, prepared, spares) {
            Ok(ran) => ran,
            Err(memory) => {
                return Looked {
                    round: Err(memory),
                    is_behind: false,
                };
            }
        };
        Looked {
            round: Ok(Round::Done),
            is_behind: false,
        }
    }

    /// A node that is down stays where it is: it loads the tail, and passes nothing, so that a copy of another node's server is at no place before its own. It goes on
    /// by [`Core::look`], or comes back. One load.
    pub fn stand_by(&mut self) -> Looked
        requires down { self.old.replica.down ≡ true }
        ensures goes { (tail : ℕ) × GoesOnBy [] [] tail self.old self.new × (result.is_behind ≡ false → tail ≤ passed_of self.new.seat.standing) × (result.is_behind ≡ true → passed_of self.new.seat.standing < tail) }
        ensures down { result.round ≡ Ok Round.Down }
        ensures still { (self.new.replica ≡ self.old.replica) × (self.new.book ≡ self.old.book) × (self.new.next ≡ self.old.next) }
    {
        let tail = self.end.tail();
        Looked {
            round: Ok(Round::Down),
            is_behind: self.end.passed() < tail,
        }
    }

    /// Lends its server, where the replica is up, no job waits, no entry is due, and all entries are passed that there are by a load of the tail. `None` too where its
    /// owners can't be counted. Constant.
    pub fn lend(&mut self) -> Option<Loan<B>>
        ensures lent { IfSome result (λ loan. HasLent loan self.old self.new) }
        ensures node { IfSome result (λ loan. loan.node ≡ self.old.book.node) }
        ensures none { IfNone result (self.new.replica ≡ self.old.replica) }
        ensures same { LooksAtTail self.old self.new }
    {
        if self.next.is_some() || !self.replica.is_idle() {
            return None;
        }
        lend(&mut self.end, &mut self.replica)
    }

    /// The first connection of the node after one, by serial, that this worker serves, and of which a job was taken, but not its end: with the number of its next job,
    /// which is how many of it are in the record, or have still to be passed, to be reserved or to be run. Its cost is that of [`JobNumbers::next_unended`].
    pub fn next_unended(&self, worker: usize, last: Option<u64>) -> Option<Unended>
        ensures found { IfSome result (λ one. ComesAfter last one.serial × (is_unended worker (finmap.get self.now.book.held one.serial) ≡ true)) }
        ensures served { IfSome result (λ one. (one.serial < length self.now.replica.members) × (worker_of self.now.replica.members (connection_at self.now.book.node one.serial) ≡ worker)) }
        ensures numbered { IfSome result (λ one. numbers_in (connection_at self.now.book.node one.serial) (all_jobs self.now.seat.standing self.now.next self.now.replica.waiting) ≡ range_with_len 0 one.next) }
        ensures some { IfSome result (λ one. 0 < one.next) }
        ensures between { IfSome result (λ one. (other : ℕ) → ComesAfter last other → other < one.serial → is_unended worker (finmap.get self.now.book.held other) ≡ false) }
        ensures none { IfNone result ((other : ℕ) → ComesAfter last other → is_unended worker (finmap.get self.now.book.held other) ≡ false) }
    {
        self.accounts.next_unended(worker, last)
    }

    /// Hands out at most so many of the first bytes that wait for a connection, and at least one, with a token that keeps of which record they are; or `None`
    /// where nothing waits, or the connection isn't the node's. Linear in them. Where memory runs out nothing changes.
    pub fn take_piece(
        &mut self,
        conn: ConnId,
        most: usize,
    ) -> Result<Option<(Piece, Token<B>)>, Memory>
        requires some { 0 < most }
        ensures piece { IfOk result (λ taken. IfSome taken (λ t. IsPiece self.old (connection_of conn) most t.0 t.1.standing)) }
        ensures none { IfOk result (λ taken. IfNone taken ((IsOpened self.old (connection_of conn) → (queue_at conn.serial self.old.replica.members).waiting ≡ []) × (self.new ≡ self.old))) }
        ensures sound { IfOk result (λ taken. IfSome taken (λ t. IsSound t.1.standing)) }
        ensures taken { IfOk result (λ taken. IfSome taken (λ t. HasHandedOut conn.serial most self.old self.new)) }
        ensures unchanged { OnErr result (self.new ≡ self.old) }
    {
        if !self.has(conn) {
            return Ok(None);
        }
        let mut spares = Spares::new(self.alloc);
        let Some(handed) = self.hand_out(conn, most, &mut spares)? else {
            return Ok(None);
        };
        let token = self.token();
        Ok(Some((handed.piece, token)))
    }

    /// Hands out at most so many of the first bytes that wait for a connection of the node, and at least one, or `None` where nothing waits. Linear in them.
    /// A queue that gives its buffer away takes a spare one. Where memory runs out nothing changes.
    pub(crate) fn hand_out(
        &mut self,
        conn: ConnId,
        most: usize,
        spares: &mut Spares,
    ) -> Result<Option<LastPiece>, Memory>
        requires some { 0 < most }
        requires opened { IsOpened self.old (connection_of conn) }
        ensures handed { IfOk result (λ taken. IfSome taken (λ one. IsHanded most conn.serial one self.old self.new)) }
        ensures none { IfOk result (λ taken. IfNone taken (((queue_at conn.serial self.old.replica.members).waiting ≡ []) × (self.new ≡ self.old))) }
        ensures unchanged { OnErr result (self.new ≡ self.old) }
    {
        let is_cut = self.replica.is_cut(conn.serial as usize);
        let serial = conn.serial as usize;
        let Some(piece) = self.replica.take_piece(serial, most, spares)? else {
            return Ok(None);
        };
        Ok(Some(LastPiece { piece, is_cut }))
    }

    /// How many connections were ever opened.
    pub fn connections(&self) -> u64
        ensures { result ≡ length self.now.replica.members }
    {
        self.replica.connections() as u64
    }

    /// The first connection that a worker serves and for which bytes wait, by serial from `from` on. Its cost is that of [`Replica::next_ready`].
    pub(crate) fn next_ready(&self, worker: usize, from: u64) -> Option<ConnId>
        requires { worker < length self.now.replica.owed }
        ensures node { IfSome result (λ conn. conn.node ≡ self.now.replica.node) }
        ensures some { IfSome result (λ conn. next_ready worker from self.now.replica.members ≡ Some conn.serial) }
        ensures none { IfNone result (next_ready worker from self.now.replica.members ≡ None) }
    {
        let serial = self.replica.next_ready(worker, from as usize)?;
        Some(ConnId {
            node: self.replica.node(),
            serial: serial as u64,
        })
    }

    /// Whether a queue of a connection that this worker serves was cut since this was last asked, by its limit or since memory was refused. It is a hint.
    pub fn take_cut(&mut self, worker: usize) -> bool
        ensures { self.new ≡ self.old }
    {
        self.replica.take_cut(worker)
    }

    /// A token that keeps how the node stands now.
    pub fn token(&mut self) -> Token<B>
        ensures kept { result.standing ≡ self.old.seat.standing }
        ensures sound { IsSound result.standing }
        ensures node { result.standing.node ≡ self.old.book.node }
        ensures opened { workers_of self.old.replica.members ≡ opened_of result.standing.history }
        ensures same { IsStill self.old self.new }
    {
        self.end.token()
    }

    /// Whether nothing more comes to wait for a connection: it was closed, or its queue was cut. One that isn't the node's isn't cut. Logarithmic.
    pub fn is_cut(&self, conn: ConnId) -> bool
        ensures { result ≡ is_cut_at self.now conn }
    {
        conn.node == self.replica.node()
            && conn.serial < self.connections()
            && self.replica.is_cut(conn.serial as usize)
    }

    /// Whether bytes wait for a connection that this worker serves, where the node has the worker.
    pub fn has_ready(&self, worker: usize) -> bool
        requires { worker < length self.now.replica.owed }
        ensures { result ≡ is_some (next_ready worker 0 self.now.replica.members) }
    {
        self.replica.next_ready(worker, 0).is_some()
    }

    /// Whether no job waits.
    pub fn is_idle(&self) -> bool
        ensures { result ≡ true → self.now.replica.waiting ≡ [] }
    {
        self.replica.is_idle()
    }

    /// Whether an entry is due: one found no place before, or an update leads.
    pub fn is_due(&self) -> bool
        ensures { result ≡ is_due self.now }
    {
        if self.next.is_some() {
            return true;
        }
        self.replica.leads_update()
    }

    /// The next entry that it applies is refused, as where memory runs out: then the replica falls. Where it is down, nothing is done.
    pub fn refuse(&mut self)
        ensures { self.new ≡ refusing_node self.old }
    {
        refuse_next(&mut self.replica);
    }

    /// A copy of its server, with which another node of the log that is down comes back: see [`Core::revive`]. Linear in what is stored and remembered.
    ///
    /// # Errors
    ///
    /// `Down` exactly where it is down, and `Memory` where there is none for the copy, of which nothing is kept.
    pub fn offer(&mut self) -> Result<NodeOffer<B>, OfferError>
        ensures copied { IfOk result (λ offer. offer ≡ record { server = self.old.replica.server; standing = self.old.seat.standing }) }
        ensures offered { IfOk result IsOffered }
        ensures down { (result ≡ Err offers.Down) ↔ (self.old.replica.down ≡ true) }
        ensures same { IsStill self.old self.new }
    {
        let server = match self.replica.offer() {
            Ok(server) => server,
            Err(why) => return Err(why),
        };
        let place = self.end.passed();
        Ok(NodeOffer {
            server,
            token: self.end.token(),
            place,
        })
    }

    /// A node that is down comes back with what another one of the log offered. It passes the entries up to the offer's place, and no further, and is up then, with
    /// the server of the offer. Nothing more comes to wait for the connections that it has. It costs the passing of these entries, and is linear in the workers and in the connections that aren't closed. It takes no memory.
    ///
    /// # Errors
    ///
    /// The offer comes back, with the first reason that holds, and nothing changes: but where it isn't yet, the entries before are passed.
    pub fn revive(&mut self, offer: NodeOffer<B>) -> Result<(), (NodeOffer<B>, ReviveError)>
        ensures revived { OnOk result ((revive_refusal self.old offer ≡ None) × HasRevived offer self.old self.new) }
        ensures refused { IfErr result (λ back. ((revive_refusal self.old offer ≡ Some back.1) × (self.new ≡ self.old)) ⊎ ((revive_refusal self.old offer ≡ None) × (back.1 ≡ ReviveError.NotYet) × IsNotYet offer self.old self.new)) }
        ensures back { IfErr result (λ back. back.0 ≡ offer) }
    {
        if let Some(why) = self.revive_refusal(&offer) {
            return Err((offer, why));
        }
        let place = offer.place();
        if !reach(
            &mut self.end,
            &self.kept,
            &mut self.replica,
            &mut self.accounts,
            &mut self.next,
            place,
        ) {
            return Err((offer, ReviveError::NotYet));
        }
        come_back(&mut self.end, &mut self.replica, offer);
        Ok(())
    }

    // Why it doesn't come back with an offer, whatever its end of the log finds.
    fn revive_refusal(&self, offer: &NodeOffer<B>) -> Option<ReviveError>
        ensures { result ≡ revive_refusal self.now offer.now }
    {
        if !self.replica.is_down() {
            return Some(ReviveError::NotDown);
        }
        if offer.place() < self.end.passed() {
            return Some(ReviveError::Behind);
        }
        if is_busy(&self.replica, self.accounts.workers()) {
            return Some(ReviveError::Busy);
        }
        None
    }

    // Whether a connection is the node's, and was opened.
    fn has(&self, conn: ConnId) -> bool
        ensures opened { result ≡ true → IsOpened self.now (connection_of conn) }
        ensures other { result ≡ false → IsOpened self.now (connection_of conn) → ⊥ }
    {
        conn.node == self.replica.node() && conn.serial < self.connections()
    }

    // What became of the batch that was taken last from a worker.
    fn outcome(&self, worker: usize) -> Option<Outcome>
        requires { worker < length self.now.replica.owed }
        ensures { result ≡ answer_of self.now worker }
    {
        let Some(owed) = self.replica.owed(worker) else {
            return None;
        };
        if self.replica.is_down() {
            return Some(Outcome::Down);
        }
        if owed > 0 {
            return None;
        }
        Some(Outcome::Executed)
    }
}

// The next entry that a replica applies is refused, unless it is down.
fn refuse_next(replica: &mut Replica)
    ensures { replica.new ≡ cond replica.old.down replica.old (record replica.old { refused = true }) }
{
    if replica.is_down() {
        return;
    }
    replica.refuse();
}

// What going on came to.
fn came_to(is_down: bool, is_behind: bool) -> Round
    ensures done { (result ≡ Round.Done) ↔ ((is_behind ≡ false) × (is_down ≡ false)) }
    ensures not_yet { (result ≡ Round.NotYet) ↔ ((is_behind ≡ true) × (is_down ≡ false)) }
    ensures down { (result ≡ Round.Down) ↔ (is_down ≡ true) }
{
    if is_down {
        return Round::Down;
    }
    if is_behind {
        Round::NotYet
    } else {
        Round::Done
    }
}

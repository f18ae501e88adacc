// A replica: the server of one node, and what waits there.
ghost use Rattle.std.specs.Prelude.{◌≡◌, ◌↔◌, ◌<◌, ◌≤◌, ◌++◌, ◌∷◌, ℕ, true, false, not, [], Err, map, length, replicate, take, slice_index_or, slice_set, IfOk, IfErr, OnOk, OnErr, IfSome, IfNone, Some, None, IsTrue};
ghost use Rattle.nr_model.specs.Servers.{fresh};
ghost use Rattle.nr_model.specs.Asked.{own_jobs, first_number};
ghost use Rattle.nr_model.specs.Entries.{entry_jobs, left_by_entry, read_jobs};
ghost use Rattle.nr_entry.specs.Entry.{are_of};
ghost use Rattle.nr_entry.specs.Jobs.{connection_of, items_of};
ghost use Rattle.nr_entry.specs.Waiting.{has_some};
ghost use Rattle.nr_replica.specs.Backlogs.{HasBacklog};
ghost use Rattle.nr_replica.specs.Lent.{AreRepliesTo};
ghost use Rattle.nr_replica.specs.Members.{Member, fresh_member, closed_member, cut_member, handed_member, next_ready};
ghost use Rattle.nr_replica.specs.declared.offer.OfferError.TheVariants as OfferError;
ghost use Rattle.nr_replica.specs.Replicas.{IsApplied, IsAppliedAs, HasRead, fallen, stopped};

use crate::answering::Replies;
use crate::delivering::deliver;
use crate::fall::Fall;
use crate::lending::{Lender, Lent};
use crate::members::NodeMembers;
use crate::offer::{Offer, OfferError};
use crate::outbox::Piece;
use crate::reading::{run_reads, take_all};
use crate::settling::{settle, settle_counted};
use crate::spares::Spares;
use crate::steps::{stage, take_updates};
use nr_blob::Memory;
use nr_emission::Staging;
use nr_entry::{ConnId, Entry, Job, Waiting};
use nr_machine::Machine;
use std::alloc::Global;
use std::hash::RandomState;
use std::marker::Model;

/// A node's replica. It is down from the first growth on that is refused while it applies an entry, and then has no server, until it comes back
/// with a copy of another replica's.
#[derive(Drop)]
pub struct Replica {
    alloc: Global,
    node: usize,
    // None where it is down.
    machine: Lender,
    members: NodeMembers,
    owed: Vec<Option<usize>>,
    waiting: Waiting,
    // What the entry at hand has emitted.
    staging: Staging,
    applied: u64,
    is_refused: bool,
    // Why it is down, where it is.
    fell: Option<Fall>,
    // Whether its server was lent since it was seen last that it isn't.
    was_lent: bool,
}

impl Model for Replica {
    ghost use Rattle.std.specs.Prelude.{◌≡◌, [], false, is_none, IfSome, IsTrue};
    ghost use Rattle.nr_entry.specs.Entry.{are_of};
    ghost use Rattle.nr_entry.specs.Jobs.{items_of};
    ghost use Rattle.nr_replica.specs.Members.{AreNumbered, members_seen};
    ghost use Rattle.nr_replica.specs.Ready.{AreReady};
    ghost use Rattle.nr_replica.specs.Replicas.{ReplicaState, coded_replica, server_in};

    ghost Value = { ReplicaState };

    ghost coded = { coded_replica };

    ghost view = { λ r. record { node = r.node; members = members_seen r.node r.members; owed = r.owed.items; waiting = r.waiting.jobs; applied = r.applied; server = server_in r.machine; down = is_none r.machine; refused = r.is_refused; fell = r.fell; lent = r.was_lent } };

    ghost invariant = { λ r. (r.staging ≡ []) × (r.waiting.gaps ≡ []) × AreNumbered r.node 0 (members_seen r.node r.members) × IfSome r.machine (λ machine. machine.failed ≡ false) × IsTrue (are_of r.node (items_of r.waiting.jobs)) × AreReady r.members.ready.sets.items (members_seen r.node r.members) };
}

impl Replica {
    /// No key and no connection. Strangers choose the keys, so the hasher takes a seed of its own.
    pub fn new(
        alloc: Global,
        keys: RandomState,
        node: usize,
        workers: usize,
    ) -> Result<Replica, Memory>
        ensures { IfOk result (λ replica. replica ≡ record {
          node = node;
          members = [];
          owed = replicate workers None;
          waiting = [];
          applied = 0;
          server = fresh;
          down = false;
          refused = false;
          fell = None;
          lent = false;
        }) }
    {
        let mut owed = Vec::with_capacity(alloc, workers)?;
        owed.resize(workers, None)?;
        Ok(Replica {
            alloc,
            node,
            machine: Lender::new(alloc, Machine::new(alloc, keys)?)?,
            members: NodeMembers::new(alloc, workers)?,
            owed,
            waiting: Waiting::new(alloc),
            staging: Staging::new(alloc),
            applied: 0,
            is_refused: false,
            fell: None,
            was_lent: false,
        })
    }

    /// Whether it is down.
    pub fn is_down(&self) -> bool
        ensures { result ≡ self.now.down }
    {
        self.machine.is_none()
    }

    /// How many entries it has applied.
    pub fn applied(&self) -> u64
        ensures { result ≡ self.now.applied }
    {
        self.applied
    }

    /// The node whose replica it is.
    pub fn node(&self) -> usize
        ensures { result ≡ self.now.node }
    {
        self.node
    }

    /// How many connections were ever opened.
    pub fn connections(&self) -> usize
        ensures { result ≡ length self.now.members }
    {
        self.members.len()
    }

    /// The worker that serves a connection.
    pub fn worker(&self, serial: usize) -> usize
        requires { serial < length self.now.members }
        ensures { (d : Member) → result ≡ (slice_index_or self.now.members serial d).worker }
    {
        self.members.worker(serial)
    }

    /// Whether a connection was closed. Logarithmic.
    pub fn is_closed(&self, serial: usize) -> bool
        requires { serial < length self.now.members }
        ensures { (d : Member) → result ≡ (slice_index_or self.now.members serial d).is_closed }
    {
        self.members.is_closed(serial)
    }

    /// Whether nothing more comes to wait for a connection: it was closed, or the queue was cut. Logarithmic.
    pub fn is_cut(&self, serial: usize) -> bool
        requires { serial < length self.now.members }
        ensures { (d : Member) → result ≡ (slice_index_or self.now.members serial d).outbox.cut }
    {
        self.members.is_cut(serial)
    }

    /// How many bytes wait for a connection. Logarithmic.
    pub fn waiting(&self, serial: usize) -> usize
        requires { serial < length self.now.members }
        ensures { (d : Member) → result ≡ length (slice_index_or self.now.members serial d).outbox.waiting }
    {
        self.members.waiting(serial)
    }

    /// The first connection, by serial from `from` on, that a worker serves and for which bytes wait. Logarithmic in the worker's connections for
    /// which bytes wait.
    pub fn next_ready(&self, worker: usize, from: usize) -> Option<usize>
        requires { worker < length self.now.owed }
        ensures { result ≡ next_ready worker from self.now.members }
    {
        self.members.next_ready(worker, from)
    }

    /// Opens a connection that a worker serves, for which at most `limit` bytes wait. Logarithmic. A byte of it stays once it is closed: the
    /// worker's number, which is below 256.
    pub fn open(&mut self, worker: usize, limit: usize) -> Result<ConnId, Memory>
        requires few { worker < 256 }
        ensures conn { IfOk result (λ conn. connection_of conn ≡ record { node = self.old.node; serial = length self.old.members }) }
        ensures opened { OnOk result (self.new ≡ record self.old { members = self.old.members ++ fresh_member (record { node = self.old.node; serial = length self.old.members }) worker limit ∷ [] }) }
        ensures unchanged { OnErr result (self.new ≡ self.old) }
    {
        let conn = ConnId {
            node: self.node,
            serial: self.members.len() as u64,
        };
        self.members.open(self.alloc, conn, worker, limit)?;
        Ok(conn)
    }

    /// Closes a connection: what waits for it is dropped, and it gets nothing more. Logarithmic.
    pub fn close(&mut self, serial: usize)
        requires { serial < length self.old.members }
        ensures { (d : Member) → self.new ≡ record self.old { members = slice_set self.old.members serial (closed_member (slice_index_or self.old.members serial d)) } }
    {
        self.members.close(serial);
    }

    /// Hands out at most so many of the first bytes that wait for a connection, and at least one, or `None` where nothing waits. Linear in
    /// them. A queue that gives its buffer away with them takes a spare one. Where memory runs out nothing changes.
    pub fn take_piece(
        &mut self,
        serial: usize,
        most: usize,
        spares: &mut Spares,
    ) -> Result<Option<Piece>, Memory>
        requires some { 0 < most }
        requires is_there { serial < length self.old.members }
        ensures piece { (d : Member) → IfOk result (λ piece. IfSome piece (λ piece.
            (connection_of piece.conn ≡ record { node = self.old.node; serial = serial }) × (piece.from ≡ (slice_index_or self.old.members serial d).outbox.handed)
            × (piece.bytes.items ≡ take most (slice_index_or self.old.members serial d).outbox.waiting))) }
        ensures some { IfOk result (λ piece. IfSome piece (λ piece. 0 < length piece.bytes.items)) }
        ensures none { (d : Member) → IfOk result (λ piece. IfNone piece ((slice_index_or self.old.members serial d).outbox.waiting ≡ [])) }
        ensures left { (d : Member) → OnOk result (self.new ≡ record self.old { members = slice_set self.old.members serial (handed_member most (slice_index_or self.old.members serial d)) }) }
        ensures unchanged { OnErr result (self.new ≡ self.old) }
    {
        self.members.take_piece(self.alloc, serial, most, spares)
    }

    /// Whether no entry is to be applied yet: so much waits for a connection that it is to be handed out first. That is more than a share of its limit
    /// ([`share_of`](crate::share_of)); or where its worker has held the node up for 1,000 of these calls, and handed nothing out for that connection, more than
    /// a share more, and so on, up to the limit. It is a hint: an entry may be applied all the same. One compare where nothing came above that, else logarithmic for each worker.
    pub fn holds_back(&mut self) -> bool
        ensures reason { result ≡ true → HasBacklog self.old.members }
        ensures same { self.new ≡ self.old }
    {
        self.members.holds_back()
    }

    /// Whether a queue of a connection that a worker serves was cut since this was last asked, by its limit or since memory was refused. It is a hint.
    pub fn take_cut(&mut self, worker: usize) -> bool
        ensures same { self.new ≡ self.old }
    {
        self.members.take_cut(worker)
    }

    /// Takes in the jobs of a worker's batch, behind those that wait. Linear in them. Where memory runs out nothing changes, and the jobs come back.
    pub fn lift(&mut self, worker: usize, jobs: Vec<Job>) -> Result<(), (Vec<Job>, Memory)>
        requires up { self.old.down ≡ false }
        requires worker { worker < length self.old.owed }
        requires own { IsTrue (are_of self.old.node (items_of jobs.items)) }
        ensures lifted { OnOk result (self.new ≡ record self.old { waiting = self.old.waiting ++ jobs.items; owed = slice_set self.old.owed worker (Some (length jobs.items)) }) }
        ensures back { IfErr result (λ back. back.0.items ≡ jobs.items) }
        ensures unchanged { OnErr result (self.new ≡ self.old) }
    {
        let count = jobs.len();
        self.waiting.extend(jobs)?;
        self.owed[worker] = Some(count);
        Ok(())
    }

    /// The next entry: the first 1,024 updates that lead, or `None` where none does. They wait no more. Where memory runs out nothing
    /// changes.
    pub fn take_entry(&mut self) -> Result<Option<Entry>, Memory>
        ensures some { IfOk result (λ entry. IfSome entry (λ entry. (entry.node ≡ self.old.node) × (items_of entry.jobs.items ≡ entry_jobs (items_of self.old.waiting)))) }
        ensures none { IfOk result (λ entry. IfNone entry (entry_jobs (items_of self.old.waiting) ≡ [])) }
        ensures left { OnOk result (items_of self.new.waiting ≡ left_by_entry (items_of self.old.waiting)) }
        ensures rest { OnOk result (self.new ≡ record self.old { waiting = self.new.waiting }) }
        ensures unchanged { OnErr result (self.new ≡ self.old) }
    {
        let jobs = take_updates(&mut self.waiting)?;
        if jobs.is_empty() {
            return Ok(None);
        }
        Ok(Some(Entry::new(self.node, jobs)))
    }

    /// Whether an update leads: whether the next entry has a job. Its cost is that of [`Waiting::leads_update`].
    pub fn leads_update(&self) -> bool
        ensures { result ≡ has_some (entry_jobs (items_of self.now.waiting)) }
    {
        self.waiting.leads_update()
    }

    /// Whether a read leads. Its cost is that of [`Waiting::leads_read`].
    pub fn leads_read(&self) -> bool
        ensures { result ≡ has_some (read_jobs (items_of self.now.waiting)) }
    {
        self.waiting.leads_read()
    }

    /// Applies an entry. It falls where memory is refused on the way, where 2^64 - 1 entries were applied, and where the entry was to be refused: then nothing
    /// of what the entry emitted waits for any connection.
    pub fn apply(&mut self, entry: &Entry) -> Result<(), Fall>
        requires up { self.old.down ≡ false }
        ensures applied { OnOk result (IsApplied entry.now self.old self.new) }
        ensures fell { IfErr result (λ fall. self.new ≡ fallen fall self.old) }
        ensures refused { (result ≡ Err Fall.Refused) ↔ (self.old.refused ≡ true) }
    {
        let applied = self.apply_or_stop(entry, true);
        if applied.is_err() {
            self.drop_waiting();
        }
        applied
    }

    /// Applies an entry. Where it isn't `counted`, its jobs count for no batch. It stops where memory is refused on the way, where 2^64 - 1 entries were
    /// applied, and where the entry was to be refused: then nothing of what the entry emitted waits for any connection, its server's memory is let go
    /// of, and what was lifted still waits, until [`Replica::drop_waiting`].
    pub fn apply_or_stop(&mut self, entry: &Entry, counted: bool) -> Result<(), Fall>
        requires up { self.old.down ≡ false }
        ensures applied { OnOk result (IsAppliedAs counted entry.now self.old self.new) }
        ensures stopped { IfErr result (λ fall. self.new ≡ stopped fall self.old) }
        ensures refused { (result ≡ Err Fall.Refused) ↔ (self.old.refused ≡ true) }
    {
        if let Err(fall) = stage(
            self.alloc,
            entry,
            self.node,
            self.applied,
            self.is_refused,
            &mut self.machine,
            &mut self.staging,
        ) {
            self.staging.clear();
            self.is_refused = false;
            self.fell = Some(fall);
            return Err(fall);
        }
        settle_counted(counted, entry, self.node, &self.members, &mut self.owed);
        deliver(&self.staging, self.node, &mut self.members);
        self.staging.clear();
        self.applied += 1;
        Ok(())
    }

    /// The number of the first job of a connection that was lifted and waits, where one does. Linear in what waits.
    pub fn first_waiting(&self, conn: ConnId) -> Option<u64>
        ensures { result ≡ first_number (own_jobs (connection_of conn) (items_of self.now.waiting)) }
    {
        self.waiting.first_of(conn)
    }

    /// What was lifted and waits is dropped.
    pub fn drop_waiting(&mut self)
        ensures { self.new ≡ record self.old { waiting = [] } }
    {
        self.waiting.clear();
    }

    /// A copy of its server, with which another replica comes back. Linear in what is stored and remembered.
    ///
    /// # Errors
    ///
    /// `Down` exactly where it is down, and `Memory` where there is none for the copy, of which nothing is kept.
    pub fn offer(&self) -> Result<Offer, OfferError>
        ensures copied { IfOk result (λ offer. offer ≡ self.now.server) }
        ensures down { (result ≡ Err OfferError.Down) ↔ (self.now.down ≡ true) }
    {
        let Some(machine) = self.machine.get() else {
            return Err(OfferError::Down);
        };
        match Offer::of(self.alloc, machine) {
            Ok(offer) => Ok(offer),
            Err(memory) => Err(OfferError::Memory(memory)),
        }
    }

    /// Lends its server. Constant. `None` where it is down, or its owners can't be counted.
    pub fn lend(&mut self) -> Option<Lent>
        ensures lent { IfSome result (λ lent. (self.old.down ≡ false) × (lent ≡ self.old.server) × (self.new ≡ record self.old { lent = true })) }
        ensures none { IfNone result (self.new ≡ self.old) }
    {
        let Some(machine) = self.machine.lend() else {
            return None;
        };
        self.was_lent = true;
        Some(Lent { machine })
    }

    /// Whether a loan of its server is out: then an entry that it applies costs a copy of the server. Where none is, that is known from then on, until one is
    /// given. Constant.
    pub fn is_lent(&mut self) -> bool
        ensures was { result ≡ true → self.old.lent ≡ true }
        ensures known { self.new ≡ record self.old { lent = result } }
    {
        if self.was_lent {
            self.was_lent = self.machine.is_lent();
        }
        self.was_lent
    }

    /// Whether no job waits.
    pub fn is_idle(&self) -> bool
        ensures { result ≡ true → self.now.waiting ≡ [] }
    {
        self.waiting.is_empty()
    }

    /// Comes back with a copy of another replica's server, after so many entries. Every connection that was opened so far gets nothing more
    /// than what waits for it. Linear in those that aren't closed.
    pub fn revive(&mut self, offer: Offer, applied: u64)
        requires { self.old.down ≡ true }
        ensures { self.new ≡ record self.old { members = map cut_member self.old.members; applied = applied; server = offer; down = false; fell = None } }
    {
        self.members.cut_all();
        self.machine = Lender::of(offer.machine);
        self.applied = applied;
        self.fell = None;
    }

    /// Runs the reads that lead, and hands them back. They change nothing but what waits for their connections, and one for which memory is
    /// refused cuts its connection's queue. An error leaves all as it was.
    pub fn run_reads(&mut self) -> Result<Vec<Job>, Memory>
        requires up { self.old.down ≡ false }
        ensures ran { IfOk result (λ ran. items_of ran.items ≡ read_jobs (items_of self.old.waiting)) }
        ensures read { OnOk result (HasRead self.old self.new) }
        ensures unchanged { OnErr result (self.new ≡ self.old) }
    {
        let reads = self.waiting.take_reads()?;
        settle(&reads, &self.members, &mut self.owed);
        let Some(machine) = self.machine.get() else {
            unreachable!()
        };
        run_reads(machine, &reads, self.node, &mut self.members);
        Ok(reads)
    }

    /// Runs the reads that lead, the replies to which are at hand, and hands them back: [`Replica::run_reads`]. Those of a run that doesn't fit into its connection's queue as a
    /// whole are run anew. An error leaves all as it was.
    pub fn take_reads(
        &mut self,
        replies: Vec<Replies>,
        spares: &mut Spares,
    ) -> Result<Vec<Job>, Memory>
        requires up { self.old.down ≡ false }
        requires ready { AreRepliesTo self.old.server (read_jobs (items_of self.old.waiting)) replies.items }
        ensures ran { IfOk result (λ ran. items_of ran.items ≡ read_jobs (items_of self.old.waiting)) }
        ensures read { OnOk result (HasRead self.old self.new) }
        ensures unchanged { OnErr result (self.new ≡ self.old) }
    {
        let taken = self.waiting.take_reads()?;
        settle(&taken, &self.members, &mut self.owed);
        let Some(machine) = self.machine.get() else {
            unreachable!()
        };
        take_all(
            machine,
            &taken,
            replies,
            self.node,
            &mut self.members,
            spares,
        );
        Ok(taken)
    }

    /// How many jobs of a worker's batch are neither applied nor run, or `None` where no batch of it was lifted.
    pub fn owed(&self, worker: usize) -> Option<usize>
        requires { worker < length self.now.owed }
        ensures { result ≡ slice_index_or self.now.owed worker None }
    {
        self.owed[worker]
    }

    /// A worker's batch was answered.
    pub fn answered(&mut self, worker: usize)
        requires { worker < length self.old.owed }
        ensures { self.new ≡ record self.old { owed = slice_set self.old.owed worker None } }
    {
        self.owed[worker] = None;
    }

    /// The next entry that it applies is refused, as where memory runs out.
    pub fn refuse(&mut self)
        ensures { self.new ≡ record self.old { refused = true } }
    {
        self.is_refused = true;
    }
}

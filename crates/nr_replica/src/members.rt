// The connections of a node, as its replica keeps them.
ghost use Rattle.std.specs.Prelude.{◌≡◌, ◌<◌, ◌≤◌, ◌++◌, ◌∷◌, ℕ, true, [], map, length, take, slice_index_or, slice_set, IfOk, OnOk, OnErr, IfSome, IfNone, Some, None};
ghost use Rattle.std.specs.Option.{option_copied};
ghost use Rattle.nr_model.specs.Connections.{is_some_bytes};
ghost use Rattle.nr_model.specs.Queues.{handing};
ghost use Rattle.nr_entry.specs.Jobs.{connection_of};
ghost use Rattle.nr_replica.specs.Backlogs.{HasBacklog};
ghost use Rattle.nr_replica.specs.Members.{Member, AreNumbered, fresh_member, closed_member, cut_member, handed_member, next_ready, queue_at, members_seen};
ghost use Rattle.nr_replica.specs.Ready.{has_serial, IsMarked, AreReady};

use crate::outbox::{Outbox, Piece, cut_all};
use crate::ready::ReadySerials;
use crate::spares::Spares;
use nr_blob::Memory;
use nr_entry::ConnId;
use std::alloc::Global;
use std::collections::BTreeMap;

/// The connections of a node, by serial: of each that was ever opened the worker that serves it, a byte, and of those that aren't closed
/// what waits for them; and for each worker those for which bytes wait.
#[derive(Drop)]
pub(crate) struct NodeMembers {
    pub(crate) workers: Vec<u8>,
    // One past the workers is of nobody, and gives way to the next that is opened.
    pub(crate) outboxes: BTreeMap<u64, Outbox>,
    pub(crate) ready: ReadySerials,
}

impl NodeMembers {
    /// None yet, of so many workers.
    pub(crate) fn new(alloc: Global, workers: usize) -> Result<NodeMembers, Memory>
        ensures workers { IfOk result (λ members. members.workers.items ≡ []) }
        ensures ready { IfOk result (λ members. members.ready.sets.items ≡ []) }
    {
        Ok(NodeMembers {
            workers: Vec::new(alloc),
            outboxes: BTreeMap::new(alloc),
            ready: ReadySerials::new(alloc, workers)?,
        })
    }

    /// How many were ever opened.
    pub(crate) fn len(&self) -> usize
        ensures { result ≡ length self.now.workers.items }
    {
        self.workers.len()
    }

    /// The worker that serves one.
    pub(crate) fn worker(&self, serial: usize) -> usize
        requires { serial < length self.now.workers.items }
        ensures { (node : ℕ) (d : Member) → result ≡ (slice_index_or (members_seen node self.now) serial d).worker }
    {
        self.workers[serial] as usize
    }

    /// Whether one was closed. Logarithmic.
    pub(crate) fn is_closed(&self, serial: usize) -> bool
        requires { serial < length self.now.workers.items }
        ensures { (node : ℕ) (d : Member) → result ≡ (slice_index_or (members_seen node self.now) serial d).is_closed }
    {
        match self.get(serial) {
            Some(_) => false,
            None => true,
        }
    }

    /// Whether nothing more comes to wait for one. Logarithmic.
    pub(crate) fn is_cut(&self, serial: usize) -> bool
        requires { serial < length self.now.workers.items }
        ensures { (node : ℕ) (d : Member) → result ≡ (slice_index_or (members_seen node self.now) serial d).outbox.cut }
    {
        match self.get(serial) {
            Some(outbox) => outbox.is_cut(),
            None => true,
        }
    }

    /// How many bytes wait for one. Logarithmic.
    pub(crate) fn waiting(&self, serial: usize) -> usize
        requires { serial < length self.now.workers.items }
        ensures { (node : ℕ) (d : Member) → result ≡ length (slice_index_or (members_seen node self.now) serial d).outbox.waiting }
    {
        match self.get(serial) {
            Some(outbox) => outbox.len(),
            None => 0,
        }
    }

    /// The worker that serves one, or `None` where so many were never opened.
    pub(crate) fn find_worker(&self, serial: u64) -> Option<usize>
        ensures there { IfSome result (λ worker. (serial < length self.now.workers.items) × (worker ≡ slice_index_or self.now.workers.items serial 0)) }
        ensures past { IfNone result (length self.now.workers.items ≤ serial) }
    {
        if serial >= self.workers.len() as u64 {
            return None;
        }
        Some(self.workers[serial as usize] as usize)
    }

    /// The first one, by serial from `from` on, that a worker serves and for which bytes wait. Logarithmic.
    pub(crate) fn next_ready(&self, worker: usize, from: usize) -> Option<usize>
        ensures { (node : ℕ) → AreReady self.now.ready.sets.items (members_seen node self.now) → result ≡ next_ready worker from (members_seen node self.now) }
    {
        self.ready.next(worker, from)
    }

    // What waits for one, or `None` where it was closed.
    fn get(&self, serial: usize) -> Option<&Outbox>
        ensures { option_copied result ≡ queue_at serial self.now.outboxes.entries }
    {
        self.outboxes.get(&(serial as u64))
    }

    /// One more, which a worker serves, and for which at most `limit` bytes wait. Logarithmic. Where memory runs out nothing changes.
    pub(crate) fn open(
        &mut self,
        alloc: Global,
        conn: ConnId,
        worker: usize,
        limit: usize,
    ) -> Result<(), Memory>
        requires few { worker < 256 }
        requires next { conn.serial ≡ length self.old.workers.items }
        ensures opened { OnOk result (members_seen conn.node self.new ≡ members_seen conn.node self.old ++ fresh_member (connection_of conn) worker limit ∷ []) }
        ensures unchanged { OnErr result (members_seen conn.node self.new ≡ members_seen conn.node self.old) }
        ensures ready { AreReady self.old.ready.sets.items (members_seen conn.node self.old) → AreReady self.new.ready.sets.items (members_seen conn.node self.new) }
    {
        self.outboxes
            .insert(conn.serial, Outbox::new(alloc, conn, limit))?;
        self.workers.push(worker as u8)?;
        Ok(())
    }

    /// Closes one: what waits for it is dropped. Logarithmic.
    pub(crate) fn close(&mut self, serial: usize)
        requires { serial < length self.old.workers.items }
        ensures closed { (node : ℕ) (d : Member) → AreNumbered node 0 (members_seen node self.old)
            → members_seen node self.new ≡ slice_set (members_seen node self.old) serial (closed_member (slice_index_or (members_seen node self.old) serial d)) }
        ensures ready { (node : ℕ) → AreReady self.old.ready.sets.items (members_seen node self.old) → AreReady self.new.ready.sets.items (members_seen node self.new) }
    {
        let worker = self.worker(serial);
        self.outboxes.remove(&(serial as u64));
        self.ready.remove(worker, serial as u64);
        self.ready.backlogs.let_go(worker, serial as u64);
    }

    /// Cuts all that aren't closed: what waits for them can still be handed out, and nothing more comes. Linear in them.
    pub(crate) fn cut_all(&mut self)
        ensures cut { (node : ℕ) → members_seen node self.new ≡ map cut_member (members_seen node self.old) }
        ensures ready { (node : ℕ) → AreReady self.old.ready.sets.items (members_seen node self.old) → AreReady self.new.ready.sets.items (members_seen node self.new) }
    {
        cut_all(&mut self.outboxes);
    }

    /// Whether so much waits for one of them that the node is held up for its worker. Its cost is that of [`Backlogs::holds_back`](crate::backlog::Backlogs::holds_back).
    pub(crate) fn holds_back(&mut self) -> bool
        ensures reason { (node : ℕ) → result ≡ true → HasBacklog (members_seen node self.old) }
        ensures same { (node : ℕ) → members_seen node self.new ≡ members_seen node self.old }
        ensures ready { self.new.ready.sets.items ≡ self.old.ready.sets.items }
    {
        let opened = self.workers.len() as u64;
        self.ready.backlogs.holds_back(&self.outboxes, opened)
    }

    /// Whether a queue of a worker's connections was cut since this was last asked. Constant.
    pub(crate) fn take_cut(&mut self, worker: usize) -> bool
        ensures same { (node : ℕ) → members_seen node self.new ≡ members_seen node self.old }
        ensures ready { self.new.ready.sets.items ≡ self.old.ready.sets.items }
    {
        self.ready.backlogs.take_cut(worker)
    }

    /// Hands out at most so many of the first bytes that wait for one, and at least one, or `None` where nothing waits. Where memory runs out
    /// nothing changes.
    pub(crate) fn take_piece(
        &mut self,
        alloc: Global,
        serial: usize,
        most: usize,
        spares: &mut Spares,
    ) -> Result<Option<Piece>, Memory>
        requires some { 0 < most }
        requires is_there { serial < length self.old.workers.items }
        ensures piece { (node : ℕ) (d : Member) → AreNumbered node 0 (members_seen node self.old) → IfOk result (λ piece. IfSome piece (λ piece.
            (connection_of piece.conn ≡ record { node = node; serial = serial }) × (piece.from ≡ (slice_index_or (members_seen node self.old) serial d).outbox.handed)
            × (piece.bytes.items ≡ take most (slice_index_or (members_seen node self.old) serial d).outbox.waiting))) }
        ensures some { IfOk result (λ piece. IfSome piece (λ piece. 0 < length piece.bytes.items)) }
        ensures none { (node : ℕ) (d : Member) → IfOk result (λ piece. IfNone piece ((slice_index_or (members_seen node self.old) serial d).outbox.waiting ≡ [])) }
        ensures left { (node : ℕ) (d : Member) → OnOk result (members_seen node self.new
            ≡ slice_set (members_seen node self.old) serial (handed_member most (slice_index_or (members_seen node self.old) serial d))) }
        ensures unchanged { (node : ℕ) → OnErr result (members_seen node self.new ≡ members_seen node self.old) }
        ensures ready { (node : ℕ) → AreReady self.old.ready.sets.items (members_seen node self.old) → AreReady self.new.ready.sets.items (members_seen node self.new) }
    {
        let worker = self.worker(serial);
        match self.outboxes.get_mut(&(serial as u64)) {
            Some(outbox) => {
                let ready = &mut self.ready;
                take_piece(alloc, most, worker, serial as u64, outbox, ready, spares)
            }
            None => Ok(None),
        }
    }
}

// The same from its queue.
fn take_piece(
    alloc: Global,
    most: usize,
    worker: usize,
    serial: u64,
    outbox: &mut Outbox,
    ready: &mut ReadySerials,
    spares: &mut Spares,
) -> Result<Option<Piece>, Memory>
    requires { 0 < most }
    ensures piece { IfOk result (λ piece. IfSome piece (λ piece. (connection_of piece.conn ≡ outbox.old.connection) × (piece.from ≡ outbox.old.handed) × (piece.bytes.items ≡ take most outbox.old.waiting))) }
    ensures some { IfOk result (λ piece. IfSome piece (λ piece. 0 < length piece.bytes.items)) }
    ensures none { IfOk result (λ piece. IfNone piece (outbox.old.waiting ≡ [])) }
    ensures left { OnOk result (outbox.new ≡ handing most outbox.old) }
    ensures unchanged { OnErr result (outbox.new ≡ outbox.old) }
    ensures marked { has_serial ready.old.sets.items worker serial ≡ is_some_bytes outbox.old.waiting
        → IsMarked worker serial (is_some_bytes outbox.new.waiting) ready.old.sets.items ready.new.sets.items }
{
    let piece = outbox.take_piece(alloc, most, spares)?;
    ready.withdraw(worker, serial, outbox);
    ready.backlogs.let_go(worker, serial);
    Ok(piece)
}

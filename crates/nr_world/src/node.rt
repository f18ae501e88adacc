// A node: its replica, its connections' sessions, and its workers.
ghost use Rattle.std.specs.Prelude.{◌≡◌, ◌<◌, ◌≤◌, ◌+◌, ◌^◌, ◌++◌, ◌||◌, map, ℕ, Option, Some, None, IfOk, IfSome, IfNone, OnOk, OnErr, IsTrue, IsSome, List, [], length, replicate, true, false, slice_index_or};
ghost use Rattle.std.specs.List.{list_any};
ghost use Rattle.nr_model.specs.Connections as traffic;
ghost use Rattle.nr_model.specs.Nodes as nodes;
ghost use Rattle.nr_model.specs.Nodes.Steps.{next_fetch, lifted_node, posted_jobs, fed_node, closed_node, passing, collected, collected_node, has_batch, is_busy, is_overrun, is_true, revived};
ghost use Rattle.nr_entry.specs.Entry.{are_of};
ghost use Rattle.nr_entry.specs.Waiting.{has_some};
ghost use Rattle.nr_entry.specs.Jobs.{connection_of, items_of};
ghost use Rattle.nr_model.specs.Entries.{entry_jobs};
ghost use Rattle.nr_entry.specs.Waiting.{has_some};
ghost use Rattle.nr_session.specs.SessionState.{SessionState};
ghost use Rattle.nr_replica.specs.Members.{Member, AreNumbered};
ghost use Rattle.nr_world.specs.Whole.{IsWhole};
ghost use Rattle.nr_world.specs.Advanced.{IsAdvanced, IsApplied, HasRun};
ghost use Rattle.nr_model.specs.Nodes.Steps as steps;
ghost use Rattle.nr_world.specs.Seen.{handed_seen};
ghost use Rattle.nr_world.specs.Batches.{may_post, may_lift, may_answer, executed_in};
ghost use Rattle.nr_world.specs.Taken.{idle_or};
ghost use Rattle.nr_world.specs.Whole.{IsWhole, ArePaired};
ghost use Rattle.nr_world.specs.Connected.{takes_none, is_over};
ghost use Rattle.nr_world.specs.Served.{node_seen, entry_seen, dropped_node, opened_node, posted_node, reserved_node, filled_node, fetched_node, answered_node, refused_node, workers_seen};

use crate::fallen_sessions::note_fall;
use crate::pending_jobs::drop_pending;
use crate::sessions::Sessions;
use crate::step::HandedBytes;
use crate::waiting_bytes::collect;
use crate::worker::{WorldWorker, any_batch};
use nr_blob::Memory;
use nr_entry::{ConnId, Entry, Setup};
use nr_model::reason::Reason;
use nr_replica::{Offer, Replica};
use std::alloc::Global;
use std::hash::RandomState;

/// A node: its replica, its connections' sessions, its workers, how many of its connections aren't closed, the number of the
/// entry that it reserved last and, for each node, whether the cell of that entry isn't filled yet, how many entries it has passed,
/// whether it holds one that it has fetched, and how many connections and entries there were when it came back last.
#[derive(Drop)]
pub struct WorldNode {
    pub(crate) replica: Replica,
    pub(crate) sessions: Sessions,
    pub(crate) workers: Vec<WorldWorker>,
    pub(crate) in_use: usize,
    pub(crate) at: u64,
    pub(crate) unfilled: Vec<bool>,
    pub(crate) passed: u64,
    pub(crate) is_fetched: bool,
    // When it came back last, how many connections were ever opened, and how many entries were reserved.
    pub(crate) since: usize,
    pub(crate) resumed: u64,
}

// So many workers with nothing to do.
fn fresh_workers(alloc: Global, count: usize) -> Result<Vec<WorldWorker>, Memory>
    ensures seen { IfOk result (λ workers. workers_seen workers.items (replicate count None) ≡ replicate count nodes.fresh_worker) }
    ensures count { IfOk result (λ workers. length workers.items ≡ count) }
{
    let mut workers = Vec::with_capacity(alloc, count)?;
    for _ in 0..count {
        workers.push(WorldWorker::new(alloc))?;
    }
    Ok(workers)
}

impl WorldNode {
    /// No connection and no key. Strangers choose the keys, so the hasher takes a seed of its own.
    pub(crate) fn new(
        alloc: Global,
        keys: RandomState,
        node: usize,
        setup: Setup,
    ) -> Result<WorldNode, Memory>
        ensures seen { IfOk result (λ made. node_seen made ≡ nodes.fresh_node setup) }
        ensures whole { IfOk result (IsWhole node) }
    {
        let mut unfilled = Vec::with_capacity(alloc, setup.nodes())?;
        unfilled.resize(setup.nodes(), false)?;
        Ok(WorldNode {
            replica: Replica::new(alloc, keys, node, setup.workers())?,
            sessions: Sessions::new(alloc),
            workers: fresh_workers(alloc, setup.workers())?,
            in_use: 0,
            at: 0,
            unfilled,
            passed: 0,
            is_fetched: false,
            since: 0,
            resumed: 0,
        })
    }

    /// Opens a connection at a worker, for which at most `limit` bytes wait. Logarithmic.
    pub(crate) fn open(
        &mut self,
        alloc: Global,
        worker: usize,
        limit: usize,
    ) -> Result<ConnId, Memory>
        requires is_there { worker < length self.old.workers.items }
        requires few { worker < 256 }
        requires clients { length self.old.sessions ≡ length self.old.replica.members }
        requires counts { self.old.in_use + 1 < 2 ^ 64 }
        ensures opened { OnOk result (node_seen self.new ≡ opened_node limit self.old.replica.node worker (node_seen self.old)) }
        ensures conn { IfOk result (λ conn. connection_of conn ≡ record { node = self.old.replica.node; serial = length self.old.replica.members }) }
        ensures whole { (n : ℕ) → IsWhole n self.old → OnOk result (IsWhole n self.new) }
    {
        let conn = self.replica.open(worker, limit)?;
        self.sessions.open(alloc, conn)?;
        self.in_use += 1;
        Ok(conn)
    }

    /// Why a worker can't post a batch.
    pub(crate) fn why_not_post(&self, worker: usize) -> Option<Reason>
        requires is_there { worker < length self.now.workers.items }
        requires owed { length self.now.replica.owed ≡ length self.now.workers.items }
        ensures { idle_or result steps.Done ≡ may_post worker (node_seen self.now) }
    {
        if self.replica.is_down() {
            return Some(Reason::Down);
        }
        self.workers[worker].why_not_post()
    }

    /// A worker posts a batch. Linear in the jobs that it keeps.
    pub(crate) fn post(&mut self, alloc: Global, worker: usize) -> Result<(), Memory>
        requires is_there { worker < length self.old.workers.items }
        requires owed { length self.old.replica.owed ≡ length self.old.workers.items }
        ensures posted { OnOk result (node_seen self.new ≡ posted_node worker (node_seen self.old)) }
        ensures whole { (n : ℕ) → IsWhole n self.old → OnOk result (IsWhole n self.new) }
    {
        self.workers[worker].post(alloc)?;
        Ok(())
    }

    /// Why it can't lift a batch of a worker.
    pub(crate) fn why_not_lift(&self, worker: usize) -> Option<Reason>
        requires is_there { worker < length self.now.workers.items }
        requires owed { length self.now.replica.owed ≡ length self.now.workers.items }
        ensures outcome { idle_or result steps.Done ≡ may_lift worker (node_seen self.now) }
        ensures up { IfNone result (self.now.replica.down ≡ false) }
    {
        if self.replica.is_down() {
            return Some(Reason::Down);
        }
        self.workers[worker].why_not_lift()
    }

    /// Lifts the batch that a worker posted. Linear in its jobs.
    pub(crate) fn lift(&mut self, alloc: Global, worker: usize) -> Result<(), Memory>
        requires is_there { worker < length self.old.workers.items }
        requires owed { length self.old.replica.owed ≡ length self.old.workers.items }
        requires up { self.old.replica.down ≡ false }
        requires own { IsTrue (are_of self.old.replica.node (posted_jobs (nodes.worker_at worker (node_seen self.old)).slot)) }
        ensures lifted { OnOk result (node_seen self.new ≡ lifted_node worker (node_seen self.old)) }
        ensures whole { (n : ℕ) → IsWhole n self.old → OnOk result (IsWhole n self.new) }
    {
        let jobs = self.workers[worker].lift(alloc);
        if let Err((_, memory)) = self.replica.lift(worker, jobs) {
            return Err(memory);
        }
        Ok(())
    }

    /// Fills another node's cell of the entry that it reserved.
    pub(crate) fn fill(&mut self, node: usize)
        requires is_there { node < length self.old.unfilled.items }
        ensures filled { node_seen self.new ≡ filled_node node (node_seen self.old) }
        ensures whole { (n : ℕ) → IsWhole n self.old → IsWhole n self.new }
    {
        self.unfilled[node] = false;
    }

    /// Fetches its next entry.
    pub(crate) fn fetch(&mut self)
        ensures fetched { node_seen self.new ≡ fetched_node (node_seen self.old) }
        ensures whole { (n : ℕ) → IsWhole n self.old → IsWhole n self.new }
    {
        self.is_fetched = true;
    }

    /// Why it can't answer the batch of a worker.
    pub(crate) fn why_not_answer(&self, worker: usize) -> Option<Reason>
        requires is_there { worker < length self.now.workers.items }
        requires owed { length self.now.replica.owed ≡ length self.now.workers.items }
        ensures { idle_or result steps.Done ≡ may_answer worker (node_seen self.now) }
    {
        let owed = self.replica.owed(worker).unwrap_or(0);
        self.workers[worker].why_not_answer(self.replica.is_down(), owed)
    }

    /// Answers the batch of a worker.
    pub(crate) fn answer(&mut self, worker: usize)
        requires is_there { worker < length self.old.workers.items }
        requires owed { length self.old.replica.owed ≡ length self.old.workers.items }
        ensures answered { node_seen self.new ≡ answered_node worker (node_seen self.old) }
        ensures whole { (n : ℕ) → IsWhole n self.old → IsWhole n self.new }
    {
        self.workers[worker].answer(!self.replica.is_down());
        self.replica.answered(worker);
    }

    /// The next entry that it applies is refused.
    pub(crate) fn refuse(&mut self)
        ensures refused { node_seen self.new ≡ refused_node (node_seen self.old) }
        ensures whole { (n : ℕ) → IsWhole n self.old → IsWhole n self.new }
    {
        self.replica.refuse();
    }

    /// Reserves its next entry, at the tail of the log, for the updates that lead.
    pub(crate) fn reserve(&mut self, tail: u64) -> Result<Entry, Memory>
        requires leads { has_some (entry_jobs (node_seen self.old).waiting) ≡ true }
        ensures entry { IfOk result (λ entry. entry_seen entry ≡ record { node = self.old.replica.node; jobs = entry_jobs (node_seen self.old).waiting }) }
        ensures reserved { OnOk result (node_seen self.new ≡ reserved_node (length self.old.unfilled.items) tail (node_seen self.old)) }
        ensures whole { (n : ℕ) → IsWhole n self.old → OnOk result (IsWhole n self.new) }
    {
        // An update leads.
        let Some(entry) = self.replica.take_entry()? else {
            unreachable!()
        };
        self.at = tail;
        self.unfilled.fill(true);
        Ok(entry)
    }

    /// Whether a connection takes no more bytes.
    pub(crate) fn has_ended(&self, serial: usize) -> bool
        requires is_there { serial < length self.now.sessions }
        requires clients { length self.now.sessions ≡ length self.now.replica.members }
        ensures { (n : ℕ) → ArePaired n 0 self.now.sessions self.now.replica.members → result ≡ takes_none (nodes.client_at serial (node_seen self.now)) }
    {
        self.sessions.has_ended(serial) || self.replica.is_cut(serial)
    }

    /// Whether a connection takes no more bytes, whatever becomes of the node: they asked for its end, it was closed, or it was overrun.
    pub(crate) fn is_over(&self, serial: usize) -> bool
        requires is_there { serial < length self.now.sessions }
        requires clients { length self.now.sessions ≡ length self.now.replica.members }
        ensures { (n : ℕ) → ArePaired n 0 self.now.sessions self.now.replica.members → result ≡ is_over (nodes.client_at serial (node_seen self.now)) }
    {
        self.sessions.has_ended(serial) || self.is_overrun(serial)
    }

    // Whether a connection's queue was cut while the node was up, before it ever fell.
    fn is_overrun(&self, serial: usize) -> bool
        requires is_there { serial < length self.now.sessions }
        requires clients { length self.now.sessions ≡ length self.now.replica.members }
        ensures { result ≡ is_overrun (nodes.client_at serial (node_seen self.now)) }
    {
        self.replica.is_cut(serial) && !self.sessions.fell(serial)
    }

    /// Whether the queue of a connection was cut.
    pub(crate) fn is_cut(&self, serial: usize) -> bool
        requires is_there { serial < length self.now.sessions }
        requires clients { length self.now.sessions ≡ length self.now.replica.members }
        ensures { result ≡ (nodes.client_at serial (node_seen self.now)).queue.cut }
    {
        self.replica.is_cut(serial)
    }

    /// Whether a connection was closed.
    pub(crate) fn is_closed(&self, serial: usize) -> bool
        requires is_there { serial < length self.now.sessions }
        requires clients { length self.now.sessions ≡ length self.now.replica.members }
        ensures { result ≡ (nodes.client_at serial (node_seen self.now)).closed }
    {
        self.replica.is_closed(serial)
    }

    /// Feeds bytes to a connection. Linear in the bytes and the jobs that they ask for.
    pub(crate) fn feed(&mut self, conn: ConnId, moment: u64, bytes: &[u8]) -> Result<(), Memory>
        requires clients { length self.old.sessions ≡ length self.old.replica.members }
        requires owed { length self.old.replica.owed ≡ length self.old.workers.items }
        requires is_there { conn.serial < length self.old.sessions }
        requires worker { (d : Member) → (slice_index_or self.old.replica.members conn.serial d).worker < length self.old.workers.items }
        requires named { (d : SessionState) → (slice_index_or self.old.sessions conn.serial d).connection ≡ connection_of conn }
        requires going { (d : SessionState) → (slice_index_or self.old.sessions conn.serial d).ended ≡ false }
        ensures fed { OnOk result (node_seen self.new ≡ fed_node (connection_of conn) moment bytes.now (node_seen self.old)) }
        ensures whole { (n : ℕ) → IsWhole n self.old → OnOk result (IsWhole n self.new) }
    {
        let serial = conn.serial as usize;
        let worker = self.replica.worker(serial);
        let pending = &mut self.workers[worker].pending;
        self.sessions.feed(serial, moment, bytes, pending)?;
        Ok(())
    }

    /// Closes a connection. Linear in the jobs that its worker hasn't posted.
    pub(crate) fn close(&mut self, conn: ConnId, moment: u64) -> Result<(), Memory>
        requires clients { length self.old.sessions ≡ length self.old.replica.members }
        requires owed { length self.old.replica.owed ≡ length self.old.workers.items }
        requires is_there { conn.serial < length self.old.sessions }
        requires worker { (d : Member) → (slice_index_or self.old.replica.members conn.serial d).worker < length self.old.workers.items }
        requires named { (d : SessionState) → (slice_index_or self.old.sessions conn.serial d).connection ≡ connection_of conn }
        requires counts { 0 < self.old.in_use }
        requires unclosed { (d : SessionState) → (slice_index_or self.old.sessions conn.serial d).ended ≡ (slice_index_or self.old.sessions conn.serial d).gave_end }
        ensures closed { OnOk result (node_seen self.new ≡ closed_node (connection_of conn) moment (node_seen self.old)) }
        ensures whole { (d : Member) → (n : ℕ) → (slice_index_or self.old.replica.members conn.serial d).is_closed ≡ false → IsWhole n self.old
            → OnOk result (IsWhole n self.new) }
    {
        let serial = conn.serial as usize;
        let worker = self.replica.worker(serial);
        let pending = &mut self.workers[worker].pending;
        self.sessions.close(conn, moment, pending)?;
        self.replica.close(serial);
        self.in_use -= 1;
        Ok(())
    }

    /// Applies an entry, its next one, and passes it. A node that is down drops it, and one that memory is refused falls.
    pub(crate) fn apply(&mut self, entry: &Entry)
        requires clients { length self.old.sessions ≡ length self.old.replica.members }
        requires owed { length self.old.replica.owed ≡ length self.old.workers.items }
        requires numbered { AreNumbered self.old.replica.node 0 self.old.replica.members }
        requires pairs { ArePaired self.old.replica.node 0 self.old.sessions self.old.replica.members }
        requires passed { self.old.passed + 1 < 2 ^ 64 }
        ensures applied { IsApplied self.old.replica.node (entry_seen entry.now) (node_seen self.old) (node_seen self.new) }
        ensures whole { (n : ℕ) → IsWhole n self.old → IsWhole n self.new }
        ensures numbered { (n : ℕ) → AreNumbered n 0 self.old.replica.members → AreNumbered n 0 self.new.replica.members }
        ensures passed { self.new.passed ≡ self.old.passed + 1 }
    {
        if self.replica.is_down() {
            self.pass();
            return;
        }
        self.advance(entry);
        self.pass();
    }

    // Applies an entry, or falls.
    fn advance(&mut self, entry: &Entry)
        requires up { self.old.replica.down ≡ false }
        requires clients { length self.old.sessions ≡ length self.old.replica.members }
        requires owed { length self.old.replica.owed ≡ length self.old.workers.items }
        requires numbered { AreNumbered self.old.replica.node 0 self.old.replica.members }
        requires pairs { ArePaired self.old.replica.node 0 self.old.sessions self.old.replica.members }
        ensures advanced { IsAdvanced self.old.replica.node (entry_seen entry.now) (node_seen self.old) (node_seen self.new) }
        ensures whole { (n : ℕ) → IsWhole n self.old → IsWhole n self.new }
        ensures numbered { (n : ℕ) → AreNumbered n 0 self.old.replica.members → AreNumbered n 0 self.new.replica.members }
        ensures passed { self.new.passed ≡ self.old.passed }
    {
        let counted = self.resumed <= self.replica.applied();
        match self.replica.apply_or_stop(entry, counted) {
            Ok(()) => {}
            Err(_fall) => self.drop_jobs(),
        }
    }

    // Drops its jobs, those that it has lifted and those at its workers. Each connection that isn't closed notes the first of its own.
    fn drop_jobs(&mut self)
        requires clients { length self.old.sessions ≡ length self.old.replica.members }
        requires owed { length self.old.replica.owed ≡ length self.old.workers.items }
        requires numbered { AreNumbered self.old.replica.node 0 self.old.replica.members }
        requires pairs { ArePaired self.old.replica.node 0 self.old.sessions self.old.replica.members }
        ensures dropped { node_seen self.new ≡ dropped_node (node_seen self.old) }
        ensures whole { (n : ℕ) → IsWhole n self.old → IsWhole n self.new }
        ensures numbered { (n : ℕ) → AreNumbered n 0 self.old.replica.members → AreNumbered n 0 self.new.replica.members }
        ensures passed { self.new.passed ≡ self.old.passed }
    {
        note_fall(&mut self.sessions, &self.replica, &self.workers);
        drop_pending(&mut self.workers);
        self.replica.drop_waiting();
    }

    /// Whether it has begun what isn't done: an entry that it has fetched or has to fill, or a worker's batch.
    pub(crate) fn is_busy(&self) -> bool
        requires owed { length self.now.replica.owed ≡ length self.now.workers.items }
        ensures { result ≡ is_busy (node_seen self.now) }
    {
        self.is_fetched || self.has_begun()
    }

    // Whether it has an entry to fill, or a worker's batch.
    fn has_begun(&self) -> bool
        requires owed { length self.now.replica.owed ≡ length self.now.workers.items }
        ensures { result ≡ (list_any is_true (node_seen self.now).unfilled || list_any has_batch (node_seen self.now).workers) }
    {
        self.is_filling() || any_batch(&self.workers)
    }

    /// Whether a cell of the entry that it reserved last isn't filled yet.
    pub(crate) fn is_filling(&self) -> bool
        ensures { result ≡ list_any is_true self.now.unfilled.items }
    {
        self.unfilled.iter().any(|unfilled| *unfilled)
    }

    /// Comes back with a copy of another node's server, where so many entries were reserved. Linear in its connections that aren't closed.
    pub(crate) fn revive(&mut self, offer: Offer, tail: u64)
        requires down { self.old.replica.down ≡ true }
        requires clients { length self.old.sessions ≡ length self.old.replica.members }
        ensures revived { node_seen self.new ≡ revived tail offer (node_seen self.old) }
        ensures whole { (n : ℕ) → IsWhole n self.old → IsWhole n self.new }
        ensures passed { self.new.passed ≡ self.old.passed }
    {
        self.replica.revive(offer, self.passed);
        self.since = self.sessions.len();
        self.resumed = tail;
    }

    // Passes its next entry.
    fn pass(&mut self)
        requires { self.old.passed + 1 < 2 ^ 64 }
        ensures seen { node_seen self.new ≡ passing (node_seen self.old) }
        ensures whole { (n : ℕ) → IsWhole n self.old → IsWhole n self.new }
        ensures replica { self.new.replica ≡ self.old.replica }
        ensures passed { self.new.passed ≡ self.old.passed + 1 }
    {
        self.passed += 1;
        self.is_fetched = false;
    }

    /// Runs the reads that lead, behind so many entries.
    pub(crate) fn run_reads(&mut self) -> Result<(), Memory>
        requires up { self.old.replica.down ≡ false }
        requires clients { length self.old.sessions ≡ length self.old.replica.members }
        requires numbered { AreNumbered self.old.replica.node 0 self.old.replica.members }
        ensures run { (tail : ℕ) → OnOk result (HasRun self.old.replica.node tail (node_seen self.old) (node_seen self.new)) }
        ensures whole { (n : ℕ) → IsWhole n self.old → OnOk result (IsWhole n self.new) }
        ensures passed { OnOk result (self.new.passed ≡ self.old.passed) }
    {
        self.replica.run_reads()?;
        Ok(())
    }

    /// The number of the first entry that it hasn't fetched.
    pub(crate) fn next_fetch(&self) -> u64
        requires { self.now.is_fetched ≡ true → self.now.passed + 1 < 2 ^ 64 }
        ensures { result ≡ next_fetch (node_seen self.now) }
    {
        if self.is_fetched {
            self.passed + 1
        } else {
            self.passed
        }
    }

    /// A worker takes the answer to its batch, where there is one, and all bytes that wait for its connections are handed out. Linear in
    /// those of its connections for which bytes wait, and the bytes.
    pub(crate) fn collect(
        &mut self,
        worker: usize,
        handed: &mut Vec<HandedBytes>,
    ) -> Result<Option<bool>, Memory>
        requires is_there { worker < length self.old.workers.items }
        requires owed { length self.old.replica.owed ≡ length self.old.workers.items }
        requires clients { length self.old.sessions ≡ length self.old.replica.members }
        requires numbered { AreNumbered self.old.replica.node 0 self.old.replica.members }
        ensures node { OnOk result (node_seen self.new ≡ collected_node worker (node_seen self.old)) }
        ensures handed { OnOk result (map handed_seen handed.new.items ≡ map handed_seen handed.old.items ++ collected worker (node_seen self.old).clients) }
        ensures answer { IfOk result (λ answer. answer ≡ executed_in (nodes.worker_at worker (node_seen self.old)).slot) }
        ensures whole { (n : ℕ) → IsWhole n self.old → OnOk result (IsWhole n self.new) }
    {
        collect(&mut self.replica, worker, handed)?;
        let answer = self.workers[worker].collect();
        Ok(answer)
    }
}

// What the threads of a server tell one another.
ghost use Rattle.std.specs.Prelude.{◌≡◌, IfOk};

use crate::wake_list::News;
use nr_blob::Memory;
use nr_service::Rings;
use std::alloc::Global;
use std::sync::atomic::{AtomicBool, AtomicU64, AtomicUsize, Ordering};

/// What the threads of a server tell one another: how many connections each node has, which nodes are down, how many workers serve yet, that all shall stop, at once or in
/// order, which of them rest then, and the bells that wake who sleeps. Hints alone: nothing that is proved rests on them. The threads share it.
///
/// An end in order: no bytes are read any more, and a worker rests behind a turn in which it had nothing to do and nothing was left to be written. What it does for
/// others, as an entry that it puts into the log, or bytes that it makes for another's connection, raises a number behind that. So once each worker rests by a turn
/// that it began behind the last rise, none can have anything to do: who has has not rested since, until it has raised the number itself.
#[derive(Drop)]
pub struct SharedHints<K> {
    bells: K,
    nodes: usize,
    workers: usize,
    connections: u64,
    // Of each node, how many of its connections are open, or on their way to it.
    taken: Vec<AtomicU64>,
    // A bit for each node that is down, node 0's the lowest, for each of them of which nobody heard yet, and for each of which that was heard.
    downs: AtomicU64,
    unheard: AtomicU64,
    heard: AtomicU64,
    // Of each node, how many of its connections were open as it fell, how often it came back, and a bit for each worker that didn't hear of the last of these yet.
    fallen: Vec<AtomicU64>,
    revivals: Vec<AtomicU64>,
    unreturned: Vec<AtomicU64>,
    // It is tried to bring one back.
    is_reviving: AtomicBool,
    serving: AtomicUsize,
    stops: AtomicBool,
    // All shall end in order, and how often something was passed on since.
    ends: AtomicBool,
    rises: AtomicU64,
    // Of each lane, behind how many of these it rests, and one more; 0 where it doesn't.
    rests: Vec<AtomicU64>,
}

// So many numbers that threads share, each 0.
fn counts(alloc: Global, count: usize) -> Result<Vec<AtomicU64>, Memory> {
    let mut made = Vec::with_capacity(alloc, count)?;
    for _ in 0..count {
        made.push(AtomicU64::new(0))?;
    }
    Ok(made)
}

// The bit of a worker.
fn worker_bit(worker: usize) -> u64 {
    if worker < 64 { 1 << worker } else { 0 }
}

// Those of so many workers.
fn worker_bits(workers: usize) -> u64 {
    let mut bits = 0;
    for worker in 0..workers {
        bits |= worker_bit(worker);
    }
    bits
}

impl<K: Rings> SharedHints<K> {
    /// Of a server of so many nodes, each with so many workers, of which each node has at most so many connections: none yet. Nobody serves yet, and no node is down.
    pub fn new(
        alloc: Global,
        bells: K,
        nodes: usize,
        workers: usize,
        connections: usize,
    ) -> Result<SharedHints<K>, Memory>
    where
        K: Drop,
    {
        let taken = counts(alloc, nodes)?;
        let fallen = counts(alloc, nodes)?;
        let revivals = counts(alloc, nodes)?;
        let unreturned = counts(alloc, nodes)?;
        let rests = counts(alloc, nodes.saturating_mul(workers))?;
        Ok(SharedHints {
            bells,
            nodes,
            workers,
            connections: connections as u64,
            taken,
            downs: AtomicU64::new(0),
            unheard: AtomicU64::new(0),
            heard: AtomicU64::new(0),
            fallen,
            revivals,
            unreturned,
            is_reviving: AtomicBool::new(false),
            serving: AtomicUsize::new(0),
            stops: AtomicBool::new(false),
            ends: AtomicBool::new(false),
            rises: AtomicU64::new(0),
            rests,
        })
    }

    /// For tests: what wakes its threads.
    pub fn bells(&self) -> &K {
        &self.bells
    }

    /// Takes room for one more connection of a node. False where the node is down, or came back and a worker of it hasn't let go of its connections of before yet, or has as
    /// many as it takes: then no room is taken.
    pub fn admit(&self, node: usize) -> bool {
        if self.is_down(node) || self.is_returning(node) {
            return false;
        }
        self.take_room(node) || (self.find_lost(node) && self.take_room(node))
    }

    // Takes room for one more, where there is some.
    fn take_room(&self, node: usize) -> bool {
        let Some(taken) = self.taken.get(node) else {
            return false;
        };
        if taken.fetch_add(1, Ordering::SeqCst) < self.connections {
            return true;
        }
        taken.fetch_sub(1, Ordering::SeqCst);
        false
    }

    // Gives the room of those back that never came to a node they were dealt to. Whether there were any.
    fn find_lost(&self, node: usize) -> bool {
        let mut has_found = false;
        for worker in 0..self.workers {
            let lost = self.bells.take_lost(self.lane(node, worker));
            for _ in 0..lost {
                self.leave(node);
                has_found = true;
            }
        }
        has_found
    }

    /// The room of a connection of a node comes back.
    pub fn leave(&self, node: usize) {
        if let Some(taken) = self.taken.get(node) {
            taken.fetch_sub(1, Ordering::SeqCst);
        }
    }

    /// A node is down from now on, as one of its workers found, before which it had come back so often. Which of them finds it first tells it. Where it came back since,
    /// nothing is told.
    pub fn fall(&self, node: usize, revivals: u64) {
        if node >= 64 || self.is_down(node) || self.revivals(node) != revivals {
            return;
        }
        if self.downs.fetch_or(1 << node, Ordering::SeqCst) & (1 << node) != 0 {
            return;
        }
        if self.revivals(node) != revivals {
            self.downs.fetch_and(!(1 << node), Ordering::SeqCst);
            return;
        }
        if let (Some(fallen), Some(taken)) = (self.fallen.get(node), self.taken.get(node)) {
            fallen.store(taken.load(Ordering::SeqCst), Ordering::SeqCst);
        }
        self.unheard.fetch_or(1 << node, Ordering::SeqCst);
    }

    /// How many connections of a node were open as it fell, where it is down and that wasn't asked since.
    pub fn take_fall(&self, node: usize) -> Option<usize> {
        if node >= 64 || self.unheard.load(Ordering::SeqCst) & (1 << node) == 0 {
            return None;
        }
        self.unheard.fetch_and(!(1 << node), Ordering::SeqCst);
        self.heard.fetch_or(1 << node, Ordering::SeqCst);
        let fallen = self.fallen.get(node)?;
        Some(fallen.load(Ordering::SeqCst) as usize)
    }

    /// Whether a node is down of which that was heard, by [`SharedHints::take_fall`].
    pub fn is_known_down(&self, node: usize) -> bool {
        node < 64 && self.heard.load(Ordering::SeqCst) & (1 << node) != 0
    }

    /// How often a node came back.
    pub fn revivals(&self, node: usize) -> u64 {
        match self.revivals.get(node) {
            Some(revivals) => revivals.load(Ordering::SeqCst),
            None => 0,
        }
    }

    /// It is tried to bring a node back: until that is over the nodes aren't all down.
    pub fn begin_to_revive(&self) {
        self.is_reviving.store(true, Ordering::SeqCst);
    }

    /// That is over.
    pub fn end_reviving(&self) {
        self.is_reviving.store(false, Ordering::SeqCst);
    }

    /// A node came back: its workers are woken, and once each of them heard of it connections are dealt to it again.
    pub fn rise(&self, node: usize) {
        if node >= 64 {
            return;
        }
        if let (Some(revivals), Some(unreturned)) = (
            self.revivals.get(node),
            self.unreturned.get(node),
        ) {
            revivals.fetch_add(1, Ordering::SeqCst);
            unreturned.store(worker_bits(self.workers), Ordering::SeqCst);
        }
        for worker in 0..self.workers {
            self.ring(node, worker);
        }
        self.heard.fetch_and(!(1 << node), Ordering::SeqCst);
        self.downs.fetch_and(!(1 << node), Ordering::SeqCst);
    }

    /// What a work of a worker came to that it began as its node had come back so often: whether it found that the node is down, and whether the worker takes it for down.
    pub(crate) fn hear_of_work(
        &self,
        node: usize,
        worker: usize,
        revivals: u64,
        is_fallen: bool,
        is_down: bool,
    ) {
        if is_fallen {
            self.fall(node, revivals);
        } else if !is_down && self.is_returning(node) && self.revivals(node) == revivals {
            self.end_returning(node, worker);
        }
    }

    // A worker has heard that its node came back.
    fn end_returning(&self, node: usize, worker: usize) {
        if let Some(unreturned) = self.unreturned.get(node) {
            unreturned.fetch_and(!worker_bit(worker), Ordering::SeqCst);
        }
    }

    // Whether a node came back of which not every worker has heard.
    fn is_returning(&self, node: usize) -> bool {
        match self.unreturned.get(node) {
            Some(unreturned) => unreturned.load(Ordering::SeqCst) != 0,
            None => false,
        }
    }

    /// Whether a node is known to be down.
    pub fn is_down(&self, node: usize) -> bool {
        node < 64 && self.downs.load(Ordering::SeqCst) & (1 << node) != 0
    }

    /// Whether every node is, and it isn't tried to bring one back.
    pub fn are_down(&self) -> bool {
        if self.is_reviving.load(Ordering::SeqCst) {
            return false;
        }
        for node in 0..self.nodes {
            if !self.is_down(node) {
                return false;
            }
        }
        true
    }

    /// One more worker serves.
    pub fn begin(&self) {
        self.serving.fetch_add(1, Ordering::SeqCst);
    }

    /// One serves no more.
    pub fn end(&self) {
        self.serving.fetch_sub(1, Ordering::SeqCst);
    }

    /// How many serve.
    pub fn serving(&self) -> usize {
        self.serving.load(Ordering::SeqCst)
    }

    /// All shall stop.
    pub fn stop(&self) {
        self.stops.store(true, Ordering::SeqCst);
    }

    /// Whether all shall stop.
    pub fn is_stopped(&self) -> bool {
        self.stops.load(Ordering::SeqCst)
    }

    /// All shall end in order: they are woken.
    pub fn end_in_order(&self) {
        if !self.ends.swap(true, Ordering::SeqCst) {
            self.ring_all();
        }
    }

    /// Whether all shall end in order.
    pub fn is_ending(&self) -> bool {
        self.ends.load(Ordering::SeqCst)
    }

    /// How often something was passed on since all shall end in order. A worker asks as its turn begins, and says it as it rests behind that.
    pub fn rises(&self) -> u64 {
        self.rises.load(Ordering::SeqCst)
    }

    /// A worker of a node rests behind a turn that it began behind so many rises.
    pub fn rest(&self, node: usize, worker: usize, rises: u64) {
        if let Some(rest) = self.rests.get(self.lane(node, worker)) {
            rest.store(rises.saturating_add(1), Ordering::SeqCst);
        }
    }

    /// Whether each worker rests behind a turn that it began behind the last rise: none has anything to do any more. Linear in their number.
    pub fn are_at_rest(&self) -> bool {
        let rises = self.rises().saturating_add(1);
        self.rests
            .iter()
            .all(|rest| rest.load(Ordering::SeqCst) == rises)
    }

    /// Wakes everybody.
    pub fn ring_all(&self) {
        for node in 0..self.nodes {
            for worker in 0..self.workers {
                self.ring(node, worker);
            }
        }
    }

    // Which lane a worker of a node is.
    fn lane(&self, node: usize, worker: usize) -> usize {
        node.saturating_mul(self.workers).saturating_add(worker)
    }

    // Wakes a worker of a node.
    fn ring(&self, node: usize, worker: usize) {
        self.bells.ring(self.lane(node, worker));
    }

    // Whether a node has connections, or some are on their way to it.
    fn has_clients(&self, node: usize) -> bool {
        match self.taken.get(node) {
            Some(taken) => taken.load(Ordering::SeqCst) != 0,
            None => false,
        }
    }

    // Wakes the other workers of a node that got something.
    fn ring_others(&self, node: usize, others: u16) {
        for worker in 0..self.workers {
            if worker < 16 && others & (1 << worker) != 0 {
                self.ring(node, worker);
            }
        }
    }

    /// Passes on what the turns of a worker of a node found for others: it wakes those of its node that got something; where an entry was put into the log, a worker of
    /// each other node that has connections; and where the log was full, of each other node. Where all shall end in order it raises the number of what was passed on, and
    /// wakes everybody.
    pub(crate) fn pass_on(&self, node: usize, worker: usize, news: &News) {
        if news.is_none() {
            return;
        }
        if self.is_ending() {
            self.rises.fetch_add(1, Ordering::SeqCst);
            self.ring_all();
            return;
        }
        if news.others != 0 {
            self.ring_others(node, news.others);
        }
        if news.has_put || news.was_full {
            self.ring_nodes(node, worker, news.was_full);
        }
    }

    // Wakes a worker of each other node that has connections, or of each other node at all.
    fn ring_nodes(&self, node: usize, worker: usize, are_all: bool) {
        for other in 0..self.nodes {
            if other != node && (are_all || self.has_clients(other)) {
                self.ring(other, worker);
            }
        }
    }
}

// What waits for a worker's connections, as far as their node stops for it. It is a hint: nothing that a node applies or hands out rests on it.
ghost use Rattle.std.specs.Prelude.{◌≡◌, ◌<◌, ◌≤◌, ◌+◌, true, false, Some, IfOk, length, replicate, slice_index_or};
ghost use Rattle.nr_replica.specs.Backlogs.{IsBacklog, HasBacklogAmong, idle, let_go_of, with_more};

use crate::outbox::Outbox;
use nr_blob::Memory;
use std::alloc::Global;
use std::collections::BTreeMap;

/// How many turns a node is held up for a worker that hands nothing out, before a share more may wait ([`share_of`](crate::share_of)).
const MOST_TURNS: u32 = 1_000;

/// How many shares of its limit may wait for a connection at most, beyond the first.
const MOST_EXTRA: usize = 1_023;

/// What waits for the connections of one worker.
#[derive(Clone, Copy)]
pub(crate) struct Backlog {
    // The connection for which more came to wait than may, the last of them, until something is handed out for it.
    pub(crate) marked: Option<u64>,
    // How many shares of its limit may wait for a connection, beyond the first.
    pub(crate) extra: usize,
    // How many turns were held up since that many may wait.
    pub(crate) turns: u32,
    // Whether a queue was cut since this was last asked.
    pub(crate) was_cut: bool,
}

impl Backlog {
    // One share may wait for each connection, and no turn was held up.
    fn new() -> Backlog
        ensures { result ≡ idle }
    {
        Backlog {
            marked: None,
            extra: 0,
            turns: 0,
            was_cut: false,
        }
    }

    // Something came to wait for this connection. Whether more does than may: then it is marked.
    fn put(&mut self, serial: u64, outbox: &Outbox) -> bool
        ensures marked { result ≡ true → self.new ≡ record self.old { marked = Some serial } }
        ensures above { result ≡ true → IsBacklog outbox.now }
        ensures same { result ≡ false → self.new ≡ self.old }
    {
        let is_marked = self.is_above(outbox);
        if is_marked {
            self.marked = Some(serial);
        }
        is_marked
    }

    // The queue of this connection was cut: nothing more comes to wait for it.
    fn cut(&mut self, serial: u64)
        ensures { self.new ≡ record (let_go_of serial self.old) { was_cut = true } }
    {
        self.let_go(serial);
        self.was_cut = true;
    }

    // Something was handed out for this connection, or it gets nothing more: where it is the one that is marked, all is as at first.
    fn let_go(&mut self, serial: u64)
        ensures { self.new ≡ let_go_of serial self.old }
    {
        let Some(marked) = self.marked else {
            return;
        };
        if marked == serial {
            self.marked = None;
            self.extra = 0;
            self.turns = 0;
        }
    }

    // Whether the node is held up for this worker, since more waits for the connection that is marked than may. Then a turn is counted.
    fn holds_back(&mut self, queues: &BTreeMap<u64, Outbox>, opened: u64) -> bool
        ensures { result ≡ true → HasBacklogAmong opened queues.now.entries }
    {
        let Some(serial) = self.marked else {
            return false;
        };
        if !self.is_above_at(serial, queues, opened) {
            return false;
        }
        self.count_turn()
    }

    // Counts a turn that is held up. Where as many were as may be a share more may wait from now on, and the answer is false.
    fn count_turn(&mut self) -> bool
        ensures counted { result ≡ true → (self.old.turns < 1000) × (self.new ≡ record self.old { turns = self.old.turns + 1 }) }
        ensures over { result ≡ false → (1000 ≤ self.old.turns) × (self.new ≡ with_more self.old) }
    {
        if self.turns < MOST_TURNS {
            self.turns += 1;
            return true;
        }
        self.turns = 0;
        if self.extra < MOST_EXTRA {
            self.extra += 1;
        }
        false
    }

    // Whether more waits for a connection than may.
    fn is_above_at(&self, serial: u64, queues: &BTreeMap<u64, Outbox>, opened: u64) -> bool
        ensures { result ≡ true → HasBacklogAmong opened queues.now.entries }
    {
        if serial >= opened {
            return false;
        }
        match queues.get(&serial) {
            Some(outbox) => self.is_above(outbox),
            None => false,
        }
    }

    // Whether more waits in a queue than may.
    fn is_above(&self, outbox: &Outbox) -> bool
        ensures { result ≡ true → IsBacklog outbox.now }
    {
        self.extra < MOST_EXTRA && outbox.is_above(self.extra)
    }
}

/// For each worker of a node what waits for its connections, as far as the node stops for it.
#[derive(Drop)]
pub(crate) struct Backlogs {
    // A worker past these is passed over.
    pub(crate) workers: Vec<Backlog>,
    // Whether a connection was marked since none was found for which more waits than may.
    is_marked: bool,
}

impl Backlogs {
    /// Nothing waits for the connections of so many workers.
    pub(crate) fn new(alloc: Global, workers: usize) -> Result<Backlogs, Memory>
        ensures { IfOk result (λ made. made.workers.items ≡ replicate workers idle) }
    {
        let mut made = Vec::with_capacity(alloc, workers)?;
        made.resize(workers, Backlog::new())?;
        Ok(Backlogs {
            workers: made,
            is_marked: false,
        })
    }

    /// Something was put into the queue of a worker's connection, or it was cut instead. One that was cut before is passed over. Constant.
    pub(crate) fn note(&mut self, worker: usize, serial: u64, was_cut: bool, outbox: &Outbox)
        ensures cut { was_cut ≡ false → outbox.now.cut ≡ true → worker < length self.old.workers.items → (slice_index_or self.new.workers.items worker idle).was_cut ≡ true }
        ensures same { was_cut ≡ true → self.new.workers.items ≡ self.old.workers.items }
    {
        if worker >= self.workers.len() || was_cut {
            return;
        }
        if outbox.is_cut() {
            self.workers[worker].cut(serial);
        } else if self.workers[worker].put(serial, outbox) {
            self.is_marked = true;
        }
    }

    /// Something was handed out for a worker's connection, or it was closed. Constant.
    pub(crate) fn let_go(&mut self, worker: usize, serial: u64)
        ensures { slice_index_or self.new.workers.items worker idle ≡ let_go_of serial (slice_index_or self.old.workers.items worker idle) }
    {
        if worker < self.workers.len() {
            self.workers[worker].let_go(serial);
        }
    }

    /// Whether a queue of a worker's connections was cut since this was last asked.
    pub(crate) fn take_cut(&mut self, worker: usize) -> bool
        ensures told { result ≡ (slice_index_or self.old.workers.items worker idle).was_cut }
        ensures taken { (slice_index_or self.new.workers.items worker idle).was_cut ≡ false }
    {
        if worker >= self.workers.len() {
            return false;
        }
        let was_cut = self.workers[worker].was_cut;
        self.workers[worker].was_cut = false;
        was_cut
    }

    /// Whether the node is held up, since more waits for a connection than may: for each worker for which it is, a turn is counted. One compare where
    /// none is marked, else logarithmic for each worker.
    pub(crate) fn holds_back(&mut self, queues: &BTreeMap<u64, Outbox>, opened: u64) -> bool
        ensures { result ≡ true → HasBacklogAmong opened queues.now.entries }
    {
        if !self.is_marked {
            return false;
        }
        self.is_marked = hold_back(&mut self.workers, queues, opened);
        self.is_marked
    }
}

// Whether a node is held up for some of these. Each that it is held up for counts a turn.
fn hold_back(backlogs: &mut [Backlog], queues: &BTreeMap<u64, Outbox>, opened: u64) -> bool
    ensures { result ≡ true → HasBacklogAmong opened queues.now.entries }
{
    let mut is_held = false;
    for backlog in backlogs.iter_mut() {
        is_held |= backlog.holds_back(queues, opened);
    }
    is_held
}

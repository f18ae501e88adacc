// The gate of the workers under test: it stops all once as many connections went as are to go, and may hold workers up.
use nr_service::{Gate, Go};
use std::rt::Clock;
use std::sync::atomic::{AtomicBool, AtomicU64, AtomicUsize, Ordering};
use std::thread;
use std::time::Duration;

/// How often the gate sleeps for a millisecond while it waits for an answer.
const MOST_SLEEPS: u32 = 60_000;

/// Whose turns wait for others.
#[derive(Clone, Copy, Debug)]
pub(crate) enum Held {
    /// Nobody's.
    Nobody,
    /// The worker of this node takes none before that of the other has answered; then that one takes none before this one has.
    Node(usize),
    /// Of two nodes one worker alone takes turns, until one more connection went: the first of each node, then the second of each.
    Others,
}

/// What the workers, and who deals connections out to them, share.
#[derive(Drop)]
pub(crate) struct Watch<'a, R> {
    clock: &'a R,
    // So many connections are to go.
    wanted: usize,
    held: Held,
    gone: AtomicUsize,
    // A bit for each lane that answered a connection, lane 0's the lowest.
    answered: AtomicU64,
    gave_up: AtomicBool,
}

impl<'a, R: Clock> Watch<'a, R> {
    pub(crate) fn new(clock: &'a R, wanted: usize, held: Held) -> Watch<'a, R> {
        Watch {
            clock,
            wanted,
            held,
            gone: AtomicUsize::new(0),
            answered: AtomicU64::new(0),
            gave_up: AtomicBool::new(false),
        }
    }

    /// How many connections went.
    pub(crate) fn gone(&self) -> usize {
        self.gone.load(Ordering::SeqCst)
    }

    /// One more went.
    pub(crate) fn goes(&self) {
        self.gone.fetch_add(1, Ordering::SeqCst);
    }

    /// A lane has answered a connection.
    pub(crate) fn answers(&self, lane: usize) {
        if lane < 64 {
            self.answered.fetch_or(1 << lane, Ordering::SeqCst);
        }
    }

    fn has_answered(&self, lane: usize) -> bool {
        lane < 64 && self.answered.load(Ordering::SeqCst) & (1 << lane) != 0
    }

    /// Whether it was waited for too long.
    pub(crate) fn gave_up(&self) -> bool {
        self.gave_up.load(Ordering::SeqCst)
    }

    fn sleeps(&self) {
        thread::sleep(self.clock, Duration::from_millis(1));
    }

    // Waits until a lane has answered. Whether it did.
    fn waits_for(&self, lane: usize) -> bool {
        for _ in 0..MOST_SLEEPS {
            if self.has_answered(lane) {
                return true;
            }
            self.sleeps();
        }
        false
    }

    // Waits until just so many connections went, or all. Whether they did.
    fn waits_until(&self, count: usize) -> bool {
        for _ in 0..MOST_SLEEPS {
            let gone = self.gone();
            if (gone == count) | (gone >= self.wanted) | self.gave_up() {
                return true;
            }
            self.sleeps();
        }
        false
    }

    // Whether a worker is let on, once it is.
    fn lets_on(&self, node: usize, worker: usize, turn: u64) -> bool {
        match self.held {
            Held::Nobody => turn < 4_000_000,
            Held::Node(held) => self.lets_node_on(held, node, turn),
            Held::Others => {
                turn < 1_000_000 && self.waits_until(worker.saturating_mul(2).saturating_add(node))
            }
        }
    }

    // The same, where the worker of a node is held up.
    fn lets_node_on(&self, held: usize, node: usize, turn: u64) -> bool {
        if node == held {
            return self.waits_for(1 - node.min(1));
        }
        if self.has_answered(node) {
            return self.waits_for(held);
        }
        turn < 1_000_000
    }
}

impl<R: Clock> Gate for Watch<'_, R> {
    fn turn(&self, node: usize, worker: usize, turn: u64) -> Go {
        if !self.lets_on(node, worker, turn) {
            self.gave_up.store(true, Ordering::SeqCst);
        }
        if self.gave_up() || self.gone() >= self.wanted {
            Go::Stop
        } else {
            Go::On
        }
    }
}

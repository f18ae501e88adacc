// Who deals connections out to three nodes, has them fall, and lets them come back.
use crate::asserted::holds;
use crate::callers::{Asked, Caller, Question, Shared};
use crate::falling::{Falls, bit};
use nr_service::{Accepts, Ends, Gate, Go, Revival};
use std::alloc::Global;
use std::collections::VecDeque;
use std::process::Abort;
use std::rt::Clock;
use std::sync::atomic::{AtomicBool, Ordering};
use std::sync::{Mutex, Wait};
use std::thread;
use std::time::Instant;

/// How many nodes there are, and how many workers each of them has.
pub(crate) const NODES: usize = 3;

pub(crate) const WORKERS: usize = 2;

/// How many clients are there from the first on: one sets a value, some are subscribed, and the others count.
pub(crate) const CALLERS: usize = 17;

/// How many answers come between two falls at least.
const BETWEEN: usize = 60;

/// How often it is asked how many are subscribed, until nobody is.
const MOST_ASKED: usize = 10_000;

/// How long all may take, in milliseconds.
const MOST_TIME: u128 = 45_000;

/// Clients on their way.
pub(crate) type Pool = Mutex<VecDeque<Caller>>;

/// Puts a client behind the others.
pub(crate) fn put<R: Wait + Abort>(rt: &R, pool: &Pool, caller: Caller) {
    let put = pool.lock(rt).push_back(caller);
    put.ok().expect(rt, "memory");
}

/// How nodes fall.
#[derive(Clone, Copy, Debug, PartialEq, Eq)]
pub(crate) enum Trouble {
    /// One after the other.
    InTurn,
    /// As one is to come back, the one so many behind it falls.
    Beside(usize),
    /// Two at once, and none comes back before both are down.
    TwoAtOnce,
}

/// All workers stop where it was waited for too long.
#[derive(Drop)]
pub(crate) struct Patience {
    has_ended: AtomicBool,
}

impl Patience {
    pub(crate) fn new() -> Patience {
        Patience {
            has_ended: AtomicBool::new(false),
        }
    }

    /// Whether it was waited for too long.
    pub(crate) fn has_ended(&self) -> bool {
        self.has_ended.load(Ordering::SeqCst)
    }

    fn ends(&self) {
        self.has_ended.store(true, Ordering::SeqCst);
    }
}

impl Gate for Patience {
    fn turn(&self, _: usize, _: usize, _: u64) -> Go {
        if self.has_ended() { Go::Stop } else { Go::On }
    }
}

/// How far it is.
#[derive(Clone, Copy, Debug, PartialEq, Eq)]
enum Stage {
    /// Clients count, and nodes fall.
    Counting,
    /// Nobody counts any more, and all go.
    Going,
    /// A client at each lane is told how far was counted.
    Reading,
    /// It is asked how many are subscribed.
    Publishing,
    /// Nobody is.
    Over,
}

/// What deals connections out, and has nodes fall.
#[derive(Drop)]
pub(crate) struct Director<'a, R> {
    rt: &'a R,
    alloc: Global,
    began: Instant,
    progress: &'a Shared,
    patience: &'a Patience,
    falls: &'a Falls,
    pool: &'a Pool,
    letters: &'a [Pool],
    trouble: Trouble,
    stage: Stage,
    // In how many rounds more nodes are to fall, which one then, and not before so many answers.
    rounds: usize,
    next: usize,
    from: usize,
    // Of this round: a bit for each node that was to fall and didn't come back, and for each of which a fall was told; whether one falls beside another yet; and whether they
    // come back.
    ordered: u64,
    told: u64,
    comes_one: bool,
    come_back: bool,
    held: Option<Caller>,
    // A bit for each lane at which nobody was told how far was counted.
    unread: u64,
    asked: usize,
    /// How often a node came back.
    pub(crate) backs: usize,
    /// The clients that were there from the first on and are done.
    pub(crate) done: Vec<Caller>,
    /// How far was counted, and whether each lane says so.
    pub(crate) total: u64,
    pub(crate) is_agreed: bool,
}

// The node so many behind this one.
fn behind(node: usize, count: usize) -> usize {
    node.saturating_add(count) % NODES
}

impl<'a, R: Clock + Wait + Abort> Director<'a, R> {
    /// Nodes fall in so many rounds.
    pub(crate) fn new(
        rt: &'a R,
        alloc: Global,
        progress: &'a Shared,
        patience: &'a Patience,
        falls: &'a Falls,
        pool: &'a Pool,
        letters: &'a [Pool],
        trouble: Trouble,
        rounds: usize,
    ) -> Director<'a, R> {
        Director {
            rt,
            alloc,
            began: Instant::now(rt).ok().expect(rt, "there is a clock"),
            progress,
            patience,
            falls,
            pool,
            letters,
            trouble,
            stage: Stage::Counting,
            rounds,
            next: 0,
            from: BETWEEN,
            ordered: 0,
            told: 0,
            comes_one: false,
            come_back: false,
            held: None,
            unread: (1 << (NODES * WORKERS)) - 1,
            asked: 0,
            backs: 0,
            done: Vec::new(alloc),
            total: 0,
            is_agreed: true,
        }
    }

    /// Whether nobody is subscribed any more.
    pub(crate) fn is_over(&self) -> bool {
        self.stage == Stage::Over && self.asked < MOST_ASKED
    }

    // These nodes fall in the next round.
    fn fall_next(&self) -> u64 {
        let first = bit(self.next);
        if self.trouble == Trouble::TwoAtOnce {
            first | bit(behind(self.next, 1))
        } else {
            first
        }
    }

    fn begins_round(&mut self) {
        self.ordered = self.fall_next();
        self.told = 0;
        self.comes_one = true;
        self.come_back = self.trouble != Trouble::TwoAtOnce;
        self.falls.add(self.ordered);
        self.next = behind(self.next, 1);
        self.rounds = self.rounds.saturating_sub(1);
    }

    // The next round begins where all came back, and enough was answered since.
    fn goes_on_counting(&mut self) {
        if self.ordered != 0 || self.progress.answers() < self.from {
            return;
        }
        if self.rounds > 0 {
            self.begins_round();
            return;
        }
        self.progress.suffices();
        self.stage = Stage::Going;
    }

    // A client more asks this once.
    fn asks(&self, question: Question) {
        let caller = Caller::new(self.rt, self.alloc, Asked::Once(question), self.progress);
        put(self.rt, self.pool, caller);
    }

    fn goes_on(&mut self) {
        if self.stage == Stage::Counting {
            self.goes_on_counting();
        } else if self.stage == Stage::Going && self.done.len() == CALLERS {
            self.stage = Stage::Reading;
            self.asks(Question::Reads);
        }
    }

    // It was told at this lane how far was counted.
    fn reads(&mut self, lane: usize, number: u64) {
        self.is_agreed &= self.total == 0 || self.total == number;
        self.total = number;
        self.unread &= !bit(lane);
        if self.unread == 0 {
            self.stage = Stage::Publishing;
            self.asks(Question::Publishes);
        } else {
            self.asks(Question::Reads);
        }
    }

    // It was told how many are subscribed.
    fn hears(&mut self, number: u64) {
        self.asked = self.asked.saturating_add(1);
        if number == 0 || self.asked >= MOST_ASKED {
            self.stage = Stage::Over;
        } else {
            self.asks(Question::Publishes);
        }
    }

    // A client is done.
    fn ends(&mut self, caller: Caller) {
        let number = caller.numbers.first().copied().unwrap_or(0);
        match self.stage {
            Stage::Reading => self.reads(caller.lane, number),
            Stage::Publishing => self.hears(number),
            Stage::Counting | Stage::Going | Stage::Over => {
                self.done.push(caller).ok().expect(self.rt, "memory");
            }
        }
    }

    // The next client that asks something more.
    fn next_caller(&mut self) -> Option<Caller> {
        for _ in 0..CALLERS {
            let caller = self.pool.lock(self.rt).pop_front()?;
            if !caller.is_done() {
                return Some(caller);
            }
            self.ends(caller);
        }
        None
    }

    // Whether all took too long.
    fn is_late(&self) -> bool {
        match Instant::now(self.rt) {
            Ok(now) => now.duration_since(self.began).as_millis() > MOST_TIME,
            Err(_) => true,
        }
    }

    // The one so many behind this falls too.
    fn falls_beside(&mut self, node: usize, count: usize) {
        let other = bit(behind(node, count));
        self.comes_one = false;
        self.ordered |= other;
        self.falls.add(other);
    }
}

impl<R: Clock + Wait + Abort> Accepts for Director<'_, R> {
    fn accept(&mut self) -> bool {
        if self.held.is_none() {
            self.held = self.next_caller();
        }
        self.held.is_some()
    }

    fn deal(&mut self, lane: usize) {
        if let (Some(mut caller), Some(letters)) = (self.held.take(), self.letters.get(lane)) {
            caller.lane = lane;
            put(self.rt, letters, caller);
        }
    }

    fn turn_away(&mut self) {
        if let Some(caller) = self.held.take() {
            put(self.rt, self.pool, caller);
        }
    }

    fn wait(&mut self) -> bool {
        thread::yield_now();
        self.goes_on();
        if self.is_late() {
            self.patience.ends();
        }
        true
    }

    fn ending(&mut self) -> Ends {
        if self.stage == Stage::Over || self.patience.has_ended() {
            Ends::AtOnce
        } else {
            Ends::Not
        }
    }

    fn hear_of_fall(&mut self, node: usize, _: usize) {
        self.told |= bit(node);
        self.come_back |= self.ordered & !self.told == 0;
    }

    fn is_time_to_revive(&mut self, node: usize) -> bool {
        if let Trouble::Beside(count) = self.trouble
            && self.comes_one
        {
            self.falls_beside(node, count);
        }
        self.come_back
    }

    fn hear_of_revival(&mut self, node: usize, revival: Revival) {
        if let Revival::Back(_) = revival {
            holds(self.rt, "it was down", self.ordered & bit(node) != 0);
            self.ordered &= !bit(node);
            self.backs = self.backs.saturating_add(1);
            self.from = self.progress.answers().saturating_add(BETWEEN);
        }
    }

    fn refuses(&mut self, node: usize) -> bool {
        self.falls.take(node)
    }
}

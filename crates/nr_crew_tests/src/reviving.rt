// Nodes that fall and come back while clients of all of them count up.
use crate::asserted::holds;
use crate::callers::{Asked, Caller, Progress, Question, Shared};
use crate::directing::{CALLERS, Director, NODES, Patience, Pool, Trouble, WORKERS, put};
use crate::falling::Falls;
use crate::places::Still;
use nr_blob::Memory;
use nr_crew::{Served, StartError, WorkerPorts, serve_nodes};
use nr_entry::Setup;
use nr_service::{Poller, Silent};
use std::alloc::Global;
use std::collections::VecDeque;
use std::hash::RandomState;
use std::process::Abort;
use std::random::RandomSource;
use std::rt::Clock;
use std::sync::{Mutex, Wait};
use std::thread;
use std::thread::Threads;

/// How many clients are subscribed.
const LISTENERS: usize = 4;

// Where the connections of a lane come from, and where clients go whose connection ends.
#[derive(Drop)]
struct Door<'a, R> {
    rt: &'a R,
    pool: &'a Pool,
    letters: &'a Pool,
}

impl<R: Wait + Abort> Door<'_, R> {
    fn lets_go(&self, mut caller: Caller) {
        caller.hangs_up();
        put(self.rt, self.pool, caller);
    }
}

impl<R: Wait + Abort> Poller<Caller> for Door<'_, R> {
    fn accept(&mut self) -> Result<Option<Caller>, Memory> {
        Ok(self.letters.lock(self.rt).pop_front())
    }

    fn wait(&mut self, is_busy: bool) -> bool {
        if !is_busy {
            thread::yield_now();
        }
        true
    }

    fn finish(&mut self, caller: Caller) {
        self.lets_go(caller);
    }

    fn abandon(&mut self, caller: Caller) {
        self.lets_go(caller);
    }
}

// What the client of this number asks. What the first sets makes a copy take its time.
fn asked_by(number: usize) -> Asked {
    if number == 0 {
        Asked::Once(Question::Sets)
    } else if number <= LISTENERS {
        Asked::Listens
    } else {
        Asked::Counts
    }
}

// All clients.
fn pool_of<R: Wait + Abort>(rt: &R, alloc: Global, progress: &Shared) -> Pool {
    let pool = Mutex::new(VecDeque::new(alloc));
    for number in 0..CALLERS {
        put(
            rt,
            &pool,
            Caller::new(rt, alloc, asked_by(number), progress),
        );
    }
    pool
}

// Nobody is on the way to a lane.
fn letters_of<R: Abort>(rt: &R, alloc: Global) -> Vec<Pool> {
    let mut letters = Vec::new(alloc);
    for _ in 0..NODES * WORKERS {
        let empty = Mutex::new(VecDeque::new(alloc));
        letters.push(empty).ok().expect(rt, "memory");
    }
    letters
}

// The doors of all lanes, each with the clock of its worker.
fn doors_of<'a, R: Abort>(
    rt: &'a R,
    alloc: Global,
    pool: &'a Pool,
    letters: &'a [Pool],
) -> Vec<WorkerPorts<Door<'a, R>, Still>> {
    let mut places = Vec::new(alloc);
    for letters in letters {
        let device = Door { rt, pool, letters };
        let put = places.push(WorkerPorts {
            device,
            clock: Still,
        });
        put.ok().expect(rt, "memory");
    }
    places
}

// Serves by the doors of all lanes.
fn serve_by<'a, R>(
    rt: &'a R,
    alloc: Global,
    places: usize,
    doors: Vec<WorkerPorts<Door<'a, R>, Still>>,
    director: Director<'a, R>,
    patience: &Patience,
) -> Result<(Served<Caller, Door<'a, R>, Still>, Director<'a, R>), StartError>
where
    R: RandomSource + Clock + Threads + Wait + Abort + Sync,
{
    let keys = RandomState::new(rt).ok().expect(rt, "random bytes");
    let setup = Setup::new(NODES, places, WORKERS, CALLERS, 1_048_576).expect(
        rt,
        "there may be such a server",
    );
    serve_nodes::<R, Caller, Door<'_, R>, Still, Silent, Patience, Director<'_, R>>(
        rt, alloc, keys, setup, 0, doors, Silent, director, patience,
    )
}

// The numbers that a client was told rise, and each is for a request. Adds them to the others'.
fn rises<R: Abort>(rt: &R, caller: &Caller, all: &mut Vec<u64>) {
    let numbers = &caller.numbers;
    holds(rt, "numbers alone came", !caller.is_wrong);
    holds(rt, "each has a request", numbers.len() <= caller.given);
    holds(rt, "the numbers rise", numbers.is_sorted());
    all.extend_from_slice(numbers).expect(rt, "memory");
}

// No number came twice, and none above how far was counted.
fn is_each_once<R: Abort>(rt: &R, mut all: Vec<u64>, total: u64) {
    all.sort_unstable();
    let mut before = 0;
    for number in &all {
        holds(rt, "no number comes twice", *number > before);
        before = *number;
    }
    holds(rt, "none is above all", before <= total);
}

// What the counting clients were told fits to how far was counted.
fn have_counted<R: Abort>(rt: &R, alloc: Global, done: &[Caller], total: u64) {
    let mut all = Vec::new(alloc);
    let mut given = 0usize;
    for caller in done {
        if caller.asked == Asked::Counts {
            rises(rt, caller, &mut all);
            given = given.saturating_add(caller.given);
        }
    }
    holds(rt, "some are answered", !all.is_empty());
    holds(rt, "none counts twice", total <= given as u64);
    holds(rt, "each answer counts", all.len() as u64 <= total);
    is_each_once(rt, all, total);
}

// Three nodes over a log of so many places fall in so many rounds, and come back so often, while clients of all of them count up. Then each worker of each node tells
// how far was counted, at least as far as was answered and at most as was asked; and nobody is subscribed.
fn count_beside<R>(
    rt: &R,
    alloc: Global,
    places: usize,
    (trouble, rounds, backs): (Trouble, usize, usize),
)
where
    R: RandomSource + Clock + Threads + Wait + Abort + Sync,
{
    let progress = Progress::new(rt, alloc);
    let patience = Patience::new();
    let falls = Falls::new(0);
    let pool = pool_of(rt, alloc, &progress);
    let letters = letters_of(rt, alloc);
    let director = Director::new(
        rt, alloc, &progress, &patience, &falls, &pool, &letters, trouble, rounds,
    );
    let doors = doors_of(rt, alloc, &pool, &letters);
    let served = serve_by(rt, alloc, places, doors, director, &patience);
    let (served, director) = served.ok().expect(rt, "memory");
    holds(rt, "all end in time", !patience.has_ended());
    holds(rt, "the server ends well", served.ended == Ok(()));
    holds(rt, "each came back", director.backs == backs);
    holds(rt, "all have counted as far", director.is_agreed);
    holds(rt, "nobody is subscribed", director.is_over());
    holds(rt, "all clients went", director.done.len() == CALLERS);
    have_counted(rt, alloc, &director.done, director.total);
}

// Each node falls three times, one after the other.
#[test]
fn each_comes_back(rt: HostRuntime) {
    for places in [2, 64] {
        count_beside(&rt, rt.alloc(), places, (Trouble::InTurn, 9, 9));
    }
}

// As a node is to come back, the one falls that it would come back from, or the other one.
#[test]
fn another_falls_meanwhile(rt: HostRuntime) {
    for behind in [1, 2] {
        count_beside(&rt, rt.alloc(), 64, (Trouble::Beside(behind), 6, 12));
    }
}

#[test]
fn two_at_once_come_back(rt: HostRuntime) {
    count_beside(&rt, rt.alloc(), 64, (Trouble::TwoAtOnce, 6, 12));
}

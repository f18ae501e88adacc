// Workers of two nodes, each on a thread of its own, count at one key.
ghost use Rattle.std.specs.Prelude.{◌≡◌, length};
ghost use Rattle.nr_oplog.specs.Opening.{name_of, nodes_of, places_of};
ghost use Rattle.nr_combiner.specs.Opened.{AreNamed, AreOfWorkers};

use crate::asserted::holds;
use crate::desk::{Desk, MANY};
use nr_combiner::{OpenedSlots, ServerName, open_slots};
use nr_entry::Setup;
use nr_oplog::OpenedLog;
use nr_test_parts::{Station, stations};
use std::alloc::Global;
use std::hash::RandomState;
use std::marker::Brand;
use std::process::Abort;
use std::random::RandomSource;
use std::sync::Wait;
use std::sync::atomic::{AtomicUsize, Ordering};
use std::thread;
use std::thread::Threads;

/// How often a worker looks in vain before it gives up.
const MOST_VAIN: u64 = 20_000_000;

/// How many workers a node has, how many INCRs a batch, and how many batches each worker hands in.
#[derive(Clone, Copy)]
struct Counting {
    workers: usize,
    batch: usize,
    batches: usize,
}

// The INCRs of a batch.
fn requests(rt: &impl Abort, alloc: Global, batch: usize) -> Vec<u8> {
    let mut sent = Vec::new(alloc);
    for _ in 0..batch {
        sent.extend_from_slice(b"INCR n\r\n").expect(rt, "memory");
    }
    sent
}

// Takes turns of the combiner until the worker's batch is executed.
fn waits_for_answer<B: ServerName, R: Wait + Abort>(rt: &R, station: &mut Station<B>) {
    for _ in 0..MOST_VAIN {
        holds(rt, "a turn is taken", station.combine(rt).is_ok());
        if let Some(executed) = station.collect() {
            holds(rt, "the batch is executed", executed);
            return;
        }
        thread::yield_now();
    }
    panic!(rt; "no answer came");
}

// The numbers that replies tell, behind the others: integers, and the lengths and digits of bulks.
fn read_numbers(rt: &impl Abort, replies: &[u8], numbers: &mut Vec<u64>) {
    let mut number = 0u64;
    for byte in replies {
        if *byte == b'\r' {
            numbers.push(number).expect(rt, "memory");
            number = 0;
        } else {
            number = read_on(rt, number, *byte);
        }
    }
}

// The number with one byte more of its reply.
fn read_on(rt: &impl Abort, number: u64, byte: u8) -> u64 {
    if byte.is_ascii_digit() {
        return number
            .saturating_mul(10)
            .saturating_add(u64::from(byte - b'0'));
    }
    holds(rt, "it is a number's reply", b":$\n".contains(&byte));
    number
}

// Reads what waits for the client.
fn reads<B: ServerName, R: Wait + Abort>(rt: &R, desk: &mut Desk<B>, numbers: &mut Vec<u64>) {
    let some = desk.takes(rt, MANY);
    holds(rt, "replies wait", some);
    read_numbers(rt, desk.client.pending(), numbers);
    desk.client.write();
}

// Hands in a batch, and reads once it was answered.
fn counts_batch<B: ServerName, R: Wait + Abort>(
    rt: &R,
    desk: &mut Desk<B>,
    sent: &[u8],
    numbers: &mut Vec<u64>,
) {
    desk.hands_in(rt, sent);
    waits_for_answer(rt, &mut desk.station);
    reads(rt, desk, numbers);
}

// Hands in batches of INCRs, each once the last one was answered, goes on passing the others' entries until all workers have ended, and then asks how far all
// counted. What it was told.
fn counts<B: ServerName, R: Wait + Abort>(
    rt: &R,
    alloc: Global,
    station: Station<B>,
    counting: Counting,
    ended: &AtomicUsize,
    workers: usize,
) -> Vec<u64> {
    let sent = requests(rt, alloc, counting.batch);
    let mut numbers = Vec::new(alloc);
    let mut desk = Desk::new(rt, station);
    for _ in 0..counting.batches {
        counts_batch(rt, &mut desk, &sent, &mut numbers);
    }
    ended.fetch_add(1, Ordering::SeqCst);
    goes_on_passing(rt, &desk.station, ended, workers);
    desk.sends(rt, b"GET n\r\n");
    reads(rt, &mut desk, &mut numbers);
    numbers
}

// Takes turns until so many workers have ended.
fn goes_on_passing<B: ServerName, R: Wait + Abort>(
    rt: &R,
    station: &Station<B>,
    ended: &AtomicUsize,
    workers: usize,
) {
    for _ in 0..MOST_VAIN {
        if ended.load(Ordering::SeqCst) >= workers {
            return;
        }
        holds(rt, "a turn is taken", station.combine(rt).is_ok());
        thread::yield_now();
    }
    panic!(rt; "others didn't end");
}

// What each worker was told, the workers being on threads of their own.
fn count_up<B: ServerName + Send + Sync, R: Threads + Wait + Abort + Sync>(
    rt: &R,
    alloc: Global,
    keys: RandomState,
    opened: OpenedLog,
    slots: Vec<OpenedSlots>,
    setup: Setup,
    counting: Counting,
) -> Vec<Vec<u64>>
    requires name { name_of opened ≡ B.log }
    requires shape { (nodes_of opened ≡ B.nodes) × (places_of opened ≡ B.places) × (setup.nodes ≡ B.nodes) }
    requires slots { (length slots.items ≡ B.nodes) × AreNamed B.slots slots.items }
    requires workers { AreOfWorkers setup.workers slots.items }
{
    let workers = stations::<B>(alloc, keys, opened, slots, setup).expect(rt, "nodes are built");
    let many = workers.len();
    let ended = AtomicUsize::new(0);
    thread::map_vec(
        rt,
        workers,
        &|worker| counts(rt, alloc, worker, counting, &ended, many),
    )
    .expect(rt, "memory")
}

// The numbers that one worker was told are greater and greater, and the last tells how far all counted. Adds them to the others'.
fn rise<R: Abort>(rt: &R, mut numbers: Vec<u64>, each: usize, total: u64, all: &mut Vec<u64>) {
    holds(rt, "it counted as far as all", numbers.pop() == Some(total));
    holds(rt, "in so many digits", numbers.pop().is_some());
    holds(rt, "each batch was counted", numbers.len() == each);
    holds(rt, "the numbers rise", numbers.is_sorted());
    all.extend_from_slice(&numbers).expect(rt, "memory");
}

// These are all numbers from 1 on, once each.
fn is_each_once<R: Abort>(rt: &R, mut all: Vec<u64>, total: u64) {
    holds(rt, "all are there", all.len() as u64 == total && total > 0);
    all.sort_unstable();
    for (place, number) in all.iter().enumerate() {
        holds(rt, "each is there once", *number == place as u64 + 1);
    }
}

// Each worker of a new log's nodes, on a thread of its own, is told greater and greater numbers, and all of them together each number from 1 on once. Then each
// node has counted as far as all.
fn count_together<R: Threads + Wait + Abort + Sync>(
    rt: &R,
    alloc: Global,
    keys: RandomState,
    (nodes, places): (usize, usize),
    counting: Counting,
) {
    let setup = Setup::new(nodes, places, counting.workers, counting.workers, MANY).expect(
        rt,
        "there may be such a server",
    );
    let opened = OpenedLog::open(alloc, setup.nodes(), setup.places())
        .ok()
        .expect(rt, "a log is opened");
    let slots = open_slots(alloc, setup.nodes(), setup.workers())
        .ok()
        .expect(rt, "slots are opened");
    let told = count_up::<Brand, R>(rt, alloc, keys, opened, slots, setup, counting);
    holds(
        rt,
        "each worker of each node has counted",
        told.len() == nodes.saturating_mul(counting.workers),
    );
    let each = counting.batch.saturating_mul(counting.batches);
    let total = each.saturating_mul(told.len()) as u64;
    let mut all = Vec::new(alloc);
    for numbers in told {
        rise(rt, numbers, each, total, &mut all);
    }
    is_each_once(rt, all, total);
}

// Counts so at the nodes of a new log.
fn count_at<R: RandomSource + Threads + Wait + Abort + Sync>(
    rt: &R,
    alloc: Global,
    shape: (usize, usize),
    counting: Counting,
) {
    let keys = RandomState::new(rt)
        .ok()
        .expect(rt, "there are random bytes");
    count_together(rt, alloc, keys, shape, counting);
}

// The log is so small that it is often full.
#[test]
fn two_nodes_of_two_workers_count_to_100000(rt: HostRuntime) {
    let counting = Counting {
        workers: 2,
        batch: 250,
        batches: 100,
    };
    count_at(&rt, rt.alloc(), (2, 4), counting);
}

// Each INCR takes an entry of its own, of which two find a place.
#[test]
fn through_2_places(rt: HostRuntime) {
    let counting = Counting {
        workers: 2,
        batch: 1,
        batches: 25_000,
    };
    count_at(&rt, rt.alloc(), (2, 2), counting);
}

// Entries of one INCR, of four nodes.
#[test]
fn four_nodes_through_64_places(rt: HostRuntime) {
    let counting = Counting {
        workers: 1,
        batch: 1,
        batches: 25_000,
    };
    count_at(&rt, rt.alloc(), (4, 64), counting);
}

// Commands at nodes behind their locks, each worker on a thread of its own, by turns that lift from all slots or from the worker's own, beside one thread over the server
// of several nodes in one value.
ghost use Rattle.std.specs.Prelude.{◌≡◌, length};
ghost use Rattle.nr_oplog.specs.Opening.{name_of, nodes_of, places_of};
ghost use Rattle.nr_combiner.specs.Opened.{AreNamed, AreOfWorkers};

use crate::{as_io, no_memory};
use nr_blob::Memory;
use nr_combiner::{Lifts, OpenedSlots, ServerName, open_slots};
use nr_entry::Setup;
use nr_oplog::OpenedLog;
use nr_test_parts::{Client, HeldError, Single, Station, stations};
use std::alloc::Global;
use std::hash::RandomState;
use std::marker::Brand;
use std::rt::Runtime;
use std::sync::Wait;
use std::sync::atomic::{AtomicUsize, Ordering};
use std::thread::Threads;
use std::time::Instant;
use std::{io, thread};

/// How many places the log has.
const PLACES: usize = 1024;

/// How many bytes wait for a connection at most.
const LIMIT: usize = 1 << 20;

/// How many keys the commands name, one after the other.
const KEYS: usize = 1000;

/// What is asked for, of one key after the other.
#[derive(Clone, Copy, Debug, PartialEq, Eq)]
pub(crate) enum Asked {
    Set,
    Get,
}

impl Asked {
    fn name(self) -> &'static str {
        match self {
            Asked::Set => "SET",
            Asked::Get => "GET",
        }
    }
}

// The requests of a batch.
fn requests(alloc: Global, asked: Asked, batch: usize) -> Result<Vec<u8>, Memory> {
    let mut sent = Vec::new(alloc);
    for number in 0..batch {
        let key = number % KEYS;
        let request = match asked {
            Asked::Set => format!(in alloc; "SET key:{key} value\r\n")?,
            Asked::Get => format!(in alloc; "GET key:{key}\r\n")?,
        };
        sent.extend_from_slice(request.as_bytes())?;
    }
    Ok(sent)
}

// Takes turns until the worker's batch is answered. How many bytes they handed out.
fn wait_for_answer<B: ServerName, R: Wait>(
    rt: &R,
    station: &mut Station<B>,
    lifts: Lifts,
    client: &mut Client<B>,
) -> Result<usize, HeldError> {
    let mut got = 0usize;
    for _ in 0..u64::MAX {
        let turn = station.turn(rt, lifts, LIMIT)?;
        got = got.saturating_add(client.take_in(station, turn)?);
        if station.collect().is_some() {
            break;
        }
        thread::yield_now();
    }
    Ok(got)
}

/// Hands in a batch, and takes turns until it is answered. How many bytes they handed out.
pub(crate) fn serve_batch<B: ServerName, R: Wait>(
    rt: &R,
    station: &mut Station<B>,
    lifts: Lifts,
    client: &mut Client<B>,
    sent: &[u8],
) -> Result<usize, HeldError> {
    client.send(station, sent)?;
    station.post()?;
    wait_for_answer(rt, station, lifts, client)
}

// A connection of a worker gives so many batches, each once the last one was answered. How many bytes it got.
fn serve<B: ServerName, R: Wait>(
    rt: &R,
    station: &mut Station<B>,
    lifts: Lifts,
    sent: &[u8],
    batches: usize,
) -> Result<usize, HeldError> {
    let mut client = station.open(rt)?;
    let mut got = 0usize;
    for _ in 0..batches {
        got = got.saturating_add(serve_batch(rt, station, lifts, &mut client, sent)?);
    }
    Ok(got)
}

// The same, and then it goes on passing the entries of others until all workers have ended.
fn serve_among<B: ServerName, R: Wait>(
    rt: &R,
    mut station: Station<B>,
    lifts: Lifts,
    sent: &[u8],
    batches: usize,
    ended: &AtomicUsize,
    workers: usize,
) -> Result<usize, HeldError> {
    let got = serve(rt, &mut station, lifts, sent, batches);
    ended.fetch_add(1, Ordering::SeqCst);
    for _ in 0..u64::MAX {
        if ended.load(Ordering::SeqCst) >= workers {
            break;
        }
        station.combine(rt)?;
        thread::yield_now();
    }
    got
}

// How many bytes the connections of all workers got.
fn sum_of(parts: Vec<Result<usize, HeldError>>) -> Result<usize, HeldError> {
    let mut sum = 0usize;
    for part in parts {
        sum = sum.saturating_add(part?);
    }
    Ok(sum)
}

// Each of these workers, on a thread of its own, gives so many batches. How many bytes each got.
fn serve_all<B: ServerName + Send + Sync, R: Threads + Wait + Sync>(
    rt: &R,
    all: Vec<Station<B>>,
    lifts: Lifts,
    sent: &[u8],
    batches: usize,
) -> Result<Vec<Result<usize, HeldError>>, Memory> {
    let many = all.len();
    let ended = AtomicUsize::new(0);
    let got = thread::map_vec(
        rt,
        all,
        &|station| serve_among(rt, station, lifts, sent, batches, &ended, many),
    )?;
    Ok(got)
}

// Each worker of each node, on a thread of its own, gives so many batches. How many bytes they got.
fn run_named<B: ServerName + Send + Sync, R: Threads + Wait + Sync>(
    rt: &R,
    alloc: Global,
    keys: RandomState,
    opened: OpenedLog,
    slots: Vec<OpenedSlots>,
    setup: Setup,
    lifts: Lifts,
    sent: &[u8],
    batches: usize,
) -> Result<usize, HeldError>
    requires name { name_of opened ≡ B.log }
    requires shape { (nodes_of opened ≡ B.nodes) × (places_of opened ≡ B.places) × (setup.nodes ≡ B.nodes) }
    requires slots { (length slots.items ≡ B.nodes) × AreNamed B.slots slots.items }
    requires workers { AreOfWorkers setup.workers slots.items }
{
    let all = stations::<B>(alloc, keys, opened, slots, setup)?;
    let got = serve_all(rt, all, lifts, sent, batches)?;
    sum_of(got)
}

// How large such a server is, with a connection for each worker.
fn size_of(layout: Layout) -> Result<Setup, HeldError> {
    Setup::new(layout.nodes, PLACES, layout.workers, layout.workers, LIMIT).ok_or(
        HeldError::Invalid,
    )
}

// The same at new nodes.
fn run<R: Threads + Wait + Sync>(
    rt: &R,
    alloc: Global,
    keys: RandomState,
    layout: Layout,
    lifts: Lifts,
    sent: &[u8],
    batches: usize,
) -> Result<usize, HeldError> {
    let setup = size_of(layout)?;
    let opened = OpenedLog::open(alloc, setup.nodes(), setup.places())?;
    let slots = open_slots(alloc, setup.nodes(), setup.workers())?;
    run_named::<Brand, R>(rt, alloc, keys, opened, slots, setup, lifts, sent, batches)
}

// Hands in a batch and takes the turn that executes it. How many nanoseconds the turn took: for so long it held the lock.
fn time_turn<B: ServerName, R: Runtime + Wait>(
    rt: &R,
    station: &mut Station<B>,
    client: &mut Client<B>,
    sent: &[u8],
) -> io::Result<u128> {
    client.send(station, sent).map_err(as_io)?;
    station.post().map_err(as_io)?;
    let start = Instant::now(rt)?;
    let turn = station.turn(rt, Lifts::All, LIMIT).map_err(as_io)?;
    let nanos = start.elapsed(rt)?.as_nanos();
    client.take_in(station, turn).map_err(as_io)?;
    station.collect();
    Ok(nanos)
}

// Takes turns in one thread for so many batches of one connection. How many nanoseconds they took together.
fn time_turns<B: ServerName, R: Runtime + Wait>(
    rt: &R,
    station: &mut Station<B>,
    sent: &[u8],
    batches: usize,
) -> io::Result<u128> {
    let mut client = station.open(rt).map_err(|error| as_io(error.into()))?;
    let mut nanos = 0u128;
    for _ in 0..batches {
        nanos = nanos.saturating_add(time_turn(rt, station, &mut client, sent)?);
    }
    Ok(nanos)
}

// The same by the worker of a new node.
fn time_named<B: ServerName, R: Runtime + Wait>(
    rt: &R,
    alloc: Global,
    keys: RandomState,
    opened: OpenedLog,
    slots: Vec<OpenedSlots>,
    setup: Setup,
    sent: &[u8],
    batches: usize,
) -> io::Result<u128>
    requires name { name_of opened ≡ B.log }
    requires shape { (nodes_of opened ≡ B.nodes) × (places_of opened ≡ B.places) × (setup.nodes ≡ B.nodes) }
    requires slots { (length slots.items ≡ B.nodes) × AreNamed B.slots slots.items }
    requires workers { AreOfWorkers setup.workers slots.items }
{
    let mut all = stations::<B>(alloc, keys, opened, slots, setup).map_err(no_memory)?;
    match all.get_mut(0) {
        Some(station) => time_turns(rt, station, sent, batches),
        None => Err(as_io(HeldError::Invalid)),
    }
}

// How many nanoseconds a turn holds the lock, by the one worker of one node.
fn time_lock<R: Runtime + Wait>(
    rt: &R,
    alloc: Global,
    keys: RandomState,
    sent: &[u8],
    batches: usize,
) -> io::Result<u128> {
    let alone = Layout {
        nodes: 1,
        workers: 1,
    };
    let setup = size_of(alone).map_err(as_io)?;
    let opened = OpenedLog::open(alloc, setup.nodes(), setup.places()).map_err(|error| as_io(
        error.into(),
    ))?;
    let slots = open_slots(alloc, setup.nodes(), setup.workers()).map_err(|error| as_io(
        error.into(),
    ))?;
    let nanos = time_named::<Brand, R>(rt, alloc, keys, opened, slots, setup, sent, batches)?;
    Ok(nanos / batches.max(1) as u128)
}

// A connection of the server in one value gives so many batches, in one thread. How many bytes it got.
fn run_single(
    alloc: Global,
    keys: RandomState,
    sent: &[u8],
    batches: usize,
) -> Result<usize, HeldError> {
    let mut single = Single::new(alloc, keys, PLACES, LIMIT)?;
    let mut got = 0usize;
    for _ in 0..batches {
        got = got.saturating_add(single.serve(sent)?);
    }
    Ok(got)
}

/// How many nodes there are, and how many workers each has.
#[derive(Clone, Copy, Debug)]
struct Layout {
    nodes: usize,
    workers: usize,
}

/// The layouts that are measured: one node of one worker, of two and of three, and two and three nodes of one worker each.
const LAYOUTS: [Layout; 5] = [
    Layout {
        nodes: 1,
        workers: 1,
    },
    Layout {
        nodes: 1,
        workers: 2,
    },
    Layout {
        nodes: 1,
        workers: 3,
    },
    Layout {
        nodes: 2,
        workers: 1,
    },
    Layout {
        nodes: 3,
        workers: 1,
    },
];

// The slots from which a turn lifts, as it is said.
fn name_of(lifts: Lifts) -> &'static str {
    match lifts {
        Lifts::All => "all slots",
        Lifts::Own => "its own slot",
    }
}

/// Says how many bytes the connections of the workers got, in each layout.
pub(crate) fn say_counts<R: Runtime + Threads + Wait + Sync>(
    rt: &R,
    alloc: Global,
    keys: RandomState,
) -> io::Result<()> {
    let sent = requests(alloc, Asked::Set, 16).map_err(no_memory)?;
    for layout in LAYOUTS {
        for lifts in [Lifts::All, Lifts::Own] {
            let got = run(rt, alloc, keys, layout, lifts, &sent, 100).map_err(as_io)?;
            let Layout { nodes, workers } = layout;
            let slots = name_of(lifts);
            println!(rt;
                "nodes: {nodes}, workers of each: {workers}, turns of {slots}, bytes of replies: {got}"
            )?;
        }
    }
    let got = run_single(alloc, keys, &sent, 100).map_err(as_io)?;
    println!(rt; "in one value: bytes of replies: {got}")
}

/// How many commands each connection gives.
const COMMANDS: usize = 400_000;

/// Says how many commands a second there are in each layout, by batches of 1, 16 and 400 and both turns, and in one value, and how long a turn holds the lock; and first
/// what four threads do of a loop that touches no memory, beside one: below 3.5 times as much nothing can be said of several threads.
pub(crate) fn say_times<R: Runtime + Threads + Wait + Sync>(
    rt: &R,
    alloc: Global,
    keys: RandomState,
) -> io::Result<()> {
    say_probe(rt, alloc)?;
    for asked in [Asked::Set, Asked::Get] {
        for batch in [1, 16, 400] {
            say_time(rt, alloc, keys, asked, batch)?;
        }
    }
    Ok(())
}

// The same for one kind of command, by batches of one size.
fn say_time<R: Runtime + Threads + Wait + Sync>(
    rt: &R,
    alloc: Global,
    keys: RandomState,
    asked: Asked,
    batch: usize,
) -> io::Result<()> {
    let sent = requests(alloc, asked, batch).map_err(no_memory)?;
    let batches = COMMANDS / batch.max(1);
    let name = asked.name();
    let start = Instant::now(rt)?;
    run_single(alloc, keys, &sent, batches).map_err(as_io)?;
    let micros = start.elapsed(rt)?.as_micros().max(1);
    let a_second = COMMANDS as u128 * 1_000_000 / micros;
    println!(rt; "{name}, batches of {batch}, in one value: {a_second} a second")?;
    let held = time_lock(rt, alloc, keys, &sent, batches)?;
    println!(rt; "{name}, batches of {batch}, a turn holds the lock: {held} nanoseconds")?;
    for layout in LAYOUTS {
        say_layout(rt, alloc, keys, asked, batch, layout, &sent)?;
    }
    Ok(())
}

// How many commands a second there are in a layout, by both turns.
fn say_layout<R: Runtime + Threads + Wait + Sync>(
    rt: &R,
    alloc: Global,
    keys: RandomState,
    asked: Asked,
    batch: usize,
    layout: Layout,
    sent: &[u8],
) -> io::Result<()> {
    let Layout { nodes, workers } = layout;
    let name = asked.name();
    let all = COMMANDS.saturating_mul(nodes).saturating_mul(workers);
    for lifts in [Lifts::All, Lifts::Own] {
        let start = Instant::now(rt)?;
        run(
            rt,
            alloc,
            keys,
            layout,
            lifts,
            sent,
            COMMANDS / batch.max(1),
        )
        .map_err(as_io)?;
        let micros = start.elapsed(rt)?.as_micros().max(1);
        let a_second = all as u128 * 1_000_000 / micros;
        let slots = name_of(lifts);
        println!(rt;
            "{name}, batches of {batch}, {nodes} nodes, {workers} workers of each, turns of {slots}: {a_second} a second"
        )?;
    }
    Ok(())
}

/// How often the loop of the probe turns.
const PROBE_TURNS: u64 = 200_000_000;

// A loop that touches no memory. What it comes to, so that it is run.
fn spin(from: u64) -> u64 {
    let mut at = from;
    for _ in 0..PROBE_TURNS {
        at = at
            .wrapping_mul(6_364_136_223_846_793_005)
            .wrapping_add(1_442_695_040_888_963_407);
    }
    at
}

// So many threads, each of which runs the loop.
fn run_spins<R: Threads + Sync>(rt: &R, alloc: Global, threads: u64) -> Result<Vec<u64>, Memory> {
    let mut from = Vec::new(alloc);
    for number in 0..threads {
        from.push(number)?;
    }
    let ends = thread::map_vec(rt, from, &|number| spin(number))?;
    Ok(ends)
}

// How many microseconds they take.
fn time_spins<R: Runtime + Threads + Sync>(
    rt: &R,
    alloc: Global,
    threads: u64,
) -> io::Result<u128> {
    let start = Instant::now(rt)?;
    let ends = run_spins(rt, alloc, threads).map_err(no_memory)?;
    let micros = start.elapsed(rt)?.as_micros().max(1);
    let odd = ends.iter().filter(|end| **end % 2 == 1).count();
    println!(rt; "{threads} threads of the probe: {micros} microseconds, {odd} odd ends")?;
    Ok(micros)
}

// Says how much four threads do beside one, in hundredths.
fn say_probe<R: Runtime + Threads + Sync>(rt: &R, alloc: Global) -> io::Result<()> {
    let one = time_spins(rt, alloc, 1)?;
    let four = time_spins(rt, alloc, 4)?;
    let hundredths = one.saturating_mul(400) / four.max(1);
    println!(rt; "four threads do {hundredths} hundredths of what one does")
}

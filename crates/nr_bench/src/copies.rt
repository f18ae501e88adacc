// A node that falls and comes back with a copy of the other's server: how long the copy takes, and what is held meanwhile.
use crate::{as_io, no_memory};
use nr_blob::{Memory, int_text};
use nr_entry::{ConnId, Setup};
use nr_test_parts::HeldError;
use nr_world::{StepOutcome, World};
use std::alloc::Global;
use std::hash::RandomState;
use std::io;
use std::rt::Runtime;
use std::time::Instant;

/// How many keys are stored where their size isn't read.
const FEW_KEYS: u32 = 1000;

/// How many places the log has, how many connections a node, and how many bytes wait for one at most.
const PLACES: usize = 64;

const CONNECTIONS: usize = 2;

const LIMIT: usize = 1 << 20;

/// How many bytes of requests are fed at once, or a few more.
const AT_ONCE: usize = 1 << 16;

/// The name of the first key.
const FIRST_NAME: i64 = 1_000_000_000_000_000;

// A server of two nodes in one value, with a connection at the first one.
#[derive(Drop)]
struct Pair {
    world: World,
    conn: ConnId,
}

// How many bytes a connection got for these requests, once all was done that there is to do.
fn ask(world: &mut World, conn: ConnId, requests: &[u8]) -> Result<usize, Memory> {
    world.feed(conn, 0, requests)?;
    let handed = world.settle()?;
    Ok(
        handed
            .iter()
            .map(|handed| handed.bytes.len())
            .fold(0usize, usize::saturating_add),
    )
}

fn open(world: &mut World, node: usize) -> Result<ConnId, HeldError> {
    match world.open(node, 0)? {
        StepOutcome::Opened(conn) => Ok(conn),
        _ => Err(HeldError::Invalid),
    }
}

// The request that stores a key, behind others.
fn push_set(number: u32, requests: &mut Vec<u8>) -> Result<(), Memory> {
    requests.extend_from_slice(b"SET ")?;
    int_text(FIRST_NAME + number as i64, requests)?;
    requests.extend_from_slice(b" xxx\r\n")?;
    Ok(())
}

// Two nodes that hold so many keys of 16 bytes, with values of 3.
fn filled(alloc: Global, hasher: RandomState, keys: u32) -> Result<Pair, HeldError> {
    let setup = Setup::new(2, PLACES, 1, CONNECTIONS, LIMIT).unwrap();
    let mut world = World::new(alloc, hasher, setup)?;
    let conn = open(&mut world, 0)?;
    let mut requests = Vec::new(alloc);
    for number in 0..keys {
        push_set(number, &mut requests)?;
        if requests.len() >= AT_ONCE {
            ask(&mut world, conn, &requests)?;
            requests.clear();
        }
    }
    ask(&mut world, conn, &requests)?;
    Ok(Pair { world, conn })
}

// The second node falls, by an entry of which the application is refused.
fn fall(pair: &mut Pair) -> Result<(), Memory> {
    pair.world.refuse(1)?;
    ask(&mut pair.world, pair.conn, b"DEL k\r\n")?;
    Ok(())
}

// A node comes back with a few keys. How many bytes a connection of it gets for the last of them.
fn asked_behind(alloc: Global, hasher: RandomState) -> Result<usize, HeldError> {
    let mut pair = filled(alloc, hasher, FEW_KEYS)?;
    fall(&mut pair)?;
    pair.world.revive(1, 0)?;
    let conn = open(&mut pair.world, 1)?;
    let got = ask(&mut pair.world, conn, b"GET 1000000000000999\r\n")?;
    Ok(got)
}

/// Says how many bytes the reply has to a GET at a node that came back.
pub(crate) fn say_count(rt: &impl Runtime, alloc: Global, hasher: RandomState) -> io::Result<()> {
    let got = asked_behind(alloc, hasher).map_err(as_io)?;
    println!(rt; "a node that came back, bytes of a reply: {got}")
}

// Waits for a line, so that what is held can be read.
fn wait(rt: &HostRuntime) -> io::Result<()> {
    let mut line = String::new(rt.alloc());
    rt.stdin().read_line(&mut line)?;
    Ok(())
}

/// Two nodes hold so many keys; one of them falls; it comes back, and says how long that took. Behind each it waits for a line.
pub(crate) fn hold(rt: &HostRuntime, hasher: RandomState, keys: u32) -> io::Result<()> {
    let mut pair = filled(rt.alloc(), hasher, keys).map_err(as_io)?;
    println!(rt; "two nodes, keys: {keys}")?;
    wait(rt)?;
    fall(&mut pair).map_err(no_memory)?;
    println!(rt; "one of them is down")?;
    wait(rt)?;
    let start = Instant::now(rt)?;
    let outcome = pair.world.revive(1, 0).map_err(no_memory)?;
    let time = start.elapsed(rt)?.as_nanos();
    let is_back = outcome.is_done();
    println!(rt; "it came back: {is_back}, in {time} nanoseconds")?;
    wait(rt)
}

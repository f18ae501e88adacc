// How long a SET takes before many keys are gone, and after.
use crate::keys::{fill, name, set, text};
use crate::times::Times;
use crate::{DEADLINE, TEXT_BYTES, no_memory};
use nr_blob::Blob;
use nr_keyspace::Keyspace;
use std::alloc::Global;
use std::hash::RandomState;
use std::io;
use std::rt::Runtime;
use std::time::Instant;

/// How many keys are gone at the deadline.
const KEYS: u32 = 1_000_000;

/// How many SETs are measured before the deadline.
const SETS: u32 = 10;

/// How many SETs are measured after it. The turn is the first database's after fifteen at most, and stays there while keys of it are gone.
const TURNS: u32 = 16;

// How long a SET of a key takes that is not yet there.
fn time_set(
    rt: &impl Runtime,
    alloc: Global,
    keyspace: &mut Keyspace,
    now: u64,
    number: u32,
    value: &Blob,
) -> io::Result<u128> {
    let name = name(alloc, number).map_err(no_memory)?;
    let start = Instant::now(rt)?;
    let stored = set(keyspace, now, &name, value);
    let time = start.elapsed(rt)?.as_nanos();
    stored.map_err(no_memory)?;
    Ok(time)
}

// How long so many SETs take, each of a new key behind a number.
fn time_sets(
    rt: &impl Runtime,
    alloc: Global,
    keyspace: &mut Keyspace,
    now: u64,
    behind: u32,
    sets: u32,
) -> io::Result<Times> {
    let value = text(alloc, TEXT_BYTES).map_err(no_memory)?;
    let mut times = Times::new();
    for turn in 0..sets {
        let number = behind.saturating_add(turn);
        let time = time_set(rt, alloc, keyspace, now, number, &value)?;
        times.add(time);
    }
    Ok(times)
}

/// Says how many nanoseconds ten SETs take among a million keys with one deadline, and one SET once that has passed: the next one, and the
/// slowest of sixteen.
pub(crate) fn say_times(rt: &impl Runtime, alloc: Global, hasher: RandomState) -> io::Result<()> {
    let mut keyspace = Keyspace::new(alloc, hasher).map_err(no_memory)?;
    fill(
        alloc,
        &mut keyspace,
        KEYS,
        TEXT_BYTES,
        Some(DEADLINE as i64),
    )
    .map_err(no_memory)?;
    let ten = time_sets(rt, alloc, &mut keyspace, DEADLINE - 1, KEYS, SETS)?.all;
    let next = time_sets(rt, alloc, &mut keyspace, DEADLINE, KEYS + SETS, 1)?.all;
    let slowest = time_sets(rt, alloc, &mut keyspace, DEADLINE, KEYS + SETS + 1, TURNS)?.slowest;
    println!(rt;
        "ten SETs before: {ten} nanoseconds, a SET after: {next} nanoseconds, the slowest of sixteen: {slowest} nanoseconds"
    )
}

// Keys that are held: how many are seen at which moment, and what they take.
use crate::keys::{NAME_BYTES, fill};
use crate::{DEADLINE, TEXT_BYTES, no_memory};
use nr_keyspace::{Db, Keyspace};
use std::alloc::Global;
use std::hash::RandomState;
use std::io;
use std::rt::Runtime;

/// How many keys are stored where their size isn't read.
const FEW_KEYS: u32 = 10_000;

/// Says how many of a few keys are seen before their deadline, at it, and once two sweeps have come.
pub(crate) fn say_counts(rt: &impl Runtime, alloc: Global, keys: RandomState) -> io::Result<()> {
    let mut keyspace = Keyspace::new(alloc, keys).map_err(no_memory)?;
    fill(
        alloc,
        &mut keyspace,
        FEW_KEYS,
        TEXT_BYTES,
        Some(DEADLINE as i64),
    )
    .map_err(no_memory)?;
    let before = keyspace.len(DEADLINE - 1, Db::FIRST);
    let at = keyspace.len(DEADLINE, Db::FIRST);
    keyspace.sweep(DEADLINE);
    let back = keyspace.len(0, Db::FIRST);
    println!(rt; "keys: {before}, at their deadline: {at}, behind a sweep at any moment: {back}")
}

/// Stores so many keys with values of so many bytes, and waits for a line before they go, so that their size can be read.
pub(crate) fn hold(
    rt: &HostRuntime,
    hasher: RandomState,
    bytes: usize,
    keys: u32,
) -> io::Result<()> {
    let alloc = rt.alloc();
    let mut keyspace = Keyspace::new(alloc, hasher).map_err(no_memory)?;
    fill(alloc, &mut keyspace, keys, bytes, None).map_err(no_memory)?;
    let held = keyspace.len(0, Db::FIRST);
    println!(rt; "keys of {NAME_BYTES} bytes: {held}, with values of {bytes} bytes")?;
    let mut line = String::new(alloc);
    rt.stdin().read_line(&mut line)?;
    let held = keyspace.len(0, Db::FIRST);
    println!(rt; "keys: {held}")
}

// A set that grows by one member a change, and of which each is taken out again.
use crate::keys::name;
use crate::no_memory;
use crate::times::Times;
use nr_sets::Set;
use std::alloc::Global;
use std::hash::RandomState;
use std::io;
use std::rt::Runtime;
use std::time::Instant;

/// How many members are put in where the time that they take isn't measured.
const FEW_MEMBERS: u32 = 20_000;

/// Whether members are put in or taken out.
#[derive(Clone, Copy, Debug, PartialEq, Eq)]
enum Way {
    In,
    Out,
}

// Puts a member in, or takes it out: how long that took, and whether it changed the set.
fn change(
    rt: &impl Runtime,
    alloc: Global,
    set: &mut Set,
    keys: RandomState,
    way: Way,
    number: u32,
) -> io::Result<(u128, bool)> {
    let member = name(alloc, number).map_err(no_memory)?;
    let start = Instant::now(rt)?;
    let changed = match way {
        Way::In => set.insert(keys, &member),
        Way::Out => Ok(set.remove(&member)),
    };
    let time = start.elapsed(rt)?.as_nanos();
    Ok((time, changed.map_err(no_memory)?))
}

// The same with so many members: how long it took, and how many of them changed the set.
fn change_all(
    rt: &impl Runtime,
    alloc: Global,
    set: &mut Set,
    keys: RandomState,
    way: Way,
    members: u32,
) -> io::Result<(Times, u32)> {
    let mut times = Times::new();
    let mut changed = 0u32;
    for number in 0..members {
        let (time, is_changed) = change(rt, alloc, set, keys, way, number)?;
        times.add(time);
        changed = changed.saturating_add(u32::from(is_changed));
    }
    Ok((times, changed))
}

/// Says how many members were put in, how many there are then, how many were taken out, and how many are left.
pub(crate) fn say_counts(rt: &impl Runtime, alloc: Global, keys: RandomState) -> io::Result<()> {
    let mut set = Set::new(alloc);
    let (_, put) = change_all(rt, alloc, &mut set, keys, Way::In, FEW_MEMBERS)?;
    let there = set.len();
    let (_, taken) = change_all(rt, alloc, &mut set, keys, Way::Out, FEW_MEMBERS)?;
    let left = set.len();
    println!(rt; "members put in: {put}, there: {there}, taken out: {taken}, left: {left}")
}

/// Says how many nanoseconds it takes to put so many members in, and to take them out: one on the average, and the slowest.
pub(crate) fn say_times(
    rt: &impl Runtime,
    alloc: Global,
    keys: RandomState,
    members: u32,
) -> io::Result<()> {
    let mut set = Set::new(alloc);
    let (grown, put) = change_all(rt, alloc, &mut set, keys, Way::In, members)?;
    let (emptied, taken) = change_all(rt, alloc, &mut set, keys, Way::Out, members)?;
    let (put_mean, put_slowest) = (grown.mean(members), grown.slowest);
    let (taken_mean, taken_slowest) = (emptied.mean(members), emptied.slowest);
    println!(rt;
        "{put} put in: {put_mean} nanoseconds each, the slowest {put_slowest}; {taken} taken out: {taken_mean} nanoseconds each, the slowest {taken_slowest}"
    )
}

// Several sets as one. A set that is missing is the empty one.
ghost use Rattle.std.specs.Prelude.{◌≡◌, ◌<◌, ◌≤◌, ◌⊎◌, ◌&&◌, not, List, [], ◌∷◌, length, get_or, take, filter, fold, map, IfOk, OnOk, IfSome, IfNone};
ghost use Rattle.std.specs.List.{list_all, list_any, All};
ghost use Rattle.std.specs.FinSet as set;
ghost use Rattle.std.specs.Map.Iter.{deref};
ghost use Rattle.nr_model.specs.Bytes.{Bytes};
ghost use Rattle.nr_model.specs.Keyspace.{byte_cmp};
ghost use Rattle.nr_model.specs.Lists.{limited};
ghost use Rattle.nr_model.specs.Names.{put};
ghost use Rattle.nr_model.specs.Sets.{listed, intersection_of, union_of, difference_of};
ghost use Rattle.nr_sets.specs.Lent.{lent};

use crate::set::Set;
use nr_blob::{Blob, Memory};
use std::alloc::Global;
use std::collections::BTreeSet;

/// The members that one of the sets has, in byte order. O(n log n) in the members of all.
pub fn union<'a>(alloc: Global, sets: &[Option<&'a Set>]) -> Result<Vec<&'a [u8]>, Memory>
    ensures { IfOk result (λ members. map deref members.items ≡ listed (union_of (map lent sets.now))) }
{
    let mut joined = BTreeSet::new(alloc);
    for set in sets {
        join(&mut joined, *set)?;
    }
    in_order(alloc, joined)
}

// Puts the members of a set in, each at its place.
fn join<'a>(joined: &mut BTreeSet<&'a [u8]>, set: Option<&'a Set>) -> Result<(), Memory>
    ensures { OnOk result
        (map deref joined.new.keys ≡ fold (λ members member. put byte_cmp member members) (map deref joined.old.keys) (listed (lent set.entry))) }
{
    let Some(set) = set else {
        return Ok(());
    };
    for member in set.members()? {
        joined.insert(member)?;
    }
    Ok(())
}

fn in_order<'a>(alloc: Global, joined: BTreeSet<&'a [u8]>) -> Result<Vec<&'a [u8]>, Memory>
    ensures { IfOk result (λ members. members.items ≡ joined.entry.keys) }
{
    Ok(joined.into_iter().collect(alloc)?)
}

/// The members that all of the sets have, in byte order, and at most so many of them, 0 being no limit. It walks the smallest set, in O(n log n)
/// where that is a table, and looks its members up in the others, each linear in the bytes of a block.
pub fn intersection<'a>(
    alloc: Global,
    sets: &[Option<&'a Set>],
    most: usize,
) -> Result<Vec<&'a [u8]>, Memory>
    ensures { IfOk result (λ members. map deref members.items ≡ limited most (listed (intersection_of (map lent sets.now)))) }
{
    let Some((place, walked)) = smallest(sets) else {
        return Ok(Vec::new(alloc));
    };
    common(alloc, walked, &sets[..place], &sets[place + 1..], most)
}

/// The members that the first set has and none of the others, in byte order. It walks the first, in O(n log n) where that is a table, and looks its
/// members up in the others, each linear in the bytes of a block.
pub fn difference<'a>(alloc: Global, sets: &[Option<&'a Set>]) -> Result<Vec<&'a [u8]>, Memory>
    ensures { IfOk result (λ members. map deref members.items ≡ listed (difference_of (map lent sets.now))) }
{
    let Some((first, others)) = sets.split_first() else {
        return Ok(Vec::new(alloc));
    };
    match *first {
        Some(first) => left_over(alloc, first, others),
        None => Ok(Vec::new(alloc)),
    }
}

// The place of a set that has the fewest members, and the set, unless one is missing.
fn smallest<'a>(sets: &[Option<&'a Set>]) -> Option<(usize, &'a Set)>
    ensures within { IfSome result (λ least. least.0 < length sets.now) }
    ensures at { IfSome result (λ least. get_or (map lent sets.now) least.0 set.empty ≡ least.1.now) }
    ensures least { IfSome result (λ least. All (λ s. set.len least.1.now ≤ set.len (lent s)) sets.now) }
    ensures none { IfNone result (intersection_of (map lent sets.now) ≡ set.empty) }
{
    let Some((first, _)) = sets.split_first() else {
        return None;
    };
    let Some(first) = *first else {
        return None;
    };
    let mut least = (0, first);
    for (place, set) in sets.iter().enumerate() {
        let Some(set) = *set else {
            return None;
        };
        least = smaller(least, (place, set));
    }
    Some(least)
}

fn smaller<'a>(first: (usize, &'a Set), second: (usize, &'a Set)) -> (usize, &'a Set)
    ensures one { (result ≡ first.entry) ⊎ (result ≡ second.entry) }
    ensures first { set.len result.1.now ≤ set.len first.entry.1.now }
    ensures second { set.len result.1.now ≤ set.len second.entry.1.now }
{
    if second.1.len() < first.1.len() {
        second
    } else {
        first
    }
}

/// Whether a set has a member. Linear in the bytes of a block.
pub fn has(held: Option<&Set>, member: &Blob) -> bool
    ensures { result ≡ set.contains (lent held.entry) member.now }
{
    match held {
        Some(held) => held.contains(member),
        None => false,
    }
}

fn all_have(sets: &[Option<&Set>], member: &Blob) -> bool
    ensures { result ≡ list_all (λ s. set.contains (lent s) member.now) sets.now }
{
    sets.iter().all(|set| has(*set, member))
}

// Whether those before a set and those behind it have a member.
fn both_have(
    alloc: Global,
    before: &[Option<&Set>],
    behind: &[Option<&Set>],
    member: &[u8],
) -> Result<bool, Memory>
    ensures { IfOk result (λ have. have
        ≡ (list_all (λ s. set.contains (lent s) member.now) before.now && list_all (λ s. set.contains (lent s) member.now) behind.now)) }
{
    let member = Blob::from_slice(alloc, member)?;
    Ok(all_have(before, &member) && all_have(behind, &member))
}

fn any_has(sets: &[Option<&Set>], member: &Blob) -> bool
    ensures { result ≡ list_any (λ s. set.contains (lent s) member.now) sets.now }
{
    sets.iter().any(|set| has(*set, member))
}

// Whether one of the sets has a member.
fn one_has(alloc: Global, sets: &[Option<&Set>], member: &[u8]) -> Result<bool, Memory>
    ensures { IfOk result (λ has. has ≡ list_any (λ s. set.contains (lent s) member.now) sets.now) }
{
    let member = Blob::from_slice(alloc, member)?;
    Ok(any_has(sets, &member))
}

// How many of at most so many are taken, 0 being no limit.
fn limit(most: usize, all: usize) -> usize
    ensures { (members : List Bytes) → length members ≤ all → limited most members ≡ take result members }
{
    if most == 0 { all } else { most }
}

// The members of one set that those before it and those behind it have, at most so many.
fn common<'a>(
    alloc: Global,
    walked: &'a Set,
    before: &[Option<&'a Set>],
    behind: &[Option<&'a Set>],
    most: usize,
) -> Result<Vec<&'a [u8]>, Memory>
    ensures { IfOk result (λ members.
        map deref members.items ≡ limited most (filter
        (λ m. list_all (λ s. set.contains (lent s) m) before.now && list_all (λ s. set.contains (lent s) m) behind.now)
        (listed walked.now))) }
{
    let limit = limit(most, walked.len());
    let mut members = Vec::new(alloc);
    for member in walked.members()? {
        if members.len() == limit {
            return Ok(members);
        }
        if !both_have(alloc, before, behind, member)? {
            continue;
        }
        members.push(member)?;
    }
    Ok(members)
}

// The members of one set that none of some sets has.
fn left_over<'a>(
    alloc: Global,
    walked: &'a Set,
    others: &[Option<&'a Set>],
) -> Result<Vec<&'a [u8]>, Memory>
    ensures { IfOk result (λ members.
        map deref members.items ≡ filter (λ m. not (list_any (λ s. set.contains (lent s) m) others.now)) (listed walked.now)) }
{
    let mut members = Vec::new(alloc);
    for member in walked.members()? {
        if one_has(alloc, others, member)? {
            continue;
        }
        members.push(member)?;
    }
    Ok(members)
}

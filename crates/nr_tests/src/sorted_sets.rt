// A sorted set beside a plain list that is sorted.
ghost use Rattle.std.specs.Prelude.{◌≡◌, ◌<◌};

use nr_blob::{Blob, Memory};
use nr_model::command::Direction;
use nr_zbounds::Bound;
use nr_zsets::{Ticks, Zset};
use std::alloc::Global;
use std::hash::RandomState;
use std::marker::Brand;
use std::sync::ledger::{Blank, Ledger};
use std::test::Fail;

const MEMBERS: u32 = 401;

const MANY: u32 = 4_001;

// Members in a scattered order, with few scores: places, ranks and the first one are those of the list.
#[test]
fn members_stand_as_in_a_sorted_list(rt: HostRuntime) -> Result<(), Fail> {
    let alloc = rt.alloc();
    let mut zset = Zset::new(alloc, RandomState::new(&rt)?);
    let mut list = Vec::new(alloc);
    for i in 0..MEMBERS {
        let (member, score) = (i * 7_919 % MEMBERS, i64::from(i * 31 % 17) - 8);
        zset.insert(Blob::from_slice(alloc, &member.to_be_bytes())?, score)?;
        list.push((score, member))?;
    }
    list.sort()?;
    let mut place = 0usize;
    for (score, member) in &list {
        let name = Blob::from_slice(alloc, &member.to_be_bytes())?;
        assert!(rt; zset.score(&name) == Some(*score));
        assert!(rt;
            zset.rank(Direction::Ascending, &name) == Some(place),
            "{member}"
        );
        place = place.saturating_add(1);
    }
    assert!(rt; zset.len() == place);
    let popped = zset.pop_first(Direction::Descending)?.is_some();
    assert!(rt; popped && zset.len() == place.saturating_sub(1));
    let left = zset.by_place(Direction::Ascending, 0, zset.len())?;
    for ((name, score), item) in left.iter().zip(&list) {
        assert!(rt; (*score, *name) == (item.0, item.1.to_be_bytes().as_slice()));
    }
    Ok(())
}

// Where a member stands, whether one stands at that place, and how many stand below a score, by the descents that count.
fn counted<L: Ledger>(
    zset: &Zset,
    name: &Blob,
    score: i64,
    blank: Blank,
) -> (Option<usize>, bool, usize)
    requires name { blank.name ≡ L.name }
    requires parts { blank.parts ≡ L.parts }
    requires some { 0 < L.parts }
{
    let mut ticks: Ticks<L> = Ticks::new(blank);
    let place = zset.place(name, &mut ticks);
    let is_there = zset.at(place.unwrap_or(0), &mut ticks).is_some();
    (
        place,
        is_there,
        zset.below(Bound::Including(score), &mut ticks),
    )
}

#[test]
fn descents_that_count_find_members(rt: HostRuntime) -> Result<(), Fail> {
    let alloc = rt.alloc();
    let mut zset = Zset::new(alloc, RandomState::new(&rt)?);
    let member = Blob::from_slice(alloc, b"b")?;
    for (name, score) in [(b"c", 2), (b"b", 1), (b"a", 1)] {
        zset.insert(Blob::from_slice(alloc, name)?, score)?;
    }
    assert!(rt; counted::<Brand>(&zset, &member, 2, Blank::new(1)) == (Some(1), true, 2));
    Ok(())
}

// A member's name begins with the bytes of its number, and each eleventh is long.
fn name_of(alloc: Global, member: u32) -> Result<Blob, Memory> {
    let bytes = member.to_be_bytes();
    if member % 11 != 0 {
        return Blob::from_slice(alloc, &bytes);
    }
    let mut name = bytes.to_vec(alloc)?;
    name.extend_from_slice(&[7; 40])?;
    Ok(Blob::from(name))
}

// Whether a sorted set lists what a sorted list has.
fn lists(zset: &Zset, list: &[(i64, u32)]) -> Result<bool, Memory> {
    let lent = zset.by_place(Direction::Ascending, 0, zset.len())?;
    for ((name, score), item) in lent.iter().zip(list) {
        if *score != item.0 || !name.starts_with(&item.1.to_be_bytes()) {
            return Ok(false);
        }
    }
    Ok(lent.len() == list.len())
}

// Takes the first, the last and the one in the middle out, and says whether those were of the same scores.
fn take_three(zset: &mut Zset, list: &mut Vec<(i64, u32)>) -> Result<bool, Memory> {
    let Some(last) = list.pop() else {
        return Ok(false);
    };
    let middle = list.len() / 2;
    if middle == 0 {
        return Ok(false);
    }
    list.remove(middle);
    let first = list.remove(0);
    let taken = zset.remove_by_place(middle, middle + 1)?;
    let least = zset.pop_first(Direction::Ascending)?;
    let greatest = zset.pop_first(Direction::Descending)?;
    Ok(taken == 1 && has_score(least, first.0) && has_score(greatest, last.0))
}

fn has_score(popped: Option<(Blob, i64)>, score: i64) -> bool {
    match popped {
        Some((_, found)) => found == score,
        None => false,
    }
}

// Each member gets another score first, so that most of them move.
fn fill(alloc: Global, zset: &mut Zset, list: &mut Vec<(i64, u32)>) -> Result<(), Memory> {
    for i in 0..MANY {
        zset.insert(name_of(alloc, i)?, i64::from(i % 37))?;
    }
    for i in 0..MANY {
        let (member, score) = (i * 7_919 % MANY, i64::from(i * 31 % 701) - 350);
        zset.insert(name_of(alloc, member)?, score)?;
        list.push((score, member))?;
    }
    list.sort()?;
    Ok(())
}

#[test]
fn members_go_from_both_ends_and_the_middle(rt: HostRuntime) -> Result<(), Fail> {
    let alloc = rt.alloc();
    let mut zset = Zset::new(alloc, RandomState::new(&rt)?);
    let mut list = Vec::new(alloc);
    fill(alloc, &mut zset, &mut list)?;
    assert!(rt; lists(&zset, &list)?);
    for round in 0..1_300u32 {
        assert!(rt; take_three(&mut zset, &mut list)?, "{round}");
        assert!(rt; round % 100 != 0 || lists(&zset, &list)?, "{round}");
    }
    assert!(rt; zset.len() == 101 && lists(&zset, &list)?);
    Ok(())
}

#[test]
fn a_sorted_set_grows_past_a_block_and_comes_back_to_one_member(
    rt: HostRuntime,
) -> Result<(), Fail> {
    let alloc = rt.alloc();
    let mut zset = Zset::new(alloc, RandomState::new(&rt)?);
    for member in 0..40u32 {
        zset.insert(name_of(alloc, member)?, 5)?;
    }
    assert!(rt; zset.len() == 40);
    for member in 1..40u32 {
        assert!(rt;
            zset.remove(&name_of(alloc, member)?) == Some(5),
            "{member}"
        );
    }
    assert!(rt; lists(&zset, &[(5, 0)])?);
    Ok(())
}

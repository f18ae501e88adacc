// Where items with the same bytes stand, looked at from one end of a list or the other.
ghost use Rattle.std.specs.Prelude.{◌≡◌, ◌+◌, ◌<◌, ◌≤◌, ◌++◌, ◌∷◌, [], ◌^◌, length, drop, slice_index_or, IfSome, IfNone, IfOk, bytes_eq};
ghost use Rattle.std.specs.Option.{option_to_list};
ghost use Rattle.std.specs.VecDeque.{deque_len, deque_capacity};
ghost use Rattle.nr_model.specs.Lists.{pivot_of, seen_from, end_of, how_many, without_first, passed_over, places_of};
ghost use Rattle.nr_lists.specs.Packed.{joined};
ghost use Rattle.nr_lists.specs.Matches.{limit_of, place_from, thin, some_of};

use crate::block::Block;
use crate::small::Small;
use crate::walk::Walk;
use nr_blob::Memory;
use nr_model::command::End;
use std::alloc::Global;
use std::collections::VecDeque;

// Whether an item has these bytes.
fn is(item: &[u8], bytes: &[u8]) -> bool
    ensures { result ≡ bytes_eq item.now bytes.now }
{
    item == bytes
}

/// Where the first pivot stands, among so many items. Linear in what stands before it.
#[tactic(auto, using(crate::proofs::Listed::looks_found, crate::proofs::Listed::looks_none, crate::proofs::Listed::looks_all))]
pub(crate) fn pivot(mut walk: Walk<'_>, len: usize, pivot: &[u8]) -> Option<usize>
    requires { len ≡ length walk }
    ensures place { result ≡ pivot_of pivot.now walk.entry }
    ensures bound { IfSome result (λ place. place < len) }
{
    for place in 0..len {
        let Some(item) = walk.take(End::Left) else {
            return None;
        };
        if is(item, pivot) {
            return Some(place);
        }
    }
    None
}

/// The end that a count or a rank begins at.
pub(crate) fn end_of(count: i64) -> End
    ensures { result ≡ end_of count }
{
    if count < 0 { End::Right } else { End::Left }
}

// How many matches a rank passes over.
fn passed_over(rank: i64) -> usize
    ensures { result ≡ passed_over rank }
{
    (rank.unsigned_abs() as usize).saturating_sub(1)
}

/// How many items a count takes of so many.
pub(crate) fn how_many(count: i64, all: usize) -> usize
    ensures { result ≡ how_many count all }
{
    if count == 0 {
        return all;
    }
    count.unsigned_abs() as usize
}

// Takes the block at an end out.
fn take(blocks: &mut VecDeque<Block>, end: End) -> Option<Block>
    ensures block { seen_from end blocks.old.items ≡ option_to_list result ++ seen_from end blocks.new.items }
    ensures none { IfNone result (deque_len blocks.old ≡ 0) }
    ensures len { deque_len blocks.new + length (option_to_list result) ≡ deque_len blocks.old }
    ensures capacity { deque_capacity blocks.new ≡ deque_capacity blocks.old }
{
    match end {
        End::Left => blocks.pop_front(),
        End::Right => blocks.pop_back(),
    }
}

// Puts a block behind those that are still to be looked at from an end.
fn put_behind(blocks: &mut VecDeque<Block>, end: End, block: Block)
    requires { deque_len blocks.old < deque_capacity blocks.old }
    ensures block { seen_from end blocks.new.items ≡ seen_from end blocks.old.items ++ block ∷ [] }
    ensures len { deque_len blocks.new ≡ deque_len blocks.old + 1 }
    ensures capacity { deque_capacity blocks.new ≡ deque_capacity blocks.old }
{
    match end {
        End::Left => blocks.push_back_reserved(block),
        End::Right => blocks.push_front_reserved(block),
    }
}

// Takes the first so many items with these bytes out of a block, looked at from an end. `None` where no others are left.
fn thinned(mut block: Block, end: End, most: usize, bytes: &[u8]) -> Option<Block>
    ensures { option_to_list result ≡ some_of (thin end most bytes.now block) }
{
    let mut taken = 0;
    let mut seen = 0;
    while seen < block.len() {
        let place = place_from(end, block.len(), seen);
        if taken < most && is_at(&block, place, bytes) {
            if block.len() == 1 {
                return None;
            }
            block.cut(place, place + 1);
            taken += 1;
        } else {
            seen += 1;
        }
    }
    Some(block)
}

// Whether the item at a place has these bytes.
fn is_at(block: &Block, place: usize, bytes: &[u8]) -> bool
    requires { place < length block.now }
    ensures { result ≡ bytes_eq (slice_index_or block.now place []) bytes.now }
{
    match block.get(place) {
        Some(item) => is(item, bytes),
        None => false,
    }
}

// Takes so many items with these bytes out of the first block from an end, puts what is left of it behind the others, and says how many
// there were.
fn turn(blocks: &mut VecDeque<Block>, end: End, most: usize, bytes: &[u8]) -> usize
    requires { 0 < length blocks.old.items }
    ensures blocks { let seen = seen_from end blocks.old.items in
        seen_from end blocks.new.items ≡ drop 1 seen ++ some_of (thin end most bytes.now (slice_index_or seen 0 [])) }
    ensures count { let first = slice_index_or (seen_from end blocks.old.items) 0 [] in result + length (thin end most bytes.now first) ≡ length first }
{
    let Some(block) = take(blocks, end) else {
        return 0;
    };
    let len = block.len();
    let Some(block) = thinned(block, end, most, bytes) else {
        return len;
    };
    let left = block.len();
    put_behind(blocks, end, block);
    len - left
}

/// Takes the first so many items with these bytes out, looked at from an end, and says how many there were. Linear in the items and the bytes
/// of the blocks.
pub(crate) fn take_out(blocks: &mut VecDeque<Block>, end: End, most: usize, bytes: &[u8]) -> usize
    requires { length (joined blocks.old.items) < 2 ^ 63 }
    ensures items { joined blocks.new.items ≡ seen_from end (without_first most bytes.now (seen_from end (joined blocks.old.items))) }
    ensures count { result + length (joined blocks.new.items) ≡ length (joined blocks.old.items) }
{
    let mut taken = 0;
    for _ in 0..blocks.len() {
        taken += turn(blocks, end, most - taken, bytes);
    }
    taken
}

/// Takes the first so many items with these bytes out of a small list, looked at from an end, and says how many there were. Linear in the bytes
/// of the block for each that is taken out.
pub(crate) fn take_out_of(items: &mut Small, end: End, most: usize, bytes: &[u8]) -> usize
    ensures items { items.new ≡ thin end most bytes.now items.old }
    ensures count { result + length items.new ≡ length items.old }
{
    let mut taken = 0;
    let mut seen = 0;
    while seen < items.len() {
        let place = place_from(end, items.len(), seen);
        if taken < most && is_there(items, place, bytes) {
            items.cut(place, place + 1);
            taken += 1;
        } else {
            seen += 1;
        }
    }
    taken
}

// Whether the item at a place has these bytes.
fn is_there(items: &Small, place: usize, bytes: &[u8]) -> bool
    requires { place < length items.now }
    ensures { result ≡ bytes_eq (slice_index_or items.now place []) bytes.now }
{
    match items.get(place) {
        Some(item) => is(item, bytes),
        None => false,
    }
}

// The limit, or all where it is 0 or greater.
fn limit(most: usize, all: usize) -> usize
    ensures limit { result ≡ limit_of most all }
    ensures bound { result ≤ all }
{
    if most == 0 || most > all { all } else { most }
}

/// The place of what is looked at after so many from an end.
pub(crate) fn place_from(end: End, len: usize, seen: usize) -> usize
    requires { seen < len }
    ensures place { result ≡ place_from end len seen }
    ensures bound { result < len }
{
    match end {
        End::Left => seen,
        End::Right => len - 1 - seen,
    }
}

/// The places of the items with these bytes, among so many, in the order found. Linear in what is looked at.
pub(crate) fn places(
    alloc: Global,
    mut walk: Walk<'_>,
    len: usize,
    bytes: &[u8],
    rank: i64,
    count: usize,
    most: usize,
) -> Result<Vec<usize>, Memory>
    requires { len ≡ length walk }
    ensures { IfOk result (λ places. places.items ≡ places_of rank count most bytes.now walk.entry) }
{
    let end = end_of(rank);
    let mut to_pass = passed_over(rank);
    let count = limit(count, len);
    let looked_at = limit(most, len);
    let mut places = Vec::new(alloc);
    for seen in 0..looked_at {
        if places.len() == count {
            return Ok(places);
        }
        let Some(item) = walk.take(end) else {
            return Ok(places);
        };
        if is(item, bytes) {
            if to_pass > 0 {
                to_pass -= 1;
            } else {
                places.push(place_from(end, len, seen))?;
            }
        }
    }
    Ok(places)
}

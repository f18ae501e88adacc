// A few members with their scores in one block of pairs, by their order: places are counted from its front.
ghost use Rattle.std.specs.Prelude.{◌≡◌, ◌≤◌, ◌<◌, ◌+◌, length, map, filter, find, slice_get, cond, ◌^◌, ◌++◌, ◌∷◌, [], IfOk, OnOk, OnErr};
ghost use Rattle.std.specs.List.{insert, remove};
ghost use Rattle.std.specs.Option.{option_map};
ghost use Rattle.std.specs.Map.Iter.{TakesFirst};
ghost use Rattle.nr_packs.specs.Packed.{entries_in};
ghost use Rattle.nr_ordered.specs.Lists.{front, part, shown};
ghost use Rattle.nr_zsets.specs.Forms.{items_in};

use crate::digits;
use nr_blob::Memory;
use nr_ordered::{Cut, Test, Tree};
use nr_packs::{Packed, first_pair};
use std::alloc::Global;
use std::marker::Model;

/// Members with their scores, lent, one after another. It is seen as those that are left.
#[derive(Drop)]
struct Walk<'a> {
    rest: &'a [u8],
}

impl<'a> Model for Walk<'a> {
    ghost use Rattle.std.specs.Prelude.{List};
    ghost use Rattle.nr_packs.specs.Packed.{entries_in};
    ghost use Rattle.nr_ordered.specs.Lists.{Item};
    ghost use Rattle.nr_zsets.specs.Forms.{items_in};

    ghost Value = { List Item };

    ghost view = { λ walk. items_in (entries_in walk.rest.now) };
}

impl<'a> Walk<'a> {
    // Those of a block.
    fn of(pairs: &'a Packed) -> Walk<'a>
        ensures { result ≡ items_in pairs.now }
    {
        Walk {
            rest: pairs.bytes(),
        }
    }
}

impl<'a> Iterator for Walk<'a> {
    ghost use Rattle.std.specs.Iterator.{YieldsFirstBy, item_count};
    ghost use Rattle.nr_ordered.specs.Lists.{shown};

    type Item = (&'a [u8], i64);

    ghost next_gives = { YieldsFirstBy shown (λ walk. walk) };

    ghost remaining = { item_count (λ walk. walk) };

    fn next(&mut self) -> Option<(&'a [u8], i64)> {
        next_item(&mut self.rest)
    }
}

// The item that stands first, which is taken off.
fn next_item<'a>(bytes: &mut &'a [u8]) -> Option<(&'a [u8], i64)>
    ensures { TakesFirst shown (items_in (entries_in bytes.old.now)) result (items_in (entries_in bytes.new.now)) }
{
    let Some((member, score, others)) = first_pair(bytes) else {
        return None;
    };
    *bytes = others;
    Some((member, digits::score_in(score)))
}

/// The item at a place.
pub(crate) fn nth(pairs: &Packed, place: usize) -> Option<(&[u8], i64)>
    ensures { option_map shown result ≡ slice_get (items_in pairs.now) place }
{
    let mut left = place;
    for (member, score) in Walk::of(pairs) {
        if left == 0 {
            return Some((member, score));
        }
        left -= 1;
    }
    None
}

/// How many items stand in front of the first that doesn't stand in front of a cut.
pub(crate) fn front_of<C: Cut>(pairs: &Packed, cut: &C) -> usize
    ensures { result ≡ front (C.parts cut.now) (items_in pairs.now) }
{
    let mut walk = Walk::of(pairs);
    for place in 0..pairs.len() {
        let Some((member, score)) = walk.next() else {
            return place;
        };
        if !cut.is_behind(member, score) {
            return place;
        }
    }
    pairs.len()
}

/// How many items pass a test.
pub(crate) fn count<T: Test>(pairs: &Packed, test: &T) -> usize
    ensures { result ≡ length (filter (T.passing test.now) (items_in pairs.now)) }
{
    let mut walk = Walk::of(pairs);
    let mut count = 0;
    for place in 0..pairs.len() {
        let Some((member, score)) = walk.next() else {
            return count;
        };
        count = count_with(count, test.passes(member, score));
    }
    count
}

// So many, and one more where it passes.
#[inline(always)]
fn count_with(count: usize, passes: bool) -> usize
    requires { count + 1 < 2 ^ 64 }
    ensures { result ≡ count + cond passes 1 0 }
{
    if passes { count + 1 } else { count }
}

/// The first item that passes a test. Its score is read anew, so that a test of members alone reads no other.
pub(crate) fn first<'p, T: Test>(pairs: &'p Packed, test: &T) -> Option<(&'p [u8], i64)>
    ensures { option_map shown result ≡ find (T.passing test.now) (items_in pairs.now) }
{
    let mut rest = pairs.bytes();
    while let Some((member, score, others)) = first_pair(rest) {
        if test.passes(member, digits::score_in(score)) {
            return Some((member, digits::score_in(score)));
        }
        rest = others;
    }
    None
}

/// Lends the items from one place to another, of which there are so many.
pub(crate) fn lend(
    alloc: Global,
    pairs: &Packed,
    from: usize,
    to: usize,
) -> Result<Vec<(&[u8], i64)>, Memory>
    ensures { IfOk result (λ lent. map shown lent.items ≡ part from to (items_in pairs.now)) }
{
    let mut lent = Vec::with_capacity(alloc, to.min(pairs.len()).saturating_sub(from))?;
    let mut passed = from;
    let mut left = to;
    for (member, score) in Walk::of(pairs) {
        if left == 0 {
            return Ok(lent);
        }
        left -= 1;
        if passed > 0 {
            passed -= 1;
            continue;
        }
        lent.push((member, score))?;
    }
    Ok(lent)
}

/// The same items in a tree.
pub(crate) fn tree_of(alloc: Global, pairs: &Packed) -> Result<Tree, Memory>
    ensures { IfOk result (λ tree. tree.0 ≡ items_in pairs.now) }
{
    let mut tree = Tree::new();
    for (member, score) in Walk::of(pairs) {
        push(alloc, &mut tree, member, score)?;
    }
    Ok(tree)
}

// Puts an item in behind all others.
fn push(alloc: Global, tree: &mut Tree, member: &[u8], score: i64) -> Result<(), Memory>
    ensures { OnOk result (tree.new.0 ≡ tree.old.0 ++ (member.now, score) ∷ []) }
{
    let len = tree.len();
    tree.insert(alloc, len, member, score)?;
    Ok(())
}

/// Puts an item in at a place. Where memory runs out nothing is changed.
pub(crate) fn put(
    alloc: Global,
    pairs: &mut Packed,
    place: usize,
    member: &[u8],
    score: i64,
) -> Result<(), Memory>
    requires within { place ≤ length pairs.old }
    requires few { length pairs.old < 512 }
    requires short { length member.now ≤ 255 }
    ensures put { OnOk result (items_in pairs.new ≡ insert (items_in pairs.old) place (member.now, score)) }
    ensures err { OnErr result (pairs.new ≡ pairs.old) }
{
    let mut bytes = [0; 8];
    let start = digits::spell(score, &mut bytes);
    let (_, spelled) = bytes.split_at(start);
    pairs.insert_at(alloc, place, member, spelled)?;
    Ok(())
}

/// Takes the item at a place out.
pub(crate) fn take(pairs: &mut Packed, place: usize)
    requires { place < length pairs.old }
    ensures { items_in pairs.new ≡ remove (items_in pairs.old) place }
{
    pairs.remove_at(place);
}

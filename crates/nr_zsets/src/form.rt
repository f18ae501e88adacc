// The two forms of a sorted set: a few short members in one block, or a tree. Either is a list of members with scores, read and edited by places.
ghost use Rattle.std.specs.Prelude.{◌≡◌, ◌≤◌, ◌<◌, ◌+◌, ◌*◌, ◌^◌, ◌&&◌, ℕ, [], true, false, length, map, filter, find, slice_get, IfOk, OnOk, OnErr};
ghost use Rattle.std.specs.List.{insert, remove};
ghost use Rattle.std.specs.Option.{option_map};
ghost use Rattle.nr_model.specs.SortedSets.{told_in};
ghost use Rattle.nr_ordered.specs.Lists.{IsParted, part, shown, renumbered};
ghost use Rattle.nr_zsets.specs.Lists.{told_ends};
ghost use Rattle.nr_zsets.specs.Forms.{items_in, items_of, is_packed, takes};

use crate::block;
use nr_blob::Memory;
use nr_model::command::Direction;
use nr_ordered::{Cut, Test, Ticks, Tree};
use nr_packs::Packed;
use std::alloc::Global;
use std::sync::ledger::Ledger;

/// The most members that a block takes.
pub(crate) const MOST_ITEMS: usize = 128;

/// The most bytes of a member in a block.
const MOST_LEN: usize = 64;

/// Members with their scores, each at its place. A block that would get too many or too long ones becomes a tree, and a tree stays one.
#[derive(Drop)]
pub(crate) enum Form {
    /// A few short members in one block.
    Packed(Packed),
    /// Any members.
    Large(Tree),
}

impl Form {
    /// No members. They take no memory.
    pub(crate) fn new(alloc: Global) -> Form
        ensures none { items_of result ≡ [] }
        ensures form { is_packed result ≡ true }
    {
        Form::Packed(Packed::new(alloc))
    }

    /// How many members. Constant.
    pub(crate) fn len(&self) -> usize
        ensures { result ≡ length (items_of self.now) }
    {
        match self {
            Form::Packed(pairs) => pairs.len(),
            Form::Large(tree) => tree.len(),
        }
    }

    /// The same members, each at its place, in the form that they have. Linear in their bytes.
    pub(crate) fn copy(&self, alloc: Global) -> Result<Form, Memory>
        ensures same { IfOk result (λ copied. items_of copied ≡ items_of self.now) }
        ensures form { IfOk result (λ copied. is_packed copied ≡ is_packed self.now) }
    {
        match self {
            Form::Packed(pairs) => Ok(Form::Packed(pairs.copy(alloc)?)),
            Form::Large(tree) => Ok(Form::Large(tree.copy(alloc)?)),
        }
    }

    /// The member at a place, with its score. Linear in a block, and logarithmic in a tree.
    pub(crate) fn get(&self, place: usize) -> Option<(&[u8], i64)>
        ensures { option_map shown result ≡ slice_get (items_of self.now) place }
    {
        match self {
            Form::Packed(pairs) => block::nth(pairs, place),
            Form::Large(tree) => tree.get(place),
        }
    }

    /// How many members stand in front of a cut, where all of them stand before the others. Linear in a block, and logarithmic in a tree.
    pub(crate) fn find<C: Cut>(&self, cut: &C) -> usize
        ensures place { IsParted (C.parts cut.now) (items_of self.now) → result ≡ length (filter (C.parts cut.now) (items_of self.now)) }
        ensures within { result ≤ length (items_of self.now) }
    {
        match self {
            Form::Packed(pairs) => block::front_of(pairs, cut),
            Form::Large(tree) => tree.find(cut),
        }
    }

    /// How many members pass a test. Linear.
    pub(crate) fn count<T: Test>(&self, test: &T) -> usize
        ensures count { result ≡ length (filter (T.passing test.now) (items_of self.now)) }
        ensures within { result ≤ length (items_of self.now) }
    {
        match self {
            Form::Packed(pairs) => block::count(pairs, test),
            Form::Large(tree) => tree.count(test),
        }
    }

    /// The first member that passes a test, with its score. Linear.
    pub(crate) fn first<T: Test>(&self, test: &T) -> Option<(&[u8], i64)>
        ensures { option_map shown result ≡ find (T.passing test.now) (items_of self.now) }
    {
        match self {
            Form::Packed(pairs) => block::first(pairs, test),
            Form::Large(tree) => tree.first(test),
        }
    }

    /// The member at a place, with its score. A block has no nodes to count.
    pub(crate) fn at<L: Ledger>(&self, place: usize, ticks: &mut Ticks<L>) -> Option<(&[u8], i64)>
        ensures item { option_map shown result ≡ slice_get (items_of self.now) place }
        ensures cost { (d : ℕ) → length (items_of self.now) < 2 ^ d → ticks.new ≤ ticks.old + 2 * d }
    {
        match self {
            Form::Packed(pairs) => block::nth(pairs, place),
            Form::Large(tree) => tree.at(place, ticks),
        }
    }

    /// How many members stand in front of a cut, where all of them stand before the others. A block has no nodes to count.
    pub(crate) fn place_of<C: Cut, L: Ledger>(&self, cut: &C, ticks: &mut Ticks<L>) -> usize
        ensures place { IsParted (C.parts cut.now) (items_of self.now) → result ≡ length (filter (C.parts cut.now) (items_of self.now)) }
        ensures cost { (d : ℕ) → length (items_of self.now) < 2 ^ d → ticks.new ≤ ticks.old + 2 * d }
    {
        match self {
            Form::Packed(pairs) => block::front_of(pairs, cut),
            Form::Large(tree) => tree.place_of(cut, ticks),
        }
    }

    /// Lends the members from one place to another, both counted as they are told in a direction. Linear in a block; in a tree logarithmic, and
    /// linear in those members.
    pub(crate) fn lend(
        &self,
        alloc: Global,
        direction: Direction,
        from: usize,
        to: usize,
    ) -> Result<Vec<(&[u8], i64)>, Memory>
        ensures { IfOk result (λ lent. map shown lent.items ≡ part from to (told_in direction (items_of self.now))) }
    {
        match self {
            Form::Packed(pairs) => {
                let lent = lend_packed(alloc, pairs, direction, from, to)?;
                Ok(lent)
            }
            Form::Large(tree) => {
                let lent = lend_tree(alloc, tree, direction, from, to)?;
                Ok(lent)
            }
        }
    }

    /// Puts a member in at a place. A block that has so many, or would get one of more than 64 bytes, becomes a tree, which costs O(n log n) in its
    /// members; else linear in a block, and logarithmic in a tree. Where memory runs out the members are as they were.
    pub(crate) fn insert(
        &mut self,
        alloc: Global,
        place: usize,
        member: &[u8],
        score: i64,
        most: usize,
    ) -> Result<(), Memory>
        requires within { place ≤ length (items_of self.old) }
        requires least { 128 ≤ most }
        requires most { most ≤ 512 }
        ensures put { OnOk result (items_of self.new ≡ insert (items_of self.old) place (member.now, score)) }
        ensures form { OnOk result (is_packed self.new ≡ (is_packed self.old && takes most (length (items_of self.old)) member.now)) }
        ensures err { OnErr result (items_of self.new ≡ items_of self.old) }
    {
        match self {
            Form::Packed(pairs) => {
                if takes(most, pairs.len(), member) {
                    block::put(alloc, pairs, place, member, score)?;
                    return Ok(());
                }
                let mut tree = block::tree_of(alloc, pairs)?;
                tree.insert(alloc, place, member, score)?;
                *self = Form::Large(tree);
                Ok(())
            }
            Form::Large(tree) => {
                tree.insert(alloc, place, member, score)?;
                Ok(())
            }
        }
    }

    /// Takes the member at a place out. Linear in a block, and logarithmic in a tree.
    pub(crate) fn remove(&mut self, place: usize)
        requires { place < length (items_of self.old) }
        ensures items { items_of self.new ≡ remove (items_of self.old) place }
        ensures form { is_packed self.new ≡ is_packed self.old }
    {
        match self {
            Form::Packed(pairs) => block::take(pairs, place),
            Form::Large(tree) => tree.remove(place),
        }
    }

    /// Gives the member at a place another score, if they are in a tree, and says whether they are.
    pub(crate) fn set(&mut self, place: usize, score: i64) -> bool
        requires { place < length (items_of self.old) }
        ensures set { result ≡ true → items_of self.new ≡ renumbered (items_of self.old) place score }
        ensures same { result ≡ false → items_of self.new ≡ items_of self.old }
        ensures form { is_packed self.new ≡ is_packed self.old }
    {
        match self {
            Form::Packed(_) => false,
            Form::Large(tree) => {
                tree.set(place, score);
                true
            }
        }
    }
}

// Whether a block of so many members takes one more, where it may have at most so many.
fn takes(most: usize, count: usize, member: &[u8]) -> bool
    ensures { result ≡ takes most count member.now }
{
    count < most && member.len() <= MOST_LEN
}

fn lend_tree(
    alloc: Global,
    tree: &Tree,
    direction: Direction,
    from: usize,
    to: usize,
) -> Result<Vec<(&[u8], i64)>, Memory>
    ensures { IfOk result (λ lent. map shown lent.items ≡ part from to (told_in direction tree.now.0)) }
{
    let most = to.min(tree.len()).saturating_sub(from);
    let mut lent = Vec::with_capacity(alloc, most)?;
    tree.lend(direction, from, to, &mut lent);
    Ok(lent)
}

fn lend_packed(
    alloc: Global,
    pairs: &Packed,
    direction: Direction,
    from: usize,
    to: usize,
) -> Result<Vec<(&[u8], i64)>, Memory>
    ensures { IfOk result (λ lent. map shown lent.items ≡ part from to (told_in direction (items_in pairs.now))) }
{
    let len = pairs.len();
    let (low, high) = ends_told(direction, from.min(len), to.min(len), len);
    let mut lent = block::lend(alloc, pairs, low, high)?;
    turn(direction, &mut lent);
    Ok(lent)
}

/// Where it is told what stands from one place to another, among so many.
pub(crate) fn ends_told(direction: Direction, low: usize, high: usize, len: usize) -> (usize, usize)
    requires low { low ≤ len }
    requires high { high ≤ len }
    ensures ends { result ≡ told_ends direction low high len }
    ensures first { result.0 ≤ len }
    ensures last { result.1 ≤ len }
{
    match direction {
        Direction::Ascending => (low, high),
        Direction::Descending => (len - high, len - low),
    }
}

// Brings what is lent into the order in which it is told.
fn turn(direction: Direction, lent: &mut Vec<(&[u8], i64)>)
    ensures { map shown lent.new.items ≡ told_in direction (map shown lent.old.items) }
{
    if let Direction::Descending = direction {
        lent.reverse();
    }
}

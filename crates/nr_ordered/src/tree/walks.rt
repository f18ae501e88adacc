// What stands where: at a place, in front of a cut, and from one place to another.
ghost use Rattle.std.specs.Prelude.{◌≡◌, ◌+◌, ◌-◌, ◌≤◌, ◌<◌, ◌++◌, Bool, length, map, filter, find, slice_get, vec_len, vec_capacity};
ghost use Rattle.std.specs.Option.{option_map};
ghost use Rattle.nr_model.specs.SortedSets.{told_in};
ghost use Rattle.nr_ordered.specs.Lists.{Item, IsParted, part, shown};
ghost use Rattle.nr_ordered.specs.Trees.{items_of, IsFull};

use super::{Link, Tree, TreeNode};
use crate::ticks::Ticks;
use nr_model::command::Direction;
use std::marker::Brand;
use std::sync::ledger::{Blank, Ledger};

/// A cut through items: some stand in front of it, and the others behind it.
pub trait Cut {
    /// Whether an item stands in front of it.
    ghost parts: { Self → Item → Bool };

    fn is_behind(&self, bytes: &[u8], number: i64) -> bool
        ensures { result ≡ parts self.now (bytes.now, number) };
}

/// A test of items.
pub trait Test {
    /// Whether an item passes.
    ghost passing: { Self → Item → Bool };

    fn passes(&self, bytes: &[u8], number: i64) -> bool
        ensures { result ≡ passing self.now (bytes.now, number) };
}

impl TreeNode {
    // What is told before the node's block, and what after it.
    fn sides(&self, direction: Direction) -> (&Tree, &Tree)
        ensures told { told_in direction (items_of self.now)
            ≡ told_in direction result.0.now.0 ++ (told_in direction self.now.block ++ told_in direction result.1.now.0) }
        ensures first { length result.0.now.0 ≤ length self.now.left.0 + length self.now.right.0 }
        ensures second { length result.1.now.0 ≤ length self.now.left.0 + length self.now.right.0 }
    {
        match direction {
            Direction::Ascending => (&self.left, &self.right),
            Direction::Descending => (&self.right, &self.left),
        }
    }
}

impl Tree {
    /// The item at a place. It looks at one node a level at most, and adds up the lengths of at most 16 items of the last.
    pub fn at<L: Ledger>(&self, place: usize, ticks: &mut Ticks<L>) -> Option<(&[u8], i64)>
        ensures item { option_map shown result ≡ slice_get self.now.0 place }
        ensures cost { ticks.new ≤ ticks.old + self.now.1 }
        ensures full { IsFull self.now.1 (length self.now.0) }
    {
        match &self.root {
            Link::Leaf => None,
            Link::Fork { node, .. } => {
                ticks.tick();
                let before = node.left.len();
                if place < before {
                    return node.left.at(place, ticks);
                }
                let here = node.block.len();
                if place - before < here {
                    return node.block.get(place - before);
                }
                node.right.at(place - before - here, ticks)
            }
        }
    }

    /// How many items stand in front of a cut, where all of them stand before the others. It looks at one node a level at most, and asks the cut of
    /// one item in each, and of at most 34 in one of them.
    pub fn place_of<C: Cut, L: Ledger>(&self, cut: &C, ticks: &mut Ticks<L>) -> usize
        ensures place { IsParted (C.parts cut.now) self.now.0 → result ≡ length (filter (C.parts cut.now) self.now.0) }
        ensures within { result ≤ length self.now.0 }
        ensures cost { ticks.new ≤ ticks.old + self.now.1 }
        ensures full { IsFull self.now.1 (length self.now.0) }
    {
        match &self.root {
            Link::Leaf => 0,
            Link::Fork { node, .. } => {
                ticks.tick();
                let node: &TreeNode = node;
                if !node.block.is_in_front(cut, 0) {
                    return node.left.place_of(cut, ticks);
                }
                let before = node.left.len();
                let behind = node.right.place_of(cut, ticks);
                if behind > 0 {
                    return before + node.block.len() + behind;
                }
                before + node.block.find(cut)
            }
        }
    }

    /// How many items pass a test. Linear.
    pub fn count<T: Test>(&self, test: &T) -> usize
        ensures count { result ≡ length (filter (T.passing test.now) self.now.0) }
        ensures within { result ≤ length self.now.0 }
    {
        let Link::Fork { node, .. } = &self.root else {
            return 0;
        };
        let node: &TreeNode = node;
        let own = node.block.count(test);
        node.left.count(test) + own + node.right.count(test)
    }

    /// The first item that passes a test. Linear.
    pub fn first<T: Test>(&self, test: &T) -> Option<(&[u8], i64)>
        ensures { option_map shown result ≡ find (T.passing test.now) self.now.0 }
    {
        let Link::Fork { node, .. } = &self.root else {
            return None;
        };
        let node: &TreeNode = node;
        if let Some(item) = node.left.first(test) {
            return Some(item);
        }
        if let Some(item) = node.block.first(test) {
            return Some(item);
        }
        node.right.first(test)
    }

    /// Lends the items from one place to another, both counted as they are told in a direction, into a vector with room for them. Logarithmic,
    /// and linear in those items, of each of which it adds up the lengths of at most 16 others.
    pub fn lend<'t>(
        &'t self,
        direction: Direction,
        from: usize,
        to: usize,
        lent: &mut Vec<(&'t [u8], i64)>,
    )
        requires room { vec_len lent.old + length (part from to (told_in direction self.now.0)) ≤ vec_capacity lent.old }
        ensures items { map shown lent.new.items ≡ map shown lent.old.items ++ part from to (told_in direction self.now.0) }
        ensures len { vec_len lent.new ≡ vec_len lent.old + length (part from to (told_in direction self.now.0)) }
        ensures capacity { vec_capacity lent.new ≡ vec_capacity lent.old }
    {
        if from >= to || from >= self.len() {
            return;
        }
        let Link::Fork { node, .. } = &self.root else {
            return;
        };
        let node: &TreeNode = node;
        let (first, second) = node.sides(direction);
        let before = first.len();
        let behind = before + node.block.len();
        first.lend(direction, from, to, lent);
        node.block.lend(
            direction,
            from.saturating_sub(before),
            to.saturating_sub(before),
            lent,
        );
        second.lend(
            direction,
            from.saturating_sub(behind),
            to.saturating_sub(behind),
            lent,
        );
    }
}

fn at_from<'t, L: Ledger>(tree: &'t Tree, place: usize, blank: Blank) -> Option<(&'t [u8], i64)>
    requires name { blank.name ≡ L.name }
    requires parts { blank.parts ≡ L.parts }
    requires some { 0 < L.parts }
    ensures { option_map shown result ≡ slice_get tree.now.0 place }
{
    let mut ticks: Ticks<L> = Ticks::new(blank);
    tree.at(place, &mut ticks)
}

fn place_from<C: Cut, L: Ledger>(tree: &Tree, cut: &C, blank: Blank) -> usize
    requires name { blank.name ≡ L.name }
    requires parts { blank.parts ≡ L.parts }
    requires some { 0 < L.parts }
    ensures place { IsParted (C.parts cut.now) tree.now.0 → result ≡ length (filter (C.parts cut.now) tree.now.0) }
    ensures within { result ≤ length tree.now.0 }
{
    let mut ticks: Ticks<L> = Ticks::new(blank);
    tree.place_of(cut, &mut ticks)
}

// The same, counted by nobody.
impl Tree {
    /// The item at a place. Logarithmic.
    pub fn get(&self, place: usize) -> Option<(&[u8], i64)>
        ensures { option_map shown result ≡ slice_get self.now.0 place }
    {
        at_from::<Brand>(self, place, Blank::new(1))
    }

    /// How many items stand in front of a cut, where all of them stand before the others. Logarithmic.
    pub fn find<C: Cut>(&self, cut: &C) -> usize
        ensures place { IsParted (C.parts cut.now) self.now.0 → result ≡ length (filter (C.parts cut.now) self.now.0) }
        ensures within { result ≤ length self.now.0 }
    {
        place_from::<C, Brand>(self, cut, Blank::new(1))
    }
}

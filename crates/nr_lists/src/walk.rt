// The items of a list, lent one after another.
ghost use Rattle.std.specs.Prelude.{◌≡◌, ◌≤◌, ◌++◌, [], length, take, IfNone};
ghost use Rattle.std.specs.Option.{option_map, option_to_list};
ghost use Rattle.nr_model.specs.Lists.{seen_from};

use crate::few::Few;
use crate::items::ChainWalk;
use nr_model::command::End;
use std::marker::Model;

// The items that are left, in the form that they are held in.
#[derive(Drop)]
enum Rest<'a> {
    Small(Few<'a>),
    Large(ChainWalk<'a>),
}

/// The items of a list that are left, taken off at either end.
#[derive(Drop)]
pub(crate) struct Walk<'a> {
    rest: Rest<'a>,
}

impl<'a> Model for Walk<'a> {
    ghost use Rattle.std.specs.Prelude.{List};
    ghost use Rattle.nr_model.specs.Bytes.{Bytes};
    ghost use Rattle.nr_lists.specs.Walks.{left};

    ghost Value = { List Bytes };

    ghost view = { λ walk. left walk.rest };
}

impl<'a> Walk<'a> {
    /// The items of one block.
    pub(crate) fn small(items: Few<'a>) -> Walk<'a>
        ensures { result ≡ items.entry }
    {
        Walk {
            rest: Rest::Small(items),
        }
    }

    /// The items of many blocks.
    pub(crate) fn large(items: ChainWalk<'a>) -> Walk<'a>
        ensures { result ≡ items.entry }
    {
        Walk {
            rest: Rest::Large(items),
        }
    }

    /// Takes the item at an end off. Constant.
    pub(crate) fn take(&mut self, end: End) -> Option<&'a [u8]>
        ensures item { seen_from end self.old ≡ option_to_list (option_map (λ item. item.now) result) ++ seen_from end self.new }
        ensures none { IfNone result (self.old ≡ []) }
    {
        match &mut self.rest {
            Rest::Small(items) => items.take(end),
            Rest::Large(items) => items.take(end),
        }
    }
}

/// Items of a list, lent, in order. It is seen as those that are left.
#[derive(Drop)]
pub struct Items<'a> {
    walk: Walk<'a>,
    // How many of the walk's, which has as many.
    left: usize,
}

impl<'a> Model for Items<'a> {
    ghost use Rattle.std.specs.Prelude.{◌≤◌, List, length, take};
    ghost use Rattle.nr_model.specs.Bytes.{Bytes};

    ghost Value = { List Bytes };

    ghost view = { λ items. take items.left items.walk };

    ghost invariant = { λ items. items.left ≤ length items.walk };
}

impl<'a> Items<'a> {
    /// The first so many of a walk, which has as many.
    pub(crate) fn new(walk: Walk<'a>, left: usize) -> Items<'a>
        requires { left ≤ length walk }
        ensures { result ≡ take left walk.entry }
    {
        Items { walk, left }
    }
}

impl<'a> Iterator for Items<'a> {
    ghost use Rattle.std.specs.Iterator.{YieldsFirstBy, item_count};

    type Item = &'a [u8];

    ghost next_gives = { YieldsFirstBy (λ item. item.now) (λ items. items) };

    ghost remaining = { item_count (λ items. items) };

    fn next(&mut self) -> Option<&'a [u8]> {
        if self.left == 0 {
            return None;
        }
        self.left -= 1;
        self.walk.take(End::Left)
    }
}

impl<'a> ExactSizeIterator for Items<'a> {
    fn len(&self) -> usize {
        self.left
    }
}

// The items of blocks, lent one after another.
ghost use Rattle.std.specs.Prelude.{◌≡◌, ℕ, ◌≤◌, ◌<◌, ◌+◌, ◌++◌, [], length, drop, slice_index_or, IfNone, IsTrue};
ghost use Rattle.std.specs.Option.{option_map, option_to_list};
ghost use Rattle.std.specs.VecDeque.Iter.{deque_iter_rest};
ghost use Rattle.nr_model.specs.Bytes.{Bytes};
ghost use Rattle.nr_model.specs.Lists.{seen_from};
ghost use Rattle.nr_lists.specs.Packed.{joined, total, cut, items_in, IsWhole};

use crate::block::Block;
use nr_model::command::End;
use std::collections::VecDeque;
use std::collections::vec_deque::Iter;
use std::marker::Model;

/// The items of a block that are left.
#[derive(Drop)]
pub(crate) struct BlockItems<'a> {
    // A lone item, whose length stands nowhere.
    lone: Option<&'a [u8]>,
    lens: &'a [u16],
    bytes: &'a [u8],
}

impl<'a> Model for BlockItems<'a> {
    ghost use Rattle.std.specs.Prelude.{◌≡◌, ◌++◌, List, length};
    ghost use Rattle.std.specs.Option.{option_map, option_to_list};
    ghost use Rattle.nr_model.specs.Bytes.{Bytes};
    ghost use Rattle.nr_lists.specs.Packed.{total, cut};

    ghost Value = { List Bytes };

    ghost view = { λ items. option_to_list (option_map (λ item. item.now) items.lone) ++ cut items.lens.now items.bytes.now };

    ghost invariant = { λ items. total items.lens.now ≡ length items.bytes.now };
}

impl<'a> BlockItems<'a> {
    /// No items.
    pub(crate) fn none() -> BlockItems<'a>
        ensures { result ≡ [] }
    {
        BlockItems {
            lone: None,
            lens: &[],
            bytes: &[],
        }
    }

    /// The items of a block.
    pub(crate) fn new(lens: &'a [u16], bytes: &'a [u8]) -> BlockItems<'a>
        requires { IsWhole lens.now bytes.now }
        ensures { result ≡ items_in lens.now bytes.now }
    {
        if lens.is_empty() {
            return BlockItems {
                lone: Some(bytes),
                lens: &[],
                bytes: &[],
            };
        }
        BlockItems {
            lone: None,
            lens,
            bytes,
        }
    }

    /// Takes the first item off.
    pub(crate) fn take_first(&mut self) -> Option<&'a [u8]>
        ensures item { self.old ≡ option_to_list (option_map (λ item. item.now) result) ++ self.new }
        ensures none { IfNone result (self.old ≡ []) }
    {
        if let Some(item) = self.lone {
            self.lone = None;
            return Some(item);
        }
        first_of(&mut self.lens, &mut self.bytes)
    }

    /// Takes the last item off.
    pub(crate) fn take_last(&mut self) -> Option<&'a [u8]>
        ensures item { self.old ≡ self.new ++ option_to_list (option_map (λ item. item.now) result) }
        ensures none { IfNone result (self.old ≡ []) }
    {
        if let Some(item) = last_of(&mut self.lens, &mut self.bytes) {
            return Some(item);
        }
        let item = self.lone?;
        self.lone = None;
        Some(item)
    }
}

// Takes the first item off bytes, and its length off the lengths.
fn first_of<'a>(lens: &mut &'a [u16], bytes: &mut &'a [u8]) -> Option<&'a [u8]>
    requires { total lens.old.now ≡ length bytes.old.now }
    ensures item { cut lens.old.now bytes.old.now ≡ option_to_list (option_map (λ item. item.now) result) ++ cut lens.new.now bytes.new.now }
    ensures whole { total lens.new.now ≡ length bytes.new.now }
    ensures none { IfNone result (cut lens.old.now bytes.old.now ≡ []) }
{
    let Some((len, others)) = lens.split_first() else {
        return None;
    };
    let (item, behind) = bytes.split_at(usize::from(*len));
    *lens = others;
    *bytes = behind;
    Some(item)
}

// Takes the last item off bytes, and its length off the lengths.
fn last_of<'a>(lens: &mut &'a [u16], bytes: &mut &'a [u8]) -> Option<&'a [u8]>
    requires { total lens.old.now ≡ length bytes.old.now }
    ensures item { cut lens.old.now bytes.old.now ≡ cut lens.new.now bytes.new.now ++ option_to_list (option_map (λ item. item.now) result) }
    ensures whole { total lens.new.now ≡ length bytes.new.now }
    ensures none { IfNone result (cut lens.old.now bytes.old.now ≡ []) }
{
    let Some((len, others)) = lens.split_last() else {
        return None;
    };
    let (before, item) = bytes.split_at(bytes.len() - usize::from(*len));
    *lens = others;
    *bytes = before;
    Some(item)
}

/// The items of blocks that are left, taken off at either end.
#[derive(Drop)]
pub(crate) struct ChainWalk<'a> {
    // What is left of the block begun at the front.
    first: BlockItems<'a>,
    // The blocks that are not begun.
    blocks: Iter<'a, Block>,
    // What is left of the block begun at the end.
    last: BlockItems<'a>,
}

impl<'a> Model for ChainWalk<'a> {
    ghost use Rattle.std.specs.Prelude.{◌++◌, List};
    ghost use Rattle.std.specs.VecDeque.Iter.{deque_iter_rest};
    ghost use Rattle.nr_model.specs.Bytes.{Bytes};
    ghost use Rattle.nr_lists.specs.Packed.{joined};

    ghost Value = { List Bytes };

    ghost view = { λ walk. walk.first ++ (joined (deque_iter_rest walk.blocks) ++ walk.last) };
}

impl<'a> ChainWalk<'a> {
    /// The items of all blocks.
    pub(crate) fn new(blocks: &'a VecDeque<Block>) -> ChainWalk<'a>
        ensures { result ≡ joined blocks.now.items }
    {
        ChainWalk {
            first: BlockItems::none(),
            blocks: blocks.iter(),
            last: BlockItems::none(),
        }
    }

    /// The items from a place in a block on.
    pub(crate) fn new_from(blocks: &'a VecDeque<Block>, block: usize, place: usize) -> ChainWalk<'a>
        requires block { block < length blocks.now.items }
        requires place { place < length (slice_index_or blocks.now.items block []) }
        ensures { result ≡ drop place (slice_index_or blocks.now.items block []) ++ joined (drop (block + 1) blocks.now.items) }
    {
        ChainWalk {
            first: blocks[block].items_from(place),
            blocks: blocks.range(block + 1..),
            last: BlockItems::none(),
        }
    }

    /// Takes the item at an end off. Constant.
    pub(crate) fn take(&mut self, end: End) -> Option<&'a [u8]>
        ensures item { seen_from end self.old ≡ option_to_list (option_map (λ item. item.now) result) ++ seen_from end self.new }
        ensures none { IfNone result (self.old ≡ []) }
    {
        match end {
            End::Left => take_first(&mut self.first, &mut self.blocks, &mut self.last),
            End::Right => take_last(&mut self.first, &mut self.blocks, &mut self.last),
        }
    }
}

// Takes the first item off: of the block begun at the front, of the next one, or of the block begun at the end.
fn take_first<'a>(
    first: &mut BlockItems<'a>,
    blocks: &mut Iter<'a, Block>,
    last: &mut BlockItems<'a>,
) -> Option<&'a [u8]>
    ensures item { first.old ++ (joined (deque_iter_rest blocks.old) ++ last.old)
        ≡ option_to_list (option_map (λ item. item.now) result) ++ (first.new ++ (joined (deque_iter_rest blocks.new) ++ last.new)) }
    ensures none { IfNone result (first.old ++ (joined (deque_iter_rest blocks.old) ++ last.old) ≡ []) }
{
    if let Some(item) = first.take_first() {
        return Some(item);
    }
    let Some(block) = blocks.next() else {
        return last.take_first();
    };
    *first = block.items();
    first.take_first()
}

// Takes the last item off: of the block begun at the end, of the one before it, or of the block begun at the front.
fn take_last<'a>(
    first: &mut BlockItems<'a>,
    blocks: &mut Iter<'a, Block>,
    last: &mut BlockItems<'a>,
) -> Option<&'a [u8]>
    ensures item { first.old ++ (joined (deque_iter_rest blocks.old) ++ last.old)
        ≡ (first.new ++ (joined (deque_iter_rest blocks.new) ++ last.new)) ++ option_to_list (option_map (λ item. item.now) result) }
    ensures none { IfNone result (first.old ++ (joined (deque_iter_rest blocks.old) ++ last.old) ≡ []) }
{
    if let Some(item) = last.take_last() {
        return Some(item);
    }
    let Some(block) = blocks.next_back() else {
        return first.take_last();
    };
    *last = block.items();
    last.take_last()
}

// A list in blocks of a few items each.
ghost use Rattle.std.specs.Prelude.{◌≡◌, ◌+◌, ◌++◌, ◌^◌, ◌<◌, ◌≤◌, List as Items, [], length, All, IfNone, IfOk, OnOk, OnErr, is_some};
ghost use Rattle.std.specs.Option.{option_map, option_to_list};
ghost use Rattle.nr_model.specs.Strings.{range};
ghost use Rattle.nr_model.specs.Lists.{pushed, popped, item_at, index_of, place_of, with_item_at, pivot_of, inserted, seen_from, removed, places_of};

use crate::block::Block;
use crate::items::ChainWalk;
use crate::places::{beside, place};
use crate::walk::{Items, Walk};
use crate::{blocks, matches};
use nr_blob::{Blob, Memory, end_of, start_of};
use nr_model::command::{End, Side};
use std::alloc::Global;
use std::collections::VecDeque;
use std::marker::Model;

/// A list in blocks of a few items each. It is seen as a list of byte lists. To drop it is linear in its blocks.
#[derive(Debug, Drop)]
pub(crate) struct Chain {
    blocks: VecDeque<Block>,
    // How many items.
    len: usize,
}

impl Model for Chain {
    ghost use Rattle.std.specs.Prelude.{List as Items};
    ghost use Rattle.nr_model.specs.Bytes.{Bytes};
    ghost use Rattle.nr_lists.specs.Packed.{joined};
    ghost use Rattle.nr_lists.specs.Blocks.{IsCounted};

    ghost Value = { Items Bytes };

    ghost view = { λ chain. joined chain.blocks.items };

    ghost invariant = { λ chain. IsCounted chain.len chain.blocks.items };
}

impl Chain {
    /// The empty list. It takes no memory.
    pub(crate) fn new(alloc: Global) -> Chain
        ensures { result ≡ [] }
    {
        Chain {
            blocks: VecDeque::new(alloc),
            len: 0,
        }
    }

    /// How many items. Constant.
    pub(crate) fn len(&self) -> usize
        ensures len { result ≡ length self.now }
        ensures small { result < 2 ^ 63 }
    {
        self.len
    }

    /// What it takes memory from.
    pub(crate) fn allocator(&self) -> Global {
        *self.blocks.allocator()
    }

    // The items, lent.
    fn walk(&self) -> Walk<'_>
        ensures { result ≡ self.now }
    {
        Walk::large(ChainWalk::new(&self.blocks))
    }

    /// Puts an item at an end. Linear in it, but for growth. Where memory runs out nothing is changed.
    pub(crate) fn push(&mut self, end: End, item: Blob) -> Result<(), Memory>
        ensures ok { OnOk result (self.new ≡ pushed end item self.old) }
        ensures err { OnErr result (self.new ≡ self.old) }
    {
        let len = one_more(self.len)?;
        blocks::push(&mut self.blocks, end, item)?;
        self.len = len;
        Ok(())
    }

    /// Takes the item at an end out, if there is one. Linear in it, and a long one is not copied. Where memory runs out nothing is changed.
    pub(crate) fn pop(&mut self, end: End) -> Result<Option<Blob>, Memory>
        ensures item { IfOk result (λ item. item ≡ item_at (index_of end) self.old) }
        ensures left { OnOk result (self.new ≡ popped end self.old) }
        ensures seen { IfOk result (λ item. seen_from end self.old ≡ option_to_list item ++ seen_from end self.new) }
        ensures none { IfOk result (λ item. IfNone item (length self.old ≡ 0)) }
        ensures err { OnErr result (self.new ≡ self.old) }
    {
        let Some(item) = blocks::pop(&mut self.blocks, end)? else {
            return Ok(None);
        };
        self.len -= 1;
        Ok(Some(item))
    }

    /// The item at an index; an index below 0 counts from the end. Linear in the blocks between it and the nearer end.
    pub(crate) fn get(&self, index: i64) -> Option<&[u8]>
        ensures { option_map (λ item. item.now) result ≡ item_at index self.now }
    {
        let place = place(self.len, index)?;
        let (block, place) = blocks::find(&self.blocks, self.len, place);
        self.blocks[block].get(place)
    }

    /// Puts an item in the place of the one at an index, and says whether there is one; an index below 0 counts from the end. Linear in the
    /// blocks between it and the nearer end, and in the bytes of its block. Where memory runs out nothing is changed.
    pub(crate) fn set(&mut self, index: i64, item: Blob) -> Result<bool, Memory>
        ensures found { IfOk result (λ found. found ≡ is_some (place_of (length self.old) index)) }
        ensures items { OnOk result (self.new ≡ with_item_at index item self.old) }
        ensures err { OnErr result (self.new ≡ self.old) }
    {
        match place(self.len, index) {
            Some(place) => {
                let (block, place) = blocks::find(&self.blocks, self.len, place);
                blocks::replace(&mut self.blocks, block, place, item)?;
                Ok(true)
            }
            None => Ok(false),
        }
    }

    /// The items from one index to another, both counted, in order; an index below 0 counts from the end. Linear in the blocks between the
    /// first and the nearer end; what is read is lent.
    pub(crate) fn range(&self, first: i64, last: i64) -> Items<'_>
        ensures { result ≡ range first last self.now }
    {
        let start = start_of(self.len, first);
        let end = end_of(self.len, last);
        if end <= start {
            return Items::new(self.walk(), 0);
        }
        let (block, place) = blocks::find(&self.blocks, self.len, start);
        let walk = ChainWalk::new_from(&self.blocks, block, place);
        Items::new(Walk::large(walk), end - start)
    }

    /// Keeps the items from one index to another, both counted; an index below 0 counts from the end. Linear in what is taken out.
    pub(crate) fn trim(&mut self, first: i64, last: i64)
        ensures { self.new ≡ range first last self.old }
    {
        let start = start_of(self.len, first);
        let end = end_of(self.len, last);
        if end <= start {
            self.blocks.clear();
            self.len = 0;
            return;
        }
        blocks::truncate(&mut self.blocks, self.len, end);
        blocks::skip(&mut self.blocks, end, start);
        self.len = end - start;
    }

    /// Puts an item beside the first pivot, and says whether there is one. Linear in what is looked at, in the bytes of the pivot's block and
    /// in the blocks that move. Where memory runs out nothing is changed.
    pub(crate) fn insert(&mut self, side: Side, pivot: &[u8], item: Blob) -> Result<bool, Memory>
        ensures found { IfOk result (λ found. found ≡ is_some (pivot_of pivot.now self.old)) }
        ensures ok { OnOk result (self.new ≡ inserted side pivot.now item self.old) }
        ensures err { OnErr result (self.new ≡ self.old) }
    {
        let Some(place) = matches::pivot(self.walk(), self.len, pivot) else {
            return Ok(false);
        };
        let len = one_more(self.len)?;
        let (block, place) = blocks::find(&self.blocks, self.len, place);
        blocks::insert(&mut self.blocks, block, beside(side, place), item)?;
        self.len = len;
        Ok(true)
    }

    /// Takes out as many items with these bytes as a count says, and says how many there were: above 0 from the front, below 0 from the end,
    /// and 0 takes all. Linear in the items and the bytes of the blocks.
    pub(crate) fn remove(&mut self, count: i64, bytes: &[u8]) -> usize
        ensures items { self.new ≡ removed count bytes.now self.old }
        ensures count { result + length self.new ≡ length self.old }
        ensures small { result < 2 ^ 63 }
    {
        let most = matches::how_many(count, self.len);
        let taken = matches::take_out(&mut self.blocks, matches::end_of(count), most, bytes);
        self.len -= taken;
        taken
    }

    /// The places of the items with these bytes, counted from the front, in the order found: from the end for a rank below 0, beginning with
    /// the rank's match, among so many items looked at, and at most so many places. For the last two 0 is no limit. A rank of 0 is as 1.
    /// Linear in what is looked at.
    #[tactic(auto, using(crate::proofs::Within::places_small))]
    pub(crate) fn positions(
        &self,
        bytes: &[u8],
        rank: i64,
        count: usize,
        most: usize,
    ) -> Result<Vec<usize>, Memory>
        ensures places { IfOk result (λ places. places.items ≡ places_of rank count most bytes.now self.now) }
        ensures small { IfOk result (λ places. All (λ place. place < 2 ^ 63) places.items) }
    {
        matches::places(
            *self.blocks.allocator(),
            self.walk(),
            self.len,
            bytes,
            rank,
            count,
            most,
        )
    }

    /// The same items once more. Linear in them and their bytes.
    pub(crate) fn copy(&self) -> Result<Chain, Memory>
        ensures { IfOk result (λ copied. copied ≡ self.now) }
    {
        Ok(Chain {
            blocks: blocks::copy_each(&self.blocks)?,
            len: self.len,
        })
    }
}

// How many items there are with one more, refused from 2^63 on.
fn one_more(len: usize) -> Result<usize, Memory>
    requires { len < 2 ^ 63 }
    ensures more { IfOk result (λ more. (more ≡ len + 1) × (more < 2 ^ 63)) }
    ensures refused { OnErr result (2 ^ 63 ≤ len + 1) }
{
    let more = len + 1;
    match Memory::at_last((more as u64).saturating_mul(2)) {
        Some(refused) => Err(refused),
        None => Ok(more),
    }
}

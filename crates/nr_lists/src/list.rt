// A list: what the commands push, pop, read and cut, in place.
ghost use Rattle.std.specs.Prelude.{◌≡◌, ◌↔◌, ◌+◌, ◌++◌, ◌^◌, ◌<◌, List as Items, [], length, All, IsTrue, IfNone, IfOk, OnOk, OnErr, is_some};
ghost use Rattle.std.specs.Option.{option_map, option_to_list};
ghost use Rattle.nr_model.specs.Strings.{range};
ghost use Rattle.nr_model.specs.Lists.{pushed, popped, item_at, index_of, place_of, with_item_at, pivot_of, inserted, seen_from, removed, places_of};

use crate::form::Form;
use crate::places::place;
use crate::walk::Items;
use nr_blob::{Blob, Memory};
use nr_model::command::{End, Side};
use std::alloc::Global;
use std::marker::Model;

/// A list, as a key holds it. It is seen as a list of byte lists. At most 128 items, none of them longer than 64 bytes, stand in one block, whose
/// bytes most changes write anew; more or longer ones make a chain of blocks of a few items each, to which a call that puts one in copies those
/// that are there, and a chain stays one. To drop it is linear in its blocks.
#[derive(Debug, Drop)]
pub struct List {
    form: Form,
}

impl Model for List {
    ghost use Rattle.std.specs.Prelude.{List as Items};
    ghost use Rattle.nr_model.specs.Bytes.{Bytes};
    ghost use Rattle.nr_lists.specs.Forms.{items_of};

    ghost Value = { Items Bytes };

    ghost view = { λ list. items_of list.form };
}

impl List {
    /// The empty list. It takes no memory.
    pub fn new(alloc: Global) -> List
        ensures { result ≡ [] }
    {
        List {
            form: Form::new(alloc),
        }
    }

    /// How many items. Constant.
    pub fn len(&self) -> usize
        ensures len { result ≡ length self.now }
        ensures small { result < 2 ^ 63 }
    {
        self.form.len()
    }

    pub fn is_empty(&self) -> bool
        ensures { IsTrue result ↔ (self.now ≡ []) }
    {
        self.form.len() == 0
    }

    /// Puts an item at an end. Linear in it, but for growth, and in the bytes of a list of one block. Where memory runs out nothing is changed.
    pub fn push(&mut self, end: End, item: Blob) -> Result<(), Memory>
        ensures ok { OnOk result (self.new ≡ pushed end item self.old) }
        ensures err { OnErr result (self.new ≡ self.old) }
    {
        self.form.push(end, item)?;
        Ok(())
    }

    /// Takes the item at an end out, if there is one. Linear in it, and in the bytes of a list of one block; a long one is not copied. Where memory
    /// runs out nothing is changed.
    pub fn pop(&mut self, end: End) -> Result<Option<Blob>, Memory>
        ensures item { IfOk result (λ item. item ≡ item_at (index_of end) self.old) }
        ensures left { OnOk result (self.new ≡ popped end self.old) }
        ensures seen { IfOk result (λ item. seen_from end self.old ≡ option_to_list item ++ seen_from end self.new) }
        ensures none { IfOk result (λ item. IfNone item (length self.old ≡ 0)) }
        ensures err { OnErr result (self.new ≡ self.old) }
    {
        let item = self.form.pop(end)?;
        Ok(item)
    }

    /// The item at an index; an index below 0 counts from the end. Linear in the blocks between it and the nearer end, and in the items of a list of
    /// one block.
    pub fn get(&self, index: i64) -> Option<&[u8]>
        ensures { option_map (λ item. item.now) result ≡ item_at index self.now }
    {
        self.form.get(index)
    }

    /// Whether there is an item at an index; an index below 0 counts from the end. Constant.
    pub fn has(&self, index: i64) -> bool
        ensures { result ≡ is_some (item_at index self.now) }
    {
        place(self.form.len(), index).is_some()
    }

    /// Puts an item in the place of the one at an index, and says whether there is one; an index below 0 counts from the end. Linear in the
    /// blocks between it and the nearer end, and in the bytes of its block. Where memory runs out nothing is changed.
    pub fn set(&mut self, index: i64, item: Blob) -> Result<bool, Memory>
        ensures found { IfOk result (λ found. found ≡ is_some (place_of (length self.old) index)) }
        ensures items { OnOk result (self.new ≡ with_item_at index item self.old) }
        ensures err { OnErr result (self.new ≡ self.old) }
    {
        let found = self.form.set(index, item)?;
        Ok(found)
    }

    /// The items from one index to another, both counted, in order; an index below 0 counts from the end. Linear in the blocks between the
    /// first and the nearer end, and in the items of a list of one block; what is read is lent.
    pub fn range(&self, first: i64, last: i64) -> Items<'_>
        ensures { result ≡ range first last self.now }
    {
        self.form.range(first, last)
    }

    /// Keeps the items from one index to another, both counted; an index below 0 counts from the end. Linear in what is taken out,
    /// and in the bytes of a list of one block.
    pub fn trim(&mut self, first: i64, last: i64)
        ensures { self.new ≡ range first last self.old }
    {
        self.form.trim(first, last);
    }

    /// Puts an item beside the first pivot, and says whether there is one. Linear in what is looked at, in the bytes of the pivot's block and
    /// in the blocks that move. Where memory runs out nothing is changed.
    pub fn insert(&mut self, side: Side, pivot: &[u8], item: Blob) -> Result<bool, Memory>
        ensures found { IfOk result (λ found. found ≡ is_some (pivot_of pivot.now self.old)) }
        ensures ok { OnOk result (self.new ≡ inserted side pivot.now item self.old) }
        ensures err { OnErr result (self.new ≡ self.old) }
    {
        let found = self.form.insert(side, pivot, item)?;
        Ok(found)
    }

    /// Takes out as many items with these bytes as a count says, and says how many there were: above 0 from the front, below 0 from the end,
    /// and 0 takes all. Linear in the items and the bytes of the blocks; in a list of one block, in its bytes for each that is taken out.
    pub fn remove(&mut self, count: i64, bytes: &[u8]) -> usize
        ensures items { self.new ≡ removed count bytes.now self.old }
        ensures count { result + length self.new ≡ length self.old }
        ensures small { result < 2 ^ 63 }
    {
        self.form.remove(count, bytes)
    }

    /// The places of the items with these bytes, counted from the front, in the order found: from the end for a rank below 0, beginning with
    /// the rank's match, among so many items looked at, and at most so many places. For the last two 0 is no limit. A rank of 0 is as 1.
    /// Linear in what is looked at.
    pub fn positions(
        &self,
        bytes: &[u8],
        rank: i64,
        count: usize,
        most: usize,
    ) -> Result<Vec<usize>, Memory>
        ensures places { IfOk result (λ places. places.items ≡ places_of rank count most bytes.now self.now) }
        ensures small { IfOk result (λ places. All (λ place. place < 2 ^ 63) places.items) }
    {
        let places = self.form.positions(bytes, rank, count, most)?;
        Ok(places)
    }

    /// The same items once more. Linear in them and their bytes.
    pub fn copy(&self) -> Result<List, Memory>
        ensures { IfOk result (λ copied. copied ≡ self.now) }
    {
        Ok(List {
            form: self.form.copy()?,
        })
    }
}

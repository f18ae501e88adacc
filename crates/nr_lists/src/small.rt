// A small list: a few short items in one block of memory.
ghost use Rattle.std.specs.Prelude.{◌≡◌, ◌≤◌, ◌<◌, ◌+◌, ◌-◌, ◌^◌, ◌++◌, [], ◌∷◌, length, take, drop, slice_get, slice_set, slice_index_or, true, All, IfOk, OnOk, OnErr, IfSome, OnSome, IfNone, is_some, not, ◌||◌, if◌then◌else◌};
ghost use Rattle.std.specs.Option.{option_map, option_to_list};
ghost use Rattle.std.specs.List.{insert};
ghost use Rattle.nr_model.specs.Strings.{range};
ghost use Rattle.nr_model.specs.Lists.{pushed, popped, item_at, index_of, place_of, with_item_at, pivot_of, inserted, seen_from, removed, places_of};
ghost use Rattle.nr_lists.specs.Small as small;
ghost use Rattle.nr_lists.specs.Small.{count_in, lens_in, rest_in, IsLaid};

use crate::few::{Few, offset};
use crate::matches;
use crate::matches::place_from;
use crate::places::{beside, place};
use crate::walk::{Items, Walk};
use nr_blob::{Blob, Memory, end_of, remove_range, start_of};
use nr_model::command::{End, Side};
use std::alloc::Global;
use std::marker::Model;

/// The most bytes of an item in a small list.
const MOST_LEN: usize = 64;

/// The most items of a small list: what a call costs is bounded by the two.
const MOST_ITEMS: usize = 128;

/// A few short items in one block of memory, which has room for no more. They are seen as a list of byte lists.
#[derive(Debug, Drop)]
pub(crate) struct Small {
    // How many items, then their lengths, then their bytes. No items may have no bytes at all.
    block: Vec<u8>,
}

impl Model for Small {
    ghost use Rattle.std.specs.Prelude.{List};
    ghost use Rattle.nr_model.specs.Bytes.{Bytes};
    ghost use Rattle.nr_lists.specs.Small.{held_in, IsLaid};

    ghost Value = { List Bytes };

    ghost view = { λ items. held_in items.block.items };

    ghost invariant = { λ items. IsLaid items.block.items };
}

impl Small {
    /// No items. They take no memory.
    pub(crate) fn new(alloc: Global) -> Small
        ensures { result ≡ [] }
    {
        Small {
            block: Vec::new(alloc),
        }
    }

    /// What it takes memory from.
    pub(crate) fn allocator(&self) -> Global {
        *self.block.allocator()
    }

    /// The items, lent. Constant.
    pub(crate) fn items(&self) -> Few<'_>
        ensures { result ≡ self.now }
    {
        let (lens, bytes) = parts(&self.block);
        Few::new(lens, bytes)
    }

    /// How many items. Constant.
    pub(crate) fn len(&self) -> usize
        ensures len { result ≡ length self.now }
        ensures small { result < 2 ^ 63 }
    {
        self.items().len()
    }

    /// The item at a place. Linear in the items in front of it.
    pub(crate) fn get(&self, place: usize) -> Option<&[u8]>
        ensures { option_map (λ item. item.now) result ≡ slice_get self.now place }
    {
        self.items().get(place)
    }

    /// Puts an item in at a place, and says whether it was done: a long one, or one more than are few, is not put in. Linear in the bytes of the
    /// block, which is made anew. Where memory runs out nothing is changed.
    pub(crate) fn insert(&mut self, place: usize, item: &[u8]) -> Result<bool, Memory>
        requires { place ≤ length self.old }
        ensures ok { IfOk result (λ done. self.new ≡ (if done then insert self.old place item.now else self.old)) }
        ensures room { IfOk result (λ done. done ≡ small.is_small (length self.old) (length item.now)) }
        ensures err { OnErr result (self.new ≡ self.old) }
    {
        if !is_small(self.len(), item.len()) {
            return Ok(false);
        }
        self.put(place, place, item)?;
        Ok(true)
    }

    /// Puts an item in the place of another, and says whether it was done: a long one is not put in. One with as many bytes is written over the
    /// other, linear in the items in front of it, and takes no memory; for another the block is made anew, linear in its bytes. Where memory runs
    /// out nothing is changed.
    pub(crate) fn replace(&mut self, place: usize, item: &[u8]) -> Result<bool, Memory>
        requires { place < length self.old }
        ensures ok { IfOk result (λ done. self.new ≡ (if done then slice_set self.old place item.now else self.old)) }
        ensures room { IfOk result (λ done. done ≡ small.is_small (length self.old - 1) (length item.now)) }
        ensures err { OnErr result (self.new ≡ self.old) }
    {
        if !is_small(self.len() - 1, item.len()) {
            return Ok(false);
        }
        if self.has_length(place, item.len()) {
            write(&mut self.block, place, item);
            return Ok(true);
        }
        self.put(place, place + 1, item)?;
        Ok(true)
    }

    // Whether the item at a place has so many bytes.
    fn has_length(&self, place: usize, len: usize) -> bool
        requires { place < length self.now }
        ensures { result ≡ true → length (slice_index_or self.now place []) ≡ len }
    {
        match self.get(place) {
            Some(item) => item.len() == len,
            None => false,
        }
    }

    // Puts an item in the place of those of a range.
    fn put(&mut self, start: usize, end: usize, item: &[u8]) -> Result<(), Memory>
        requires range { start ≤ end }
        requires within { end ≤ length self.old }
        requires few { length self.old < 255 + (end - start) }
        requires short { length item.now ≤ 255 }
        ensures ok { OnOk result (self.new ≡ take start self.old ++ item.now ∷ drop end self.old) }
        ensures err { OnErr result (self.new ≡ self.old) }
    {
        let (before, _) = self.items().split_at(start);
        let (_, behind) = self.items().split_at(end);
        let put = joined(self.allocator(), before, item, behind)?;
        *self = put;
        Ok(())
    }

    /// Takes the items of a range out, and lets go of their room. Linear in the bytes of the block.
    pub(crate) fn cut(&mut self, start: usize, end: usize)
        requires range { start ≤ end }
        requires within { end ≤ length self.old }
        ensures { self.new ≡ take start self.old ++ drop end self.old }
    {
        if start < end {
            take_out(&mut self.block, start, end);
        }
    }

    /// Puts an item at an end, and says whether it was done: a long one, or one more than are few, is not put in. Linear in the bytes of the
    /// block. Where memory runs out nothing is changed.
    pub(crate) fn push(&mut self, end: End, item: &[u8]) -> Result<bool, Memory>
        ensures ok { IfOk result (λ done. self.new ≡ (if done then pushed end item.now self.old else self.old)) }
        ensures room { IfOk result (λ done. done ≡ small.is_small (length self.old) (length item.now)) }
        ensures err { OnErr result (self.new ≡ self.old) }
    {
        let place = match end {
            End::Left => 0,
            End::Right => self.len(),
        };
        let done = self.insert(place, item)?;
        Ok(done)
    }

    /// Takes the item at an end out, if there is one. Linear in the bytes of the block. Where memory runs out nothing is changed.
    pub(crate) fn pop(&mut self, end: End) -> Result<Option<Blob>, Memory>
        ensures item { IfOk result (λ item. item ≡ item_at (index_of end) self.old) }
        ensures left { OnOk result (self.new ≡ popped end self.old) }
        ensures seen { IfOk result (λ item. seen_from end self.old ≡ option_to_list item ++ seen_from end self.new) }
        ensures none { IfOk result (λ item. IfNone item (length self.old ≡ 0)) }
        ensures err { OnErr result (self.new ≡ self.old) }
    {
        let len = self.len();
        if len == 0 {
            return Ok(None);
        }
        let place = place_from(end, len, 0);
        let item = self.copy_at(place)?;
        self.cut(place, place + 1);
        Ok(Some(item))
    }

    // The item at a place once more.
    fn copy_at(&self, place: usize) -> Result<Blob, Memory>
        requires { place < length self.now }
        ensures { IfOk result (λ item. item ≡ slice_index_or self.now place []) }
    {
        let Some(item) = self.get(place) else {
            unreachable!()
        };
        Ok(Blob::from_slice(self.allocator(), item)?)
    }

    /// The item at an index; an index below 0 counts from the end. Linear in the items in front of it.
    pub(crate) fn item_at(&self, index: i64) -> Option<&[u8]>
        ensures { option_map (λ item. item.now) result ≡ item_at index self.now }
    {
        let place = place(self.len(), index)?;
        self.get(place)
    }

    /// Puts an item in the place of the one at an index, and says whether there is one; `None` where there is, and the item is a long one. An
    /// index below 0 counts from the end. Linear in the bytes of the block. Where memory runs out nothing is changed.
    pub(crate) fn set(&mut self, index: i64, item: &[u8]) -> Result<Option<bool>, Memory>
        ensures found { IfOk result (λ done. IfSome done (λ found. found ≡ is_some (place_of (length self.old) index))) }
        ensures items { IfOk result (λ done. OnSome done (self.new ≡ with_item_at index item.now self.old)) }
        ensures long { IfOk result (λ done. IfNone done (self.new ≡ self.old)) }
        ensures room { IfOk result (λ done. is_some done ≡ (not (is_some (place_of (length self.old) index)) || small.is_small (length self.old - 1) (length item.now))) }
        ensures err { OnErr result (self.new ≡ self.old) }
    {
        let Some(place) = place(self.len(), index) else {
            return Ok(Some(false));
        };
        if self.replace(place, item)? {
            return Ok(Some(true));
        }
        Ok(None)
    }

    /// The items from one index to another, both counted, in order; an index below 0 counts from the end. Linear in the items in front of the
    /// first; what is read is lent.
    pub(crate) fn range(&self, first: i64, last: i64) -> Items<'_>
        ensures { result ≡ range first last self.now }
    {
        let start = start_of(self.len(), first);
        let end = end_of(self.len(), last);
        let (_, behind) = self.items().split_at(start);
        Items::new(Walk::small(behind), end.saturating_sub(start))
    }

    /// Keeps the items from one index to another, both counted; an index below 0 counts from the end. Linear in the bytes of the block.
    pub(crate) fn trim(&mut self, first: i64, last: i64)
        ensures { self.new ≡ range first last self.old }
    {
        let len = self.len();
        let start = start_of(len, first);
        let end = end_of(len, last);
        if end <= start {
            self.cut(0, len);
            return;
        }
        self.cut(end, len);
        self.cut(0, start);
    }

    // The items, lent.
    fn walk(&self) -> Walk<'_>
        ensures { result ≡ self.now }
    {
        Walk::small(self.items())
    }

    /// Puts an item beside the first pivot, and says whether there is one; `None` where there is, and the item is a long one or one more than are
    /// few. Linear in the bytes of the block. Where memory runs out nothing is changed.
    pub(crate) fn insert_beside(
        &mut self,
        side: Side,
        pivot: &[u8],
        item: &[u8],
    ) -> Result<Option<bool>, Memory>
        ensures found { IfOk result (λ done. IfSome done (λ found. found ≡ is_some (pivot_of pivot.now self.old))) }
        ensures ok { IfOk result (λ done. OnSome done (self.new ≡ inserted side pivot.now item.now self.old)) }
        ensures long { IfOk result (λ done. IfNone done (self.new ≡ self.old)) }
        ensures room { IfOk result (λ done. is_some done ≡ (not (is_some (pivot_of pivot.now self.old)) || small.is_small (length self.old) (length item.now))) }
        ensures err { OnErr result (self.new ≡ self.old) }
    {
        let Some(place) = matches::pivot(self.walk(), self.len(), pivot) else {
            return Ok(Some(false));
        };
        if self.insert(beside(side, place), item)? {
            return Ok(Some(true));
        }
        Ok(None)
    }

    /// Takes out as many items with these bytes as a count says, and says how many there were: above 0 from the front, below 0 from the end, and
    /// 0 takes all. Linear in the bytes of the block for each that is taken out.
    pub(crate) fn remove(&mut self, count: i64, bytes: &[u8]) -> usize
        ensures items { self.new ≡ removed count bytes.now self.old }
        ensures count { result + length self.new ≡ length self.old }
        ensures small { result < 2 ^ 63 }
    {
        let most = matches::how_many(count, self.len());
        matches::take_out_of(self, matches::end_of(count), most, bytes)
    }

    /// The places of the items with these bytes, counted from the front, in the order found. Linear in what is looked at.
    #[tactic(auto, using(crate::proofs::Within::places_small))]
    pub(crate) fn positions(
        &self,
        bytes: &[u8],
        rank: i64,
        count: usize,
        most: usize,
    ) -> Result<Vec<usize>, Memory>
        ensures places { IfOk result (λ places. places.items ≡ places_of rank count most bytes.now self.now) }
        ensures small { IfOk result (λ places. All (λ place. place < 2 ^ 63) places.items) }
    {
        matches::places(
            self.allocator(),
            self.walk(),
            self.len(),
            bytes,
            rank,
            count,
            most,
        )
    }

    /// The same items once more. Linear in their bytes.
    pub(crate) fn copy(&self) -> Result<Small, Memory>
        ensures { IfOk result (λ copied. copied ≡ self.now) }
    {
        Ok(Small {
            block: Vec::from_slice(self.allocator(), &self.block)?,
        })
    }
}

// Whether an item is short enough, and the others are few enough, for it to stand in one block with them.
fn is_small(others: usize, item: usize) -> bool
    ensures { result ≡ small.is_small others item }
{
    item <= MOST_LEN && others < MOST_ITEMS
}

// The lengths in a block, and the bytes of the items.
fn parts(block: &[u8]) -> (&[u8], &[u8])
    requires { count_in block.now ≡ length (lens_in block.now) }
    ensures lens { result.0.now ≡ lens_in block.now }
    ensures bytes { result.1.now ≡ rest_in block.now }
{
    match block.split_first() {
        Some((count, others)) => others.split_at(usize::from(*count)),
        None => (&[], &[]),
    }
}

// An item between those in front of it and those behind it.
fn joined(alloc: Global, before: Few<'_>, item: &[u8], behind: Few<'_>) -> Result<Small, Memory>
    requires few { length before + length behind < 255 }
    requires short { length item.now ≤ 255 }
    ensures { IfOk result (λ items. items ≡ before.entry ++ item.now ∷ behind.entry) }
{
    let block = laid(
        alloc,
        before.lens,
        behind.lens,
        before.bytes,
        item,
        behind.bytes,
    )?;
    Ok(Small { block })
}

// A block of an item's length and its bytes between those in front of them and those behind them, with room for no more.
fn laid(
    alloc: Global,
    lens_before: &[u8],
    lens_behind: &[u8],
    before: &[u8],
    item: &[u8],
    behind: &[u8],
) -> Result<Vec<u8>, Memory>
    requires few { length lens_before.now + length lens_behind.now < 255 }
    requires short { length item.now ≤ 255 }
    ensures { IfOk result (λ block. block.items
        ≡ (length lens_before.now + 1 + length lens_behind.now) ∷ (lens_before.now ++ (length item.now ∷ (lens_behind.now ++ (before.now ++ (item.now ++ behind.now)))))) }
{
    let count = lens_before.len() + 1 + lens_behind.len();
    let len = before.len().saturating_add(behind.len());
    let mut block = Vec::with_capacity(alloc, len.saturating_add(1 + count + item.len()))?;
    block.push(count as u8)?;
    block.extend_from_slice(lens_before)?;
    block.push(item.len() as u8)?;
    block.extend_from_slice(lens_behind)?;
    block.extend_from_slice(before)?;
    block.extend_from_slice(item)?;
    block.extend_from_slice(behind)?;
    Ok(block)
}

// Writes an item over another of as many bytes.
fn write(block: &mut Vec<u8>, place: usize, item: &[u8])
    requires laid { IsLaid block.old.items }
    requires place { place < length (small.held_in block.old.items) }
    requires same { length (slice_index_or (small.held_in block.old.items) place []) ≡ length item.now }
    ensures laid { IsLaid block.new.items }
    ensures items { small.held_in block.new.items ≡ slice_set (small.held_in block.old.items) place item.now }
{
    let (lens, bytes) = parts(block);
    let start = 1 + lens.len() + offset(lens, bytes.len(), place);
    write_at(block, start, item);
}

fn write_at(bytes: &mut Vec<u8>, start: usize, item: &[u8])
    requires { start + length item.now ≤ length bytes.old.items }
    ensures { bytes.new.items ≡ take start bytes.old.items ++ (item.now ++ drop (start + length item.now) bytes.old.items) }
{
    bytes[start..start + item.len()].copy_from_slice(item);
}

// Takes the items of a range out of a block, and lets go of their room.
fn take_out(block: &mut Vec<u8>, start: usize, end: usize)
    requires laid { IsLaid block.old.items }
    requires range { start < end }
    requires within { end ≤ length (lens_in block.old.items) }
    ensures laid { IsLaid block.new.items }
    ensures items { small.held_in block.new.items ≡ take start (small.held_in block.old.items) ++ drop end (small.held_in block.old.items) }
{
    let (lens, bytes) = parts(block);
    let count = lens.len();
    let from = offset(lens, bytes.len(), start);
    let to = offset(lens, bytes.len(), end);
    block[0] = (count - (end - start)) as u8;
    remove_range(block, 1 + count + from, 1 + count + to);
    remove_range(block, 1 + start, 1 + end);
    block.shrink_to_fit();
}

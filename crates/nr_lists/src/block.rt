// A block of a list: a few short items in one piece of bytes, or one item of any length.
ghost use Rattle.std.specs.Prelude.{◌≡◌, ℕ, ◌≤◌, ◌<◌, ◌+◌, ◌-◌, ◌^◌, ◌++◌, [], ◌∷◌, length, take, drop, slice_get, slice_set, slice_index_or, Some, IfOk, OnOk, OnErr, IsTrue, if◌then◌else◌, IsSome};
ghost use Rattle.std.specs.List.{insert};
ghost use Rattle.std.specs.Option.{option_map};
ghost use Rattle.nr_model.specs.Bytes.{Bytes};
ghost use Rattle.nr_lists.specs.Packed as packed;
ghost use Rattle.nr_lists.specs.Packed.{joined, total, lens_of, cut, items_in, IsWhole};

use crate::buffer::Buffer;
use crate::items::BlockItems;
use nr_blob::{Blob, Bytes, Memory, remove_range};
use std::alloc::Global;
use std::marker::Model;

/// The most bytes of an item that stands in a block with others.
pub(crate) const MOST_LEN: usize = 1024;

/// The most bytes of a block that one more item is put in with.
const MOST_BYTES: usize = 4096;

/// The most items in a block: what a call costs is bounded by these three.
const MOST_ITEMS: usize = 256;

/// One item or more. They are seen as a list of byte lists.
#[derive(Debug, Drop)]
pub(crate) struct Block {
    // The items' lengths. That of a lone item may be left out.
    lens: Vec<u16>,
    bytes: Buffer,
}

impl Model for Block {
    ghost use Rattle.std.specs.Prelude.{List};
    ghost use Rattle.nr_model.specs.Bytes.{Bytes};
    ghost use Rattle.nr_lists.specs.Packed.{items_in, IsWhole};

    ghost Value = { List Bytes };

    ghost view = { λ block. items_in block.lens.items block.bytes };

    ghost invariant = { λ block. IsWhole block.lens.items block.bytes };
}

impl Block {
    /// A lone item. Where it stands in a block of memory its bytes are not copied.
    pub(crate) fn new(alloc: Global, item: Blob) -> Result<Block, Memory>
        ensures { IfOk result (λ block. block ≡ item ∷ []) }
    {
        let bytes = Bytes::from(item).into_vec()?;
        Ok(Block {
            lens: Vec::new(alloc),
            bytes: Buffer::new(bytes),
        })
    }

    /// How many items. Constant.
    pub(crate) fn len(&self) -> usize
        ensures len { result ≡ length self.now }
        ensures some { 0 < result }
        ensures small { result < 2 ^ 63 }
    {
        count(&self.lens)
    }

    /// The item at a place. Linear in the items in front of it or behind it.
    pub(crate) fn get(&self, place: usize) -> Option<&[u8]>
        ensures { option_map (λ item. item.now) result ≡ slice_get self.now place }
    {
        if self.lens.is_empty() {
            return if place == 0 {
                Some(self.bytes.bytes())
            } else {
                None
            };
        }
        item_at(&self.lens, self.bytes.bytes(), place)
    }

    /// Puts an item in at a place, and says whether it was done: a block with room for no more stays as it is. Linear in the bytes behind it
    /// and in front of it, and at an end in those of the item, but for growth. Where memory runs out nothing is changed.
    pub(crate) fn insert(&mut self, place: usize, item: &[u8]) -> Result<bool, Memory>
        requires { place ≤ length self.old }
        ensures ok { IfOk result (λ done. self.new ≡ (if done then insert self.old place item.now else self.old)) }
        ensures room { IfOk result (λ done. done ≡ packed.has_room (length self.old) (length (joined self.old)) (length item.now)) }
        ensures err { OnErr result (self.new ≡ self.old) }
    {
        if !has_room(self.len(), self.bytes.len(), item.len()) {
            return Ok(false);
        }
        put_in(&mut self.lens, &mut self.bytes, place, item)?;
        Ok(true)
    }

    /// Puts an item in the place of another, and says whether it was done: a block with no room for it stays as it is. Linear in the items, and
    /// in the item where the other has as many bytes, else in the bytes of the block. Where memory runs out nothing is changed.
    pub(crate) fn replace(&mut self, place: usize, item: &[u8]) -> Result<bool, Memory>
        requires { place < length self.old }
        ensures ok { IfOk result (λ done. self.new ≡ (if done then slice_set self.old place item.now else self.old)) }
        ensures room { IfOk result (λ done. done ≡ packed.has_room (length self.old - 1) (length (joined self.old)) (length item.now)) }
        ensures err { OnErr result (self.new ≡ self.old) }
    {
        if !has_room(self.len() - 1, self.bytes.len(), item.len()) {
            return Ok(false);
        }
        put_over(&mut self.lens, &mut self.bytes, place, item)?;
        Ok(true)
    }

    /// Takes the first item out, where others are left. Linear in it. Where memory runs out nothing is changed.
    pub(crate) fn take_first(&mut self, alloc: Global) -> Result<Blob, Memory>
        requires { 1 < length self.old }
        ensures ok { IfOk result (λ item. self.old ≡ item ∷ self.new) }
        ensures err { OnErr result (self.new ≡ self.old) }
    {
        let item = copy_of(alloc, self.get(0))?;
        self.cut(0, 1);
        Ok(item)
    }

    /// Takes the last item out, where others are left. Linear in it. Where memory runs out nothing is changed.
    pub(crate) fn take_last(&mut self, alloc: Global) -> Result<Blob, Memory>
        requires { 1 < length self.old }
        ensures ok { IfOk result (λ item. self.old ≡ self.new ++ item ∷ []) }
        ensures err { OnErr result (self.new ≡ self.old) }
    {
        let len = self.len();
        let item = copy_of(alloc, self.get(len - 1))?;
        self.cut(len - 1, len);
        Ok(item)
    }

    /// Takes the items of a range out, where others are left. Linear in the items and the bytes of the block, and at an end in those that go.
    pub(crate) fn cut(&mut self, start: usize, end: usize)
        requires range { start ≤ end }
        requires within { end ≤ length self.old }
        requires left { end - start < length self.old }
        ensures { self.new ≡ take start self.old ++ drop end self.old }
    {
        if start < end {
            take_out(&mut self.lens, &mut self.bytes, start, end);
        }
    }

    /// The items from a place on once more. Linear in them and their bytes.
    pub(crate) fn copy_from(&self, place: usize) -> Result<Block, Memory>
        requires { place < length self.now }
        ensures { IfOk result (λ block. block ≡ drop place self.now) }
    {
        let alloc = *self.lens.allocator();
        let (lens, bytes) = split_at(&self.lens, self.bytes.bytes(), place);
        let lens = Vec::from_slice(alloc, lens)?;
        let bytes = Vec::from_slice(alloc, bytes)?;
        Ok(Block {
            lens,
            bytes: Buffer::new(bytes),
        })
    }

    /// The same items once more. Linear in them and their bytes.
    pub(crate) fn copy(&self) -> Result<Block, Memory>
        ensures { IfOk result (λ copied. copied ≡ self.now) }
    {
        Ok(Block {
            lens: Vec::from_slice(*self.lens.allocator(), &self.lens)?,
            bytes: Buffer::new(Vec::from_slice(*self.lens.allocator(), self.bytes.bytes())?),
        })
    }

    /// The items from a place on, lent.
    pub(crate) fn items_from(&self, place: usize) -> BlockItems<'_>
        requires { place < length self.now }
        ensures { result ≡ drop place self.now }
    {
        let (lens, bytes) = split_at(&self.lens, self.bytes.bytes(), place);
        BlockItems::new(lens, bytes)
    }

    /// All items, lent.
    pub(crate) fn items(&self) -> BlockItems<'_>
        ensures items { result ≡ self.now }
        ensures some { 0 < length self.now }
    {
        BlockItems::new(&self.lens, self.bytes.bytes())
    }

    /// Lets go of the room that is free.
    pub(crate) fn shrink(&mut self)
        ensures { self.new ≡ self.old }
    {
        self.lens.shrink_to_fit();
        self.bytes.shrink();
    }

    /// The item of a block that has no other, without a copy of a block of memory.
    pub(crate) fn into_item(self) -> Blob
        requires { length self ≡ 1 }
        ensures { self ≡ result ∷ [] }
    {
        let Block { lens: _lens, bytes } = self;
        Blob::from(bytes.into_vec())
    }
}

// The bytes of an item once more, which is there.
fn copy_of(alloc: Global, item: Option<&[u8]>) -> Result<Blob, Memory>
    requires { IsSome item }
    ensures { IfOk result (λ copied. option_map (λ item. item.now) item.entry ≡ Some copied) }
{
    let Some(item) = item else { unreachable!() };
    Ok(Blob::from_slice(alloc, item)?)
}

// How many items have these lengths.
fn count(lens: &[u16]) -> usize
    ensures count { (n : ℕ) → result ≡ length (lens_of lens.now n) }
    ensures some { 0 < result }
    ensures small { result < 2 ^ 63 }
{
    if lens.is_empty() { 1 } else { lens.len() }
}

// Whether one more item has room.
fn has_room(items: usize, bytes: usize, item: usize) -> bool
    ensures { result ≡ packed.has_room items bytes item }
{
    let most_bytes = if items <= 1 { MOST_LEN } else { MOST_BYTES };
    item <= MOST_LEN && items < MOST_ITEMS && bytes <= most_bytes
}

// The sum of lengths.
fn total(lens: &[u16]) -> usize
    requires { total lens.now < 2 ^ 63 }
    ensures { result ≡ total lens.now }
{
    let mut total = 0;
    for len in lens {
        total += usize::from(*len);
    }
    total
}

// How many of so many bytes are in front of an item.
fn offset(lens: &[u16], bytes: usize, place: usize) -> usize
    requires place { place ≤ length lens.now }
    requires whole { total (lens_of lens.now bytes) ≡ bytes }
    requires small { bytes < 2 ^ 63 }
    ensures offset { result ≡ total (take place lens.now) }
    ensures within { result ≤ bytes }
{
    let (before, behind) = lens.split_at(place);
    if before.len() <= behind.len() {
        total(before)
    } else {
        bytes - total(behind)
    }
}

// The item at a place, of items whose lengths all stand.
fn item_at<'a>(lens: &[u16], bytes: &'a [u8], place: usize) -> Option<&'a [u8]>
    requires { total lens.now ≡ length bytes.now }
    ensures { option_map (λ item. item.now) result ≡ slice_get (cut lens.now bytes.now) place }
{
    if place >= lens.len() {
        return None;
    }
    let (_, behind) = bytes.split_at(offset(lens, bytes.len(), place));
    let (item, _) = behind.split_at(usize::from(lens[place]));
    Some(item)
}

// The lengths and the bytes of the items from a place on.
fn split_at<'a>(lens: &'a [u16], bytes: &'a [u8], place: usize) -> (&'a [u16], &'a [u8])
    requires whole { IsWhole lens.now bytes.now }
    requires place { place < length (items_in lens.now bytes.now) }
    ensures whole { IsWhole result.0.now result.1.now }
    ensures items { items_in result.0.now result.1.now ≡ drop place (items_in lens.now bytes.now) }
{
    let (_, behind) = bytes.split_at(offset(lens, bytes.len(), place));
    let (_, lens) = lens.split_at(place);
    (lens, behind)
}

// Lets the length of a lone item stand too.
fn write_out(lens: &mut Vec<u16>, bytes: usize) -> Result<(), Memory>
    requires { bytes < 2 ^ 16 }
    ensures ok { OnOk result (lens.new.items ≡ lens_of lens.old.items bytes) }
    ensures err { OnErr result (lens.new.items ≡ lens.old.items) }
{
    if lens.is_empty() {
        lens.reserve_exact(2)?;
        lens.push(bytes as u16)?;
    }
    Ok(())
}

// Puts an item in at a place.
fn put_in(lens: &mut Vec<u16>, bytes: &mut Buffer, place: usize, item: &[u8]) -> Result<(), Memory>
    requires whole { IsWhole lens.old.items bytes.old }
    requires place { place ≤ length (items_in lens.old.items bytes.old) }
    requires short { length item.now < 2 ^ 16 }
    requires few { length bytes.old < 2 ^ 16 }
    ensures whole { IsWhole lens.new.items bytes.new }
    ensures ok { OnOk result (items_in lens.new.items bytes.new ≡ insert (items_in lens.old.items bytes.old) place item.now) }
    ensures err { OnErr result (items_in lens.new.items bytes.new ≡ items_in lens.old.items bytes.old) }
{
    write_out(lens, bytes.len())?;
    lens.reserve(1)?;
    let start = offset(lens, bytes.len(), place);
    bytes.insert(start, item)?;
    lens.insert(place, item.len() as u16)?;
    Ok(())
}

// Puts an item in the place of another.
fn put_over(
    lens: &mut Vec<u16>,
    bytes: &mut Buffer,
    place: usize,
    item: &[u8],
) -> Result<(), Memory>
    requires whole { IsWhole lens.old.items bytes.old }
    requires place { place < length (items_in lens.old.items bytes.old) }
    requires counted { place + 1 < 2 ^ 64 }
    requires short { length item.now < 2 ^ 16 }
    requires few { length bytes.old < 2 ^ 16 }
    ensures whole { IsWhole lens.new.items bytes.new }
    ensures ok { OnOk result (items_in lens.new.items bytes.new ≡ slice_set (items_in lens.old.items bytes.old) place item.now) }
    ensures err { OnErr result (items_in lens.new.items bytes.new ≡ items_in lens.old.items bytes.old) }
{
    write_out(lens, bytes.len())?;
    let start = offset(lens, bytes.len(), place);
    let end = offset(lens, bytes.len(), place + 1);
    bytes.replace(start, end, item)?;
    lens[place] = item.len() as u16;
    Ok(())
}

// Takes the items of a range out.
fn take_out(lens: &mut Vec<u16>, bytes: &mut Buffer, start: usize, end: usize)
    requires whole { IsWhole lens.old.items bytes.old }
    requires range { start < end }
    requires within { end ≤ length (items_in lens.old.items bytes.old) }
    requires left { end - start < length (items_in lens.old.items bytes.old) }
    ensures whole { IsWhole lens.new.items bytes.new }
    ensures items { items_in lens.new.items bytes.new
        ≡ take start (items_in lens.old.items bytes.old) ++ drop end (items_in lens.old.items bytes.old) }
{
    let from = offset(lens, bytes.len(), start);
    let to = offset(lens, bytes.len(), end);
    bytes.remove(from, to);
    remove_range(lens, start, end);
}

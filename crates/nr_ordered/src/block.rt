// A block: a few items in three pieces of memory.
ghost use Rattle.std.specs.Prelude.{◌≡◌, ◌+◌, ◌-◌, ◌≤◌, ◌<◌, ◌^◌, ◌++◌, ◌∷◌, [], cond, length, take, drop, map, filter, find, slice_get, slice_range, slice_set, vec_len, vec_capacity, Some, IfOk, OnOk, OnErr};
ghost use Rattle.std.specs.List.{insert};
ghost use Rattle.std.specs.Option.{option_map};
ghost use Rattle.nr_model.specs.SortedSets.{told_in};
ghost use Rattle.nr_ordered.specs.Lists.{Item, IsParted, front, part, shown, renumbered, told_place};
ghost use Rattle.nr_ordered.specs.Blocks.{lens_in, items_in, total, IsWhole, IsBlock};

use crate::lens::Lens;
use crate::room::{put_bytes, put_reserved, reserve_few, take_out};
use crate::tree::{Cut, Test};
use nr_blob::Memory;
use nr_model::command::Direction;
use std::alloc::Global;
use std::marker::Model;

/// The most items in a block.
pub(crate) const MOST_ITEMS: usize = 32;

/// One item or more, at most 32. They are seen as a list of bytes with numbers.
#[derive(Drop)]
pub(crate) struct Block {
    numbers: Vec<i64>,
    lens: Lens,
    bytes: Vec<u8>,
}

impl Model for Block {
    ghost use Rattle.std.specs.Prelude.{List};
    ghost use Rattle.nr_ordered.specs.Lists.{Item};
    ghost use Rattle.nr_ordered.specs.Blocks.{lens_in, items_in, IsBlock};

    ghost Value = { List Item };

    ghost view = { λ block. items_in (lens_in block.lens) block.bytes.items block.numbers.items };

    ghost invariant = { λ block. IsBlock (lens_in block.lens) block.bytes.items block.numbers.items };
}

impl Block {
    /// A lone item.
    pub(crate) fn new(alloc: Global, bytes: &[u8], number: i64) -> Result<Block, Memory>
        ensures { IfOk result (λ block. block ≡ (bytes.now, number) ∷ []) }
    {
        let lens = Lens::one(alloc, bytes.len())?;
        let bytes = Vec::from_slice(alloc, bytes)?;
        let numbers = Vec::from_slice(alloc, &[number])?;
        Ok(Block {
            numbers,
            lens,
            bytes,
        })
    }

    /// How many items. Constant.
    #[inline(always)]
    pub(crate) fn len(&self) -> usize
        ensures len { result ≡ length self.now }
        ensures some { 0 < result }
        ensures few { result ≤ 32 }
    {
        self.numbers.len()
    }

    /// The item at a place. It adds up the lengths of at most 16 others.
    pub(crate) fn get(&self, place: usize) -> Option<(&[u8], i64)>
        ensures { option_map shown result ≡ slice_get self.now place }
    {
        if place >= self.len() {
            return None;
        }
        Some(item_at(&self.lens, &self.bytes, &self.numbers, place))
    }

    /// How many items stand in front of a cut, where all of them stand before the others. At most 34 comparisons.
    pub(crate) fn find<C: Cut>(&self, cut: &C) -> usize
        ensures place { IsParted (C.parts cut.now) self.now → result ≡ length (filter (C.parts cut.now) self.now) }
        ensures within { result ≤ length self.now }
    {
        let len = self.len();
        if !self.is_in_front(cut, 0) {
            return 0;
        }
        if self.is_in_front(cut, len - 1) {
            return len;
        }
        self.scan(cut)
    }

    /// Whether the item at a place stands in front of a cut.
    pub(crate) fn is_in_front<C: Cut>(&self, cut: &C, place: usize) -> bool
        requires { place < length self.now }
        ensures { (item : Item) × (slice_get self.now place ≡ Some item) × (result ≡ C.parts cut.now item) }
    {
        let Some((bytes, number)) = self.get(place) else {
            unreachable!()
        };
        cut.is_behind(bytes, number)
    }

    // How many items stand in front of the first that doesn't stand in front of a cut.
    fn scan<C: Cut>(&self, cut: &C) -> usize
        ensures { result ≡ front (C.parts cut.now) self.now }
    {
        scan(&self.lens, &self.bytes, &self.numbers, cut)
    }

    /// How many items pass a test.
    pub(crate) fn count<T: Test>(&self, test: &T) -> usize
        ensures count { result ≡ length (filter (T.passing test.now) self.now) }
        ensures within { result ≤ length self.now }
    {
        count_in(&self.lens, &self.bytes, &self.numbers, test)
    }

    /// The first item that passes a test.
    pub(crate) fn first<T: Test>(&self, test: &T) -> Option<(&[u8], i64)>
        ensures { option_map shown result ≡ find (T.passing test.now) self.now }
    {
        first_in(&self.lens, &self.bytes, &self.numbers, test)
    }

    /// Puts an item in at a place. Linear in the bytes behind it. Where memory runs out nothing is changed.
    pub(crate) fn insert(&mut self, place: usize, bytes: &[u8], number: i64) -> Result<(), Memory>
        requires place { place ≤ length self.old }
        requires room { length self.old < 32 }
        ensures ok { OnOk result (self.new ≡ insert self.old place (bytes.now, number)) }
        ensures err { OnErr result (self.new ≡ self.old) }
    {
        put_in(
            &mut self.lens,
            &mut self.bytes,
            &mut self.numbers,
            place,
            bytes,
            number,
        )
    }

    /// Takes the items from one place to another out, where others are left. Linear in the bytes behind them.
    pub(crate) fn cut(&mut self, from: usize, to: usize)
        requires range { from ≤ to }
        requires within { to ≤ length self.old }
        requires left { to < length self.old + from }
        ensures { self.new ≡ take from self.old ++ drop to self.old }
    {
        take_items(&mut self.lens, &mut self.bytes, &mut self.numbers, from, to);
    }

    /// The items from one place to another once more, with room for no more.
    pub(crate) fn part(&self, alloc: Global, from: usize, to: usize) -> Result<Block, Memory>
        requires range { from < to }
        requires within { to ≤ length self.now }
        ensures { IfOk result (λ block. block ≡ slice_range self.now from to) }
    {
        part_of(alloc, &self.lens, &self.bytes, &self.numbers, from, to)
    }

    /// Gives the item at a place another number.
    pub(crate) fn set(&mut self, place: usize, number: i64)
        requires { place < length self.old }
        ensures { self.new ≡ renumbered self.old place number }
    {
        set_number(&mut self.numbers, place, number);
    }

    /// The same items once more.
    pub(crate) fn copy(&self, alloc: Global) -> Result<Block, Memory>
        ensures { IfOk result (λ copied. copied ≡ self.now) }
    {
        self.part(alloc, 0, self.len())
    }

    /// Lends the items from one place to another, both counted as they are told in a direction, into a vector with room for them.
    pub(crate) fn lend<'t>(
        &'t self,
        direction: Direction,
        from: usize,
        to: usize,
        lent: &mut Vec<(&'t [u8], i64)>,
    )
        requires room { vec_len lent.old + length (part from to (told_in direction self.now)) ≤ vec_capacity lent.old }
        ensures items { map shown lent.new.items ≡ map shown lent.old.items ++ part from to (told_in direction self.now) }
        ensures len { vec_len lent.new ≡ vec_len lent.old + length (part from to (told_in direction self.now)) }
        ensures capacity { vec_capacity lent.new ≡ vec_capacity lent.old }
    {
        let len = self.len();
        for place in from..to.min(len) {
            lend_one(self, told_place(direction, place, len), lent);
        }
    }
}

// The item at a place, which is there.
fn item_at<'a>(lens: &Lens, bytes: &'a [u8], numbers: &[i64], place: usize) -> (&'a [u8], i64)
    requires whole { IsWhole (lens_in lens.now) bytes.now numbers.now }
    requires within { place < length numbers.now }
    ensures { slice_get (items_in (lens_in lens.now) bytes.now numbers.now) place ≡ Some (shown result) }
{
    let start = offset(lens, bytes.len(), numbers.len(), place);
    let (_, behind) = bytes.split_at(start);
    let (item, _) = behind.split_at(lens.at(place));
    (item, number_at(numbers, place))
}

// How many of so many bytes of items are in front of one: the lengths on the side with fewer are added up.
fn offset(lens: &Lens, bytes: usize, count: usize, place: usize) -> usize
    requires whole { total (lens_in lens.now) ≡ bytes }
    requires small { bytes < 2 ^ 63 }
    requires count { count ≡ length (lens_in lens.now) }
    requires within { place ≤ count }
    ensures offset { result ≡ total (take place (lens_in lens.now)) }
    ensures within { result ≤ bytes }
{
    if place <= count - place {
        lens.before(place)
    } else {
        bytes - lens.behind(place)
    }
}

// How many items stand in front of the first that doesn't stand in front of a cut.
fn scan<C: Cut>(lens: &Lens, bytes: &[u8], numbers: &[i64], cut: &C) -> usize
    requires { IsWhole (lens_in lens.now) bytes.now numbers.now }
    ensures { result ≡ front (C.parts cut.now) (items_in (lens_in lens.now) bytes.now numbers.now) }
{
    let mut rest = bytes;
    for place in 0..numbers.len() {
        let (item, behind) = rest.split_at(lens.at(place));
        if !cut.is_behind(item, number_at(numbers, place)) {
            return place;
        }
        rest = behind;
    }
    numbers.len()
}

// How many items pass a test.
fn count_in<T: Test>(lens: &Lens, bytes: &[u8], numbers: &[i64], test: &T) -> usize
    requires { IsWhole (lens_in lens.now) bytes.now numbers.now }
    ensures count { result ≡ length (filter (T.passing test.now) (items_in (lens_in lens.now) bytes.now numbers.now)) }
    ensures within { result ≤ length (items_in (lens_in lens.now) bytes.now numbers.now) }
{
    let mut rest = bytes;
    let mut count = 0;
    for place in 0..numbers.len() {
        let (item, behind) = rest.split_at(lens.at(place));
        count = count_with(count, test.passes(item, number_at(numbers, place)));
        rest = behind;
    }
    count
}

// The first item that passes a test.
fn first_in<'a, T: Test>(
    lens: &Lens,
    bytes: &'a [u8],
    numbers: &[i64],
    test: &T,
) -> Option<(&'a [u8], i64)>
    requires { IsWhole (lens_in lens.now) bytes.now numbers.now }
    ensures { option_map shown result ≡ find (T.passing test.now) (items_in (lens_in lens.now) bytes.now numbers.now) }
{
    let mut rest = bytes;
    for place in 0..numbers.len() {
        let (item, behind) = rest.split_at(lens.at(place));
        let number = number_at(numbers, place);
        if test.passes(item, number) {
            return Some((item, number));
        }
        rest = behind;
    }
    None
}

// So many, and one more where it passes.
#[inline(always)]
fn count_with(count: usize, passes: bool) -> usize
    requires { count + 1 < 2 ^ 64 }
    ensures { result ≡ count + cond passes 1 0 }
{
    if passes { count + 1 } else { count }
}

// The number at a place.
#[inline(always)]
fn number_at(numbers: &[i64], place: usize) -> i64
    requires { place < length numbers.now }
    ensures { slice_get numbers.now place ≡ Some result }
{
    numbers[place]
}

fn set_number(numbers: &mut Vec<i64>, place: usize, number: i64)
    requires { place < length numbers.old.items }
    ensures { numbers.new.items ≡ slice_set numbers.old.items place number }
{
    numbers[place] = number;
}

// Takes the items from one place to another out.
fn take_items(lens: &mut Lens, bytes: &mut Vec<u8>, numbers: &mut Vec<i64>, from: usize, to: usize)
    requires block { IsBlock (lens_in lens.old) bytes.old.items numbers.old.items }
    requires range { from ≤ to }
    requires within { to ≤ length (items_in (lens_in lens.old) bytes.old.items numbers.old.items) }
    requires left { to < length (items_in (lens_in lens.old) bytes.old.items numbers.old.items) + from }
    ensures block { IsBlock (lens_in lens.new) bytes.new.items numbers.new.items }
    ensures items { items_in (lens_in lens.new) bytes.new.items numbers.new.items
        ≡ take from (items_in (lens_in lens.old) bytes.old.items numbers.old.items)
        ++ drop to (items_in (lens_in lens.old) bytes.old.items numbers.old.items) }
{
    let start = offset(lens, bytes.len(), numbers.len(), from);
    let end = offset(lens, bytes.len(), numbers.len(), to);
    lens.cut(from, to);
    take_out(bytes, start, end);
    take_out(numbers, from, to);
}

// The items from one place to another once more.
fn part_of(
    alloc: Global,
    lens: &Lens,
    bytes: &[u8],
    numbers: &[i64],
    from: usize,
    to: usize,
) -> Result<Block, Memory>
    requires block { IsBlock (lens_in lens.now) bytes.now numbers.now }
    requires range { from < to }
    requires within { to ≤ length (items_in (lens_in lens.now) bytes.now numbers.now) }
    ensures { IfOk result (λ block. block ≡ slice_range (items_in (lens_in lens.now) bytes.now numbers.now) from to) }
{
    let start = offset(lens, bytes.len(), numbers.len(), from);
    let end = offset(lens, bytes.len(), numbers.len(), to);
    let lens = lens.part(alloc, from, to)?;
    let bytes = Vec::from_slice(alloc, between(bytes, start, end))?;
    let numbers = Vec::from_slice(alloc, between(numbers, from, to))?;
    Ok(Block {
        numbers,
        lens,
        bytes,
    })
}

// Those from one place to another.
fn between<T>(held: &[T], from: usize, to: usize) -> &[T]
    requires range { from ≤ to }
    requires within { to ≤ length held.now }
    ensures { result.now ≡ slice_range held.now from to }
{
    let (front, _) = held.split_at(to);
    let (_, rest) = front.split_at(from);
    rest
}

// Puts an item in at a place.
fn put_in(
    lens: &mut Lens,
    bytes: &mut Vec<u8>,
    numbers: &mut Vec<i64>,
    place: usize,
    item: &[u8],
    number: i64,
) -> Result<(), Memory>
    requires block { IsBlock (lens_in lens.old) bytes.old.items numbers.old.items }
    requires place { place ≤ length (items_in (lens_in lens.old) bytes.old.items numbers.old.items) }
    requires room { length (items_in (lens_in lens.old) bytes.old.items numbers.old.items) < 32 }
    ensures block { IsBlock (lens_in lens.new) bytes.new.items numbers.new.items }
    ensures ok { OnOk result (items_in (lens_in lens.new) bytes.new.items numbers.new.items
        ≡ insert (items_in (lens_in lens.old) bytes.old.items numbers.old.items) place (item.now, number)) }
    ensures err { OnErr result (items_in (lens_in lens.new) bytes.new.items numbers.new.items
        ≡ items_in (lens_in lens.old) bytes.old.items numbers.old.items) }
{
    lens.reserve(item.len())?;
    reserve_few(numbers)?;
    let start = offset(lens, bytes.len(), numbers.len(), place);
    put_bytes(bytes, start, item)?;
    lens.insert(place, item.len());
    put_reserved(numbers, place, number);
    Ok(())
}

// Lends the item at a place.
fn lend_one<'t>(block: &'t Block, place: usize, lent: &mut Vec<(&'t [u8], i64)>)
    requires within { place < length block.now }
    requires room { vec_len lent.old < vec_capacity lent.old }
    ensures item { (item : Item) × (slice_get block.now place ≡ Some item) × (map shown lent.new.items ≡ map shown lent.old.items ++ item ∷ []) }
    ensures len { vec_len lent.new ≡ vec_len lent.old + 1 }
    ensures capacity { vec_capacity lent.new ≡ vec_capacity lent.old }
{
    let Some(item) = block.get(place) else {
        unreachable!()
    };
    lent.push_reserved(item);
}

// The place of what is told at another, among so many.
fn told_place(direction: Direction, place: usize, len: usize) -> usize
    requires { place < len }
    ensures { result ≡ told_place direction place len }
{
    match direction {
        Direction::Ascending => place,
        Direction::Descending => len - 1 - place,
    }
}

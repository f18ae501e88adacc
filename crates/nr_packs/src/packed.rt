// A few short pairs in one block: each field, then its value, each with its length in the byte in front of it, by the fields' byte order.
ghost use Rattle.std.specs.Prelude.{◌≡◌, ◌≢◌, ◌≤◌, ◌<◌, ◌+◌, ◌^◌, ◌++◌, [], true, false, Some, length, take, drop, IfOk, OnOk, IfSome, OnSome, IfNone, OnErr, is_some, is_none, if◌then◌else◌, IsTrue};
ghost use Rattle.std.specs.Option.{option_map};
ghost use Rattle.std.specs.Map.{lookup, remove_entry};
ghost use Rattle.std.specs.BTreeMap.{insert_entry, is_at};
ghost use Rattle.nr_model.specs.Bytes.{Bytes};
ghost use Rattle.nr_model.specs.Keyspace.{byte_cmp};
ghost use Rattle.nr_packs.specs.Packed as packed;
ghost use Rattle.nr_packs.specs.Packed.{packed, word, entries_in, IsPacked};
ghost use Rattle.nr_packs.specs.Placed.{below, from, past, value_first};
ghost use Rattle.nr_packs.specs.Orders.{AreInOrder};

use crate::block::Block;
use nr_blob::{Memory, compare};
use std::alloc::Global;
use std::marker::Model;

mod places;

/// The most pairs in a block: what a call costs is bounded by it.
const MOST_PAIRS: usize = 512;

/// A few short pairs. They are seen as a list of fields with their values.
#[derive(Debug, Drop)]
pub struct Packed {
    block: Block,
}

impl Model for Packed {
    ghost use Rattle.std.specs.Prelude.{List};
    ghost use Rattle.nr_model.specs.Bytes.{Bytes};
    ghost use Rattle.nr_packs.specs.Packed.{entries_in, IsPacked};

    ghost Value = { List (Bytes × Bytes) };

    ghost view = { λ packed. entries_in packed.block.1 };

    ghost invariant = { λ packed. IsPacked packed.block.0 packed.block.1 };
}

impl Packed {
    /// No pairs. They take no memory.
    pub fn new(alloc: Global) -> Packed
        ensures { result ≡ [] }
    {
        Packed {
            block: Block::new(alloc),
        }
    }

    /// How many pairs. Constant.
    pub fn len(&self) -> usize
        ensures len { result ≡ length self.now }
        ensures few { result ≤ 512 }
    {
        self.block.count()
    }

    /// Their bytes.
    pub fn bytes(&self) -> &[u8]
        ensures entries { entries_in result.now ≡ self.now }
        ensures packed { IsPacked (length self.now) result.now }
    {
        self.block.pairs()
    }

    /// So many pairs, in their bytes. Takes no more room than they do.
    pub(crate) fn of(alloc: Global, pairs: usize, bytes: &[u8]) -> Result<Packed, Memory>
        requires { IsPacked pairs bytes.now }
        ensures { IfOk result (λ packed. packed ≡ entries_in bytes.now) }
    {
        Ok(Packed {
            block: Block::of(alloc, pairs, bytes)?,
        })
    }

    /// The value at a field.
    pub fn get(&self, field: &[u8]) -> Option<&[u8]>
        requires { AreInOrder self.now }
        ensures { option_map (λ value. value.now) result ≡ lookup (is_at (byte_cmp field.now)) self.now }
    {
        place_of(self.block.pairs(), field).value
    }

    /// Puts a value at a field, in the place of the one that was there, and says whether the field is new; `None` where there would be more than
    /// 512 pairs, or the field or the value has more than `most` bytes. A value with as many bytes is written where the one before stands, and takes
    /// no memory. Where memory runs out nothing is changed.
    pub fn insert(
        &mut self,
        alloc: Global,
        field: &[u8],
        value: &[u8],
        most: usize,
    ) -> Result<Option<bool>, Memory>
        requires order { AreInOrder self.old }
        requires most { most ≤ 255 }
        ensures new { IfOk result (λ done. IfSome done (λ is_new. is_new ≡ is_none (lookup (is_at (byte_cmp field.now)) self.old))) }
        ensures put { IfOk result (λ done. OnSome done (self.new ≡ insert_entry byte_cmp self.old field.now value.now)) }
        ensures refused { IfOk result (λ done. IfNone done (self.new ≡ self.old)) }
        ensures room { IfOk result (λ done. is_some done ≡ packed.fits most (length (insert_entry byte_cmp self.old field.now value.now)) field.now value.now) }
        ensures err { OnErr result (self.new ≡ self.old) }
    {
        let place = place_of(self.block.pairs(), field);
        let is_new = place.value.is_none();
        let count = count_with(self.block.count(), is_new);
        if !fits(most, count, field, value) {
            return Ok(None);
        }
        if has_length(place.value, value.len()) {
            let start = place.before.len() + field.len() + 2;
            self.block.write(start, value);
            return Ok(Some(false));
        }
        let block = Block::joined(alloc, count, place.before, field, value, place.after)?;
        self.block = block;
        Ok(Some(is_new))
    }

    /// Takes a field out, and says whether it was there.
    pub fn remove(&mut self, field: &[u8]) -> bool
        requires { AreInOrder self.old }
        ensures there { result ≡ is_some (lookup (is_at (byte_cmp field.now)) self.old) }
        ensures removed { self.new ≡ remove_entry (is_at (byte_cmp field.now)) self.old }
    {
        let place = place_of(self.block.pairs(), field);
        if place.value.is_none() {
            return false;
        }
        let start = place.before.len();
        let end = self.block.pairs().len() - place.after.len();
        self.block.cut(start, end);
        true
    }

    /// The same pairs once more.
    pub fn copy(&self, alloc: Global) -> Result<Packed, Memory>
        ensures { IfOk result (λ copied. copied ≡ self.now) }
    {
        Ok(Packed {
            block: self.block.copy(alloc)?,
        })
    }
}

// The word that stands first, and what is behind it.
fn first_word(bytes: &[u8]) -> Option<(&[u8], &[u8])>
    ensures { option_map (λ found. (found.0.now, found.1.now)) result ≡ packed.first_word bytes.now }
{
    let (len, others) = bytes.split_first()?;
    others.split_at_checked(*len as usize)
}

/// The pair that stands first, and what is behind it.
pub fn first_pair(bytes: &[u8]) -> Option<(&[u8], &[u8], &[u8])>
    ensures { option_map (λ found. (found.0.now, found.1.now, found.2.now)) result ≡ packed.first_pair bytes.now }
{
    let (field, others) = first_word(bytes)?;
    let (value, others) = first_word(others)?;
    Some((field, value, others))
}

// What is left behind the pairs whose fields are below this one.
fn from_field<'a>(bytes: &'a [u8], field: &[u8]) -> &'a [u8]
    requires { packed (entries_in bytes.now) ≡ bytes.now }
    ensures left { result.now ≡ packed (from field.now (entries_in bytes.now)) }
    ensures within { length result.now ≤ length bytes.now }
{
    let mut rest = bytes;
    while let Some((other, _, behind)) = first_pair(rest) {
        if !compare(field, other).is_gt() {
            return rest;
        }
        rest = behind;
    }
    rest
}

// Where a field stands, or would stand.
#[derive(Drop)]
struct Place<'a> {
    // The pairs in front of it.
    before: &'a [u8],
    // Its value.
    value: Option<&'a [u8]>,
    // The pairs behind it.
    after: &'a [u8],
}

fn place_of<'a>(bytes: &'a [u8], field: &[u8]) -> Place<'a>
    requires { packed (entries_in bytes.now) ≡ bytes.now }
    ensures before { result.before.now ≡ packed (below field.now (entries_in bytes.now)) }
    ensures value { option_map (λ value. value.now) result.value ≡ value_first field.now (from field.now (entries_in bytes.now)) }
    ensures after { result.after.now ≡ packed (past field.now (from field.now (entries_in bytes.now))) }
{
    let rest = from_field(bytes, field);
    let before = &bytes[..bytes.len() - rest.len()];
    let Some((other, value, behind)) = first_pair(rest) else {
        return Place {
            before,
            value: None,
            after: rest,
        };
    };
    if compare(field, other).is_eq() {
        return Place {
            before,
            value: Some(value),
            after: behind,
        };
    }
    Place {
        before,
        value: None,
        after: rest,
    }
}

// So many pairs, and one more where its field is new.
pub(crate) fn count_with(pairs: usize, is_new: bool) -> usize
    requires { pairs ≤ 512 }
    ensures { result ≡ pairs + (if is_new then 1 else 0) }
{
    if is_new { pairs + 1 } else { pairs }
}

// Whether there is a value of so many bytes.
fn has_length(held: Option<&[u8]>, len: usize) -> bool
    ensures has { result ≡ true → (text : Bytes) × (option_map (λ value. value.now) held.entry ≡ Some text) × (length text ≡ len) }
    ensures lacks { result ≡ false → IfSome held.entry (λ value. length value.now ≢ len) }
{
    match held {
        Some(value) => value.len() == len,
        None => false,
    }
}

// Whether so many pairs are few, and a field and a value have at most so many bytes.
fn fits(most: usize, pairs: usize, field: &[u8], value: &[u8]) -> bool
    ensures { result ≡ packed.fits most pairs field.now value.now }
{
    field.len() <= most && value.len() <= most && pairs <= MOST_PAIRS
}

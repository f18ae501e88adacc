// The two forms of a hash: a few short pairs in one block, or a table of such blocks.
ghost use Rattle.std.specs.Prelude.{◌≡◌, ◌<◌, ◌^◌, ◌&&◌, [], length, IfOk, OnOk, OnErr, is_some, is_none, true};
ghost use Rattle.std.specs.Option.{option_map};
ghost use Rattle.std.specs.Map.{lookup, remove_entry};
ghost use Rattle.std.specs.BTreeMap.{insert_entry, is_at};
ghost use Rattle.std.specs.FinMap as map;
ghost use Rattle.nr_model.specs.Keyspace.{byte_cmp};
ghost use Rattle.nr_packs.specs.Packed.{entries_in, fits};
ghost use Rattle.nr_packs.specs.Orders.{AreInOrder};
ghost use Rattle.nr_hashes.specs.Forms.{entries_of, is_packed};

use crate::pairs::Pairs;
use nr_blob::{Blob, Memory};
use nr_packs::{Packed, Table};
use std::alloc::Global;
use std::hash::RandomState;

/// The most bytes of a field or a value in a block of pairs.
const MOST_LEN: usize = 64;

/// The pairs of a hash. A block that would get too many or too long ones becomes a table, and a table stays one.
#[derive(Debug, Drop)]
pub(crate) enum Form {
    /// A few short pairs in one block.
    Packed(Packed),
    /// Any pairs.
    Large(Box<Table>),
}

impl Form {
    /// No pairs. They take no memory.
    pub(crate) fn new(alloc: Global) -> Form
        ensures none { entries_of result ≡ [] }
        ensures form { is_packed result ≡ true }
    {
        Form::Packed(Packed::new(alloc))
    }

    /// How many pairs. Constant.
    pub(crate) fn len(&self) -> usize
        ensures len { result ≡ length (entries_of self.now) }
        ensures small { result < 2 ^ 63 }
    {
        match self {
            Form::Packed(pairs) => pairs.len(),
            Form::Large(pairs) => count(pairs),
        }
    }

    /// The value at a field. Linear in the bytes of a block.
    pub(crate) fn get(&self, field: &Blob) -> Option<&[u8]>
        requires { AreInOrder (entries_of self.now) }
        ensures { option_map (λ value. value.now) result ≡ lookup (is_at (byte_cmp field.now)) (entries_of self.now) }
    {
        match self {
            Form::Packed(pairs) => pairs.get(field.bytes()),
            Form::Large(pairs) => find(pairs, field),
        }
    }

    /// The pairs, by the fields' byte order. Those of a table are gathered and sorted.
    pub(crate) fn pairs(&self) -> Result<Pairs<'_>, Memory>
        ensures { IfOk result (λ pairs. pairs ≡ entries_of self.now) }
    {
        match self {
            Form::Packed(pairs) => Ok(Pairs::packed(pairs.bytes())),
            Form::Large(pairs) => Ok(Pairs::listed(pairs.pairs()?)),
        }
    }

    /// Puts a value at a field, in the place of the one that was there, and says whether the field is new. Linear in the bytes of a block; a block
    /// that becomes a table costs as much for each of its pairs. Where memory runs out nothing is changed.
    pub(crate) fn insert(
        &mut self,
        alloc: Global,
        keys: RandomState,
        field: &Blob,
        value: &[u8],
    ) -> Result<bool, Memory>
        requires { AreInOrder (entries_of self.old) }
        ensures new { IfOk result (λ is_new. is_new ≡ is_none (lookup (is_at (byte_cmp field.now)) (entries_of self.old))) }
        ensures put { OnOk result (entries_of self.new ≡ insert_entry byte_cmp (entries_of self.old) field.now value.now) }
        ensures form { OnOk result (is_packed self.new ≡ (is_packed self.old && fits 64 (length (entries_of self.new)) field.now value.now)) }
        ensures err { OnErr result (entries_of self.new ≡ entries_of self.old) }
    {
        match self {
            Form::Packed(pairs) => match pairs.insert(alloc, field.bytes(), value, MOST_LEN)? {
                Some(is_new) => Ok(is_new),
                None => {
                    let mut table = table_of(alloc, keys, pairs.bytes())?;
                    let is_new = put(&mut table, field, value)?;
                    *self = Form::Large(Box::new(alloc, table)?);
                    Ok(is_new)
                }
            },
            Form::Large(pairs) => put(pairs, field, value),
        }
    }

    /// Takes a field out, and says whether it was there. Linear in the bytes of a block.
    pub(crate) fn remove(&mut self, field: &Blob) -> bool
        requires { AreInOrder (entries_of self.old) }
        ensures there { result ≡ is_some (lookup (is_at (byte_cmp field.now)) (entries_of self.old)) }
        ensures removed { entries_of self.new ≡ remove_entry (is_at (byte_cmp field.now)) (entries_of self.old) }
        ensures form { is_packed self.new ≡ is_packed self.old }
    {
        match self {
            Form::Packed(pairs) => pairs.remove(field.bytes()),
            Form::Large(pairs) => take(pairs, field),
        }
    }

    /// The same pairs once more, in the form that they have. Linear in their bytes.
    pub(crate) fn copy(&self, alloc: Global) -> Result<Form, Memory>
        ensures same { IfOk result (λ copied. entries_of copied ≡ entries_of self.now) }
        ensures form { IfOk result (λ copied. is_packed copied ≡ is_packed self.now) }
    {
        match self {
            Form::Packed(pairs) => Ok(Form::Packed(pairs.copy(alloc)?)),
            Form::Large(pairs) => Ok(Form::Large(Box::new(alloc, pairs.copy()?)?)),
        }
    }
}

// The calls of a table in the words of its entries.
fn count(pairs: &Table) -> usize
    ensures len { result ≡ length (map.entries pairs.now) }
    ensures small { result < 2 ^ 63 }
{
    pairs.len()
}

fn find<'a>(pairs: &'a Table, field: &Blob) -> Option<&'a [u8]>
    ensures { option_map (λ value. value.now) result ≡ lookup (is_at (byte_cmp field.now)) (map.entries pairs.now) }
{
    pairs.get(field)
}

fn put(pairs: &mut Table, field: &Blob, value: &[u8]) -> Result<bool, Memory>
    ensures new { IfOk result (λ is_new. is_new ≡ is_none (lookup (is_at (byte_cmp field.now)) (map.entries pairs.old))) }
    ensures put { OnOk result (map.entries pairs.new ≡ insert_entry byte_cmp (map.entries pairs.old) field.now value.now) }
    ensures err { OnErr result (map.entries pairs.new ≡ map.entries pairs.old) }
{
    let is_new = pairs.insert(field, value)?;
    Ok(is_new)
}

fn take(pairs: &mut Table, field: &Blob) -> bool
    ensures there { result ≡ is_some (lookup (is_at (byte_cmp field.now)) (map.entries pairs.old)) }
    ensures removed { map.entries pairs.new ≡ remove_entry (is_at (byte_cmp field.now)) (map.entries pairs.old) }
{
    pairs.remove(field)
}

// The pairs of a block as a table.
fn table_of(alloc: Global, keys: RandomState, pairs: &[u8]) -> Result<Table, Memory>
    requires { AreInOrder (entries_in pairs.now) }
    ensures { IfOk result (λ table. map.entries table ≡ entries_in pairs.now) }
{
    let mut table = Table::new(alloc, keys)?;
    for (field, value) in Pairs::packed(pairs) {
        put_copy(alloc, &mut table, field, value)?;
    }
    Ok(table)
}

fn put_copy(alloc: Global, pairs: &mut Table, field: &[u8], value: &[u8]) -> Result<(), Memory>
    ensures { OnOk result (map.entries pairs.new ≡ insert_entry byte_cmp (map.entries pairs.old) field.now value.now) }
{
    let field = Blob::from_slice(alloc, field)?;
    put(pairs, &field, value)?;
    Ok(())
}

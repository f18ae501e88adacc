// One pair of a table: in its block, or beside the blocks where no block takes it.
ghost use Rattle.std.specs.Prelude.{◌≡◌, ◌&&◌, ◌||◌, IfOk, OnOk, OnErr, is_some, is_none, true};
ghost use Rattle.std.specs.Option.{option_map, option_or};
ghost use Rattle.std.specs.Map.{lookup, remove_entry};
ghost use Rattle.std.specs.BTreeMap.{insert_entry, is_at};
ghost use Rattle.nr_model.specs.Bytes.{Bytes};
ghost use Rattle.nr_model.specs.Keyspace.{byte_cmp};
ghost use Rattle.nr_packs.specs.Orders.{AreInOrder};
ghost use Rattle.nr_packs.specs.Puts.{IsPut};
ghost use Rattle.nr_packs.specs.Tables.{held};

use crate::packed::Packed;
use nr_blob::{Blob, Memory};
use std::alloc::Global;
use std::collections::BTreeMap;

/// The most bytes of a field or a value in a block of a table.
const MOST_LEN: usize = 255;

/// The value at a field.
pub(crate) fn find<'a>(
    pack: &'a Packed,
    long: &'a BTreeMap<Blob, Blob>,
    field: &Blob,
) -> Option<&'a [u8]>
    requires { AreInOrder pack.now }
    ensures { option_map (λ value. value.now) result ≡ option_or (held field.now pack.now) (held field.now long.now.entries) }
{
    match pack.get(field.bytes()) {
        Some(value) => Some(value),
        None => bytes_of(long.get(field)),
    }
}

fn bytes_of(value: Option<&Blob>) -> Option<&[u8]>
    ensures { option_map (λ value. value.now) result ≡ option_map (λ value. value.now) value.entry }
{
    match value {
        Some(value) => Some(value.bytes()),
        None => None,
    }
}

/// Puts a value at a field, and says whether it stood in neither of the two. Where memory runs out nothing is changed.
pub(crate) fn put(
    alloc: Global,
    pack: &mut Packed,
    long: &mut BTreeMap<Blob, Blob>,
    field: &Blob,
    value: &[u8],
) -> Result<bool, Memory>
    requires { AreInOrder pack.old }
    ensures new { IfOk result (λ is_new. is_new ≡ (is_none (held field.now pack.old) && is_none (held field.now long.old.entries))) }
    ensures put { OnOk result (IsPut field.now value.now pack.old long.old.entries pack.new long.new.entries) }
    ensures pack { OnErr result (pack.new ≡ pack.old) }
    ensures long { OnErr result (long.new.entries ≡ long.old.entries) }
{
    match pack.insert(alloc, field.bytes(), value, MOST_LEN)? {
        Some(is_new) => {
            let was_long = long.remove(field).is_some();
            Ok(is_new & !was_long)
        }
        None => {
            let is_new = put_long(alloc, long, field, value)?;
            let was_short = pack.remove(field.bytes());
            Ok(!was_short & is_new)
        }
    }
}

// Puts a value at a field beside the blocks, and says whether it is new there. Where memory runs out nothing is changed.
fn put_long(
    alloc: Global,
    long: &mut BTreeMap<Blob, Blob>,
    field: &Blob,
    value: &[u8],
) -> Result<bool, Memory>
    ensures new { IfOk result (λ is_new. is_new ≡ is_none (held field.now long.old.entries)) }
    ensures put { OnOk result (long.new.entries ≡ insert_entry byte_cmp long.old.entries field.now value.now) }
    ensures err { OnErr result (long.new.entries ≡ long.old.entries) }
{
    let value = Blob::from_slice(alloc, value)?;
    let before = long.insert(field.copy()?, value)?;
    Ok(before.is_none())
}

/// Takes a field out of both, and says whether it stood in one of them.
pub(crate) fn take(pack: &mut Packed, long: &mut BTreeMap<Blob, Blob>, field: &Blob) -> bool
    requires { AreInOrder pack.old }
    ensures there { result ≡ (is_some (held field.now pack.old) || is_some (held field.now long.old.entries)) }
    ensures pack { pack.new ≡ remove_entry (is_at (byte_cmp field.now)) pack.old }
    ensures long { long.new.entries ≡ remove_entry (is_at (byte_cmp field.now)) long.old.entries }
{
    let was_short = pack.remove(field.bytes());
    let was_long = long.remove(field).is_some();
    was_short || was_long
}

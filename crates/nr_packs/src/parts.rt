// The pairs of a block that belong to one of two blocks.
ghost use Rattle.std.specs.Prelude.{◌≡◌, ◌≤◌, ◌<◌, ◌+◌, ◌*◌, ◌^◌, ◌++◌, [], length, cond, IfOk, OnOk};
ghost use Rattle.nr_packs.specs.Packed.{word, entries_in, IsPacked};
ghost use Rattle.nr_packs.specs.Tables.{belongs, chosen};

use crate::block::push_word;
use crate::packed::{Packed, count_with, first_pair};
use crate::slots::slot_of;
use nr_blob::Memory;
use std::alloc::Global;
use std::hash::RandomState;

/// The pairs of a block that belong to the block of a number, where there are so many.
pub(crate) fn part(
    alloc: Global,
    keys: &RandomState,
    level: usize,
    count: usize,
    place: usize,
    pack: &Packed,
) -> Result<Packed, Memory>
    requires some { 0 < level }
    requires least { level ≤ count }
    requires most { count ≤ 2 * level }
    requires small { level < 2 ^ 63 }
    ensures { IfOk result (λ part. part ≡ chosen (belongs keys.now level count place) pack.now) }
{
    let (bytes, pairs) = bytes_of_part(alloc, keys, level, count, place, pack.bytes())?;
    Packed::of(alloc, pairs, &bytes)
}

// Their bytes, and how many pairs they are.
fn bytes_of_part(
    alloc: Global,
    keys: &RandomState,
    level: usize,
    count: usize,
    place: usize,
    bytes: &[u8],
) -> Result<(Vec<u8>, usize), Memory>
    requires some { 0 < level }
    requires least { level ≤ count }
    requires most { count ≤ 2 * level }
    requires small { level < 2 ^ 63 }
    requires packed { IsPacked (length (entries_in bytes.now)) bytes.now }
    ensures entries { IfOk result (λ part. entries_in part.0.items ≡ chosen (belongs keys.now level count place) (entries_in bytes.now)) }
    ensures packed { IfOk result (λ part. IsPacked part.1 part.0.items) }
{
    let mut kept = Vec::with_capacity(alloc, bytes.len())?;
    let mut pairs = 0;
    let mut rest = bytes;
    while let Some((field, value, behind)) = first_pair(rest) {
        let belongs = slot_of(keys, level, count, field) == place;
        push_where(&mut kept, belongs, field, value)?;
        pairs = count_with(pairs, belongs);
        rest = behind;
    }
    Ok((kept, pairs))
}

// Appends a pair where it is wanted.
fn push_where(
    bytes: &mut Vec<u8>,
    is_wanted: bool,
    field: &[u8],
    value: &[u8],
) -> Result<(), Memory>
    requires field { length field.now ≤ 255 }
    requires value { length value.now ≤ 255 }
    ensures { OnOk result (bytes.new.items ≡ bytes.old.items ++ cond is_wanted (word field.now ++ word value.now) []) }
{
    if !is_wanted {
        return Ok(());
    }
    push_word(bytes, field)?;
    push_word(bytes, value)?;
    Ok(())
}

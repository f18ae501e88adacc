// The pairs of a table, gathered and sorted.
ghost use Rattle.std.specs.Prelude.{◌≡◌, ◌++◌, drop, IfOk, OnOk};
ghost use Rattle.std.specs.FinMap as map;
ghost use Rattle.nr_packs.specs.Packed.{entries_in};
ghost use Rattle.std.specs.List.Sorted.{IsPermutation, IsSorted};
ghost use Rattle.nr_packs.specs.Rows.{pairs_in, row_cmp, AreApart};
ghost use Rattle.nr_packs.specs.Tables.{pairs_of, seen};

use crate::heads::number;
use crate::packed::{Packed, first_pair};
use nr_blob::{Blob, Memory};
use std::alloc::Global;
use std::collections::BTreeMap;
use std::marker::Model;

/// Fields with their values, lent, by the fields' byte order. It is seen as those that are left.
#[derive(Drop)]
pub struct Listed<'a> {
    // Each behind a number that lies as its field does.
    rows: Vec<(u64, &'a [u8], &'a [u8])>,
    // How many were given.
    given: usize,
}

impl<'a> Model for Listed<'a> {
    ghost use Rattle.std.specs.Prelude.{List, drop};
    ghost use Rattle.nr_model.specs.Bytes.{Bytes};
    ghost use Rattle.nr_packs.specs.Rows.{pairs_in};

    ghost Value = { List (Bytes × Bytes) };

    ghost view = { λ listed. pairs_in (drop listed.given listed.rows.items) };
}

impl<'a> Iterator for Listed<'a> {
    ghost use Rattle.std.specs.Iterator.{YieldsFirstBy, item_count};

    type Item = (&'a [u8], &'a [u8]);

    ghost next_gives = { YieldsFirstBy (λ pair. (pair.0.now, pair.1.now)) (λ listed. listed) };

    ghost remaining = { item_count (λ listed. listed) };

    fn next(&mut self) -> Option<(&'a [u8], &'a [u8])> {
        let (_, field, value) = self.rows.get(self.given)?;
        self.given += 1;
        Some((*field, *value))
    }
}

/// The pairs of blocks and those beside them, by the fields' byte order. O(n log n), in memory for a row each.
pub(crate) fn list<'a>(
    alloc: Global,
    packs: &'a [Packed],
    long: &'a BTreeMap<Blob, Blob>,
    len: usize,
) -> Result<Listed<'a>, Memory>
    requires { AreApart (pairs_of packs.now ++ long.now.entries) }
    ensures { IfOk result (λ listed. listed ≡ map.entries (seen packs.now long.now.entries)) }
{
    let mut rows = gather(alloc, packs, long, len)?;
    number(&mut rows);
    sort(&mut rows);
    Ok(Listed { rows, given: 0 })
}

// Sorts rows by their numbers, and where these are the same by their fields.
fn sort(rows: &mut Vec<(u64, &[u8], &[u8])>)
    ensures permutation { IsPermutation rows.old.items rows.new.items }
    ensures sorted { IsSorted row_cmp rows.new.items }
{
    rows.sort_unstable();
}

fn gather<'a>(
    alloc: Global,
    packs: &'a [Packed],
    long: &'a BTreeMap<Blob, Blob>,
    len: usize,
) -> Result<Vec<(u64, &'a [u8], &'a [u8])>, Memory>
    ensures { IfOk result (λ rows. pairs_in rows.items ≡ pairs_of packs.now ++ long.now.entries) }
{
    let mut rows = Vec::with_capacity(alloc, len)?;
    push_packs(&mut rows, packs)?;
    push_long(&mut rows, long)?;
    Ok(rows)
}

fn push_packs<'a>(
    rows: &mut Vec<(u64, &'a [u8], &'a [u8])>,
    packs: &'a [Packed],
) -> Result<(), Memory>
    ensures { OnOk result (pairs_in rows.new.items ≡ pairs_in rows.old.items ++ pairs_of packs.now) }
{
    for pack in packs {
        push_pack(rows, pack.bytes())?;
    }
    Ok(())
}

fn push_pack<'a>(rows: &mut Vec<(u64, &'a [u8], &'a [u8])>, bytes: &'a [u8]) -> Result<(), Memory>
    ensures { OnOk result (pairs_in rows.new.items ≡ pairs_in rows.old.items ++ entries_in bytes.now) }
{
    let mut rest = bytes;
    while let Some((field, value, behind)) = first_pair(rest) {
        rows.push((0, field, value))?;
        rest = behind;
    }
    Ok(())
}

fn push_long<'a>(
    rows: &mut Vec<(u64, &'a [u8], &'a [u8])>,
    long: &'a BTreeMap<Blob, Blob>,
) -> Result<(), Memory>
    ensures { OnOk result (pairs_in rows.new.items ≡ pairs_in rows.old.items ++ long.now.entries) }
{
    for (field, value) in long.iter() {
        rows.push((0, field.bytes(), value.bytes()))?;
    }
    Ok(())
}

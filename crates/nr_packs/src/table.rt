// A table of packed blocks: many pairs, each in the block that the hash of its field says.
ghost use Rattle.std.specs.Prelude.{◌≡◌, ◌↔◌, ◌<◌, ◌≤◌, ◌+◌, ◌^◌, not, map as each, IsTrue, IfOk, OnOk, OnErr, cond};
ghost use Rattle.std.specs.Option.{option_map};
ghost use Rattle.std.specs.FinMap as map;
ghost use Rattle.std.specs.BTreeMap.{insert_entry};
ghost use Rattle.nr_model.specs.Keyspace.{byte_cmp};
ghost use Rattle.nr_packs.specs.Orders.{AreInOrder};
ghost use Rattle.nr_packs.specs.Tables.{seen, IsStored};

use crate::grow::grow;
use crate::listed::{Listed, list};
use crate::packed::Packed;
use crate::put;
use crate::slots::slot_of;
use nr_blob::{Blob, Memory};
use std::alloc::Global;
use std::collections::BTreeMap;
use std::hash::RandomState;
use std::marker::Model;

/// Many pairs of fields and values. They are seen as a finite map. They stand in blocks of 4 to 16 as a rule, 8 on the average: a pair takes its
/// bytes, two more for their lengths, and its part of a block's some 40; one whose field or value has more than 255 bytes takes some 64 beside them.
/// To drop them is linear in them.
#[derive(Debug, Drop)]
pub struct Table {
    // Blocks and copies are made with it.
    alloc: Global,
    // The keys of the hashes: nobody who doesn't know them can choose fields for one block.
    keys: RandomState,
    // At most as many as there are blocks, and at least half as many: a power of two.
    level: usize,
    packs: Vec<Packed>,
    // How many pairs there are.
    len: usize,
    // Those that no block takes.
    long: BTreeMap<Blob, Blob>,
}

impl Model for Table {
    ghost use Rattle.nr_model.specs.Hashes.{Hash, coded_hash};

    ghost Value = { Hash };

    ghost coded = { coded_hash };

    ghost use Rattle.nr_packs.specs.Tables.{seen, IsTable};

    ghost view = { λ table. seen table.packs.items table.long.entries };

    ghost invariant = { λ table. IsTable table.keys table.level table.packs.items table.long.entries table.len };
}

impl Table {
    /// No pairs, in one block. The keys are those of the hashes.
    pub fn new(alloc: Global, keys: RandomState) -> Result<Table, Memory>
        ensures { IfOk result (λ table. table ≡ map.empty) }
    {
        let mut packs = Vec::new(alloc);
        packs.push(Packed::new(alloc))?;
        Ok(Table {
            alloc,
            keys,
            level: 1,
            packs,
            len: 0,
            long: BTreeMap::new(alloc),
        })
    }

    /// How many pairs. Constant.
    pub fn len(&self) -> usize
        ensures len { result ≡ map.len self.now }
        ensures small { result < 2 ^ 63 }
    {
        self.len
    }

    pub fn is_empty(&self) -> bool
        ensures { IsTrue result ↔ (self.now ≡ map.empty) }
    {
        self.len() == 0
    }

    /// Puts a value at a field, in the place of the one that was there, and says whether the field is new. Linear in the bytes of a block, of
    /// which one is parted in two where there are many; logarithmic for a field or a value of more than 255 bytes. Where memory runs out nothing is
    /// changed.
    pub fn insert(&mut self, field: &Blob, value: &[u8]) -> Result<bool, Memory>
        ensures new { IfOk result (λ is_new. is_new ≡ not (map.contains_key self.old field.now)) }
        ensures ok { OnOk result (self.new ≡ map.insert self.old field.now value.now) }
        ensures err { OnErr result (self.new ≡ self.old) }
    {
        let more = one_more(self.len)?;
        grow(
            self.alloc,
            &self.keys,
            &mut self.level,
            &mut self.packs,
            self.len,
        )?;
        let is_new = put_in(
            self.alloc,
            &self.keys,
            self.level,
            &mut self.packs,
            &mut self.long,
            field,
            value,
        )?;
        self.len = picked(is_new, more, self.len);
        Ok(is_new)
    }

    /// The value at a field. Linear in the bytes of a block.
    pub fn get(&self, field: &Blob) -> Option<&[u8]>
        ensures { option_map (λ value. value.now) result ≡ map.get self.now field.now }
    {
        find_in(&self.keys, self.level, &self.packs, &self.long, field)
    }

    /// Whether a field is there. Costs what `get` does.
    pub fn contains(&self, field: &Blob) -> bool
        ensures { result ≡ map.contains_key self.now field.now }
    {
        self.get(field).is_some()
    }

    /// Takes a field out, and says whether it was there. Linear in the bytes of a block.
    pub fn remove(&mut self, field: &Blob) -> bool
        ensures there { result ≡ map.contains_key self.old field.now }
        ensures removed { self.new ≡ map.remove self.old field.now }
    {
        let was_there = take_in(
            &self.keys,
            self.level,
            &mut self.packs,
            &mut self.long,
            field,
        );
        self.len = picked(was_there, self.len.saturating_sub(1), self.len);
        was_there
    }

    /// The fields with their values, by the fields' byte order. O(n log n), in memory for a row of 40 bytes each, which may be refused.
    pub fn pairs(&self) -> Result<Listed<'_>, Memory>
        ensures { IfOk result (λ listed. listed ≡ map.entries self.now) }
    {
        let listed = list(self.alloc, &self.packs, &self.long, self.len)?;
        Ok(listed)
    }

    /// The same pairs once more. Linear in their bytes.
    pub fn copy(&self) -> Result<Table, Memory>
        ensures { IfOk result (λ copied. copied ≡ self.now) }
    {
        Ok(Table {
            alloc: self.alloc,
            keys: self.keys,
            level: self.level,
            packs: copy_each(self.alloc, &self.packs)?,
            len: self.len,
            long: copy_long(self.alloc, &self.long)?,
        })
    }
}

// How many pairs there are with one more, refused from 2^63 on.
fn one_more(len: usize) -> Result<usize, Memory>
    requires { len < 2 ^ 63 }
    ensures more { IfOk result (λ more. (more ≡ len + 1) × (more < 2 ^ 63)) }
    ensures refused { OnErr result (2 ^ 63 ≤ len + 1) }
{
    let more = len + 1;
    match Memory::at_last((more as u64).saturating_mul(2)) {
        Some(refused) => Err(refused),
        None => Ok(more),
    }
}

fn picked(is_first: bool, first: usize, second: usize) -> usize
    ensures { result ≡ cond is_first first second }
{
    if is_first { first } else { second }
}

fn find_in<'a>(
    keys: &RandomState,
    level: usize,
    packs: &'a [Packed],
    long: &'a BTreeMap<Blob, Blob>,
    field: &Blob,
) -> Option<&'a [u8]>
    requires { IsStored keys.now level packs.now long.now.entries }
    ensures { option_map (λ value. value.now) result ≡ map.get (seen packs.now long.now.entries) field.now }
{
    let slot = slot_of(keys, level, packs.len(), field.bytes());
    put::find(&packs[slot], long, field)
}

fn put_in(
    alloc: Global,
    keys: &RandomState,
    level: usize,
    packs: &mut Vec<Packed>,
    long: &mut BTreeMap<Blob, Blob>,
    field: &Blob,
    value: &[u8],
) -> Result<bool, Memory>
    requires { IsStored keys.now level packs.old.items long.old.entries }
    ensures new { IfOk result (λ is_new. is_new ≡ not (map.contains_key (seen packs.old.items long.old.entries) field.now)) }
    ensures put { OnOk result (seen packs.new.items long.new.entries ≡ map.insert (seen packs.old.items long.old.entries) field.now value.now) }
    ensures stored { OnOk result (IsStored keys.now level packs.new.items long.new.entries) }
    ensures packs { OnErr result (packs.new.items ≡ packs.old.items) }
    ensures long { OnErr result (long.new.entries ≡ long.old.entries) }
{
    let slot = slot_of(keys, level, packs.len(), field.bytes());
    let is_new = put::put(alloc, &mut packs[slot], long, field, value)?;
    Ok(is_new)
}

fn take_in(
    keys: &RandomState,
    level: usize,
    packs: &mut Vec<Packed>,
    long: &mut BTreeMap<Blob, Blob>,
    field: &Blob,
) -> bool
    requires { IsStored keys.now level packs.old.items long.old.entries }
    ensures there { result ≡ map.contains_key (seen packs.old.items long.old.entries) field.now }
    ensures taken { seen packs.new.items long.new.entries ≡ map.remove (seen packs.old.items long.old.entries) field.now }
    ensures stored { IsStored keys.now level packs.new.items long.new.entries }
{
    let slot = slot_of(keys, level, packs.len(), field.bytes());
    put::take(&mut packs[slot], long, field)
}

fn copy_each(alloc: Global, packs: &[Packed]) -> Result<Vec<Packed>, Memory>
    ensures { IfOk result (λ copies. copies.items ≡ packs.now) }
{
    let mut copies = Vec::with_capacity(alloc, packs.len())?;
    for pack in packs {
        copies.push(pack.copy(alloc)?)?;
    }
    Ok(copies)
}

fn copy_long(alloc: Global, pairs: &BTreeMap<Blob, Blob>) -> Result<BTreeMap<Blob, Blob>, Memory>
    requires { AreInOrder pairs.now.entries }
    ensures { IfOk result (λ copied. copied.entries ≡ pairs.now.entries) }
{
    let mut copied = BTreeMap::new(alloc);
    for (field, value) in pairs.iter() {
        put_copy(&mut copied, field, value)?;
    }
    Ok(copied)
}

fn put_copy(pairs: &mut BTreeMap<Blob, Blob>, field: &Blob, value: &Blob) -> Result<(), Memory>
    ensures { OnOk result (pairs.new.entries ≡ insert_entry byte_cmp pairs.old.entries field.now value.now) }
{
    let value = value.copy()?;
    pairs.insert(field.copy()?, value)?;
    Ok(())
}

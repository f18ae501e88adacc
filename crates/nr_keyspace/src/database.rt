// The keys of one database: a hashed map beside an ordered index of their deadlines, kept in step.
ghost use Rattle.std.specs.Prelude as prelude;
ghost use Rattle.std.specs.Prelude.{◌≡◌, ◌<◌, ◌^◌, not, ◌≤◌, ◌+◌, ◌&&◌, suc, true, false, filter, Some, None, IfOk, OnOk, OnErr, IfSome, OnSome, IfNone, is_some};
ghost use Rattle.std.specs.Option.{option_map};
ghost use Rattle.std.specs.FinMap as map;
ghost use Rattle.std.specs.Map.Iter.{deref};
ghost use Rattle.nr_model.specs.Bytes.{Bytes};
ghost use Rattle.nr_model.specs.Patterns.{matches};
ghost use Rattle.nr_model.specs.Keyspace.{Stored, is_live_at, only_live};
ghost use Rattle.nr_keyspace.specs.Values.{value_of};
ghost use Rattle.nr_keyspace.specs.Names.{live_store};
ghost use Rattle.nr_keyspace.specs.Edited.{IsEdited};
ghost use Rattle.nr_keyspace.specs.Stores.{stored_of, deadline_of, bytes_of, store_of, is_undated, redated, written_if};

use crate::deadlines::Deadlines;
use crate::edit::Edit;
use crate::kept_deadline::KeptDeadline;
use crate::value::Value;
use nr_blob::{Blob, Memory};
use nr_glob::matches;
use std::alloc::Global;
use std::collections::HashMap;
use std::hash::RandomState;
use std::marker::Model;

// How many expired names a sweep takes out of one database.
const SWEPT_AT_ONCE: usize = 4;

/// A value, and the millisecond from which it is gone, if there is one.
#[derive(Drop)]
pub(crate) struct KeyEntry {
    value: Value,
    deadline: KeptDeadline,
}

#[derive(Drop)]
pub(crate) struct Database {
    by_name: HashMap<Blob, KeyEntry, RandomState>,
    deadlines: Deadlines,
}

impl Model for Database {
    ghost use Rattle.nr_keyspace.specs.Stores.{Store, coded_store, bytes_of, store_of, IsIndexed};

    ghost Value = { Store };

    ghost coded = { coded_store };

    ghost view = { λ d. store_of bytes_of d.by_name.entries };

    ghost invariant = { λ d. IsIndexed (store_of bytes_of d.by_name.entries) d.deadlines };
}

// Writes another deadline to the entry at a name, if there is one.
fn redate(by_name: &mut HashMap<Blob, KeyEntry, RandomState>, name: &Blob, deadline: KeptDeadline)
    ensures { let old = store_of bytes_of by_name.old.entries in store_of bytes_of by_name.new.entries ≡ redated old name.now (map.get old name.now) deadline }
{
    if let Some(entry) = by_name.get_mut(name) {
        entry.deadline = deadline;
    }
}

// Writes another value to the entry at a name, if there is one and it has no deadline. Else the value comes back.
fn rewrite(
    by_name: &mut HashMap<Blob, KeyEntry, RandomState>,
    name: &Blob,
    value: Value,
) -> Option<Value>
    ensures written { IfNone result (store_of bytes_of by_name.new.entries
        ≡ map.insert (store_of bytes_of by_name.old.entries) name.now (record { value = value_of value; deadline = None })) }
    ensures exact { is_some result ≡ not (is_undated (map.get (store_of bytes_of by_name.old.entries) name.now)) }
    ensures undated { IfNone result (deadline_of (map.get (store_of bytes_of by_name.old.entries) name.now) ≡ None) }
    ensures back { IfSome result (λ back. back ≡ value) }
    ensures unchanged { OnSome result (store_of bytes_of by_name.new.entries ≡ store_of bytes_of by_name.old.entries) }
{
    let Some(entry) = by_name.get_mut(name) else {
        return Some(value);
    };
    if entry.deadline.is_some() {
        return Some(value);
    }
    entry.value = value;
    None
}

// Writes a text to the entry at a name, if there is one and it has no deadline, and says whether there was.
fn write_text(
    by_name: &mut HashMap<Blob, KeyEntry, RandomState>,
    name: &Blob,
    text: &[u8],
) -> Result<bool, Memory>
    ensures exact { IfOk result (λ written. written ≡ is_undated (map.get (store_of bytes_of by_name.old.entries) name.now)) }
    ensures ok { IfOk result (λ written. let old = store_of bytes_of by_name.old.entries in
        store_of bytes_of by_name.new.entries ≡ written_if written old name.now text.now) }
    ensures err { OnErr result (store_of bytes_of by_name.new.entries ≡ store_of bytes_of by_name.old.entries) }
{
    let Some(held) = by_name.get_mut(name) else {
        return Ok(false);
    };
    if held.deadline.is_some() {
        return Ok(false);
    }
    held.value.write(name.allocator(), text)?;
    Ok(true)
}

// Has the value at a live name edited, if there is one.
fn edit_at<E: Edit>(
    by_name: &mut HashMap<Blob, KeyEntry, RandomState>,
    now: u64,
    name: &Blob,
    edit: E,
) -> Result<Option<E::Given>, Memory>
    ensures ok { let old = store_of bytes_of by_name.old.entries in IfOk result
        (λ given. IsEdited (E.edits edit) old (store_of bytes_of by_name.new.entries) name.now (only_live now (map.get old name.now)) given) }
    ensures err { OnErr result (store_of bytes_of by_name.new.entries ≡ store_of bytes_of by_name.old.entries) }
{
    let Some(entry) = by_name.get_mut(name) else {
        return Ok(None);
    };
    if !entry.deadline.is_live(now) {
        return Ok(None);
    }
    let given = edit.edit(&mut entry.value)?;
    Ok(Some(given))
}

// Takes out what is stored at a name, if there is something. Where there is no memory for a copy of a long name, each name is looked at.
fn forget(by_name: &mut HashMap<Blob, KeyEntry, RandomState>, alloc: Global, name: &[u8])
    ensures { store_of bytes_of by_name.new.entries ≡ map.remove (store_of bytes_of by_name.old.entries) name.now }
{
    let Ok(name) = Blob::from_slice(alloc, name) else {
        by_name.retain(|held, _| held.bytes() != name);
        return;
    };
    by_name.remove(&name);
}

// Whether an entry is live, and its name matches a pattern.
fn is_wanted(now: u64, pattern: &[u8], name: &Blob, entry: &KeyEntry) -> bool
    ensures { result ≡ is_live_at now entry.now.deadline && matches pattern.now name.now }
{
    entry.deadline.is_live(now) && matches(pattern, name.bytes())
}

impl Database {
    pub(crate) fn new(alloc: Global, keys: RandomState) -> Database
        ensures { result ≡ map.empty }
    {
        Database {
            by_name: HashMap::with_hasher(alloc, keys),
            deadlines: Deadlines::new(alloc),
        }
    }

    /// The same names once more, live or not. Linear in what is stored.
    pub(crate) fn copy(&self, alloc: Global) -> Result<Database, Memory>
        ensures { IfOk result (λ database. database ≡ self.now) }
    {
        let mut copy = Database::new(alloc, *self.by_name.hasher());
        for (name, entry) in self.by_name.iter() {
            let name = name.copy()?;
            copy.put(name, entry.value.copy(alloc)?, entry.deadline.get())?;
        }
        Ok(copy)
    }

    // What is stored at a live name.
    fn live(&self, now: u64, name: &Blob) -> Option<&KeyEntry>
        ensures { option_map (λ entry. stored_of entry.now) result ≡ only_live now (map.get self.now name.now) }
    {
        let entry = self.by_name.get(name)?;
        if entry.deadline.is_live(now) {
            Some(entry)
        } else {
            None
        }
    }

    // The deadline at a name, live or not.
    fn deadline_at(&self, name: &Blob) -> Option<i64>
        ensures { result ≡ deadline_of (map.get self.now name.now) }
    {
        let entry = self.by_name.get(name)?;
        entry.deadline.get()
    }

    /// The value at a live name.
    pub(crate) fn get(&self, now: u64, name: &Blob) -> Option<&Value>
        ensures { option_map (λ value. value_of value.now) result ≡ option_map (λ stored. stored.value) (only_live now (map.get self.now name.now)) }
    {
        let entry = self.live(now, name)?;
        Some(&entry.value)
    }

    /// The deadline at a live name.
    pub(crate) fn deadline(&self, now: u64, name: &Blob) -> Option<Option<i64>>
        ensures { result ≡ option_map (λ stored. stored.deadline) (only_live now (map.get self.now name.now)) }
    {
        let entry = self.live(now, name)?;
        Some(entry.deadline.get())
    }

    /// How many names are live. Logarithmic in the deadlines.
    pub(crate) fn len(&self, now: u64) -> usize
        ensures count { result ≡ map.len (live_store self.now now) }
        ensures small { result < 2 ^ 63 }
    {
        self.by_name.len() - self.deadlines.count_expired(now)
    }

    /// The live names that match a pattern, lent, in byte order. Looks at every name, and sorts the matches.
    pub(crate) fn matching(
        &self,
        alloc: Global,
        now: u64,
        pattern: &[u8],
    ) -> Result<Vec<&Blob>, Memory>
        ensures { IfOk result (λ names. prelude.map deref names.items ≡ filter (matches pattern.now) (map.keys (live_store self.now now))) }
    {
        let mut names = Vec::new(alloc);
        for (name, entry) in self.by_name.iter() {
            if is_wanted(now, pattern, name, entry) {
                names.push(name)?;
            }
        }
        names.sort_unstable();
        Ok(names)
    }

    /// Stores a value and its deadline in the place of what was at the name.
    pub(crate) fn put(
        &mut self,
        name: Blob,
        value: Value,
        deadline: Option<i64>,
    ) -> Result<(), Memory>
        ensures ok { OnOk result (self.new ≡ map.insert self.old name (record { value = value_of value; deadline = deadline })) }
        ensures err { OnErr result (self.new ≡ self.old) }
    {
        let kept = KeptDeadline::new(deadline)?;
        let before = self.deadline_at(&name);
        self.by_name.reserve(1)?;
        self.deadlines.replace(before, deadline, &name)?;
        let entry = KeyEntry {
            value,
            deadline: kept,
        };
        self.by_name.insert(name, entry)?;
        Ok(())
    }

    /// Stores a value, in place, at a name that is there and has no deadline. Else the value comes back.
    pub(crate) fn rewrite(&mut self, name: &Blob, value: Value) -> Option<Value>
        ensures written { IfNone result (self.new ≡ map.insert self.old name.now (record { value = value_of value; deadline = None })) }
        ensures exact { is_some result ≡ not (is_undated (map.get self.old name.now)) }
        ensures back { IfSome result (λ back. back ≡ value) }
        ensures unchanged { OnSome result (self.new ≡ self.old) }
    {
        rewrite(&mut self.by_name, name, value)
    }

    /// Stores a text, in place, at a name that is there and has no deadline, and says whether it is so.
    pub(crate) fn write_text(&mut self, name: &Blob, text: &[u8]) -> Result<bool, Memory>
        ensures exact { IfOk result (λ written. written ≡ is_undated (map.get self.old name.now)) }
        ensures ok { IfOk result (λ written. self.new ≡ written_if written self.old name.now text.now) }
        ensures err { OnErr result (self.new ≡ self.old) }
    {
        write_text(&mut self.by_name, name, text)
    }

    /// Has the value at a live name edited, if there is one.
    pub(crate) fn edit<E: Edit>(
        &mut self,
        now: u64,
        name: &Blob,
        edit: E,
    ) -> Result<Option<E::Given>, Memory>
        ensures ok { IfOk result (λ given. IsEdited (E.edits edit) self.old self.new name.now (only_live now (map.get self.old name.now)) given) }
        ensures err { OnErr result (self.new ≡ self.old) }
    {
        edit_at(&mut self.by_name, now, name, edit)
    }

    /// Takes a live name out, and gives its value.
    pub(crate) fn remove(&mut self, now: u64, name: &Blob) -> Option<Value>
        ensures value { option_map value_of result ≡ option_map (λ stored. stored.value) (only_live now (map.get self.old name.now)) }
        ensures removed { OnSome result (self.new ≡ map.remove self.old name.now) }
        ensures unchanged { IfNone result (self.new ≡ self.old) }
    {
        if self.live(now, name).is_none() {
            return None;
        }
        let entry = self.by_name.remove(name)?;
        self.deadlines.take(entry.deadline.get(), name);
        Some(entry.value)
    }

    /// Gives a live name another deadline, or none, and says whether there was one.
    pub(crate) fn set_deadline(
        &mut self,
        now: u64,
        name: &Blob,
        deadline: Option<i64>,
    ) -> Result<bool, Memory>
        ensures live { IfOk result (λ was_live. was_live ≡ is_some (only_live now (map.get self.old name.now))) }
        ensures ok { OnOk result (self.new ≡ redated self.old name.now (only_live now (map.get self.old name.now)) deadline) }
        ensures err { OnErr result (self.new ≡ self.old) }
    {
        if self.live(now, name).is_none() {
            return Ok(false);
        }
        let kept = KeptDeadline::new(deadline)?;
        let before = self.deadline_at(name);
        self.deadlines.replace(before, deadline, name)?;
        redate(&mut self.by_name, name, kept);
        Ok(true)
    }

    /// Takes every name out. Linear in what is stored.
    pub(crate) fn clear(&mut self, alloc: Global)
        ensures { self.new ≡ map.empty }
    {
        *self = Database::new(alloc, *self.by_name.hasher());
    }

    /// Takes each expired name out. It looks at those alone.
    pub(crate) fn sweep(&mut self, now: u64)
        ensures { (name : Bytes) → map.get self.new name ≡ only_live now (map.get self.old name) }
    {
        while self.take_expired(now) {}
    }

    /// Takes a few expired names out, the earliest first. Says whether there may be more.
    pub(crate) fn sweep_some(&mut self, now: u64) -> bool
        ensures same_live { (name : Bytes) → only_live now (map.get self.new name) ≡ only_live now (map.get self.old name) }
        ensures few { map.len self.old ≤ map.len self.new + 4 }
        ensures taken { result ≡ true → map.len self.new + 4 ≡ map.len self.old }
        ensures all { result ≡ false → (name : Bytes) → only_live now (map.get self.new name) ≡ map.get self.new name }
    {
        for _ in 0..SWEPT_AT_ONCE {
            if !self.take_expired(now) {
                return false;
            }
        }
        true
    }

    // Takes the name that expired first out, if there is one, and says whether there was.
    fn take_expired(&mut self, now: u64) -> bool
        ensures same_live { (name : Bytes) → only_live now (map.get self.new name) ≡ only_live now (map.get self.old name) }
        ensures one { result ≡ true → suc (map.len self.new) ≡ map.len self.old }
        ensures none { result ≡ false → (name : Bytes) → only_live now (map.get self.new name) ≡ map.get self.new name }
        ensures unchanged { result ≡ false → self.new ≡ self.old }
    {
        let Some(name) = self.deadlines.first_expired(now) else {
            return false;
        };
        forget(&mut self.by_name, self.deadlines.allocator(), name);
        self.deadlines.remove_first();
        true
    }
}

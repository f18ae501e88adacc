// The databases as commands see them: what was gone at the latest sweep is out of the view, whenever its memory is given back.
ghost use Rattle.std.specs.Prelude as prelude;
ghost use Rattle.std.specs.Prelude.{◌≡◌, ◌<◌, ◌^◌, not, ◌==◌, cond, length, filter, None, IfOk, OnOk, OnErr, IfSome, OnSome, IfNone, is_some};
ghost use Rattle.std.specs.Option.{option_map};
ghost use Rattle.std.specs.FinMap as map;
ghost use Rattle.std.specs.Map.Iter.{deref};
ghost use Rattle.nr_model.specs.Patterns.{matches};
ghost use Rattle.nr_model.specs.Keyspace as model;
ghost use Rattle.nr_model.specs.Keyspace.{names_in};
ghost use Rattle.nr_keyspace.specs.Values.{value_of};
ghost use Rattle.nr_keyspace.specs.Edited.{IsEdited};
ghost use Rattle.nr_keyspace.specs.Stores.{is_undated, redated, written_if};
ghost use Rattle.nr_keyspace.specs.Joined.{key_of, exchanged};

use crate::databases::Databases;
use crate::databases::sweeps::Sweeps;
use crate::db::Db;
use crate::edit::Edit;
use crate::value::Value;
use nr_blob::{Blob, Memory};
use nr_zsets::Zset;
use std::alloc::Global;
use std::hash::RandomState;
use std::marker::Model;

/// Keys with their values and deadlines, in sixteen databases. A deadline is the millisecond from which its key is gone. What is gone at
/// a sweep is seen no more, and takes room until a later sweep comes to it.
#[derive(Drop)]
pub struct Keyspace {
    databases: Databases,
    sweeps: Sweeps,
    // What its hashers take.
    keys: RandomState,
}

impl Model for Keyspace {
    ghost use Rattle.nr_model.specs.Keyspace as model;
    ghost use Rattle.nr_keyspace.specs.Seen.{seen_after};

    ghost Value = { model.Keyspace };

    ghost coded = { model.coded_keyspace };

    ghost view = { λ k. seen_after k.sweeps.latest k.databases };
}

impl Keyspace {
    /// Sixteen empty databases. Strangers choose the keys, so the hasher takes a seed of its own.
    pub fn new(alloc: Global, keys: RandomState) -> Result<Keyspace, Memory>
        ensures { IfOk result (λ keyspace. keyspace ≡ map.empty) }
    {
        Ok(Keyspace {
            databases: Databases::new(alloc, keys)?,
            sweeps: Sweeps::none(),
            keys,
        })
    }

    /// The same keyspace once more, with what is gone and not taken out. Linear in what is stored.
    pub fn copy(&self) -> Result<Keyspace, Memory>
        ensures { IfOk result (λ keyspace. keyspace ≡ self.now) }
    {
        Ok(Keyspace {
            databases: self.databases.copy()?,
            sweeps: self.sweeps,
            keys: self.keys,
        })
    }

    /// The seed of its hashers, for those of the hashes that it keeps.
    pub fn keys(&self) -> RandomState {
        self.keys
    }

    /// A sorted set without members, whose hasher has the seed of this keyspace's. It takes no memory.
    pub fn empty_sorted_set(&self, alloc: Global) -> Zset
        ensures { result ≡ map.empty }
    {
        Zset::new(alloc, self.keys)
    }

    /// The value of a live key.
    pub fn get(&self, now: u64, database: Db, name: &Blob) -> Option<&Value>
        ensures { option_map (λ value. value_of value.now) result
            ≡ option_map (λ stored. stored.value) (map.get (model.live self.now now) (key_of database name.now)) }
    {
        self.databases.get(self.sweeps.later(now), database, name)
    }

    /// The deadline of a live key, if it has one.
    pub fn deadline(&self, now: u64, database: Db, name: &Blob) -> Option<Option<i64>>
        ensures { result ≡ option_map (λ stored. stored.deadline) (map.get (model.live self.now now) (key_of database name.now)) }
    {
        self.databases
            .deadline(self.sweeps.later(now), database, name)
    }

    /// How many keys are live in a database. Logarithmic in its deadlines.
    pub fn len(&self, now: u64, database: Db) -> usize
        ensures count { result ≡ length (names_in (model.live self.now now) database) }
        ensures small { result < 2 ^ 63 }
    {
        self.databases.len(self.sweeps.later(now), database)
    }

    /// The names of a database's live keys that match a glob-style pattern, in byte order, and lent. Looks at every key of the database, and
    /// sorts the matches.
    pub fn matching(
        &self,
        alloc: Global,
        now: u64,
        database: Db,
        pattern: &[u8],
    ) -> Result<Vec<&Blob>, Memory>
        ensures { IfOk result (λ names. prelude.map deref names.items ≡ filter (matches pattern.now) (names_in (model.live self.now now) database)) }
    {
        let now = self.sweeps.later(now);
        self.databases.matching(alloc, now, database, pattern)
    }

    /// Stores a value and its deadline in the place of whatever the key had. Where memory runs out nothing changes. With a deadline
    /// that is not after the latest sweep it first takes out each key that is gone. One of -2^63 milliseconds is answered as want of memory.
    pub fn put(
        &mut self,
        database: Db,
        name: Blob,
        value: Value,
        deadline: Option<i64>,
    ) -> Result<(), Memory>
        ensures ok { OnOk result (self.new ≡ map.insert self.old (key_of database name) (record { value = value_of value; deadline = deadline })) }
        ensures err { OnErr result (self.new ≡ self.old) }
    {
        self.sweeps.settle(&mut self.databases, deadline);
        self.databases.put(database, name, value, deadline)
    }

    /// Stores a value, in place, at a key that is there and has no deadline: with one hash of its name, no copy and no allocation. Where
    /// the key isn't so, the value comes back, and nothing changed.
    pub fn rewrite(&mut self, database: Db, name: &Blob, value: Value) -> Option<Value>
        ensures written { IfNone result (self.new ≡ map.insert self.old (key_of database name.now) (record { value = value_of value; deadline = None })) }
        ensures exact { is_some result ≡ not (is_undated (map.get self.old (key_of database name.now))) }
        ensures back { IfSome result (λ back. back ≡ value) }
        ensures unchanged { OnSome result (self.new ≡ self.old) }
    {
        self.databases.rewrite(database, name, value)
    }

    /// Stores a text, in place, at a key that is there and has no deadline, and says whether it is so: with one hash of its name. The bytes of a string
    /// that was there are written over where these need a block, fit in that and take at least half of it: then they take no memory. Where the key isn't
    /// so, or memory runs out, nothing changed.
    pub fn write_text(&mut self, database: Db, name: &Blob, text: &[u8]) -> Result<bool, Memory>
        ensures exact { IfOk result (λ written. written ≡ is_undated (map.get self.old (key_of database name.now))) }
        ensures ok { IfOk result (λ written. self.new ≡ written_if written self.old (key_of database name.now) text.now) }
        ensures err { OnErr result (self.new ≡ self.old) }
    {
        self.databases.write_text(database, name, text)
    }

    /// Has the value of a live key edited, in place, with one hash of its name. Its deadline stays. `None` where no such key is live.
    /// Where memory runs out nothing changes.
    pub fn edit<E: Edit>(
        &mut self,
        now: u64,
        database: Db,
        name: &Blob,
        edit: E,
    ) -> Result<Option<E::Given>, Memory>
        ensures ok { let key = key_of database name.now in IfOk result
            (λ given. IsEdited (E.edits edit) self.old self.new key (map.get (model.live self.old now) key) given) }
        ensures err { OnErr result (self.new ≡ self.old) }
    {
        self.databases
            .edit(self.sweeps.later(now), database, name, edit)
    }

    /// Takes a live key out, and gives its value.
    pub fn remove(&mut self, now: u64, database: Db, name: &Blob) -> Option<Value>
        ensures value { option_map value_of result ≡ option_map (λ stored. stored.value) (map.get (model.live self.old now) (key_of database name.now)) }
        ensures removed { OnSome result (self.new ≡ map.remove self.old (key_of database name.now)) }
        ensures unchanged { IfNone result (self.new ≡ self.old) }
    {
        self.databases
            .remove(self.sweeps.later(now), database, name)
    }

    /// Gives a live key another deadline, or none, and says whether there was one. Where memory runs out nothing changes. With a
    /// deadline that is not after the latest sweep it first takes out each key that is gone. One of -2^63 milliseconds is answered as want of
    /// memory.
    pub fn set_deadline(
        &mut self,
        now: u64,
        database: Db,
        name: &Blob,
        deadline: Option<i64>,
    ) -> Result<bool, Memory>
        ensures live { IfOk result (λ was_live. was_live ≡ is_some (map.get (model.live self.old now) (key_of database name.now))) }
        ensures ok { let key = key_of database name.now in OnOk result (self.new ≡ redated self.old key (map.get (model.live self.old now) key) deadline) }
        ensures err { OnErr result (self.new ≡ self.old) }
    {
        self.sweeps.settle(&mut self.databases, deadline);
        let now = self.sweeps.later(now);
        self.databases.set_deadline(now, database, name, deadline)
    }

    /// Exchanges two databases, in constant time.
    pub fn swap(&mut self, a: Db, b: Db)
        ensures { (key : model.Key) → map.get self.new key ≡ map.get self.old (exchanged a b key) }
    {
        self.databases.swap(a, b);
    }

    /// Takes every key of a database out. Linear in what is stored there.
    pub fn clear(&mut self, database: Db)
        ensures { (key : model.Key) → map.get self.new key ≡ cond (key.database == database) None (map.get self.old key) }
    {
        self.databases.clear(database);
    }

    /// Takes every key of every database out. Linear in what is stored.
    pub fn clear_all(&mut self)
        ensures { self.new ≡ map.empty }
    {
        self.databases.clear_all();
    }

    /// Each key that is gone at the moment is seen no more. At most four of them are taken out, of one database, whose turn it is until
    /// none of it is left: no sweep pays for all.
    pub fn sweep(&mut self, now: u64)
        ensures { self.new ≡ model.live self.old now }
    {
        self.sweeps.sweep(&mut self.databases, now);
    }
}

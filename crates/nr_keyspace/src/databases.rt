// All sixteen databases, with what is gone and not yet taken out, seen as one finite map from (database, name) to value and deadline.
ghost use Rattle.std.specs.Prelude as prelude;
ghost use Rattle.std.specs.Prelude.{◌≡◌, ◌<◌, ◌^◌, not, ◌==◌, cond, ℕ, length, filter, IfOk, OnOk, OnErr, None, IfSome, OnSome, IfNone, is_some};
ghost use Rattle.std.specs.Option.{option_map};
ghost use Rattle.std.specs.FinMap as map;
ghost use Rattle.std.specs.Map.Iter.{deref};
ghost use Rattle.nr_model.specs.Patterns.{matches};
ghost use Rattle.nr_model.specs.Keyspace as model;
ghost use Rattle.nr_model.specs.Keyspace.{names_in};
ghost use Rattle.nr_keyspace.specs.Values.{value_of};
ghost use Rattle.nr_keyspace.specs.Edited.{IsEdited};
ghost use Rattle.nr_keyspace.specs.Stores.{is_undated, redated, written_if};
ghost use Rattle.nr_keyspace.specs.Joined.{key_of, store_at, exchanged, IsSwept};
ghost use Rattle.nr_keyspace.specs.Swept.{IsSweptAt};

use crate::database::Database;
use crate::db::{DATABASES, Db};
use crate::edit::Edit;
use crate::value::Value;
use nr_blob::{Blob, Memory};
use std::alloc::Global;
use std::hash::RandomState;
use std::marker::Model;

pub(crate) mod sweeps;

/// Keys with their values and deadlines, in sixteen databases, as they are stored.
#[derive(Drop)]
pub(crate) struct Databases {
    databases: Vec<Database>,
}

impl Model for Databases {
    ghost use Rattle.std.specs.Prelude.{◌≡◌, length};
    ghost use Rattle.nr_model.specs.Keyspace as model;
    ghost use Rattle.nr_keyspace.specs.Joined.{joined};

    ghost Value = { model.Keyspace };

    ghost coded = { model.coded_keyspace };

    ghost view = { λ d. joined d.databases.items };

    ghost invariant = { λ d. length d.databases.items ≡ model.how_many_databases };
}

fn empty_databases(alloc: Global, keys: RandomState) -> Result<Vec<Database>, Memory>
    ensures count { IfOk result (λ databases. length databases.items ≡ model.how_many_databases) }
    ensures empty { IfOk result (λ databases. (database : ℕ) → store_at databases.items database ≡ map.empty) }
{
    let mut databases = Vec::with_capacity(alloc, DATABASES)?;
    for _ in 0..DATABASES {
        databases.push(Database::new(alloc, keys))?;
    }
    Ok(databases)
}

fn copy_each(alloc: Global, databases: &[Database]) -> Result<Vec<Database>, Memory>
    ensures { IfOk result (λ copies. copies.items ≡ databases.now) }
{
    let mut copies = Vec::with_capacity(alloc, databases.len())?;
    for database in databases {
        copies.push(database.copy(alloc)?)?;
    }
    Ok(copies)
}

fn sweep_each(databases: &mut [Database], now: u64)
    ensures { IsSwept now databases.old databases.new }
{
    for database in databases.iter_mut() {
        database.sweep(now);
    }
}

fn clear_each(alloc: Global, databases: &mut [Database])
    ensures { (database : ℕ) → store_at databases.new database ≡ map.empty }
{
    for database in databases.iter_mut() {
        database.clear(alloc);
    }
}

impl Databases {
    /// Sixteen empty databases. Strangers choose the keys, so the hasher takes a seed of its own.
    pub(crate) fn new(alloc: Global, keys: RandomState) -> Result<Databases, Memory>
        ensures { IfOk result (λ databases. databases ≡ map.empty) }
    {
        Ok(Databases {
            databases: empty_databases(alloc, keys)?,
        })
    }

    /// The same keyspace once more, with what is gone and not swept. Linear in what is stored.
    pub(crate) fn copy(&self) -> Result<Databases, Memory>
        ensures { IfOk result (λ databases. databases ≡ self.now) }
    {
        let alloc = *self.databases.allocator();
        Ok(Databases {
            databases: copy_each(alloc, &self.databases)?,
        })
    }

    /// The value of a live key.
    pub(crate) fn get(&self, now: u64, database: Db, name: &Blob) -> Option<&Value>
        ensures { option_map (λ value. value_of value.now) result
            ≡ option_map (λ stored. stored.value) (map.get (model.live self.now now) (key_of database name.now)) }
    {
        self.databases[database.index()].get(now, name)
    }

    /// The deadline of a live key, if it has one.
    pub(crate) fn deadline(&self, now: u64, database: Db, name: &Blob) -> Option<Option<i64>>
        ensures { result ≡ option_map (λ stored. stored.deadline) (map.get (model.live self.now now) (key_of database name.now)) }
    {
        self.databases[database.index()].deadline(now, name)
    }

    /// How many keys are live in a database. Logarithmic in its deadlines.
    pub(crate) fn len(&self, now: u64, database: Db) -> usize
        ensures count { result ≡ length (names_in (model.live self.now now) database) }
        ensures small { result < 2 ^ 63 }
    {
        self.databases[database.index()].len(now)
    }

    /// The names of a database's live keys that match a pattern, in byte order. Looks at every key of the database, and sorts the matches.
    pub(crate) fn matching(
        &self,
        alloc: Global,
        now: u64,
        database: Db,
        pattern: &[u8],
    ) -> Result<Vec<&Blob>, Memory>
        ensures { IfOk result (λ names. prelude.map deref names.items ≡ filter (matches pattern.now) (names_in (model.live self.now now) database)) }
    {
        self.databases[database.index()].matching(alloc, now, pattern)
    }

    /// Stores a value and its deadline in the place of whatever the key had. Where memory runs out nothing changes.
    pub(crate) fn put(
        &mut self,
        database: Db,
        name: Blob,
        value: Value,
        deadline: Option<i64>,
    ) -> Result<(), Memory>
        ensures ok { OnOk result (self.new ≡ map.insert self.old (key_of database name) (record { value = value_of value; deadline = deadline })) }
        ensures err { OnErr result (self.new ≡ self.old) }
    {
        self.databases[database.index()].put(name, value, deadline)
    }

    /// Stores a value, in place, at a key that is there and has no deadline. Else the value comes back.
    pub(crate) fn rewrite(&mut self, database: Db, name: &Blob, value: Value) -> Option<Value>
        ensures written { IfNone result (self.new ≡ map.insert self.old (key_of database name.now) (record { value = value_of value; deadline = None })) }
        ensures exact { is_some result ≡ not (is_undated (map.get self.old (key_of database name.now))) }
        ensures back { IfSome result (λ back. back ≡ value) }
        ensures unchanged { OnSome result (self.new ≡ self.old) }
    {
        self.databases[database.index()].rewrite(name, value)
    }

    /// Stores a text, in place, at a key that is there and has no deadline, and says whether it is so.
    pub(crate) fn write_text(
        &mut self,
        database: Db,
        name: &Blob,
        text: &[u8],
    ) -> Result<bool, Memory>
        ensures exact { IfOk result (λ written. written ≡ is_undated (map.get self.old (key_of database name.now))) }
        ensures ok { IfOk result (λ written. self.new ≡ written_if written self.old (key_of database name.now) text.now) }
        ensures err { OnErr result (self.new ≡ self.old) }
    {
        self.databases[database.index()].write_text(name, text)
    }

    /// Has the value of a live key edited, if there is one.
    pub(crate) fn edit<E: Edit>(
        &mut self,
        now: u64,
        database: Db,
        name: &Blob,
        edit: E,
    ) -> Result<Option<E::Given>, Memory>
        ensures ok { let key = key_of database name.now in IfOk result
            (λ given. IsEdited (E.edits edit) self.old self.new key (map.get (model.live self.old now) key) given) }
        ensures err { OnErr result (self.new ≡ self.old) }
    {
        self.databases[database.index()].edit(now, name, edit)
    }

    /// Takes a live key out, and gives its value.
    pub(crate) fn remove(&mut self, now: u64, database: Db, name: &Blob) -> Option<Value>
        ensures value { option_map value_of result ≡ option_map (λ stored. stored.value) (map.get (model.live self.old now) (key_of database name.now)) }
        ensures removed { OnSome result (self.new ≡ map.remove self.old (key_of database name.now)) }
        ensures unchanged { IfNone result (self.new ≡ self.old) }
    {
        self.databases[database.index()].remove(now, name)
    }

    /// Gives a live key another deadline, or none, and says whether there was one. Where memory runs out nothing changes.
    pub(crate) fn set_deadline(
        &mut self,
        now: u64,
        database: Db,
        name: &Blob,
        deadline: Option<i64>,
    ) -> Result<bool, Memory>
        ensures live { IfOk result (λ was_live. was_live ≡ is_some (map.get (model.live self.old now) (key_of database name.now))) }
        ensures ok { let key = key_of database name.now in OnOk result (self.new ≡ redated self.old key (map.get (model.live self.old now) key) deadline) }
        ensures err { OnErr result (self.new ≡ self.old) }
    {
        self.databases[database.index()].set_deadline(now, name, deadline)
    }

    /// Exchanges two databases, in constant time.
    pub(crate) fn swap(&mut self, a: Db, b: Db)
        ensures { (key : model.Key) → map.get self.new key ≡ map.get self.old (exchanged a b key) }
    {
        self.databases.swap(a.index(), b.index());
    }

    /// Takes every key of a database out. Linear in what is stored there.
    pub(crate) fn clear(&mut self, database: Db)
        ensures { (key : model.Key) → map.get self.new key ≡ cond (key.database == database) None (map.get self.old key) }
    {
        let alloc = *self.databases.allocator();
        self.databases[database.index()].clear(alloc);
    }

    /// Takes every key out. Linear in what is stored.
    pub(crate) fn clear_all(&mut self)
        ensures { self.new ≡ map.empty }
    {
        let alloc = *self.databases.allocator();
        clear_each(alloc, &mut self.databases);
    }

    // Takes each key out that is gone at the moment. It looks at those alone, found by their deadlines.
    fn sweep(&mut self, now: u64)
        ensures { self.new ≡ model.live self.old now }
    {
        sweep_each(&mut self.databases, now);
    }

    // Takes a few of the keys of one database out that are gone at the moment. Says whether there may be more.
    fn sweep_some(&mut self, now: u64, database: Db) -> bool
        ensures same_live { model.live self.new now ≡ model.live self.old now }
        ensures swept { IsSweptAt now database result self.old self.new }
    {
        self.databases[database.index()].sweep_some(now)
    }
}

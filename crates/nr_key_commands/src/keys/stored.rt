// What a key holds, on its way to another key.
ghost use Rattle.std.specs.Prelude.{◌≡◌, IfOk, IfNone, OnOk, OnSome};
ghost use Rattle.std.specs.FinMap as map;
ghost use Rattle.nr_model.specs.Keyspace.{live, key_of};

use nr_blob::{Blob, Memory};
use nr_keyspace::{Db, Keyspace, Value};
use std::alloc::Global;
use std::marker::Model;

/// A value and its deadline.
#[derive(Drop)]
pub(super) struct Stored {
    pub(super) value: Value,
    pub(super) deadline: Option<i64>,
}

impl Model for Stored {
    ghost use Rattle.nr_model.specs.Keyspace as model;
    ghost use Rattle.nr_keyspace.specs.Values.{value_of};

    ghost Value = { model.Stored };

    ghost coded = { model.coded_stored };

    ghost view = { λ held. record { value = value_of held.value; deadline = held.deadline } };
}

/// Takes a key out, with its deadline.
pub(super) fn take(keyspace: &mut Keyspace, now: u64, database: Db, name: &Blob) -> Option<Stored>
    requires { live keyspace.old now ≡ keyspace.old }
    ensures held { result ≡ map.get keyspace.old (key_of database name.now) }
    ensures removed { OnSome result (keyspace.new ≡ map.remove keyspace.old (key_of database name.now)) }
    ensures unchanged { IfNone result (keyspace.new ≡ keyspace.old) }
{
    let deadline = keyspace.deadline(now, database, name)?;
    let value = keyspace.remove(now, database, name)?;
    Some(Stored { value, deadline })
}

/// What a key holds once more. Linear in the size of its value.
pub(super) fn copy_of(
    alloc: Global,
    keyspace: &Keyspace,
    now: u64,
    database: Db,
    name: &Blob,
) -> Result<Option<Stored>, Memory>
    ensures { IfOk result (λ held. held ≡ map.get (live keyspace.now now) (key_of database name.now)) }
{
    let Some(deadline) = keyspace.deadline(now, database, name) else {
        return Ok(None);
    };
    let Some(value) = keyspace.get(now, database, name) else {
        return Ok(None);
    };
    Ok(Some(Stored {
        value: value.copy(alloc)?,
        deadline,
    }))
}

/// A key holds this from now on, whatever it held. Its name is copied.
pub(super) fn give(
    keyspace: &mut Keyspace,
    database: Db,
    name: &Blob,
    held: Stored,
) -> Result<(), Memory>
    ensures { OnOk result (keyspace.new ≡ map.insert keyspace.old (key_of database name.now) held) }
{
    keyspace.put(database, name.copy()?, held.value, held.deadline)?;
    Ok(())
}

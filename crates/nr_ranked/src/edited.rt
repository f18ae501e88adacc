// The sorted set that a key holds, edited where it lies.
ghost use Rattle.std.specs.Prelude.{◌≡◌, None, Ok, IfOk, OnOk, IfErr};
ghost use Rattle.std.specs.FinMap as map;
ghost use Rattle.nr_model.specs.Keyspace.{live, key_of, Scores};
ghost use Rattle.nr_model.specs.Commands.Held.{kept};
ghost use Rattle.nr_model.specs.Commands.SortedSets as sorted_sets;
ghost use Rattle.nr_resp.specs.Failures.{IfRefused};
ghost use Rattle.nr_ranked.specs.Edited.{IsHeld, IsMade, IsRefusedBy};

use nr_blob::{Blob, Memory};
use nr_keyspace::{Db, Keyspace, SortedSetEdit, Value};
use nr_resp::Failure;
use nr_zsets::Zset;
use std::alloc::Global;

/// Has the sorted set that a key holds edited, in place, under the deadline that it has. A missing key is the sorted set without members. A key of
/// another kind is refused. One look-up of the key where it is there.
pub(crate) fn edit_at<E: SortedSetEdit + Copy>(
    alloc: Global,
    keyspace: &mut Keyspace,
    now: u64,
    database: Db,
    name: &Blob,
    edit: E,
) -> Result<E::Given, Failure>
where
    E::Given: Drop,
    requires { live keyspace.old now ≡ keyspace.old }
    ensures ok { let key = key_of database name.now in IfOk result
        (λ given. IsHeld (E.edits edit) keyspace.old keyspace.new key (map.get keyspace.old key) given) }
    ensures refused { IfErr result (λ failure. IfRefused failure
        (λ error. (keyspace.new ≡ keyspace.old) × IsRefusedBy (E.edits edit) (sorted_sets.sorted_at keyspace.old database name.now) error)) }
{
    let Some(given) = keyspace.edit_sorted_set(now, database, name, edit)? else {
        return make_at(alloc, keyspace, database, name, edit);
    };
    Ok(given?)
}

// A missing key holds what becomes of the sorted set without members.
fn make_at<E: SortedSetEdit>(
    alloc: Global,
    keyspace: &mut Keyspace,
    database: Db,
    name: &Blob,
    edit: E,
) -> Result<E::Given, Failure>
where
    E::Given: Drop,
    requires { map.get keyspace.old (key_of database name.now) ≡ None }
    ensures ok { IfOk result (λ given. IsMade (E.edits edit) keyspace.old keyspace.new (key_of database name.now) given) }
    ensures refused { IfErr result (λ failure. IfRefused failure
        (λ error. (keyspace.new ≡ keyspace.old) × IsRefusedBy (E.edits edit) (Ok map.empty) error)) }
{
    let mut zset = keyspace.empty_sorted_set(alloc);
    let given = edit.edit(&mut zset)??;
    put(alloc, keyspace, database, name, zset)?;
    Ok(given)
}

// A missing key holds a sorted set, and stays missing where that has no members.
fn put(
    alloc: Global,
    keyspace: &mut Keyspace,
    database: Db,
    name: &Blob,
    zset: Zset,
) -> Result<(), Memory>
    requires { map.get keyspace.old (key_of database name.now) ≡ None }
    ensures { OnOk result (keyspace.new ≡ kept keyspace.old (key_of database name.now) (record { value = Scores zset; deadline = None })) }
{
    if zset.len() == 0 {
        return Ok(());
    }
    let value = Value::sorted_set(alloc, zset)?;
    keyspace.put(database, name.copy()?, value, None)
}

// The hash that a key holds, edited where it lies.
ghost use Rattle.std.specs.Prelude.{◌≡◌, None, Ok, IfOk, OnOk, IfErr};
ghost use Rattle.std.specs.FinMap as map;
ghost use Rattle.nr_model.specs.Keyspace.{live, key_of, Fields};
ghost use Rattle.nr_model.specs.Commands.Held.{kept};
ghost use Rattle.nr_model.specs.Commands.Hashes as hashes;
ghost use Rattle.nr_resp.specs.Failures.{IfRefused};
ghost use Rattle.nr_members.specs.HashesEdited.{IsHeld, IsMade, IsRefusedBy};

use nr_blob::{Blob, Memory};
use nr_hashes::Hash;
use nr_keyspace::{Db, HashEdit, Keyspace, Value};
use nr_resp::Failure;
use std::alloc::Global;

/// Has the hash that a key holds edited, in place, under the deadline that it has. A missing key is the hash without fields. A key of
/// another kind is refused. One look-up of the key where it is there.
pub(super) fn edit_at<E: HashEdit + Copy>(
    alloc: Global,
    keyspace: &mut Keyspace,
    now: u64,
    database: Db,
    name: &Blob,
    edit: E,
) -> Result<E::Given, Failure>
where
    E::Given: Drop,
    requires { live keyspace.old now ≡ keyspace.old }
    ensures ok { let key = key_of database name.now in IfOk result
        (λ given. IsHeld (E.edits edit) keyspace.old keyspace.new key (map.get keyspace.old key) given) }
    ensures refused { IfErr result (λ failure. IfRefused failure
        (λ error. (keyspace.new ≡ keyspace.old) × IsRefusedBy (E.edits edit) (hashes.hash_at keyspace.old database name.now) error)) }
{
    let Some(given) = keyspace.edit_hash(now, database, name, edit)? else {
        return make_at(alloc, keyspace, database, name, edit);
    };
    Ok(given?)
}

// A missing key holds what becomes of the hash without fields.
fn make_at<E: HashEdit>(
    alloc: Global,
    keyspace: &mut Keyspace,
    database: Db,
    name: &Blob,
    edit: E,
) -> Result<E::Given, Failure>
where
    E::Given: Drop,
    requires { map.get keyspace.old (key_of database name.now) ≡ None }
    ensures ok { IfOk result (λ given. IsMade (E.edits edit) keyspace.old keyspace.new (key_of database name.now) given) }
    ensures refused { IfErr result (λ failure. IfRefused failure
        (λ error. (keyspace.new ≡ keyspace.old) × IsRefusedBy (E.edits edit) (Ok map.empty) error)) }
{
    let mut hash = Hash::new(alloc);
    let given = edit.edit(&mut hash)??;
    put(keyspace, database, name, hash)?;
    Ok(given)
}

// A missing key holds a hash, and stays missing where that has no fields.
fn put(keyspace: &mut Keyspace, database: Db, name: &Blob, hash: Hash) -> Result<(), Memory>
    requires { map.get keyspace.old (key_of database name.now) ≡ None }
    ensures { OnOk result (keyspace.new ≡ kept keyspace.old (key_of database name.now) (record { value = Fields hash; deadline = None })) }
{
    if hash.len() == 0 {
        return Ok(());
    }
    keyspace.put(database, name.copy()?, Value::from(hash), None)
}

// The commands that put what a key holds under another key.
ghost use Rattle.std.specs.Prelude.{◌≡◌, ◌∷◌, [], true, Some, None, is_some, IfOk, OnOk, IfErr};
ghost use Rattle.std.specs.FinMap as map;
ghost use Rattle.nr_model.specs.Keyspace.{Stored, live, key_of};
ghost use Rattle.nr_model.specs.Commands.Shape.{staying};
ghost use Rattle.nr_model.specs.Commands.Keys as keys;
ghost use Rattle.nr_resp.specs.Done.{Performs};
ghost use Rattle.nr_keyspace.specs.Touched.{Touches};
ghost use Rattle.nr_resp.specs.declared.failure.Failure.TheVariants as failures;
ghost use Rattle.nr_model.specs.declared.refused.Refused.TheVariants as refusals;

use crate::databases::database_index;
use crate::keys::stored::{give, take};
use nr_blob::{Blob, Memory};
use nr_keyspace::{Db, Keyspace, Touched};
use nr_model::refused::Refused;
use nr_resp::words::two_words;
use nr_resp::{Failure, Reply};

/// `RENAME key newkey`
pub fn rename<T: Touched>(
    keyspace: &mut Keyspace,
    now: u64,
    database: Db,
    words: &[Blob],
    touched: &mut T,
) -> Result<Reply, Failure>
    requires { live keyspace.old now ≡ keyspace.old }
    ensures { Performs T.after result keyspace.new database touched.old touched.new
        (staying database (keys.rename keyspace.old database words.now)) }
{
    let (name, new_name) = two_words(words)?;
    if name == new_name {
        return if_there(keyspace, now, database, name, Reply::Simple("OK"));
    }
    if !carry(keyspace, now, database, name, database, new_name, touched)? {
        return Err(Failure::Refused(Refused::NoSuchKey));
    }
    Ok(Reply::Simple("OK"))
}

/// `RENAMENX key newkey`
pub fn rename_nx<T: Touched>(
    keyspace: &mut Keyspace,
    now: u64,
    database: Db,
    words: &[Blob],
    touched: &mut T,
) -> Result<Reply, Failure>
    requires { live keyspace.old now ≡ keyspace.old }
    ensures { Performs T.after result keyspace.new database touched.old touched.new
        (staying database (keys.rename_nx keyspace.old database words.now)) }
{
    let (name, new_name) = two_words(words)?;
    if keyspace.get(now, database, new_name).is_some() {
        return if_there(keyspace, now, database, name, Reply::Int(0));
    }
    if !carry(keyspace, now, database, name, database, new_name, touched)? {
        return Err(Failure::Refused(Refused::NoSuchKey));
    }
    Ok(Reply::Int(1))
}

/// `MOVE key db`
pub fn move_key<T: Touched>(
    keyspace: &mut Keyspace,
    now: u64,
    database: Db,
    words: &[Blob],
    touched: &mut T,
) -> Result<Reply, Failure>
    requires { live keyspace.old now ≡ keyspace.old }
    ensures { Performs T.after result keyspace.new database touched.old touched.new
        (staying database (keys.move keyspace.old database words.now)) }
{
    let (name, index) = two_words(words)?;
    let target = database_index(index)?;
    if target == database {
        return Err(Failure::Refused(Refused::SameObject));
    }
    if keyspace.get(now, target, name).is_some() {
        return Ok(Reply::Int(0));
    }
    let moved = carry(keyspace, now, database, name, target, name, touched)?;
    Ok(Reply::Int(moved as i64))
}

// Puts what a key holds under another key, whatever that held, and says whether it held something.
fn carry<T: Touched>(
    keyspace: &mut Keyspace,
    now: u64,
    database: Db,
    name: &Blob,
    target: Db,
    new_name: &Blob,
    touched: &mut T,
) -> Result<bool, Memory>
    requires { live keyspace.old now ≡ keyspace.old }
    ensures there { IfOk result (λ there. there ≡ map.contains_key keyspace.old (key_of database name.now)) }
    ensures moved { let source = key_of database name.now in let destination = key_of target new_name.now in
        (stored : Stored) → map.get keyspace.old source ≡ Some stored → OnOk result
        ((keyspace.new ≡ map.insert (map.remove keyspace.old source) destination stored) × Touches T.after touched.old touched.new (source ∷ destination ∷ [])) }
    ensures missing { map.get keyspace.old (key_of database name.now) ≡ None → OnOk result ((keyspace.new ≡ keyspace.old) × (touched.new ≡ touched.old)) }
{
    let Some(held) = take(keyspace, now, database, name) else {
        return Ok(false);
    };
    give(keyspace, target, new_name, held)?;
    touched.touch(database, name)?;
    touched.touch(target, new_name)?;
    Ok(true)
}

// The reply, where the key is there. Nothing changes.
fn if_there(
    keyspace: &Keyspace,
    now: u64,
    database: Db,
    name: &Blob,
    reply: Reply,
) -> Result<Reply, Failure>
    ensures there { IfOk result (λ given. (given ≡ reply) × (is_some (map.get (live keyspace.now now) (key_of database name.now)) ≡ true)) }
    ensures missing { IfErr result (λ failure. (failure ≡ failures.Refused refusals.NoSuchKey) × (map.get (live keyspace.now now) (key_of database name.now) ≡ None)) }
{
    if keyspace.get(now, database, name).is_none() {
        return Err(Failure::Refused(Refused::NoSuchKey));
    }
    Ok(reply)
}

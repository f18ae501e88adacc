// The commands of the section on keys.
ghost use Rattle.std.specs.Prelude.{◌≡◌};
ghost use Rattle.nr_model.specs.Keyspace.{live};
ghost use Rattle.nr_model.specs.Commands.Shape.{staying};
ghost use Rattle.nr_model.specs.Commands.Keys as keys;
ghost use Rattle.nr_resp.specs.Done.{Answers, Performs};

use nr_blob::Blob;
use nr_key_commands::keys::{copying, deadlines, del, looks, moving};
use nr_keyspace::{Db, Keyspace, Touched};
use nr_model::command::{KeysChange, KeysLook};
use nr_resp::{Failure, Reply, Shown};
use std::alloc::Global;

/// A command that only looks. The words are those behind the name.
pub(super) fn look<'k>(
    alloc: Global,
    keyspace: &'k Keyspace,
    now: u64,
    database: Db,
    command: KeysLook,
    words: &'k [Blob],
) -> Result<Shown<'k>, Failure>
    ensures { Answers result (keys.look command now (live keyspace.now now) database words.now) }
{
    match command {
        KeysLook::Exists | KeysLook::Touch => looks::exists(keyspace, now, database, words),
        KeysLook::Type => looks::kind(keyspace, now, database, words),
        KeysLook::Keys => looks::matching(alloc, keyspace, now, database, words),
        KeysLook::Ttl(unit) => looks::ttl(unit, keyspace, now, database, words),
        KeysLook::ExpireTime(unit) => looks::expire_time(unit, keyspace, now, database, words),
    }
}

/// A command that may change a keyspace whose keys are all live. The words are those behind the name.
pub(super) fn change<T: Touched>(
    alloc: Global,
    keyspace: &mut Keyspace,
    now: u64,
    database: Db,
    command: KeysChange,
    words: &[Blob],
    touched: &mut T,
) -> Result<Reply, Failure>
    requires { live keyspace.old now ≡ keyspace.old }
    ensures { Performs T.after result keyspace.new database touched.old touched.new
        (staying database (keys.change command now keyspace.old database words.now)) }
{
    match command {
        KeysChange::Del | KeysChange::Unlink => Ok(del(keyspace, now, database, words, touched)?),
        KeysChange::Rename => moving::rename(keyspace, now, database, words, touched),
        KeysChange::RenameNx => moving::rename_nx(keyspace, now, database, words, touched),
        KeysChange::Copy => copying::copy(alloc, keyspace, now, database, words, touched),
        KeysChange::Move => moving::move_key(keyspace, now, database, words, touched),
        KeysChange::Expire(timing) => {
            deadlines::expire(alloc, timing, keyspace, now, database, words, touched)
        }
        KeysChange::Persist => deadlines::persist(keyspace, now, database, words, touched),
    }
}

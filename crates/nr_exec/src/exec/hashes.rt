// The commands of the section on hashes.
ghost use Rattle.std.specs.Prelude.{◌≡◌};
ghost use Rattle.nr_model.specs.Keyspace.{live};
ghost use Rattle.nr_model.specs.Commands.Shape.{staying};
ghost use Rattle.nr_model.specs.Commands.Hashes as hashes;
ghost use Rattle.nr_resp.specs.Done.{Answers, Performs};

use nr_blob::Blob;
use nr_keyspace::{Db, Keyspace, Touched};
use nr_members::hashes::{looks, numbers, removing, setting};
use nr_model::command::{HashesChange, HashesLook};
use nr_resp::{Failure, Reply, Shown};
use std::alloc::Global;

/// A command that only looks. The words are those behind the name.
pub(super) fn look<'k>(
    alloc: Global,
    keyspace: &'k Keyspace,
    now: u64,
    database: Db,
    command: HashesLook,
    words: &'k [Blob],
) -> Result<Shown<'k>, Failure>
    ensures { Answers result (hashes.look command now (live keyspace.now now) database words.now) }
{
    match command {
        HashesLook::HGet => looks::hget(keyspace, now, database, words),
        HashesLook::HMGet => looks::hmget(alloc, keyspace, now, database, words),
        HashesLook::HLen => looks::hlen(keyspace, now, database, words),
        HashesLook::HExists => looks::hexists(keyspace, now, database, words),
        HashesLook::HStrLen => looks::hstrlen(keyspace, now, database, words),
        HashesLook::HKeys => looks::hkeys(alloc, keyspace, now, database, words),
        HashesLook::HVals => looks::hvals(alloc, keyspace, now, database, words),
        HashesLook::HGetAll => looks::hgetall(alloc, keyspace, now, database, words),
    }
}

/// A command that may change a keyspace whose keys are all live. The words are those behind the name.
pub(super) fn change<T: Touched>(
    alloc: Global,
    keyspace: &mut Keyspace,
    now: u64,
    database: Db,
    command: HashesChange,
    words: &[Blob],
    touched: &mut T,
) -> Result<Reply, Failure>
    requires { live keyspace.old now ≡ keyspace.old }
    ensures { Performs T.after result keyspace.new database touched.old touched.new
        (staying database (hashes.change command now keyspace.old database words.now)) }
{
    match command {
        HashesChange::HSet => setting::hset(alloc, keyspace, now, database, words, touched),
        HashesChange::HMSet => setting::hmset(alloc, keyspace, now, database, words, touched),
        HashesChange::HSetNx => setting::hset_nx(alloc, keyspace, now, database, words, touched),
        HashesChange::HDel => removing::hdel(alloc, keyspace, now, database, words, touched),
        HashesChange::HIncrBy => numbers::hincr_by(alloc, keyspace, now, database, words, touched),
    }
}

// The commands that make one sorted set of several keys.
ghost use Rattle.std.specs.Prelude.{◌≡◌, Ok, Err, IfOk, IfErr};
ghost use Rattle.nr_model.specs.Keyspace.{live, key_of};
ghost use Rattle.nr_model.specs.Commands.Shape.{staying};
ghost use Rattle.nr_model.specs.Commands.Sets.{cleared};
ghost use Rattle.nr_model.specs.Commands.SortedSets as sorted_sets;
ghost use Rattle.nr_resp.specs.Seen.{reply_of};
ghost use Rattle.nr_resp.specs.Done.{IsDone, Performs};
ghost use Rattle.nr_resp.specs.Failures.{IfRefused};
ghost use Rattle.nr_ranked.specs.Storing.{joined_at, request_of};

use crate::storing::joining::{built, gathered};
use crate::storing::reading::{StoreRequest, store_request};
use crate::storing::sources::sources_at;
use nr_blob::{Blob, Memory};
use nr_keyspace::{Db, Keyspace, Touched, Value};
use nr_model::command::Joining;
use nr_resp::{Failure, Reply};
use nr_zsets::Zset;
use std::alloc::Global;

mod joining;
mod reading;
mod sources;

/// `ZUNIONSTORE destination numkeys key [key ..] [WEIGHTS weight [weight ..]] [AGGREGATE SUM | MIN | MAX]`, and ZINTERSTORE with the same words.
/// O(n log n) in the members of all keys; ZINTERSTORE looks each of them up in each key, too. The members of all are lent; each that is
/// looked up or stored is copied.
pub fn join_store<T: Touched>(
    joining: Joining,
    alloc: Global,
    keyspace: &mut Keyspace,
    now: u64,
    database: Db,
    words: &[Blob],
    touched: &mut T,
) -> Result<Reply, Failure>
    requires { live keyspace.old now ≡ keyspace.old }
    ensures { Performs T.after result keyspace.new database touched.old touched.new
        (staying database (sorted_sets.join_store joining keyspace.old database words.now)) }
{
    let request = store_request(alloc, words)?;
    let target = request.target;
    let zset = joined(joining, alloc, keyspace, now, database, request)?;
    Ok(put(alloc, keyspace, now, database, target, zset, touched)?)
}

// What keys hold, as one sorted set.
fn joined(
    joining: Joining,
    alloc: Global,
    keyspace: &Keyspace,
    now: u64,
    database: Db,
    request: StoreRequest<'_>,
) -> Result<Zset, Failure>
    ensures joined { IfOk result (λ zset. joined_at joining (live keyspace.now now) database (request_of request.entry) ≡ Ok zset) }
    ensures refused { IfErr result
        (λ failure. IfRefused failure (λ error. joined_at joining (live keyspace.now now) database (request_of request.entry) ≡ Err error)) }
{
    let options = request.options;
    let held = sources_at(alloc, keyspace, now, database, request.names)?;
    let sums = gathered(alloc, options.aggregate, &held, &options.weights)?;
    built(
        joining,
        alloc,
        &held,
        &sums,
        keyspace.empty_sorted_set(alloc),
    )
}

// The key holds the sorted set, whatever it held, and has no deadline. One without members is no key.
fn put<T: Touched>(
    alloc: Global,
    keyspace: &mut Keyspace,
    now: u64,
    database: Db,
    target: &Blob,
    zset: Zset,
    touched: &mut T,
) -> Result<Reply, Memory>
    requires { live keyspace.old now ≡ keyspace.old }
    ensures { IfOk result (λ reply. IsDone T.after (reply_of reply) keyspace.new database touched.old touched.new
        (staying database (sorted_sets.stored keyspace.old (key_of database target.now) zset))) }
{
    let len = zset.len();
    if len == 0 {
        return clear(keyspace, now, database, target, touched);
    }
    keyspace.put(
        database,
        target.copy()?,
        Value::sorted_set(alloc, zset)?,
        None,
    )?;
    touched.touch(database, target)?;
    Ok(Reply::Int(len as i64))
}

// The key goes, if it is there.
fn clear<T: Touched>(
    keyspace: &mut Keyspace,
    now: u64,
    database: Db,
    name: &Blob,
    touched: &mut T,
) -> Result<Reply, Memory>
    requires { live keyspace.old now ≡ keyspace.old }
    ensures { IfOk result (λ reply. IsDone T.after (reply_of reply) keyspace.new database touched.old touched.new
        (staying database (cleared keyspace.old (key_of database name.now)))) }
{
    if keyspace.remove(now, database, name).is_none() {
        return Ok(Reply::Int(0));
    }
    touched.touch(database, name)?;
    Ok(Reply::Int(0))
}

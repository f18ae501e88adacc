// The commands on keys that only look.
ghost use Rattle.std.specs.Prelude.{◌≡◌, ◌≤◌, true, pos, length, filter, ◌-ℤ◌, int_lt, IfSome};
ghost use Rattle.std.specs.Option.{option_map};
ghost use Rattle.std.specs.FinMap as map;
ghost use Rattle.nr_model.specs.Keyspace.{live, key_of, is_live_at};
ghost use Rattle.nr_model.specs.Commands.Keys as keys;
ghost use Rattle.nr_resp.specs.Done.{Answers};

use nr_blob::Blob;
use nr_keyspace::{Db, Keyspace};
use nr_model::command::Unit;
use nr_resp::words::one_word;
use nr_resp::{Failure, Reply, Shown};
use std::alloc::Global;

/// `EXISTS key [key ..]`, `TOUCH key [key ..]`
pub fn exists<'k>(
    keyspace: &'k Keyspace,
    now: u64,
    database: Db,
    names: &'k [Blob],
) -> Result<Shown<'k>, Failure>
    ensures { Answers result (keys.exists (live keyspace.now now) database names.now) }
{
    let there = how_many(keyspace, now, database, names);
    Ok(Shown::Owned(Reply::Int(there as i64)))
}

// How many of the keys are there, repeats counted each time.
#[tactic(auto, using(crate::proofs::Looking::count_few))]
fn how_many(keyspace: &Keyspace, now: u64, database: Db, names: &[Blob]) -> usize
    ensures few { result ≤ length names.now }
    ensures count { result ≡ length (filter (λ name. map.contains_key (live keyspace.now now) (key_of database name)) names.now) }
{
    names
        .iter()
        .filter(|name| keyspace.get(now, database, name).is_some())
        .count()
}

/// `TYPE key`
pub fn kind<'k>(
    keyspace: &'k Keyspace,
    now: u64,
    database: Db,
    words: &'k [Blob],
) -> Result<Shown<'k>, Failure>
    ensures { Answers result (keys.kind (live keyspace.now now) database words.now) }
{
    let name = one_word(words)?;
    let kind = kind_at(keyspace, now, database, name);
    Ok(Shown::Owned(Reply::Simple(kind)))
}

// The kind of the value at a key.
fn kind_at(keyspace: &Keyspace, now: u64, database: Db, name: &Blob) -> &'static str
    ensures { result.now ≡ keys.kind_at (map.get (live keyspace.now now) (key_of database name.now)) }
{
    match keyspace.get(now, database, name) {
        Some(value) => value.kind(),
        None => "none",
    }
}

/// `KEYS pattern`. It looks at every key of the database, and sorts the names that match, which are lent.
pub fn matching<'k>(
    alloc: Global,
    keyspace: &'k Keyspace,
    now: u64,
    database: Db,
    words: &'k [Blob],
) -> Result<Shown<'k>, Failure>
    ensures { Answers result (keys.matching (live keyspace.now now) database words.now) }
{
    let pattern = one_word(words)?;
    let names = keyspace.matching(alloc, now, database, pattern.bytes())?;
    Ok(Shown::bulks(alloc, &names)?)
}

/// `TTL key`, `PTTL key`
pub fn ttl<'k>(
    unit: Unit,
    keyspace: &'k Keyspace,
    now: u64,
    database: Db,
    words: &'k [Blob],
) -> Result<Shown<'k>, Failure>
    ensures { Answers result (keys.ttl unit now (live keyspace.now now) database words.now) }
{
    let name = one_word(words)?;
    let left = match deadline_at(keyspace, now, database, name) {
        Some(Some(deadline)) => in_unit(unit, left_until(deadline, now)),
        Some(None) => -1,
        None => -2,
    };
    Ok(Shown::Owned(Reply::Int(left)))
}

// The deadline of a live key, which is after the moment.
fn deadline_at(keyspace: &Keyspace, now: u64, database: Db, name: &Blob) -> Option<Option<i64>>
    ensures deadline { result ≡ option_map (λ stored. stored.deadline) (map.get (live keyspace.now now) (key_of database name.now)) }
    ensures later { IfSome result (λ deadline. is_live_at now deadline ≡ true) }
{
    keyspace.deadline(now, database, name)
}

// How many milliseconds are left until a deadline after the moment.
fn left_until(deadline: i64, now: u64) -> i64
    requires { int_lt (pos now) deadline ≡ true }
    ensures { result ≡ deadline -ℤ pos now }
{
    deadline - now as i64
}

/// `EXPIRETIME key`, `PEXPIRETIME key`
pub fn expire_time<'k>(
    unit: Unit,
    keyspace: &'k Keyspace,
    now: u64,
    database: Db,
    words: &'k [Blob],
) -> Result<Shown<'k>, Failure>
    ensures { Answers result (keys.expire_time unit (live keyspace.now now) database words.now) }
{
    let name = one_word(words)?;
    let moment = match keyspace.deadline(now, database, name) {
        Some(Some(deadline)) => in_unit(unit, deadline),
        Some(None) => -1,
        None => -2,
    };
    Ok(Shown::Owned(Reply::Int(moment)))
}

// Milliseconds in a unit, to the nearest second.
fn in_unit(unit: Unit, milliseconds: i64) -> i64
    ensures { result ≡ keys.in_unit unit milliseconds }
{
    match unit {
        Unit::Seconds => ((milliseconds as i128 + 500) / 1000) as i64,
        Unit::Milliseconds => milliseconds,
    }
}

// What keys hold that become one sorted set.
ghost use Rattle.std.specs.Prelude.{◌≡◌, ◌++◌, ◌∷◌, [], Ok, Err, IfOk, IfErr, OnOk, map};
ghost use Rattle.std.specs.FinMap as finmap;
ghost use Rattle.nr_model.specs.Keyspace.{live};
ghost use Rattle.nr_model.specs.Commands.Reading.{fault};
ghost use Rattle.nr_model.specs.Commands.SortedSets as sorted_sets;
ghost use Rattle.nr_resp.specs.Failures.{IfRefused};
ghost use Rattle.nr_keyspace.specs.Values.{value_of};
ghost use Rattle.nr_ranked.specs.Storing.{scores_in};

use nr_blob::{Blob, Memory};
use nr_keyspace::{Db, Keyspace, Value};
use nr_model::refused::Refused;
use nr_resp::Failure;
use nr_sets::Set;
use nr_zsets::Zset;
use std::alloc::Global;

/// What a key holds that is read as a sorted set.
#[derive(Clone, Copy)]
pub(super) enum Held<'k> {
    /// No members.
    Missing,
    /// Each member has score 1.
    Set(&'k Set),
    SortedSet(&'k Zset),
}

/// What several keys hold, the kinds of all being looked at.
pub(super) fn sources_at<'k>(
    alloc: Global,
    keyspace: &'k Keyspace,
    now: u64,
    database: Db,
    names: &[Blob],
) -> Result<Vec<Held<'k>>, Failure>
    ensures sources { IfOk result (λ held. sorted_sets.sources_at (live keyspace.now now) database names.now ≡ Ok (map scores_in held.items)) }
    ensures refused { IfErr result
        (λ failure. IfRefused failure (λ error. sorted_sets.sources_at (live keyspace.now now) database names.now ≡ Err error)) }
{
    let mut held = Vec::new(alloc);
    for name in names {
        push(&mut held, source_at(keyspace, now, database, name)?)?;
    }
    Ok(held)
}

fn push<'k>(held: &mut Vec<Held<'k>>, next: Held<'k>) -> Result<(), Memory>
    ensures { OnOk result (map scores_in held.new.items ≡ map scores_in held.old.items ++ scores_in next.entry ∷ []) }
{
    held.push(next)?;
    Ok(())
}

// A key of another kind is refused.
fn source_at<'k>(
    keyspace: &'k Keyspace,
    now: u64,
    database: Db,
    name: &Blob,
) -> Result<Held<'k>, Refused>
    ensures source { IfOk result (λ held. sorted_sets.source_at (live keyspace.now now) database name.now ≡ Ok (scores_in held)) }
    ensures refused { IfErr result (λ why. sorted_sets.source_at (live keyspace.now now) database name.now ≡ fault why) }
{
    match keyspace.get(now, database, name) {
        Some(value) => source_of(value),
        None => Ok(Held::Missing),
    }
}

fn source_of(value: &Value) -> Result<Held<'_>, Refused>
    ensures source { IfOk result (λ held. sorted_sets.source_of (value_of value.now) ≡ Ok (scores_in held)) }
    ensures refused { IfErr result (λ why. sorted_sets.source_of (value_of value.now) ≡ fault why) }
{
    if let Ok(set) = value.as_set() {
        return Ok(Held::Set(set));
    }
    Ok(Held::SortedSet(value.as_sorted_set()?))
}

/// Whether this is a member. It looks at one block of a set, and is a look-up by hash in a sorted set.
pub(super) fn has(held: Held<'_>, member: &Blob) -> bool
    ensures { result ≡ finmap.contains_key (scores_in held.entry) member.now }
{
    match held {
        Held::Missing => false,
        Held::Set(set) => set.contains(member),
        Held::SortedSet(zset) => zset.score(member).is_some(),
    }
}

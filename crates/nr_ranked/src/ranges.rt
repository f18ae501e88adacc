// The commands that tell of ranges of a sorted set.
ghost use Rattle.std.specs.Prelude.{◌≡◌, IfOk, flat_map, map};
ghost use Rattle.nr_model.specs.Keyspace.{live};
ghost use Rattle.nr_model.specs.Replies as replies;
ghost use Rattle.nr_model.specs.Commands.SortedSets as sorted_sets;
ghost use Rattle.nr_model.specs.declared.command.RangeBy.TheVariants as by_ranges;
ghost use Rattle.nr_resp.specs.Done.{Answers};
ghost use Rattle.nr_resp.specs.Shown.{item_reply};
ghost use Rattle.nr_zsets.specs.Lists.{shown};

use crate::ranges::reading::{ends_request, range_request};
use crate::ranges::telling::{count_in, told_in};
use crate::stored::zset_at;
use nr_blob::{Blob, Memory};
use nr_keyspace::{Db, Keyspace};
use nr_model::command::{Direction, RangeBy, RangeForm};
use nr_resp::{Failure, Item, Reply, Shown};
use std::alloc::Global;

pub(crate) mod ends;
mod options;
pub(crate) mod reading;
pub(crate) mod telling;

/// `ZRANGE key start end [BYSCORE | BYLEX] [REV] [LIMIT offset count] [WITHSCORES]`, and its older names `ZREVRANGE`, `ZRANGEBYSCORE`,
/// `ZREVRANGEBYSCORE`, `ZRANGEBYLEX` and `ZREVRANGEBYLEX`. Logarithmic, and linear in the members that are shown; by the bytes of members
/// of different scores it looks at every member. What is shown is lent.
pub fn range<'k>(
    alloc: Global,
    form: RangeForm,
    keyspace: &'k Keyspace,
    now: u64,
    database: Db,
    words: &'k [Blob],
) -> Result<Shown<'k>, Failure>
    ensures { Answers result (sorted_sets.range form (live keyspace.now now) database words.now) }
{
    let request = range_request(form, words)?;
    let Some(zset) = zset_at(keyspace, now, database, request.name)? else {
        return Ok(Shown::Items(Vec::new(alloc)));
    };
    let direction = direction_of(request.options.reversed);
    let told = told_in(alloc, zset, &request.ends, direction, request.options.limit)?;
    Ok(Shown::Items(items_of(alloc, &told, request.options.with_scores)?))
}

fn direction_of(reversed: bool) -> Direction
    ensures { result ≡ sorted_sets.direction_of reversed }
{
    if reversed {
        Direction::Descending
    } else {
        Direction::Ascending
    }
}

// Members, each with its score behind it where they are asked for.
fn items_of<'k>(
    alloc: Global,
    told: &[(&'k [u8], i64)],
    with_scores: bool,
) -> Result<Vec<Item<'k>>, Memory>
    ensures { IfOk result (λ items. replies.array (map item_reply items.items) ≡ sorted_sets.members_array with_scores (map shown told.now)) }
{
    if with_scores {
        pairs_of(alloc, told)
    } else {
        members_of(alloc, told)
    }
}

fn members_of<'k>(alloc: Global, told: &[(&'k [u8], i64)]) -> Result<Vec<Item<'k>>, Memory>
    ensures { IfOk result (λ items. map item_reply items.items ≡ map (λ scored. replies.Bulk scored.0) (map shown told.now)) }
{
    let mut items = Vec::with_capacity(alloc, told.len())?;
    for (member, _) in told {
        items.push(Item::Bulk(member))?;
    }
    Ok(items)
}

fn pairs_of<'k>(alloc: Global, told: &[(&'k [u8], i64)]) -> Result<Vec<Item<'k>>, Memory>
    ensures { IfOk result (λ items. map item_reply items.items ≡ flat_map sorted_sets.with_score (map shown told.now)) }
{
    let mut items = Vec::with_capacity(alloc, 2 * told.len())?;
    for (member, score) in told {
        items.push(Item::Bulk(member))?;
        items.push(Item::Number(*score))?;
    }
    Ok(items)
}

/// `ZCOUNT key min max`. Logarithmic.
pub fn count_scores<'k>(
    keyspace: &'k Keyspace,
    now: u64,
    database: Db,
    words: &'k [Blob],
) -> Result<Shown<'k>, Failure>
    ensures { Answers result (sorted_sets.count by_ranges.Scores (live keyspace.now now) database words.now) }
{
    count(RangeBy::Scores, keyspace, now, database, words)
}

/// `ZLEXCOUNT key min max`. Logarithmic where all scores are equal, else it looks at every member.
pub fn count_members<'k>(
    keyspace: &'k Keyspace,
    now: u64,
    database: Db,
    words: &'k [Blob],
) -> Result<Shown<'k>, Failure>
    ensures { Answers result (sorted_sets.count by_ranges.Members (live keyspace.now now) database words.now) }
{
    count(RangeBy::Members, keyspace, now, database, words)
}

fn count<'k>(
    by: RangeBy,
    keyspace: &'k Keyspace,
    now: u64,
    database: Db,
    words: &'k [Blob],
) -> Result<Shown<'k>, Failure>
    ensures { Answers result (sorted_sets.count by (live keyspace.now now) database words.now) }
{
    let request = ends_request(by, words)?;
    let Some(zset) = zset_at(keyspace, now, database, request.name)? else {
        return Ok(Shown::Owned(Reply::Int(0)));
    };
    Ok(Shown::Owned(Reply::Int(count_in(zset, &request.ends) as i64)))
}

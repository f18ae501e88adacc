// The commands that look members up by name.
ghost use Rattle.std.specs.Prelude.{◌≡◌, ◌<◌, ◌^◌, IfOk, IfSome, map};
ghost use Rattle.std.specs.Option.{option_map};
ghost use Rattle.std.specs.FinMap as finmap;
ghost use Rattle.nr_model.specs.Keyspace.{live};
ghost use Rattle.nr_model.specs.SortedSets.{rank_of};
ghost use Rattle.nr_model.specs.Commands.SortedSets as sorted_sets;
ghost use Rattle.nr_resp.specs.Seen.{reply_of};
ghost use Rattle.nr_resp.specs.Done.{Answers};
ghost use Rattle.nr_resp.specs.Shown.{item_reply};

use crate::stored::zset_at;
use nr_blob::{Blob, Memory};
use nr_keyspace::{Db, Keyspace};
use nr_model::command::Direction;
use nr_model::refused::Refused;
use nr_resp::words::{one_word, two_words};
use nr_resp::{Failure, Item, Reply, Shown, number_bulk};
use nr_zsets::Zset;
use std::alloc::Global;

/// `ZSCORE key member`. Constant.
pub fn zscore<'k>(
    alloc: Global,
    keyspace: &'k Keyspace,
    now: u64,
    database: Db,
    words: &'k [Blob],
) -> Result<Shown<'k>, Failure>
    ensures { Answers result (sorted_sets.zscore (live keyspace.now now) database words.now) }
{
    let (name, member) = two_words(words)?;
    let zset = zset_at(keyspace, now, database, name)?;
    Ok(Shown::Owned(score_or_null(alloc, score_in(zset, member))?))
}

// The score of a member, none where it or the sorted set is missing.
fn score_in(zset: Option<&Zset>, member: &Blob) -> Option<i64>
    ensures { result ≡ finmap.get (sorted_sets.or_none (option_map (λ zset. zset.now) zset.entry)) member.now }
{
    match zset {
        Some(zset) => zset.score(member),
        None => None,
    }
}

fn score_or_null(alloc: Global, score: Option<i64>) -> Result<Reply, Memory>
    ensures { IfOk result (λ reply. reply_of reply ≡ sorted_sets.score_or_null score) }
{
    match score {
        Some(score) => number_bulk(alloc, score),
        None => Ok(Reply::NullBulk),
    }
}

/// `ZMSCORE key member [member ..]`. One look-up of the key, and each member constant.
pub fn zmscore<'k>(
    alloc: Global,
    keyspace: &'k Keyspace,
    now: u64,
    database: Db,
    words: &'k [Blob],
) -> Result<Shown<'k>, Failure>
    ensures { Answers result (sorted_sets.zmscore (live keyspace.now now) database words.now) }
{
    let Some((name, members)) = words.split_first() else {
        return Err(Failure::Refused(Refused::Syntax));
    };
    let zset = zset_at(keyspace, now, database, name)?;
    Ok(Shown::Items(scores_in(alloc, zset, members)?))
}

// The score of each member, and the null bulk where there is none.
fn scores_in<'k>(
    alloc: Global,
    zset: Option<&Zset>,
    members: &[Blob],
) -> Result<Vec<Item<'k>>, Memory>
    ensures { IfOk result
        (λ items. map item_reply items.items
        ≡ map (λ member. sorted_sets.score_or_null (finmap.get (sorted_sets.or_none (option_map (λ zset. zset.now) zset.entry)) member)) members.now) }
{
    let mut items = Vec::with_capacity(alloc, members.len())?;
    for member in members {
        items.push(item_of(score_in(zset, member)))?;
    }
    Ok(items)
}

fn item_of<'k>(score: Option<i64>) -> Item<'k>
    ensures { item_reply result ≡ sorted_sets.score_or_null score }
{
    match score {
        Some(score) => Item::Number(score),
        None => Item::Null,
    }
}

/// `ZCARD key`. Constant.
pub fn zcard<'k>(
    keyspace: &'k Keyspace,
    now: u64,
    database: Db,
    words: &'k [Blob],
) -> Result<Shown<'k>, Failure>
    ensures { Answers result (sorted_sets.zcard (live keyspace.now now) database words.now) }
{
    let name = one_word(words)?;
    let zset = zset_at(keyspace, now, database, name)?;
    Ok(Shown::Owned(Reply::Int(len_of(zset) as i64)))
}

// How many members. Constant.
fn len_of(zset: Option<&Zset>) -> usize
    ensures len { result ≡ finmap.len (sorted_sets.or_none (option_map (λ zset. zset.now) zset.entry)) }
    ensures small { result < 2 ^ 63 }
{
    match zset {
        Some(zset) => zset.len(),
        None => 0,
    }
}

/// `ZRANK key member` and `ZREVRANK key member`. Logarithmic.
pub fn rank<'k>(
    direction: Direction,
    keyspace: &'k Keyspace,
    now: u64,
    database: Db,
    words: &'k [Blob],
) -> Result<Shown<'k>, Failure>
    ensures { Answers result (sorted_sets.rank direction (live keyspace.now now) database words.now) }
{
    let (name, member) = two_words(words)?;
    let zset = zset_at(keyspace, now, database, name)?;
    Ok(Shown::Owned(place_or_null(rank_in(direction, zset, member))))
}

// The place of a member, none where it or the sorted set is missing.
fn rank_in(direction: Direction, zset: Option<&Zset>, member: &Blob) -> Option<usize>
    ensures rank { result ≡ rank_of direction (sorted_sets.or_none (option_map (λ zset. zset.now) zset.entry)) member.now }
    ensures small { IfSome result (λ place. place < 2 ^ 63) }
{
    match zset {
        Some(zset) => zset.rank(direction, member),
        None => None,
    }
}

fn place_or_null(place: Option<usize>) -> Reply
    requires { IfSome place (λ place. place < 2 ^ 63) }
    ensures { reply_of result ≡ sorted_sets.place_or_null place }
{
    match place {
        Some(place) => Reply::Int(place as i64),
        None => Reply::NullBulk,
    }
}

// How many members several sets have in common.
ghost use Rattle.std.specs.Prelude.{◌≡◌, ◌≤◌, ◌∷◌, Ok, IfOk, IfErr, length, map, pos};
ghost use Rattle.nr_model.specs.Keyspace.{live};
ghost use Rattle.nr_model.specs.Numbers.{int_value};
ghost use Rattle.nr_model.specs.Commands.Reading.{fault, integer_or, read_options, read_then};
ghost use Rattle.nr_model.specs.Commands.Sets as sets;
ghost use Rattle.nr_model.specs.declared.refused.Refused.TheVariants.{Negative};
ghost use Rattle.nr_model.specs.Lists.{limited};
ghost use Rattle.nr_model.specs.Sets.{listed, intersection_of};
ghost use Rattle.nr_resp.specs.Done.{Answers};
ghost use Rattle.nr_sets.specs.Lent.{lent};

use crate::sets::combining::sets_at;
use nr_blob::{Blob, Memory, read_int};
use nr_keyspace::{Db, Keyspace};
use nr_model::refused::Refused;
use nr_resp::words::is_word;
use nr_resp::{Failure, Reply, Shown};
use nr_sets::{Set, intersection};
use std::alloc::Global;

/// `SINTERCARD numkeys key [key ..] [LIMIT limit]`. It walks the smallest set up to the limit, in O(n log n) where that is a table, and for each member
/// it looks at one block of the others.
pub fn inter_card<'k>(
    alloc: Global,
    keyspace: &'k Keyspace,
    now: u64,
    database: Db,
    words: &'k [Blob],
) -> Result<Shown<'k>, Failure>
    ensures { Answers result (sets.inter_card (live keyspace.now now) database words.now) }
{
    let request = inter_card_request(words)?;
    let held = sets_at(alloc, keyspace, now, database, request.names)?;
    Ok(Shown::Owned(Reply::Int(count_common(alloc, &held, request.limit)?)))
}

fn count_common(alloc: Global, held: &[Option<&Set>], limit: usize) -> Result<i64, Memory>
    ensures { IfOk result (λ n. n ≡ pos (length (limited limit (listed (intersection_of (map lent held.now)))))) }
{
    let common = intersection(alloc, held, limit)?;
    Ok(common.len() as i64)
}

#[derive(Drop)]
struct InterCardRequest<'k> {
    names: &'k [Blob],
    limit: usize,
}

fn inter_card_request<'k>(words: &'k [Blob]) -> Result<InterCardRequest<'k>, Refused>
    ensures request { IfOk result
        (λ request. sets.inter_card_request words.now ≡ Ok (record { names = request.names.now; limit = request.limit })) }
    ensures refused { IfErr result (λ why. sets.inter_card_request words.now ≡ fault why) }
{
    let Some((number, words)) = words.split_first() else {
        return Err(Refused::Syntax);
    };
    let count = key_count(words.len(), number)?;
    let limit = limit_in(&words[count..])?;
    let names = &words[..count];
    Ok(InterCardRequest { names, limit })
}

fn key_count(words: usize, word: &Blob) -> Result<usize, Refused>
    ensures count { IfOk result (λ count. sets.key_count words word.now ≡ Ok count) }
    ensures few { IfOk result (λ count. count ≤ words) }
    ensures refused { IfErr result (λ why. sets.key_count words word.now ≡ fault why) }
{
    match read_int(word.bytes()) {
        Some(count) => key_count_of(words, count),
        None => Err(Refused::KeyCount),
    }
}

fn key_count_of(words: usize, count: i64) -> Result<usize, Refused>
    ensures count { IfOk result (λ n. sets.key_count_of words count ≡ Ok n) }
    ensures few { IfOk result (λ n. n ≤ words) }
    ensures refused { IfErr result (λ why. sets.key_count_of words count ≡ fault why) }
{
    if count < 1 {
        return Err(Refused::KeyCount);
    }
    if count as usize > words {
        return Err(Refused::TooManyKeys);
    }
    Ok(count as usize)
}

// The limit that the words say, 0 being none.
fn limit_in(words: &[Blob]) -> Result<usize, Refused>
    ensures limit { IfOk result (λ limit. read_options sets.limit_option 0 words.now ≡ Ok limit) }
    ensures refused { IfErr result (λ why. read_options sets.limit_option 0 words.now ≡ fault why) }
{
    let mut limit = 0;
    let mut left = words;
    while let Some((word, behind)) = left.split_first() {
        left = read_limit(&mut limit, word, behind)?;
    }
    Ok(limit)
}

// Reads one limit, and gives the words behind it.
fn read_limit<'k>(limit: &mut usize, word: &Blob, behind: &'k [Blob]) -> Result<&'k [Blob], Refused>
    ensures read { IfOk result (λ left. read_options sets.limit_option limit.old (word.now ∷ behind.now) ≡ read_options sets.limit_option limit.new left.now) }
    ensures refused { IfErr result (λ why. read_options sets.limit_option limit.old (word.now ∷ behind.now) ≡ fault why) }
    ensures fewer { IfOk result (λ left. length left.now ≤ length behind.now) }
{
    if !is_word("limit", word) {
        return Err(Refused::Syntax);
    }
    let Some((value, behind)) = behind.split_first() else {
        return Err(Refused::Syntax);
    };
    *limit = limit_of(value)?;
    Ok(behind)
}

fn limit_of(word: &Blob) -> Result<usize, Refused>
    ensures limit { IfOk result (λ limit. read_then (integer_or Negative (int_value word.now)) sets.limit_of ≡ Ok limit) }
    ensures refused { IfErr result (λ why. read_then (integer_or Negative (int_value word.now)) sets.limit_of ≡ fault why) }
{
    match read_int(word.bytes()) {
        Some(limit) => limit_from(limit),
        None => Err(Refused::Negative),
    }
}

fn limit_from(limit: i64) -> Result<usize, Refused>
    ensures limit { IfOk result (λ n. sets.limit_of limit ≡ Ok n) }
    ensures refused { IfErr result (λ why. sets.limit_of limit ≡ fault why) }
{
    if limit < 0 {
        return Err(Refused::Negative);
    }
    Ok(limit as usize)
}

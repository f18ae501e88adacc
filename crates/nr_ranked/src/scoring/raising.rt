// A score that something is added to.
ghost use Rattle.std.specs.Prelude.{◌≡◌, ◌+◌, ◌+ℤ◌, Some, Ok, IfOk, IfErr, OnErr};
ghost use Rattle.std.specs.FinMap as finmap;
ghost use Rattle.nr_model.specs.Bytes.{Bytes};
ghost use Rattle.nr_model.specs.Replies.{NullBulk};
ghost use Rattle.nr_model.specs.SortedSets.{Scores, as_score};
ghost use Rattle.nr_model.specs.Commands.Reading.{fault};
ghost use Rattle.nr_model.specs.Commands.SortedSets as sorted_sets;
ghost use Rattle.nr_resp.specs.Seen.{reply_of};
ghost use Rattle.nr_ranked.specs.Changing.{Gives};

use crate::changing::Change;
use nr_blob::{Blob, Memory};
use nr_keyspace::SortedSetEdit;
use nr_model::refused::Refused;
use nr_resp::words::narrowed;
use nr_resp::{Conditions, Reply, number_bulk};
use nr_zbounds::as_score;
use nr_zsets::Zset;
use std::alloc::Global;

/// What is added to the score of a member, whatever it has.
#[derive(Clone, Copy)]
pub(super) struct Increment<'k> {
    pub(super) alloc: Global,
    pub(super) member: &'k Blob,
    pub(super) by: i64,
}

impl<'k> SortedSetEdit for Increment<'k> {
    type Given = Change;

    ghost use Rattle.nr_model.specs.Commands.Keys.{unconditional};
    ghost use Rattle.nr_model.specs.Commands.SortedSets as sorted_sets;
    ghost use Rattle.nr_ranked.specs.Changing.{Gives};

    ghost edits = { λ edit old new given. Gives (λ keyspace key. sorted_sets.raise keyspace key unconditional old (edit.member.now, edit.by)) new given };

    fn edit(self, zset: &mut Zset) -> Result<Result<Change, Refused>, Memory> {
        raise(self.alloc, Conditions::NONE, zset, self.member, self.by)
    }
}

/// Adds to the score of a member, a missing one having 0, unless conditions stop it.
pub(super) fn raise(
    alloc: Global,
    conditions: Conditions,
    zset: &mut Zset,
    member: &Blob,
    by: i64,
) -> Result<Result<Change, Refused>, Memory>
    ensures raised { IfOk result (λ given. Gives (λ keyspace key. sorted_sets.raise keyspace key conditions zset.old (member.now, by)) zset.new given) }
    ensures refused { IfOk result (λ given. OnErr given (zset.new ≡ zset.old)) }
{
    let held = zset.score(member);
    let score = match raised(conditions, held, by) {
        Ok(score) => score,
        Err(why) => return Ok(Err(why)),
    };
    let Some(score) = score else {
        return Ok(Ok(stopped()));
    };
    Ok(Ok(set_score(alloc, zset, member, held, score)?))
}

// A member that had this score, or none, has another from now on.
fn set_score(
    alloc: Global,
    zset: &mut Zset,
    member: &Blob,
    held: Option<i64>,
    score: i64,
) -> Result<Change, Memory>
    requires { held ≡ finmap.get zset.old member.now }
    ensures { IfOk result
        (λ change. Gives (λ keyspace key. sorted_sets.raised_to keyspace key zset.old member.now (Some score)) zset.new (Ok change)) }
{
    let reply = number_bulk(alloc, score)?;
    zset.insert(member.copy()?, score)?;
    let count = changes(held, score);
    Ok(Change { count, reply })
}

/// Nothing is changed.
pub(super) fn stopped() -> Change
    ensures count { result.count ≡ 0 }
    ensures reply { reply_of result.reply ≡ NullBulk }
{
    Change {
        count: 0,
        reply: Reply::NullBulk,
    }
}

// 1 where a member is new or has another score.
fn changes(held: Option<i64>, score: i64) -> usize
    ensures { (scores : Scores) (member : Bytes) → let scoring = sorted_sets.scored (sorted_sets.scoring_of scores) held (member, score) in
        result ≡ scoring.added + scoring.changed }
{
    match held {
        Some(before) => { if before == score { 0 } else { 1 } }
        None => 1,
    }
}

fn raised(conditions: Conditions, held: Option<i64>, by: i64) -> Result<Option<i64>, Refused>
    ensures raised { IfOk result (λ score. sorted_sets.raised conditions held by ≡ Ok score) }
    ensures refused { IfErr result (λ why. sorted_sets.raised conditions held by ≡ fault why) }
{
    let Some(before) = held else {
        return Ok(unless_stopped(conditions, held, by));
    };
    if conditions.nx {
        return Ok(None);
    }
    let sum = sum_of(before, by)?;
    Ok(unless_stopped(conditions, held, sum))
}

fn unless_stopped(conditions: Conditions, held: Option<i64>, score: i64) -> Option<i64>
    ensures { result ≡ sorted_sets.unless_stopped conditions held score }
{
    if stops(conditions, held, score) {
        return None;
    }
    Some(score)
}

/// Whether conditions stop a member from having a score.
pub(super) fn stops(conditions: Conditions, held: Option<i64>, score: i64) -> bool
    ensures { result ≡ sorted_sets.stops conditions held score }
{
    let Conditions { nx, xx, gt, lt } = conditions;
    match held {
        Some(before) => nx || gt && before >= score || lt && score >= before,
        None => xx,
    }
}

fn sum_of(before: i64, by: i64) -> Result<i64, Refused>
    ensures sum { IfOk result (λ sum. sorted_sets.sum_of before by ≡ Ok sum) }
    ensures refused { IfErr result (λ why. sorted_sets.sum_of before by ≡ fault why) }
{
    match summed(before, by) {
        Some(sum) => Ok(sum),
        None => Err(Refused::ScoreRange),
    }
}

// The sum, where it is a score.
fn summed(before: i64, by: i64) -> Option<i64>
    ensures { result ≡ as_score (before +ℤ by) }
{
    let Some(sum) = narrowed(before as i128 + by as i128) else {
        return None;
    };
    as_score(sum)
}

// Members that get scores.
ghost use Rattle.std.specs.Prelude.{◌≡◌, ◌+◌, ◌<◌, ◌≤◌, ◌^◌, Ok, IfOk, OnOk, OnErr, map, pos};
ghost use Rattle.std.specs.FinMap as finmap;
ghost use Rattle.nr_model.specs.Bytes.{Bytes};
ghost use Rattle.nr_model.specs.SortedSets.{Scores};
ghost use Rattle.nr_model.specs.Replies.{Int};
ghost use Rattle.nr_model.specs.Commands.SortedSets as sorted_sets;
ghost use Rattle.nr_resp.specs.Seen.{reply_of};
ghost use Rattle.nr_ranked.specs.Changing.{Gives};
ghost use Rattle.nr_zsets.specs.Lists.{shown};
ghost use Rattle.nr_ranked.specs.Adding.{scoring_as};

use crate::changing::Change;
use crate::scoring::raising::{raise, stopped, stops};
use crate::scoring::reading::AddOptions;
use nr_blob::{Blob, Memory};
use nr_keyspace::SortedSetEdit;
use nr_model::refused::Refused;
use nr_resp::{Conditions, Reply};
use nr_zsets::Zset;
use std::alloc::Global;

/// Members, each of which gets a score, unless conditions stop it.
#[derive(Clone, Copy)]
pub(super) struct Addition<'k> {
    pub(super) alloc: Global,
    pub(super) options: &'k AddOptions,
    pub(super) pairs: &'k [(&'k Blob, i64)],
}

impl<'k> SortedSetEdit for Addition<'k> {
    type Given = Change;

    ghost use Rattle.std.specs.Prelude.{map};
    ghost use Rattle.nr_model.specs.Commands.SortedSets as sorted_sets;
    ghost use Rattle.nr_ranked.specs.Changing.{Gives};
    ghost use Rattle.nr_zsets.specs.Lists.{shown};

    ghost edits = { λ edit old new given.
        Gives (λ keyspace key. sorted_sets.add_pairs keyspace key edit.options.now old (map shown edit.pairs.now)) new given };

    fn edit(self, zset: &mut Zset) -> Result<Result<Change, Refused>, Memory> {
        add_pairs(self.alloc, self.options, zset, self.pairs)
    }
}

// One pair with INCR, all without.
fn add_pairs(
    alloc: Global,
    options: &AddOptions,
    zset: &mut Zset,
    pairs: &[(&Blob, i64)],
) -> Result<Result<Change, Refused>, Memory>
    ensures ok { IfOk result
        (λ given. Gives (λ keyspace key. sorted_sets.add_pairs keyspace key options.now zset.old (map shown pairs.now)) zset.new given) }
    ensures refused { IfOk result (λ given. OnErr given (zset.new ≡ zset.old)) }
{
    if options.increment {
        return raise_first(alloc, options.conditions, zset, pairs);
    }
    let change = add(options.conditions, options.changed, zset, pairs)?;
    Ok(Ok(change))
}

// The score of the first one is added to what it has.
fn raise_first(
    alloc: Global,
    conditions: Conditions,
    zset: &mut Zset,
    pairs: &[(&Blob, i64)],
) -> Result<Result<Change, Refused>, Memory>
    ensures raised { IfOk result
        (λ given. Gives (λ keyspace key. sorted_sets.raise_first keyspace key conditions zset.old (map shown pairs.now)) zset.new given) }
    ensures refused { IfOk result (λ given. OnErr given (zset.new ≡ zset.old)) }
{
    let Some((pair, _)) = pairs.split_first() else {
        return Ok(Ok(stopped()));
    };
    let (member, by) = *pair;
    raise(alloc, conditions, zset, member, by)
}

fn add(
    conditions: Conditions,
    changed: bool,
    zset: &mut Zset,
    pairs: &[(&Blob, i64)],
) -> Result<Change, Memory>
    ensures { IfOk result
        (λ change. Gives (λ keyspace key. sorted_sets.added keyspace key changed (sorted_sets.add_all conditions zset.old (map shown pairs.now))) zset.new (Ok change)) }
{
    let counts = add_all(conditions, zset, pairs)?;
    Ok(counts.told(changed))
}

// How many members are new, and how many have another score.
#[derive(Clone, Copy)]
struct AddedCounts {
    added: usize,
    changed: usize,
}

fn add_all(
    conditions: Conditions,
    zset: &mut Zset,
    pairs: &[(&Blob, i64)],
) -> Result<AddedCounts, Memory>
    ensures scored { IfOk result (λ counts. scoring_as zset.new counts ≡ sorted_sets.add_all conditions zset.old (map shown pairs.now)) }
    ensures few { IfOk result (λ counts. counts.added + counts.changed < 2 ^ 63) }
{
    let mut counts = AddedCounts {
        added: 0,
        changed: 0,
    };
    for (member, score) in pairs {
        add_one(conditions, zset, &mut counts, member, *score)?;
    }
    Ok(counts)
}

fn add_one(
    conditions: Conditions,
    zset: &mut Zset,
    counts: &mut AddedCounts,
    member: &Blob,
    score: i64,
) -> Result<(), Memory>
    requires { counts.old.added + counts.old.changed < 2 ^ 63 }
    ensures scored { OnOk result (scoring_as zset.new counts.new ≡ sorted_sets.add_one conditions (scoring_as zset.old counts.old) (member.now, score)) }
    ensures more { OnOk result (counts.new.added + counts.new.changed ≤ counts.old.added + counts.old.changed + 1) }
{
    let held = zset.score(member);
    if stops(conditions, held, score) {
        return Ok(());
    }
    zset.insert(member.copy()?, score)?;
    counts.count(held, score);
    Ok(())
}

impl AddedCounts {
    // A member has this score, and had another one or none.
    fn count(&mut self, held: Option<i64>, score: i64)
        requires { self.old.added + self.old.changed < 2 ^ 63 }
        ensures scored { (scores : Scores) (member : Bytes)
            → scoring_as (finmap.insert scores member score) self.new ≡ sorted_sets.scored (scoring_as scores self.old) held (member, score) }
        ensures more { self.new.added + self.new.changed ≤ self.old.added + self.old.changed + 1 }
    {
        match held {
            Some(before) => {
                if before != score {
                    self.changed += 1;
                }
            }
            None => self.added += 1,
        }
    }

    // What the command tells of them.
    fn told(self, changed: bool) -> Change
        requires { self.added + self.changed < 2 ^ 63 }
        ensures count { result.count ≡ self.added + self.changed }
        ensures reply { (scores : Scores) → reply_of result.reply ≡ Int (pos (sorted_sets.how_many changed (scoring_as scores self))) }
    {
        let all = self.added + self.changed;
        let told = if changed { all } else { self.added };
        Change {
            count: all,
            reply: Reply::Int(told as i64),
        }
    }
}

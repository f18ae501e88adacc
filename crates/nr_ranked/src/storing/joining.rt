// Several keys as one sorted set. Sums and products are exact, and only what comes out is judged.
ghost use Rattle.std.specs.Prelude.{◌≡◌, ◌+ℤ◌, ◌*ℤ◌, ◌∷◌, List, Some, None, true, false, IfOk, OnOk, IfErr, OnErr, fold, map};
ghost use Rattle.std.specs.List.{list_all};
ghost use Rattle.std.specs.FinMap as finmap;
ghost use Rattle.nr_model.specs.SortedSets as model;
ghost use Rattle.nr_model.specs.SortedSets.{Scores, gathered_one, of_members, weighted, are_scores, as_score};
ghost use Rattle.nr_model.specs.Commands.Shape.{refusal};
ghost use Rattle.nr_model.specs.declared.refused.Refused.TheVariants.{ScoreRange};
ghost use Rattle.nr_resp.specs.Failures.{IfRefused};
ghost use Rattle.nr_zsets.specs.Lists.{shown};
ghost use Rattle.nr_ranked.specs.Storing.{scores_in};
ghost use Rattle.nr_ranked.specs.Sums.{sums_of, kept_by, kept_in, built_one, is_right};

use crate::storing::sources::{Held, has};
use nr_blob::{Blob, Memory};
use nr_model::command::{Aggregate, Direction, Joining};
use nr_model::refused::Refused;
use nr_resp::Failure;
use nr_resp::words::narrowed;
use nr_sets::Set;
use nr_zbounds::as_score;
use nr_zsets::Zset;
use std::alloc::Global;
use std::collections::BTreeMap;

/// The sums of the scores in all sources, each with the weight of its place, or 1 where there is none. The members are lent. O(n log n) in those of
/// all.
/// A sum of 2^127 - 2^63 or more, above 0 or below, counts as want of memory: no product is above 2^106, so that takes more keys than a request
/// has words.
pub(super) fn gathered<'k>(
    alloc: Global,
    aggregate: Aggregate,
    held: &[Held<'k>],
    weights: &[i64],
) -> Result<BTreeMap<&'k [u8], i128>, Memory>
    ensures { IfOk result
        (λ sums. sums_of sums ≡ fold (model.gathered aggregate) finmap.empty (weighted (map scores_in held.now) weights.now)) }
{
    let mut sums = BTreeMap::new(alloc);
    let mut left = weights;
    for source in held {
        let (weight, behind) = first_weight(left);
        gather(&mut sums, aggregate, weight, *source)?;
        left = behind;
    }
    Ok(sums)
}

// The weight of the next source, and those behind it.
fn first_weight(weights: &[i64]) -> (i64, &[i64])
    ensures { (scores : Scores) (others : List Scores) → weighted (scores ∷ others) weights.now
        ≡ record { scores = scores; weight = result.0 } ∷ weighted others result.1.now }
{
    match weights.split_first() {
        Some((weight, behind)) => (*weight, behind),
        None => (1, weights),
    }
}

// What each member has with one source more.
fn gather<'k>(
    sums: &mut BTreeMap<&'k [u8], i128>,
    aggregate: Aggregate,
    weight: i64,
    source: Held<'k>,
) -> Result<(), Memory>
    ensures { OnOk result
        (sums_of sums.new ≡ model.gathered aggregate (sums_of sums.old) (record { scores = scores_in source.entry; weight = weight })) }
{
    match source {
        Held::Missing => Ok(()),
        Held::Set(set) => gather_set(sums, aggregate, weight, set),
        Held::SortedSet(zset) => gather_sorted_set(sums, aggregate, weight, zset),
    }
}

// Each member of a set has score 1.
fn gather_set<'k>(
    sums: &mut BTreeMap<&'k [u8], i128>,
    aggregate: Aggregate,
    weight: i64,
    set: &'k Set,
) -> Result<(), Memory>
    ensures { OnOk result
        (sums_of sums.new ≡ model.gathered aggregate (sums_of sums.old) (record { scores = of_members set.now; weight = weight })) }
{
    for member in set.members()? {
        gather_one(sums, aggregate, weight, member, 1)?;
    }
    Ok(())
}

fn gather_sorted_set<'k>(
    sums: &mut BTreeMap<&'k [u8], i128>,
    aggregate: Aggregate,
    weight: i64,
    zset: &'k Zset,
) -> Result<(), Memory>
    ensures { OnOk result
        (sums_of sums.new ≡ model.gathered aggregate (sums_of sums.old) (record { scores = zset.now; weight = weight })) }
{
    let members = zset.by_place(Direction::Ascending, 0, zset.len())?;
    gather_all(sums, aggregate, weight, &members)?;
    Ok(())
}

fn gather_all<'k>(
    sums: &mut BTreeMap<&'k [u8], i128>,
    aggregate: Aggregate,
    weight: i64,
    members: &[(&'k [u8], i64)],
) -> Result<(), Memory>
    ensures { OnOk result (sums_of sums.new ≡ fold (gathered_one aggregate weight) (sums_of sums.old) (map shown members.now)) }
{
    for (member, score) in members {
        gather_one(sums, aggregate, weight, member, *score)?;
    }
    Ok(())
}

fn gather_one<'k>(
    sums: &mut BTreeMap<&'k [u8], i128>,
    aggregate: Aggregate,
    weight: i64,
    member: &'k [u8],
    score: i64,
) -> Result<(), Memory>
    ensures { OnOk result (sums_of sums.new ≡ gathered_one aggregate weight (sums_of sums.old) (member.now, score)) }
{
    let before = sum_at(sums, member);
    let sum = aggregated(aggregate, before, product(weight, score))?;
    sums.insert(member, sum)?;
    Ok(())
}

fn sum_at<'k>(sums: &BTreeMap<&'k [u8], i128>, member: &'k [u8]) -> Option<i128>
    ensures { result ≡ finmap.get (sums_of sums.now) member.now }
{
    sums.get(&member).copied()
}

fn product(weight: i64, score: i64) -> i128
    ensures { result ≡ weight *ℤ score }
{
    weight as i128 * score as i128
}

// Two scores of one member as one, where it had one before.
fn aggregated(aggregate: Aggregate, before: Option<i128>, score: i128) -> Result<i128, Memory>
    ensures { IfOk result (λ sum. sum ≡ model.aggregated aggregate before score) }
{
    let Some(before) = before else {
        return Ok(score);
    };
    match aggregate {
        Aggregate::Sum => added(before, score),
        Aggregate::Min => Ok(before.min(score)),
        Aggregate::Max => Ok(before.max(score)),
    }
}

fn added(before: i128, score: i128) -> Result<i128, Memory>
    ensures { IfOk result (λ sum. sum ≡ before +ℤ score) }
{
    let sum = before.saturating_add(score);
    let size = (sum.unsigned_abs() >> 63).min(u64::MAX as u128);
    match Memory::at_last(size as u64) {
        Some(refused) => Err(refused),
        None => Ok(sum),
    }
}

/// The members that stay, each with its sum, as a sorted set: a sum that is no score is refused. Logarithmic for each member, which is copied, beside
/// a look-up in each source where only the members of all stay.
pub(super) fn built(
    joining: Joining,
    alloc: Global,
    held: &[Held<'_>],
    sums: &BTreeMap<&[u8], i128>,
    empty: Zset,
) -> Result<Zset, Failure>
    requires { empty ≡ finmap.empty }
    ensures built { IfOk result (λ zset. zset ≡ kept_in joining (map scores_in held.now) (sums_of sums.now)) }
    ensures scores { IfOk result (λ zset. are_scores zset ≡ true) }
    ensures refused { IfErr result (λ failure. IfRefused failure (λ error.
        (error ≡ refusal ScoreRange) × (are_scores (kept_in joining (map scores_in held.now) (sums_of sums.now)) ≡ false))) }
{
    let mut zset = empty;
    for (member, sum) in sums {
        build_one(joining, alloc, held, &mut zset, *member, *sum)?;
    }
    Ok(zset)
}

fn build_one(
    joining: Joining,
    alloc: Global,
    held: &[Held<'_>],
    zset: &mut Zset,
    member: &[u8],
    sum: i128,
) -> Result<(), Failure>
    ensures built { OnOk result (zset.new ≡ built_one (kept_by joining (map scores_in held.now)) zset.old (member.now, sum)) }
    ensures right { OnOk result (is_right (kept_by joining (map scores_in held.now)) (member.now, sum) ≡ true) }
    ensures refused { IfErr result (λ failure. IfRefused failure (λ error.
        (error ≡ refusal ScoreRange) × (is_right (kept_by joining (map scores_in held.now)) (member.now, sum) ≡ false))) }
{
    let member = Blob::from_slice(alloc, member)?;
    if !stays(joining, held, &member) {
        return Ok(());
    }
    let score = score_of(sum)?;
    zset.insert(member, score)?;
    Ok(())
}

// Whether a member of one source stays.
fn stays(joining: Joining, held: &[Held<'_>], member: &Blob) -> bool
    ensures { result ≡ kept_by joining (map scores_in held.now) member.now }
{
    match joining {
        Joining::Union => true,
        Joining::Intersection => all_have(held, member),
    }
}

fn all_have(held: &[Held<'_>], member: &Blob) -> bool
    ensures { result ≡ list_all (λ source. finmap.contains_key (scores_in source) member.now) held.now }
{
    held.iter().all(|source| has(*source, member))
}

fn score_of(sum: i128) -> Result<i64, Refused>
    ensures score { IfOk result (λ score. as_score sum ≡ Some score) }
    ensures refused { IfErr result (λ why. why ≡ ScoreRange) }
    ensures outside { OnErr result (as_score sum ≡ None) }
{
    match narrow(sum) {
        Some(score) => Ok(score),
        None => Err(Refused::ScoreRange),
    }
}

// The same number, where it is a score.
fn narrow(sum: i128) -> Option<i64>
    ensures { result ≡ as_score sum }
{
    let Some(sum) = narrowed(sum) else {
        return None;
    };
    as_score(sum)
}

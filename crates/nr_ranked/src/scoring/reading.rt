// What ZADD and ZINCRBY read.
ghost use Rattle.std.specs.Prelude.{◌≡◌, ◌<◌, ◌++◌, ◌∷◌, [], Ok, Err, IfOk, OnOk, IfErr, IfSome, IfNone, length, map};
ghost use Rattle.nr_model.specs.Commands.Reading as reading;
ghost use Rattle.nr_model.specs.Commands.Reading.{fault};
ghost use Rattle.nr_model.specs.Commands.SortedSets as sorted_sets;
ghost use Rattle.nr_model.specs.SortedSets.{score_value};
ghost use Rattle.nr_resp.specs.Failures.{IfRefused};
ghost use Rattle.nr_zsets.specs.Lists.{shown};
ghost use Rattle.nr_ranked.specs.Reading.{add_request_of, with_first};

use nr_blob::{Blob, Memory};
use nr_model::refused::Refused;
use nr_resp::words::{is_word, three_words};
use nr_resp::{Conditions, Failure};
use nr_zbounds::read_score;
use std::alloc::Global;
use std::marker::Model;

/// What stands between the key and the pairs.
#[derive(Clone, Copy)]
pub(super) struct AddOptions {
    pub(super) conditions: Conditions,
    /// Members that have another score are counted too.
    pub(super) changed: bool,
    /// The score is added to the one that is there.
    pub(super) increment: bool,
}

impl Model for AddOptions {
    ghost use Rattle.nr_model.specs.Commands.SortedSets as sorted_sets;

    ghost Value = { sorted_sets.AddOptions };

    ghost view = { λ o. record { conditions = o.conditions; changed = o.changed; increment = o.increment } };

    ghost inverse = { λ o. record { conditions = o.conditions; changed = o.changed; increment = o.increment } };
}

impl AddOptions {
    const NONE: AddOptions = AddOptions {
        conditions: Conditions::NONE,
        changed: false,
        increment: false,
    };

    // With the option that a word says, if it says one.
    fn with(self, word: &Blob) -> Option<AddOptions>
        ensures { result ≡ sorted_sets.add_option self word.now }
    {
        if is_word("ch", word) {
            return Some(AddOptions {
                changed: true,
                ..self
            });
        }
        if is_word("incr", word) {
            return Some(AddOptions {
                increment: true,
                ..self
            });
        }
        let Some(conditions) = self.conditions.with(word) else {
            return None;
        };
        Some(AddOptions { conditions, ..self })
    }

    // The same options, where they fit one another and so many pairs: INCR goes with one.
    fn fitting(self, pairs: &[(&Blob, i64)]) -> Result<AddOptions, Refused>
        ensures fitting { IfOk result (λ options. sorted_sets.fitting_add self (map shown pairs.now) ≡ Ok options) }
        ensures refused { IfErr result (λ why. sorted_sets.fitting_add self (map shown pairs.now) ≡ fault why) }
    {
        self.conditions.compatible()?;
        if self.increment && pairs.len() > 1 {
            return Err(Refused::OptionsConflict);
        }
        Ok(self)
    }
}

/// A key, options, and members with their scores.
#[derive(Drop)]
pub(super) struct AddRequest<'k> {
    pub(super) name: &'k Blob,
    pub(super) options: AddOptions,
    pub(super) pairs: Vec<(&'k Blob, i64)>,
}

/// What ZADD reads.
pub(super) fn add_request<'k>(alloc: Global, words: &'k [Blob]) -> Result<AddRequest<'k>, Failure>
    ensures request { IfOk result (λ request. sorted_sets.add_request words.now ≡ Ok (add_request_of request)) }
    ensures refused { IfErr result (λ failure. IfRefused failure (λ error. sorted_sets.add_request words.now ≡ Err error)) }
{
    let Some((name, words)) = words.split_first() else {
        return Err(Failure::Refused(Refused::Syntax));
    };
    let (options, words) = options_in(words);
    let pairs = some_pairs(alloc, words)?;
    let options = options.fitting(&pairs)?;
    Ok(AddRequest {
        name,
        options,
        pairs,
    })
}

// The options in front, and the words behind them.
fn options_in(words: &[Blob]) -> (AddOptions, &[Blob])
    ensures { sorted_sets.add_options sorted_sets.no_options words.now ≡ (result.0, result.1.now) }
{
    let mut options = AddOptions::NONE;
    let mut left = words;
    while let Some((word, behind)) = left.split_first() {
        let Some(more) = options.with(word) else {
            return (options, left);
        };
        options = more;
        left = behind;
    }
    (options, left)
}

// One pair at least.
fn some_pairs<'k>(alloc: Global, words: &'k [Blob]) -> Result<Vec<(&'k Blob, i64)>, Failure>
    ensures pairs { IfOk result (λ pairs. sorted_sets.some_pairs words.now ≡ Ok (map shown pairs.items)) }
    ensures refused { IfErr result (λ failure. IfRefused failure (λ error. sorted_sets.some_pairs words.now ≡ Err error)) }
{
    if words.is_empty() {
        return Err(Failure::Refused(Refused::Syntax));
    }
    score_pairs(alloc, words)
}

// Scores, each in front of its member.
fn score_pairs<'k>(alloc: Global, words: &'k [Blob]) -> Result<Vec<(&'k Blob, i64)>, Failure>
    ensures pairs { IfOk result (λ pairs. sorted_sets.score_pairs words.now ≡ Ok (map shown pairs.items)) }
    ensures refused { IfErr result (λ failure. IfRefused failure (λ error. sorted_sets.score_pairs words.now ≡ Err error)) }
{
    let mut pairs = Vec::new(alloc);
    let mut left = words;
    while let Some((pair, behind)) = first_pair(left)? {
        push(&mut pairs, pair)?;
        left = behind;
    }
    Ok(pairs)
}

fn push<'k>(pairs: &mut Vec<(&'k Blob, i64)>, pair: (&'k Blob, i64)) -> Result<(), Memory>
    ensures { OnOk result (map shown pairs.new.items ≡ map shown pairs.old.items ++ shown pair.entry ∷ []) }
{
    pairs.push(pair)?;
    Ok(())
}

// A member with the score in front of it, and the words behind them.
fn first_pair<'k>(words: &'k [Blob]) -> Result<Option<((&'k Blob, i64), &'k [Blob])>, Refused>
    ensures some { IfOk result
        (λ first. IfSome first (λ first. sorted_sets.score_pairs words.now ≡ with_first (shown first.0) (sorted_sets.score_pairs first.1.now))) }
    ensures fewer { IfOk result (λ first. IfSome first (λ first. length first.1.now < length words.now)) }
    ensures none { IfOk result (λ first. IfNone first (words.now ≡ [])) }
    ensures refused { IfErr result (λ why. sorted_sets.score_pairs words.now ≡ fault why) }
{
    let Some((word, words)) = words.split_first() else {
        return Ok(None);
    };
    let score = score_of(word)?;
    let Some((member, behind)) = words.split_first() else {
        return Err(Refused::Syntax);
    };
    Ok(Some(((member, score), behind)))
}

/// The score that a word spells.
pub(crate) fn score_of(word: &Blob) -> Result<i64, Refused>
    ensures score { IfOk result (λ score. sorted_sets.score word.now ≡ Ok score) }
    ensures refused { IfErr result (λ why. sorted_sets.score word.now ≡ fault why) }
{
    match read_score(word.bytes()) {
        Some(score) => Ok(score),
        None => Err(Refused::NotAFloat),
    }
}

/// A key, a member, and what is added to its score.
#[derive(Clone, Copy)]
pub(super) struct RaiseRequest<'k> {
    pub(super) name: &'k Blob,
    pub(super) by: i64,
    pub(super) member: &'k Blob,
}

/// What ZINCRBY reads.
pub(super) fn raise_request<'k>(words: &'k [Blob]) -> Result<RaiseRequest<'k>, Refused>
    ensures request { IfOk result
        (λ request. sorted_sets.raise_request words.now ≡ Ok (record { name = request.name.now; by = request.by; member = request.member.now })) }
    ensures refused { IfErr result (λ why. sorted_sets.raise_request words.now ≡ fault why) }
{
    let (name, by, member) = three_words(words)?;
    let by = score_of(by)?;
    Ok(RaiseRequest { name, by, member })
}

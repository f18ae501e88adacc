// What ZUNIONSTORE and ZINTERSTORE read.
ghost use Rattle.std.specs.Prelude.{◌≡◌, ◌≤◌, ◌++◌, ◌∷◌, [], Ok, Err, IfOk, IfErr, OnOk, length};
ghost use Rattle.nr_model.specs.Commands.Reading.{fault};
ghost use Rattle.nr_model.specs.Commands.SortedSets as sorted_sets;
ghost use Rattle.nr_resp.specs.Failures.{IfRefused};
ghost use Rattle.nr_ranked.specs.Storing.{options_of, request_of};

use crate::scoring::reading::score_of;
use nr_blob::{Blob, Memory};
use nr_model::command::Aggregate;
use nr_model::refused::Refused;
use nr_resp::Failure;
use nr_resp::words::{integer, is_word};
use std::alloc::Global;

/// A key that is to hold what others hold, joined.
#[derive(Drop)]
pub(super) struct StoreRequest<'k> {
    pub(super) target: &'k Blob,
    pub(super) names: &'k [Blob],
    pub(super) options: StoreOptions,
}

/// How they are joined.
#[derive(Drop)]
pub(super) struct StoreOptions {
    /// One for each key, or none where each is 1.
    pub(super) weights: Vec<i64>,
    pub(super) aggregate: Aggregate,
}

/// What a request asks for. Linear in its words.
pub(super) fn store_request<'k>(
    alloc: Global,
    words: &'k [Blob],
) -> Result<StoreRequest<'k>, Failure>
    ensures request { IfOk result (λ request. sorted_sets.store_request words.now ≡ Ok (request_of request)) }
    ensures refused { IfErr result (λ failure. IfRefused failure (λ error. sorted_sets.store_request words.now ≡ Err error)) }
{
    let Some((target, words)) = words.split_first() else {
        return Err(Failure::Refused(Refused::Syntax));
    };
    let Some((number, words)) = words.split_first() else {
        return Err(Failure::Refused(Refused::Syntax));
    };
    let count = key_count(words.len(), number)?;
    let options = options_in(alloc, count, &words[count..])?;
    let names = &words[..count];
    Ok(StoreRequest {
        target,
        names,
        options,
    })
}

// How many keys follow, where there are so many words.
fn key_count(words: usize, word: &Blob) -> Result<usize, Refused>
    ensures count { IfOk result (λ count. sorted_sets.key_count words word.now ≡ Ok count) }
    ensures few { IfOk result (λ count. count ≤ words) }
    ensures refused { IfErr result (λ why. sorted_sets.key_count words word.now ≡ fault why) }
{
    key_count_of(words, integer(word)?)
}

fn key_count_of(words: usize, count: i64) -> Result<usize, Refused>
    ensures count { IfOk result (λ n. sorted_sets.key_count_of words count ≡ Ok n) }
    ensures few { IfOk result (λ n. n ≤ words) }
    ensures refused { IfErr result (λ why. sorted_sets.key_count_of words count ≡ fault why) }
{
    if count < 1 {
        return Err(Refused::KeyCount);
    }
    if count as usize > words {
        return Err(Refused::Syntax);
    }
    Ok(count as usize)
}

// The options that the words say of so many keys.
fn options_in(alloc: Global, keys: usize, words: &[Blob]) -> Result<StoreOptions, Failure>
    ensures options { IfOk result (λ options. sorted_sets.store_options keys sorted_sets.plain_store 0 words.now ≡ Ok (options_of options)) }
    ensures refused { IfErr result
        (λ failure. IfRefused failure (λ error. sorted_sets.store_options keys sorted_sets.plain_store 0 words.now ≡ Err error)) }
{
    let mut options = StoreOptions {
        weights: Vec::new(alloc),
        aggregate: Aggregate::Sum,
    };
    let mut missing = 0;
    let mut left = words;
    while let Some((word, behind)) = left.split_first() {
        left = read_next(keys, &mut options, &mut missing, word, behind)?;
    }
    if missing > 0 {
        return Err(Failure::Refused(Refused::Syntax));
    }
    Ok(options)
}

// Reads one of the weights that are missing, or else an option, of so many keys, and gives the words behind it.
fn read_next<'k>(
    keys: usize,
    options: &mut StoreOptions,
    missing: &mut usize,
    word: &Blob,
    behind: &'k [Blob],
) -> Result<&'k [Blob], Failure>
    ensures read { IfOk result (λ left. sorted_sets.store_options keys (options_of options.old) missing.old (word.now ∷ behind.now)
        ≡ sorted_sets.store_options keys (options_of options.new) missing.new left.now) }
    ensures refused { IfErr result (λ failure. IfRefused failure
        (λ error. sorted_sets.store_options keys (options_of options.old) missing.old (word.now ∷ behind.now) ≡ Err error)) }
    ensures fewer { IfOk result (λ left. length left.now ≤ length behind.now) }
{
    if *missing == 0 {
        return read_option(keys, options, missing, word, behind);
    }
    let weight = score_of(word)?;
    push(&mut options.weights, weight)?;
    *missing -= 1;
    Ok(behind)
}

fn push(weights: &mut Vec<i64>, weight: i64) -> Result<(), Memory>
    ensures { OnOk result (weights.new.items ≡ weights.old.items ++ weight ∷ []) }
{
    weights.push(weight)?;
    Ok(())
}

// WEIGHTS, behind which a weight for each key is missing, or AGGREGATE.
fn read_option<'k>(
    keys: usize,
    options: &mut StoreOptions,
    missing: &mut usize,
    word: &Blob,
    behind: &'k [Blob],
) -> Result<&'k [Blob], Failure>
    requires { missing.old ≡ 0 }
    ensures read { IfOk result (λ left. sorted_sets.store_options keys (options_of options.old) 0 (word.now ∷ behind.now)
        ≡ sorted_sets.store_options keys (options_of options.new) missing.new left.now) }
    ensures refused { IfErr result (λ failure. IfRefused failure
        (λ error. sorted_sets.store_options keys (options_of options.old) 0 (word.now ∷ behind.now) ≡ Err error)) }
    ensures fewer { IfOk result (λ left. length left.now ≤ length behind.now) }
{
    let Some((value, left)) = behind.split_first() else {
        return Err(Failure::Refused(Refused::Syntax));
    };
    if is_word("weights", word) {
        options.weights.clear();
        *missing = keys;
        return Ok(behind);
    }
    if !is_word("aggregate", word) {
        return Err(Failure::Refused(Refused::Syntax));
    }
    options.aggregate = aggregate_of(value)?;
    Ok(left)
}

fn aggregate_of(word: &Blob) -> Result<Aggregate, Refused>
    ensures aggregate { IfOk result (λ aggregate. sorted_sets.aggregate_of word.now ≡ Ok aggregate) }
    ensures refused { IfErr result (λ why. sorted_sets.aggregate_of word.now ≡ fault why) }
{
    if is_word("sum", word) {
        return Ok(Aggregate::Sum);
    }
    if is_word("min", word) {
        return Ok(Aggregate::Min);
    }
    if is_word("max", word) {
        return Ok(Aggregate::Max);
    }
    Err(Refused::Syntax)
}

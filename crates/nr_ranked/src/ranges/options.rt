// The options behind the ends of a range.
ghost use Rattle.std.specs.Prelude.{◌≡◌, ◌≤◌, ◌∷◌, false, None, Ok, IfOk, IfErr, length};
ghost use Rattle.std.specs.Option.{option_map};
ghost use Rattle.nr_model.specs.Commands.Shape.{refusal};
ghost use Rattle.nr_model.specs.Commands.Reading.{fault};
ghost use Rattle.nr_model.specs.Commands.SortedSets as sorted_sets;
ghost use Rattle.nr_ranked.specs.Options.{options_of, limit_of, word_of, way_word, limit_read};

use nr_blob::Blob;
use nr_model::command::{Direction, RangeBy, RangeForm};
use nr_model::refused::Refused;
use nr_resp::words::{integer, is_word};

/// So many of a range, some being passed over. Below 0 passed over there are none, and a count below 0 takes all.
#[derive(Clone, Copy)]
pub(crate) struct Limit {
    pub(crate) offset: i64,
    pub(crate) count: i64,
}

/// How a range is told.
#[derive(Clone, Copy)]
pub(crate) struct RangeOptions {
    pub(crate) by: RangeBy,
    pub(crate) reversed: bool,
    pub(crate) limit: Option<Limit>,
    pub(crate) with_scores: bool,
}

impl RangeOptions {
    fn new(by: RangeBy, reversed: bool) -> RangeOptions
        ensures { options_of result ≡ record { by = by; reversed = reversed; limit = None; with_scores = false } }
    {
        RangeOptions {
            by,
            reversed,
            limit: None,
            with_scores: false,
        }
    }

    // What a name says by itself.
    fn said_by(form: RangeForm) -> RangeOptions
        ensures { options_of result ≡ sorted_sets.said_by form }
    {
        match form {
            RangeForm::Any => RangeOptions::new(RangeBy::Places, false),
            RangeForm::Reversed => RangeOptions::new(RangeBy::Places, true),
            RangeForm::ByScores(direction) => {
                RangeOptions::new(RangeBy::Scores, is_reversed(direction))
            }
            RangeForm::ByMembers(direction) => {
                RangeOptions::new(RangeBy::Members, is_reversed(direction))
            }
        }
    }

    /// The same options, where they fit one another: LIMIT goes with bounds, and WITHSCORES not with those of members.
    pub(super) fn fitting(self) -> Result<RangeOptions, Refused>
        ensures fitting { IfOk result (λ options. sorted_sets.fitting (options_of self) ≡ Ok (options_of options)) }
        ensures refused { IfErr result (λ why. sorted_sets.fitting (options_of self) ≡ fault why) }
    {
        match self.by {
            RangeBy::Places if self.limit.is_some() => Err(Refused::LimitByPlaces),
            RangeBy::Members if self.with_scores => Err(Refused::ScoresByMembers),
            _ => Ok(self),
        }
    }
}

fn is_reversed(direction: Direction) -> bool
    ensures { result ≡ sorted_sets.is_reversed direction }
{
    match direction {
        Direction::Ascending => false,
        Direction::Descending => true,
    }
}

// Which options a form takes.
fn takes_ways(form: RangeForm) -> bool
    ensures { result ≡ sorted_sets.takes_ways form }
{
    matches!(form, RangeForm::Any)
}

fn takes_limit(form: RangeForm) -> bool
    ensures { result ≡ sorted_sets.takes_limit form }
{
    !matches!(form, RangeForm::Reversed)
}

fn takes_scores(form: RangeForm) -> bool
    ensures { result ≡ sorted_sets.takes_scores form }
{
    !matches!(form, RangeForm::ByMembers(_))
}

// What a word is among the options.
#[derive(Clone, Copy)]
enum RangeWord {
    Surplus,
    Alone(RangeOptions),
    // Two numbers stand behind it.
    Limiting,
}

fn range_word(form: RangeForm, options: RangeOptions, word: &Blob) -> RangeWord
    ensures { word_of result ≡ sorted_sets.range_word form (options_of options) word.now }
{
    if takes_scores(form) && is_word("withscores", word) {
        return RangeWord::Alone(RangeOptions {
            with_scores: true,
            ..options
        });
    }
    if takes_limit(form) && is_word("limit", word) {
        return RangeWord::Limiting;
    }
    if !takes_ways(form) {
        return RangeWord::Surplus;
    }
    way_word(options, word)
}

// REV, BYSCORE and BYLEX, of which the last two exclude one another.
fn way_word(options: RangeOptions, word: &Blob) -> RangeWord
    ensures { word_of result ≡ way_word (options_of options) word.now }
{
    if is_word("rev", word) {
        return RangeWord::Alone(RangeOptions {
            reversed: true,
            ..options
        });
    }
    if is_word("byscore", word) {
        return by_scores(options);
    }
    if is_word("bylex", word) {
        return by_members(options);
    }
    RangeWord::Surplus
}

fn by_scores(options: RangeOptions) -> RangeWord
    ensures { word_of result ≡ sorted_sets.by_scores (options_of options) }
{
    let by = RangeBy::Scores;
    match options.by {
        RangeBy::Places => RangeWord::Alone(RangeOptions { by, ..options }),
        RangeBy::Scores => RangeWord::Alone(options),
        RangeBy::Members => RangeWord::Surplus,
    }
}

fn by_members(options: RangeOptions) -> RangeWord
    ensures { word_of result ≡ sorted_sets.by_members (options_of options) }
{
    let by = RangeBy::Members;
    match options.by {
        RangeBy::Places => RangeWord::Alone(RangeOptions { by, ..options }),
        RangeBy::Scores => RangeWord::Surplus,
        RangeBy::Members => RangeWord::Alone(options),
    }
}

/// The options that words say, and why the first of them that says none is refused.
pub(super) fn options_in(form: RangeForm, words: &[Blob]) -> (RangeOptions, Option<Refused>)
    ensures { sorted_sets.range_options form (sorted_sets.said_by form) words.now ≡ record { options = options_of result.0; fault = option_map refusal result.1 } }
{
    let mut options = RangeOptions::said_by(form);
    let mut left = words;
    while let Some((word, behind)) = left.split_first() {
        match option_at(form, options, word, behind) {
            Ok((more, behind)) => {
                options = more;
                left = behind;
            }
            Err(why) => return (options, Some(why)),
        }
    }
    (options, None)
}

// The options with one more, and the words behind it.
fn option_at<'k>(
    form: RangeForm,
    options: RangeOptions,
    word: &Blob,
    behind: &'k [Blob],
) -> Result<(RangeOptions, &'k [Blob]), Refused>
    ensures read { IfOk result
        (λ read. sorted_sets.range_options form (options_of options) (word.now ∷ behind.now) ≡ sorted_sets.range_options form (options_of read.0) read.1.now) }
    ensures fewer { IfOk result (λ read. length read.1.now ≤ length behind.now) }
    ensures refused { IfErr result
        (λ why. sorted_sets.range_options form (options_of options) (word.now ∷ behind.now) ≡ sorted_sets.stopped (options_of options) (refusal why)) }
{
    match range_word(form, options, word) {
        RangeWord::Surplus => Err(Refused::Syntax),
        RangeWord::Alone(more) => Ok((more, behind)),
        RangeWord::Limiting => {
            let (limit, behind) = limit_in(behind)?;
            let limit = Some(limit);
            Ok((RangeOptions { limit, ..options }, behind))
        }
    }
}

// The two numbers behind LIMIT, and the words behind them.
fn limit_in(words: &[Blob]) -> Result<(Limit, &[Blob]), Refused>
    ensures read { IfOk result (λ read. limit_read words.now ≡ Ok (limit_of read.0, read.1.now)) }
    ensures fewer { IfOk result (λ read. length read.1.now ≤ length words.now) }
    ensures refused { IfErr result (λ why. limit_read words.now ≡ fault why) }
{
    match words {
        [] => Err(Refused::Syntax),
        [offset] => {
            integer(offset)?;
            Err(Refused::Syntax)
        }
        [offset, count, behind @ ..] => {
            let (offset, count) = (integer(offset)?, integer(count)?);
            Ok((Limit { offset, count }, behind))
        }
    }
}

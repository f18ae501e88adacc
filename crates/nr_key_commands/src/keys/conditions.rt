// The conditions that EXPIRE and its like put on the deadline that a key has.
ghost use Rattle.std.specs.Prelude.{◌≡◌, Ok, Err, IfOk, IfErr};
ghost use Rattle.nr_model.specs.Replies.{Error};
ghost use Rattle.nr_model.specs.Commands.Texts.{unsupported_option};
ghost use Rattle.nr_model.specs.Commands.Keys as keys;

use nr_blob::Blob;
use nr_resp::Conditions;

/// Whether conditions hold of the deadline that a key has. None is later than all.
pub(super) fn are_met(conditions: Conditions, before: Option<i64>, deadline: i64) -> bool
    ensures { result ≡ keys.is_met conditions before deadline }
{
    let Conditions { nx, xx, gt, lt } = conditions;
    (!nx || before.is_none())
        && (!xx || before.is_some())
        && (!gt || is_later(before, deadline))
        && (!lt || is_earlier(before, deadline))
}

/// The conditions that words say, or the first word that says none.
pub(super) fn conditions_from<'k>(words: &'k [Blob]) -> Result<Conditions, &'k Blob>
    ensures read { IfOk result (λ conditions. keys.conditions_from keys.unconditional words.now ≡ Ok conditions) }
    ensures unsupported { IfErr result (λ word. keys.conditions_from keys.unconditional words.now ≡ Err (Error (unsupported_option word.now))) }
{
    let mut conditions = Conditions::NONE;
    for word in words {
        match conditions.with(word) {
            Some(more) => conditions = more,
            None => return Err(word),
        }
    }
    Ok(conditions)
}

// Whether a deadline is later than what a key has. None is later than all.
fn is_later(before: Option<i64>, deadline: i64) -> bool
    ensures { result ≡ keys.is_later before deadline }
{
    match before {
        Some(before) => before < deadline,
        None => false,
    }
}

// Whether a deadline is earlier than what a key has.
fn is_earlier(before: Option<i64>, deadline: i64) -> bool
    ensures { result ≡ keys.is_earlier before deadline }
{
    match before {
        Some(before) => deadline < before,
        None => true,
    }
}

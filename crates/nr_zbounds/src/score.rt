// Scores: whole numbers, and their texts.
ghost use Rattle.std.specs.Prelude.{◌≡◌, ◌==◌};
ghost use Rattle.std.specs.List.{list_all, position};
ghost use Rattle.std.specs.Option.{option_map};
ghost use Rattle.nr_model.specs.SortedSets as model;
ghost use Rattle.nr_model.specs.SortedSets.{score_value};

use nr_blob::read_int;

// Scores go from its negative to it: 2^53, up to which each whole number is a double's too.
const GREATEST_SCORE: i64 = 9_007_199_254_740_992;

/// The score that a text writes: an integer of -2^53 to 2^53, behind which a point and at least one zero may stand.
pub fn read_score(text: &[u8]) -> Option<i64>
    ensures { result ≡ score_value text.now }
{
    let Some(whole) = whole_text(text) else {
        return None;
    };
    let Some(n) = read_int(whole) else {
        return None;
    };
    as_score(n)
}

// A text without its point and the zeros behind it.
fn whole_text(text: &[u8]) -> Option<&[u8]>
    ensures { option_map (λ whole. whole.now) result ≡ model.whole_text text.now (position (λ c. c == 46) text.now) }
{
    let Some(point) = point_in(text) else {
        return Some(text);
    };
    if are_zeros(&text[point + 1..]) {
        Some(&text[..point])
    } else {
        None
    }
}

fn point_in(text: &[u8]) -> Option<usize>
    ensures { result ≡ position (λ c. c == 46) text.now }
{
    text.iter().position(|c| *c == b'.')
}

#[tactic(auto, using(crate::proofs::Texts::some_zeros))]
fn are_zeros(text: &[u8]) -> bool
    ensures { result ≡ model.are_zeros text.now }
{
    !text.is_empty() && no_others(text)
}

fn no_others(text: &[u8]) -> bool
    ensures { result ≡ list_all (λ c. c == 48) text.now }
{
    text.iter().all(|c| *c == b'0')
}

/// A number as a score, which it is from -2^53 to 2^53.
pub fn as_score(n: i64) -> Option<i64>
    ensures { result ≡ model.as_score n }
{
    if n < -GREATEST_SCORE || n > GREATEST_SCORE {
        return None;
    }
    Some(n)
}

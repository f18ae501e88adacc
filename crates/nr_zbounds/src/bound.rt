// An end of a range: of scores, or of members by their bytes.
ghost use Rattle.std.specs.Prelude.{◌≡◌};
ghost use Rattle.std.specs.Option.{option_map};
ghost use Rattle.nr_model.specs.SortedSets as model;
ghost use Rattle.nr_zbounds.specs.Marks.{marked};
ghost use Rattle.nr_zbounds.specs.Seen.{seen_by, seen_score, seen_bytes};

use crate::score::read_score;

/// An end of a range: below all, above all, or at one that belongs to the range or doesn't.
#[derive(Clone, Copy, Debug)]
pub enum Bound<T> {
    Lowest,
    Highest,
    Including(T),
    Excluding(T),
}

pub type ScoreBound = Bound<i64>;

/// The bytes are lent by the word that says them.
pub type ByteBound<'a> = Bound<&'a [u8]>;

/// A bound of scores: `-inf`, `+inf`, `inf` or a score, behind a `(` where it doesn't belong to the range.
pub fn read_score_bound(text: &[u8]) -> Option<ScoreBound>
    ensures { option_map seen_score result ≡ model.score_bound text.now }
{
    match text {
        [] => None,
        [first, rest @ ..] => {
            if *first == b'(' {
                excluding(rest)
            } else {
                including(text)
            }
        }
    }
}

fn excluding(text: &[u8]) -> Option<ScoreBound>
    ensures { option_map seen_score result ≡ model.bound_by model.Excluding text.now }
{
    if let Some(end) = endless(text) {
        return Some(end);
    }
    match read_score(text) {
        Some(score) => Some(Bound::Excluding(score)),
        None => None,
    }
}

fn including(text: &[u8]) -> Option<ScoreBound>
    ensures { option_map seen_score result ≡ model.bound_by model.Including text.now }
{
    if let Some(end) = endless(text) {
        return Some(end);
    }
    match read_score(text) {
        Some(score) => Some(Bound::Including(score)),
        None => None,
    }
}

// Below or above all scores.
fn endless(text: &[u8]) -> Option<ScoreBound>
    ensures { option_map seen_score result ≡ model.endless text.now }
{
    if text == b"-inf".as_slice() {
        return Some(Bound::Lowest);
    }
    if text == b"+inf".as_slice() || text == b"inf".as_slice() {
        return Some(Bound::Highest);
    }
    None
}

/// A bound of members: `-`, `+`, or bytes behind `[`, or behind `(` where they don't belong to the range.
#[tactic(auto, using(crate::proofs::Texts::marked_bound))]
pub fn read_byte_bound(text: &[u8]) -> Option<ByteBound<'_>>
    ensures { option_map seen_bytes result ≡ model.byte_bound text.now }
{
    if text == b"-".as_slice() {
        return Some(Bound::Lowest);
    }
    if text == b"+".as_slice() {
        return Some(Bound::Highest);
    }
    let Some((mark, bytes)) = text.split_first() else {
        return None;
    };
    marked(*mark, bytes)
}

// Bytes behind the mark that says whether they belong to the range.
fn marked(mark: u8, bytes: &[u8]) -> Option<ByteBound<'_>>
    ensures { option_map seen_bytes result ≡ marked mark bytes.now }
{
    if mark == b'[' {
        return Some(Bound::Including(bytes));
    }
    if mark == b'(' {
        return Some(Bound::Excluding(bytes));
    }
    None
}

impl<T: Ord> Bound<T> {
    /// Whether this bound, as the lower end of a range, lets the value in.
    pub fn is_lower_bound_of(&self, value: &T) -> bool
        ensures { result ≡ model.is_from T.cmp (seen_by (λ at. at) self.now) value.now }
    {
        match self {
            Bound::Lowest => true,
            Bound::Highest => false,
            Bound::Including(low) => !value.cmp(low).is_lt(),
            Bound::Excluding(low) => low.cmp(value).is_lt(),
        }
    }

    /// Whether this bound, as the upper end of a range, lets the value in.
    pub fn is_upper_bound_of(&self, value: &T) -> bool
        ensures { result ≡ model.is_up_to T.cmp (seen_by (λ at. at) self.now) value.now }
    {
        match self {
            Bound::Lowest => false,
            Bound::Highest => true,
            Bound::Including(high) => !high.cmp(value).is_lt(),
            Bound::Excluding(high) => value.cmp(high).is_lt(),
        }
    }
}

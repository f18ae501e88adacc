// The numbers of steps: the texts of integers of at least 0, parted by one space each.
ghost use Rattle.std.specs.Prelude.{◌≡◌, MatchOption};
ghost use Rattle.nr_script.specs.Lines.{number_of, number_then, two_numbers};

use crate::parts::parted;
use nr_blob::read_int;

pub(crate) fn number(word: &[u8]) -> Option<u64>
    ensures { result ≡ number_of word.now }
{
    match read_int(word) {
        Some(number) if number >= 0 => Some(number as u64),
        _ => None,
    }
}

/// A number, and what stands behind the space that ends it.
pub(crate) fn number_then(text: &[u8]) -> Option<(u64, &[u8])>
    ensures { MatchOption result (number_then text.now ≡ None) (λ x. number_then text.now ≡ Some (x.0, x.1.now)) }
{
    let Some((word, rest)) = parted(b' ', text) else {
        return None;
    };
    let Some(number) = number(word) else {
        return None;
    };
    Some((number, rest))
}

/// Two numbers, and nothing behind them.
pub(crate) fn two_numbers(text: &[u8]) -> Option<(u64, u64)>
    ensures { MatchOption result (two_numbers text.now ≡ None) (λ x. two_numbers text.now ≡ Some (x.0, x.1)) }
{
    let Some((first, rest)) = number_then(text) else {
        return None;
    };
    let Some(second) = number(rest) else {
        return None;
    };
    Some((first, second))
}

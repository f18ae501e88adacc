//! Glob-style patterns, read where they stand and matched in no memory..
#![tactic(auto)]

mod classes;
mod singles;

ghost use Rattle.std.specs.Prelude.{◌≡◌, ◌<◌, ◌≤◌, length};
ghost use Rattle.nr_model.specs.Patterns.{matches, parts_match, parts_from, Outside, some_rest};
ghost use Rattle.nr_glob.specs.Walks.{IsWalk, IsShorter};

use crate::singles::{after_byte, first_single};

// Where the parts in front of a pattern's first star lead.
#[derive(Clone, Copy)]
enum Walk<'a> {
    // One of them doesn't match, or text is left where the pattern ends.
    Fails,
    // The pattern has no star, and matches the whole text.
    Matches,
    // To a star: the pattern behind it, and the text that is left.
    ToStar(&'a [u8], &'a [u8]),
}

/// Whether the pattern matches the whole text. It takes no memory, and at most (pattern + 1) x (text + 1) steps of a
/// few reads each: where a part doesn't match, only the last star is gone back to, so each byte of the pattern is met
/// at most once for each place of the text that its segment is tried from.
pub fn matches(pattern: &[u8], text: &[u8]) -> bool
    ensures { result ≡ matches pattern.now text.now }
{
    match walk_segment(pattern, text) {
        Walk::Fails => false,
        Walk::Matches => true,
        Walk::ToStar(behind, left) => matches_some_rest(behind, left),
    }
}

// Whether the pattern matches the text or what is left of it behind some front: each segment between two stars is
// taken where it first matches, since the star behind it takes whatever follows.
fn matches_some_rest(pattern: &[u8], text: &[u8]) -> bool
    ensures { result ≡ some_rest (parts_match (parts_from Outside pattern.now)) text.now }
{
    let mut segment = pattern;
    let mut rest = text;
    loop {
        match walk_segment(segment, rest) {
            Walk::Matches => return true,
            Walk::ToStar(behind, left) => {
                segment = behind;
                rest = left;
            }
            Walk::Fails => match rest {
                [] => return false,
                [_, later @ ..] => rest = later,
            },
        }
    }
}

// Matches the parts in front of the first star, one byte each. It takes as many steps as they have bytes.
fn walk_segment<'a>(pattern: &'a [u8], text: &'a [u8]) -> Walk<'a>
    ensures walk { IsWalk pattern.now text.now result }
    ensures shorter { IsShorter pattern.now text.now result }
{
    let mut rest = pattern;
    let mut left = text;
    while let [first, behind @ ..] = rest {
        if *first == b'*' {
            return Walk::ToStar(behind, left);
        }
        let (single, after) = first_single(*first, behind);
        let Some(later) = after_byte(single, left) else {
            return Walk::Fails;
        };
        rest = after;
        left = later;
    }
    if left.is_empty() {
        Walk::Matches
    } else {
        Walk::Fails
    }
}

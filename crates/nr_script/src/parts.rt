// Texts in parts: the lines of a script, and what a space parts.
ghost use Rattle.std.specs.Prelude.{◌≡◌, ◌==◌, ◌∷◌, ◌+◌, ◌<◌, None, Some, [], length, IfNone, IfSome, MatchOption};
ghost use Rattle.std.specs.List.{position};
ghost use Rattle.nr_script.specs.Lines.{parted, lines_of};

use std::marker::Model;

/// The text before the first such byte, and the text behind it.
#[tactic(auto, using(crate::proofs::Cuts::no_parts, crate::proofs::Cuts::two_parts))]
pub(crate) fn parted(mark: u8, text: &[u8]) -> Option<(&[u8], &[u8])>
    ensures parts { MatchOption result (parted mark text.now ≡ None) (λ x. parted mark text.now ≡ Some (x.0.now, x.1.now)) }
    ensures shorter { IfSome result (λ x. length x.1.now < length text.now) }
{
    let Some(end) = index_of(mark, text) else {
        return None;
    };
    Some((&text[..end], &text[end + 1..]))
}

// The first line of a script, without its LF, and what stands behind it: `None` where nothing is left. The last line counts where it has
// no LF. Linear in the line.
#[tactic(auto, using(crate::proofs::Ends::no_line, crate::proofs::Ends::last_line, crate::proofs::Ends::ended_line))]
fn first_line(script: &[u8]) -> Option<(&[u8], &[u8])>
    ensures lines { MatchOption result (lines_of script.now ≡ []) (λ x. lines_of script.now ≡ x.0.now ∷ lines_of x.1.now) }
    ensures shorter { IfSome result (λ x. length x.1.now < length script.now) }
{
    if script.is_empty() {
        return None;
    }
    match parted(b'\n', script) {
        Some((line, rest)) => Some((line, rest)),
        None => Some((script, &script[script.len()..])),
    }
}

fn index_of(mark: u8, text: &[u8]) -> Option<usize>
    ensures { result ≡ position (λ c. c == mark) text.now }
{
    text.iter().position(|byte| *byte == mark)
}

/// The lines of a script with their numbers, which count from 1, without their LF. The last line counts where it has no LF.
#[derive(Drop)]
pub struct Lines<'a> {
    rest: &'a [u8],
    passed: u64,
}

impl<'a> Model for Lines<'a> {
    ghost use Rattle.std.specs.Prelude.{◌+◌, ◌<◌, ◌^◌, length};
    ghost use Rattle.nr_script.specs.Lines.{Left, lines_of};

    ghost Value = { Left };

    ghost view = { λ lines. record { lines = lines_of lines.rest.now; passed = lines.passed } };

    ghost invariant = { λ lines. lines.passed + length lines.rest.now < 2 ^ 64 };
}

impl<'a> Lines<'a> {
    pub fn new(script: &'a [u8]) -> Lines<'a>
        ensures { result ≡ record { lines = lines_of script.now; passed = 0 } }
    {
        Lines {
            rest: script,
            passed: 0,
        }
    }

    /// The next line and its number, or `None` where none is left. Linear in the line.
    pub fn next_line(&mut self) -> Option<(u64, &'a [u8])>
        ensures none { IfNone result ((self.old.lines ≡ []) × (self.new ≡ self.old)) }
        ensures some { IfSome result (λ x. (x.0 ≡ self.old.passed + 1) × (self.old.lines ≡ x.1.now ∷ self.new.lines) × (self.new.passed ≡ self.old.passed + 1)) }
    {
        let Some((line, rest)) = first_line(self.rest) else {
            return None;
        };
        self.rest = rest;
        self.passed += 1;
        Some((self.passed, line))
    }
}

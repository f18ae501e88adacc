// Bytes as scripts spell them: each stands for itself, but for the escapes `\r`, `\n`, `\\` and `\xHH`.
ghost use Rattle.std.specs.Prelude.{◌≡◌, ◌<◌, ◌≤◌, ◌∷◌, [], None, length, IfOk, IfSome, MatchOption};
ghost use Rattle.nr_script.specs.declared.line.LineError.TheVariants as errors;
ghost use Rattle.nr_script.specs.Texts.{text_of, text_from, put_before, hex_value, escaped_value, Escape, Hex, Digit};

use crate::line::LineError;
use nr_blob::Blob;
use std::alloc::Global;

/// The bytes that a text spells, or `BadStep` where a backslash begins none of the escapes. Linear.
#[tactic(auto, using(crate::proofs::Texts::one_more, crate::proofs::Texts::read_all))]
pub(crate) fn read_text(alloc: Global, text: &[u8]) -> Result<Blob, LineError>
    ensures ok { IfOk result (λ bytes. text_of text.now ≡ Some bytes) }
    ensures bad { result ≡ Err errors.BadStep → text_of text.now ≡ None }
{
    let mut bytes = Vec::new(alloc);
    let mut rest = text;
    while let Some((first, behind)) = rest.split_first() {
        let Some((byte, behind)) = spelled_byte(*first, behind) else {
            return Err(LineError::BadStep);
        };
        bytes.push(byte)?;
        rest = behind;
    }
    Ok(Blob::from(bytes))
}

// The byte that is spelled here, and what stands behind it.
#[tactic(auto, using(crate::proofs::Texts::plain_byte, crate::proofs::Texts::behind_backslash))]
fn spelled_byte(first: u8, behind: &[u8]) -> Option<(u8, &[u8])>
    ensures byte { MatchOption result (text_of (first ∷ behind.now) ≡ None) (λ x. text_of (first ∷ behind.now) ≡ put_before (x.0 ∷ []) (text_of x.1.now)) }
    ensures shorter { IfSome result (λ x. length x.1.now ≤ length behind.now) }
{
    if first == b'\\' {
        escaped_byte(behind)
    } else {
        Some((first, behind))
    }
}

// The byte that an escape spells, behind its backslash.
#[tactic(auto, using(crate::proofs::Texts::no_escape, crate::proofs::Texts::escape_x, crate::proofs::Texts::escape_byte, crate::proofs::Texts::escape_other))]
fn escaped_byte(escape: &[u8]) -> Option<(u8, &[u8])>
    ensures byte { MatchOption result (text_from Escape escape.now ≡ None) (λ x. text_from Escape escape.now ≡ put_before (x.0 ∷ []) (text_of x.1.now)) }
    ensures shorter { IfSome result (λ x. length x.1.now ≤ length escape.now) }
{
    let Some((kind, behind)) = escape.split_first() else {
        return None;
    };
    if *kind == b'x' {
        return hex_byte(behind);
    }
    let Some(byte) = escaped_value(*kind) else {
        return None;
    };
    Some((byte, behind))
}

fn escaped_value(kind: u8) -> Option<u8>
    ensures { result ≡ escaped_value kind }
{
    match kind {
        b'r' => Some(b'\r'),
        b'n' => Some(b'\n'),
        b'\\' => Some(b'\\'),
        _ => None,
    }
}

// The byte that two hexadecimal digits spell.
#[tactic(auto, using(crate::proofs::Texts::no_digit, crate::proofs::Texts::hex_other, crate::proofs::Texts::hex_first))]
fn hex_byte(digits: &[u8]) -> Option<(u8, &[u8])>
    ensures byte { MatchOption result (text_from Hex digits.now ≡ None) (λ x. text_from Hex digits.now ≡ put_before (x.0 ∷ []) (text_of x.1.now)) }
    ensures shorter { IfSome result (λ x. length x.1.now ≤ length digits.now) }
{
    let Some((digit, behind)) = digits.split_first() else {
        return None;
    };
    let Some(high) = hex_value(*digit) else {
        return None;
    };
    second_digit(high, behind)
}

// The same behind the first of them.
#[tactic(auto, using(crate::proofs::Texts::no_second, crate::proofs::Texts::digit_other, crate::proofs::Texts::digit_second))]
fn second_digit(high: u8, behind: &[u8]) -> Option<(u8, &[u8])>
    requires { high < 16 }
    ensures byte { MatchOption result (text_from (Digit high) behind.now ≡ None) (λ x. text_from (Digit high) behind.now ≡ put_before (x.0 ∷ []) (text_of x.1.now)) }
    ensures shorter { IfSome result (λ x. length x.1.now ≤ length behind.now) }
{
    let Some((digit, behind)) = behind.split_first() else {
        return None;
    };
    let Some(low) = hex_value(*digit) else {
        return None;
    };
    Some((16 * high + low, behind))
}

fn hex_value(digit: u8) -> Option<u8>
    ensures value { result ≡ hex_value digit }
    ensures small { IfSome result (λ value. value < 16) }
{
    match digit {
        b'0'..=b'9' => Some(digit - b'0'),
        b'a'..=b'f' => Some(digit - b'a' + 10),
        b'A'..=b'F' => Some(digit - b'A' + 10),
        _ => None,
    }
}

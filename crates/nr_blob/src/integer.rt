// Integers as texts, both ways: the words of commands, the headers of requests and replies.
ghost use Rattle.std.specs.Prelude.{◌≡◌, ◌≤◌, ◌++◌, length, slice_index, IsTrue, OnOk, OnErr};
ghost use Rattle.std.specs.Fmt.{signed_decimal};
ghost use Rattle.nr_model.specs.Numbers.{int_value};
ghost use Rattle.nr_blob.specs.Integers.{begins_nonzero, is_leading_digit, short_value};

use crate::memory::Memory;
use itoa::Buffer;
use std::str;

/// Numbers of at most so many digits fit 63 bits.
const MOST_SHORT_DIGITS: usize = 18;

/// The integer that a text writes: `0`, or an optional `-` and digits that begin with 1 to 9, in the range of 64 bits.
pub fn read_int(bytes: &[u8]) -> Option<i64>
    ensures { result ≡ int_value bytes.now }
{
    match bytes {
        b"0" => Some(0),
        [b'1'..=b'9', ..] => plain(bytes),
        [b'-', b'1'..=b'9', ..] => parsed(bytes),
        _ => None,
    }
}

// Digits one by one take fewer steps than `from_utf8` and `parse`, and most texts are short.
fn plain(text: &[u8]) -> Option<i64>
    requires { IsTrue (is_leading_digit (slice_index text.now 0)) }
    ensures { result ≡ int_value text.now }
{
    if text.len() <= MOST_SHORT_DIGITS {
        short(text)
    } else {
        parsed(text)
    }
}

fn short(digits: &[u8]) -> Option<i64>
    requires { length digits.now ≤ 18 }
    ensures { result ≡ short_value digits.now }
{
    let mut value: u64 = 0;
    for digit in digits {
        if !digit.is_ascii_digit() {
            return None;
        }
        value = 10 * value + u64::from(*digit - b'0');
    }
    Some(value as i64)
}

// std's `parse` takes a `+` and leading zeros too: a text that comes here has none.
fn parsed(text: &[u8]) -> Option<i64>
    requires { IsTrue (begins_nonzero text.now) }
    ensures { result ≡ int_value text.now }
{
    str::from_utf8(text).ok()?.parse().ok()
}

/// Appends an integer's text, or nothing where memory runs out.
pub fn int_text(n: i64, out: &mut Vec<u8>) -> Result<(), Memory>
    ensures ok { OnOk result (out.new.items ≡ out.old.items ++ signed_decimal n) }
    ensures err { OnErr result (out.new.items ≡ out.old.items) }
{
    out.extend_from_slice(Buffer::new().format(n).as_bytes())?;
    Ok(())
}

// Counting set bits.
ghost use Rattle.std.specs.Prelude.{◌≡◌, ◌*◌, ◌-◌, ◌<◌, ◌≤◌, ◌^◌, length, take, drop};
ghost use Rattle.nr_model.specs.Strings.{bits_of, bits_of_byte, ones, set_bits};

use crate::bytes::byte_or_zero;

/// How many bits of these bytes are set. Linear in them.
pub(crate) fn ones_of(bytes: &[u8]) -> usize
    requires { length bytes.now < 2 ^ 60 }
    ensures count { result ≡ ones bytes.now }
    ensures bound { result ≤ length bytes.now * 8 }
{
    let mut count = 0;
    for byte in bytes {
        count += byte.count_ones() as usize;
    }
    count
}

/// How many of the bits from one to another are set, the last not counted. Linear in the bytes that they stand in.
#[tactic(auto, using(crate::proofs::Counted::difference))]
pub(crate) fn ones_between(bytes: &[u8], start: usize, end: usize) -> usize
    requires size { length bytes.now < 2 ^ 60 }
    requires order { start ≤ end }
    requires within { end ≤ length bytes.now * 8 }
    ensures count { result ≡ set_bits (take (end - start) (drop start (bits_of bytes.now))) }
    ensures bound { result ≤ end }
{
    let whole = start / 8;
    let touched = &bytes[whole..];
    ones_before(touched, end - whole * 8) - ones_before(touched, start % 8)
}

// How many of the first bits are set: those of whole bytes, and of the front of one more.
#[tactic(auto, using(crate::proofs::Counted::counted_before))]
fn ones_before(bytes: &[u8], end: usize) -> usize
    requires size { length bytes.now < 2 ^ 60 }
    requires within { end ≤ length bytes.now * 8 }
    ensures { result ≡ set_bits (take end (bits_of bytes.now)) }
{
    let whole = end / 8;
    ones_of(&bytes[..whole]) + ones_in_front(byte_or_zero(bytes, whole), end % 8)
}

// How many of a byte's first bits are set, the highest being the first.
fn ones_in_front(byte: u8, end: usize) -> usize
    requires { end < 8 }
    ensures count { result ≡ set_bits (take end (bits_of_byte byte)) }
    ensures bound { result ≤ 8 }
{
    let front: u8 = !(0xff >> end);
    (byte & front).count_ones() as usize
}

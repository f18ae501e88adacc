// Scores as a few bytes: as many of the 64 bits of one as hold it, the highest byte first.
ghost use Rattle.std.specs.Prelude.{◌≡◌, ◌≤◌, ◌<◌, ◌^◌, length, drop, fold};
ghost use Rattle.nr_zsets.specs.Forms.{next_number, number_in, score_in};

/// The score that bytes spell.
pub(crate) fn score_in(bytes: &[u8]) -> i64
    ensures { result ≡ score_in bytes.now }
{
    number_in(bytes).cast_signed()
}

/// Writes a score to the end of eight bytes, and says where it begins there. From 0 to 255 it takes a byte at most, and eight where it is negative.
pub(crate) fn spell(score: i64, bytes: &mut [u8]) -> usize
    requires { length bytes.old ≡ 8 }
    ensures spelled { score_in (drop result bytes.new) ≡ score }
    ensures within { result ≤ 8 }
{
    write_number(score.cast_unsigned(), bytes)
}

// The number that bytes spell.
fn number_in(bytes: &[u8]) -> u64
    ensures { result ≡ number_in bytes.now }
{
    let mut number = 0;
    for byte in bytes {
        number = next_number(number, *byte);
    }
    number
}

// A number with one byte more behind it.
#[inline(always)]
fn next_number(number: u64, byte: u8) -> u64
    ensures { result ≡ next_number number byte }
{
    if number < 1 << 56 {
        number * 256 + byte as u64
    } else {
        0
    }
}

// Writes a number to the end of eight bytes, and says where it begins there.
fn write_number(number: u64, bytes: &mut [u8]) -> usize
    requires { length bytes.old ≡ 8 }
    ensures spelled { number_in (drop result bytes.new) ≡ number }
    ensures within { result ≤ 8 }
{
    let mut left = number;
    let mut start = 8;
    while left > 0 {
        start -= 1;
        bytes[start] = (left % 256) as u8;
        left /= 256;
    }
    start
}

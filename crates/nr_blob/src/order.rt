// The order of bytes, eight of them at a time: a tree is descended by comparisons, and names that have a beginning in common are common.
ghost use Rattle.std.specs.Prelude.{◌≡◌, ◌+◌, ◌<◌, ◌≤◌, ◌^◌, length, take, drop};
ghost use Rattle.std.specs.Cmp.Lexicographic.{slice_cmp};
ghost use Rattle.std.specs.Ordering.{nat_cmp};
ghost use Rattle.std.specs.Slice.Scan.{big_endian};
ghost use Rattle.nr_blob.specs.Compared.{Settles};

use std::cmp::Ordering;

/// The least number that four bytes can't spell.
const PAST_FOUR: u64 = 1 << 32;

/// The order of the first bytes that differ; a front stands before what it is a front of. Linear in the shorter one, in steps of eight bytes, or of
/// one byte where it has fewer than four.
pub fn compare(left: &[u8], right: &[u8]) -> Ordering
    ensures { result ≡ slice_cmp nat_cmp left.now right.now }
{
    let both = left.len().min(right.len());
    if both < 4 {
        return left.cmp(&right);
    }
    let (first, second) = read_apart(left, right, both);
    if first != second {
        return first.cmp(&second);
    }
    left.len().cmp(&right.len())
}

// A number of each that lie as the first so many bytes do.
fn read_apart(left: &[u8], right: &[u8], both: usize) -> (u64, u64)
    requires some { 4 ≤ both }
    requires left { both ≤ length left.now }
    requires right { both ≤ length right.now }
    ensures { Settles left.now right.now both result.0 result.1 }
{
    if both < 8 {
        read_ends(left, right, both - 4)
    } else {
        read_long(left, right, both - 8)
    }
}

// The first four bytes and four from a place on, which may overlap, as one number.
fn read_ends(left: &[u8], right: &[u8], last: usize) -> (u64, u64)
    requires overlap { last ≤ 4 }
    requires left { last + 4 ≤ length left.now }
    requires right { last + 4 ≤ length right.now }
    ensures { Settles left.now right.now (last + 4) result.0 result.1 }
{
    let first = read_four(left, 0) * PAST_FOUR + read_four(left, last);
    let second = read_four(right, 0) * PAST_FOUR + read_four(right, last);
    (first, second)
}

// The first eight bytes that differ, and else the eight from the last place on, which may overlap with those before.
fn read_long(left: &[u8], right: &[u8], last: usize) -> (u64, u64)
    requires left { last + 8 ≤ length left.now }
    requires right { last + 8 ≤ length right.now }
    ensures { Settles left.now right.now (last + 8) result.0 result.1 }
{
    let mut place = 0;
    while place < last {
        let (first, second) = (read_eight(left, place), read_eight(right, place));
        if first != second {
            return (first, second);
        }
        place += 8;
    }
    (read_eight(left, last), read_eight(right, last))
}

fn read_four(bytes: &[u8], place: usize) -> u64
    requires { place + 4 ≤ length bytes.now }
    ensures value { result ≡ big_endian 0 (take 4 (drop place bytes.now)) }
    ensures small { result < 2 ^ 32 }
{
    let four = &bytes[place..place + 4];
    u64::from(u32::from_be_bytes([four[0], four[1], four[2], four[3]]))
}

fn read_eight(bytes: &[u8], place: usize) -> u64
    requires { place + 8 ≤ length bytes.now }
    ensures { result ≡ big_endian 0 (take 8 (drop place bytes.now)) }
{
    let eight = &bytes[place..place + 8];
    u64::from_be_bytes([
        eight[0], eight[1], eight[2], eight[3], eight[4], eight[5], eight[6], eight[7],
    ])
}

// Rows behind numbers that lie as their fields do: what all fields begin with is passed over, and the next eight bytes are read as one number.
ghost use Rattle.std.specs.Prelude.{◌≡◌, ◌≤◌, ◌<◌, ◌^◌, length, take};
ghost use Rattle.std.specs.List.{All};
ghost use Rattle.nr_packs.specs.Rows.{head, pairs_in, AreBytes, AreNumbered, Begins, HaveFront, IsHeaded};

use crate::block::byte_at;

/// The least number that four bytes can't spell.
const PAST_FOUR: usize = 1 << 32;

/// Numbers the rows.
pub(crate) fn number(rows: &mut [(u64, &[u8], &[u8])])
    ensures same { pairs_in rows.new ≡ pairs_in rows.old }
    ensures numbered { AreNumbered rows.new }
{
    let skip = front_of(rows);
    set_heads(rows, skip);
}

// How many bytes all fields begin with. Linear in them.
fn front_of(rows: &[(u64, &[u8], &[u8])]) -> usize
    ensures front { HaveFront result (pairs_in rows.now) }
    ensures small { result < 2 ^ 63 }
{
    let Some((_, first, _)) = rows.first() else {
        return 0;
    };
    front_with(first, rows)
}

// How many bytes all fields begin with that this one begins with too.
fn front_with(first: &[u8], rows: &[(u64, &[u8], &[u8])]) -> usize
    ensures front { HaveFront result (pairs_in rows.now) }
    ensures small { result < 2 ^ 63 }
{
    let mut count = first.len();
    for row in rows {
        count = common(first, row.1, count);
    }
    count
}

// How many bytes two fields have in common in front, and at most so many.
fn common(first: &[u8], field: &[u8], most: usize) -> usize
    requires { most ≤ length first.now }
    ensures less { result ≤ most }
    ensures same { take result first.now ≡ take result field.now }
    ensures within { result ≤ length field.now }
{
    let end = most.min(field.len());
    let mut count = 0;
    while count < end && first[count] == field[count] {
        count += 1;
    }
    count
}

fn set_heads(rows: &mut [(u64, &[u8], &[u8])], skip: usize)
    requires { skip < 2 ^ 63 }
    ensures same { pairs_in rows.new ≡ pairs_in rows.old }
    ensures heads { All (IsHeaded skip) rows.new }
{
    for row in rows.iter_mut() {
        row.0 = head_of(row.1, skip);
    }
}

// The number of a field behind so many bytes.
fn head_of(field: &[u8], skip: usize) -> u64
    requires { skip < 2 ^ 63 }
    ensures head { result ≡ head skip field.now }
    ensures bytes { AreBytes field.now }
{
    let high = ((byte_at(field, skip) * 256 + byte_at(field, skip + 1)) * 256
        + byte_at(field, skip + 2))
        * 256
        + byte_at(field, skip + 3);
    let low = ((byte_at(field, skip + 4) * 256 + byte_at(field, skip + 5)) * 256
        + byte_at(field, skip + 6))
        * 256
        + byte_at(field, skip + 7);
    (high * PAST_FOUR + low) as u64
}

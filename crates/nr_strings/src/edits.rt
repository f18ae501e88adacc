// Bytes that are edited in place. Where memory runs out nothing is changed.
ghost use Rattle.std.specs.Prelude.{◌≡◌, ◌++◌, ◌+◌, ◌<◌, ◌^◌, ◌≤◌, length, take, drop, OnOk, OnErr};
ghost use Rattle.nr_model.specs.Strings.{overwritten, with_bit, with_bit_at, joined_two};
ghost use Rattle.nr_strings.specs.Joins.{function_of};

use crate::bytes::byte_or_zero;
use crate::joins::{self, BitOperation};
use crate::padding::grow;
use nr_blob::{Bytes, Memory};

/// Puts bytes behind these.
pub(crate) fn append(text: &mut Bytes, bytes: &[u8]) -> Result<(), Memory>
    ensures ok { OnOk result (text.new.items ≡ text.old.items ++ bytes.now) }
    ensures err { OnErr result (text.new.items ≡ text.old.items) }
{
    text.extend_from_slice(bytes)?;
    Ok(())
}

/// Becomes these bytes, in the room that there is where they fit in and take at least half of it.
pub(crate) fn write(text: &mut Bytes, bytes: &[u8]) -> Result<(), Memory>
    ensures ok { OnOk result (text.new.items ≡ bytes.now) }
    ensures err { OnErr result (text.new.items ≡ text.old.items) }
{
    let room = text.capacity();
    if bytes.len() > room || bytes.len() < room / 2 {
        *text = Bytes::from_slice(*text.allocator(), bytes)?;
        return Ok(());
    }
    text.clear();
    if text.extend_from_slice(bytes).is_err() {
        unreachable!()
    }
    Ok(())
}

/// Writes bytes over these from an offset on, with zero bytes between the end and the offset.
pub(crate) fn set_range(text: &mut Bytes, offset: usize, written: &[u8]) -> Result<(), Memory>
    requires { offset + length written.now < 2 ^ 63 }
    ensures ok { OnOk result (text.new.items ≡ overwritten offset written.now text.old.items) }
    ensures err { OnErr result (text.new.items ≡ text.old.items) }
{
    grow(text, offset + written.len())?;
    overwrite(text.as_mut_slice(), offset, written);
    Ok(())
}

/// Sets or clears the bit at an offset, the highest of the first byte being at 0, with zero bytes between the end and its byte.
pub(crate) fn set_bit(text: &mut Bytes, offset: u64, value: bool) -> Result<(), Memory>
    requires { offset < 2 ^ 40 }
    ensures ok { OnOk result (text.new.items ≡ with_bit_at text.old.items offset value) }
    ensures err { OnErr result (text.new.items ≡ text.old.items) }
{
    let index = (offset / 8) as usize;
    let byte = byte_or_zero(text.as_slice(), index);
    grow(text, index + 1)?;
    text.as_mut_slice()[index] = changed(byte, offset % 8, value);
    Ok(())
}

/// Joins these bytes with others bit by bit, the shorter padded with zero bytes.
pub(crate) fn join_bits(
    text: &mut Bytes,
    operation: BitOperation,
    other: &[u8],
) -> Result<(), Memory>
    ensures ok { OnOk result (text.new.items ≡ joined_two (function_of operation) text.old.items other.now) }
    ensures err { OnErr result (text.new.items ≡ text.old.items) }
{
    grow(text, other.len())?;
    joins::join(text.as_mut_slice(), operation, other);
    Ok(())
}

// Writes bytes over these from an offset on.
fn overwrite(bytes: &mut [u8], offset: usize, written: &[u8])
    requires { offset + length written.now ≤ length bytes.old }
    ensures { bytes.new ≡ take offset bytes.old ++ written.now ++ drop (offset + length written.now) bytes.old }
{
    bytes[offset..offset + written.len()].copy_from_slice(written);
}

// The byte with one of its bits set or cleared, the highest being at 0.
fn changed(byte: u8, bit: u64, value: bool) -> u8
    requires { bit < 8 }
    ensures { result ≡ with_bit byte bit value }
{
    let weight: u8 = 0x80 >> bit;
    if value { byte | weight } else { byte & !weight }
}

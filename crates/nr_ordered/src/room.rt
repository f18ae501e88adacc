// Room in vectors. They grow by a few places at a time, so that little is free in a block, and what is taken out of them is given back.
ghost use Rattle.std.specs.Prelude.{◌≡◌, ◌+◌, ◌-◌, ◌≤◌, ◌<◌, ◌++◌, length, take, drop, vec_len, vec_capacity, OnOk, OnErr};
ghost use Rattle.std.specs.List.{insert};

use nr_blob::{Memory, remove_range};
use std::cmp;

/// By how many places a vector grows at least.
const GROWTH: usize = 4;

/// Room for one more.
pub(crate) fn reserve_few<T>(held: &mut Vec<T>) -> Result<(), Memory>
    ensures items { held.new.items ≡ held.old.items }
    ensures room { OnOk result (vec_len held.new < vec_capacity held.new) }
{
    if held.len() < held.capacity() {
        return Ok(());
    }
    held.reserve_exact(GROWTH)?;
    Ok(())
}

/// Puts one in at a place, for which there is room.
pub(crate) fn put_reserved<T: Drop>(held: &mut Vec<T>, place: usize, one: T)
    requires within { place ≤ length held.old.items }
    requires room { vec_len held.old < vec_capacity held.old }
    ensures { held.new.items ≡ insert held.old.items place one }
{
    if held.insert(place, one).is_err() {
        unreachable!()
    }
}

/// Takes those from one place to another out, and gives room back once much of it is free.
pub(crate) fn take_out<T: Copy + Drop>(held: &mut Vec<T>, from: usize, to: usize)
    requires range { from ≤ to }
    requires within { to ≤ length held.old.items }
    ensures { held.new.items ≡ take from held.old.items ++ drop to held.old.items }
{
    remove_range(held, from, to);
    shrink(held);
}

// Gives room back where more is free than a few places and a quarter of what is held.
fn shrink<T: Drop>(held: &mut Vec<T>)
    ensures { held.new.items ≡ held.old.items }
{
    if held.capacity() - held.len() > held.len() / 4 + GROWTH {
        held.shrink_to_fit();
    }
}

/// Puts bytes in at a place. Linear in them and in those behind the place. Where memory runs out nothing is changed.
pub(crate) fn put_bytes(bytes: &mut Vec<u8>, place: usize, more: &[u8]) -> Result<(), Memory>
    requires { place ≤ length bytes.old.items }
    ensures ok { OnOk result (bytes.new.items ≡ take place bytes.old.items ++ (more.now ++ drop place bytes.old.items)) }
    ensures err { OnErr result (bytes.new.items ≡ bytes.old.items) }
{
    reserve_bytes(bytes, more.len())?;
    bytes.extend_from_slice(more)?;
    turn(bytes, place, more.len());
    Ok(())
}

// Room for so many bytes more, and for an eighth of those that are there.
fn reserve_bytes(bytes: &mut Vec<u8>, more: usize) -> Result<(), Memory>
    ensures { bytes.new.items ≡ bytes.old.items }
{
    if bytes.capacity() - bytes.len() < more {
        bytes.reserve_exact(cmp::max(more, bytes.len() / 8))?;
    }
    Ok(())
}

// Brings so many bytes from the end to a place.
fn turn(bytes: &mut [u8], place: usize, count: usize)
    requires { place + count ≤ length bytes.old }
    ensures { bytes.new ≡ take place bytes.old ++ (drop (length bytes.old - count) bytes.old ++ take (length bytes.old - place - count) (drop place bytes.old)) }
{
    bytes[place..].rotate_right(count);
}

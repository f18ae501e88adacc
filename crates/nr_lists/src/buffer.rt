// Bytes in one piece, put in and taken out anywhere, and at both ends without moving the others.
ghost use Rattle.std.specs.Prelude.{◌≡◌, ◌≤◌, ◌<◌, ◌+◌, ◌^◌, ◌++◌, length, take, drop, replicate, IfOk, OnOk, OnErr};

use nr_blob::{Memory, remove_range};
use std::alloc::Global;
use std::cmp;
use std::marker::Model;

/// Bytes in one piece. They are seen as a list of bytes.
#[derive(Debug, Drop)]
pub(crate) struct Buffer {
    // How many places in front are free.
    start: usize,
    bytes: Vec<u8>,
}

impl Model for Buffer {
    ghost use Rattle.std.specs.Prelude.{◌≤◌, length, drop};
    ghost use Rattle.nr_model.specs.Bytes.{Bytes};

    ghost Value = { Bytes };

    ghost view = { λ buffer. drop buffer.start buffer.bytes.items };

    ghost invariant = { λ buffer. buffer.start ≤ length buffer.bytes.items };
}

impl Buffer {
    /// Takes the bytes over.
    pub(crate) fn new(bytes: Vec<u8>) -> Buffer
        ensures { result ≡ bytes.items }
    {
        Buffer { start: 0, bytes }
    }

    /// The bytes. Constant.
    pub(crate) fn bytes(&self) -> &[u8]
        ensures { result.now ≡ self.now }
    {
        &self.bytes[self.start..]
    }

    /// How many bytes. Constant.
    pub(crate) fn len(&self) -> usize
        ensures len { result ≡ length self.now }
        ensures small { result < 2 ^ 63 }
    {
        self.bytes.len() - self.start
    }

    /// Puts bytes in at a place. Linear in them at an end, but for growth, and in all bytes elsewhere. Where memory runs out nothing is
    /// changed.
    pub(crate) fn insert(&mut self, place: usize, item: &[u8]) -> Result<(), Memory>
        requires { place ≤ length self.old }
        ensures ok { OnOk result (self.new ≡ take place self.old ++ (item.now ++ drop place self.old)) }
        ensures err { OnErr result (self.new ≡ self.old) }
    {
        if place == self.len() {
            self.bytes.extend_from_slice(item)?;
            return Ok(());
        }
        if place == 0 {
            return put_in_front(&mut self.start, &mut self.bytes, item);
        }
        let (before, behind) = self.bytes().split_at(place);
        let bytes = joined(*self.bytes.allocator(), before, item, behind)?;
        self.bytes = bytes;
        self.start = 0;
        Ok(())
    }

    /// Puts bytes in the place of those of a range. Linear in them where these are as many, else in all bytes. Where memory runs out nothing is
    /// changed.
    pub(crate) fn replace(&mut self, start: usize, end: usize, item: &[u8]) -> Result<(), Memory>
        requires range { start ≤ end }
        requires within { end ≤ length self.old }
        ensures ok { OnOk result (self.new ≡ take start self.old ++ (item.now ++ drop end self.old)) }
        ensures err { OnErr result (self.new ≡ self.old) }
    {
        if item.len() == end - start {
            write(&mut self.bytes, self.start + start, item);
            return Ok(());
        }
        let held = self.bytes();
        let bytes = joined(*self.bytes.allocator(), &held[..start], item, &held[end..])?;
        self.bytes = bytes;
        self.start = 0;
        Ok(())
    }

    /// Takes the bytes of a range out. Constant at an end, and linear in the bytes behind them elsewhere.
    pub(crate) fn remove(&mut self, start: usize, end: usize)
        requires range { start ≤ end }
        requires within { end ≤ length self.old }
        ensures { self.new ≡ take start self.old ++ drop end self.old }
    {
        if start == 0 {
            self.start += end;
        } else if end == self.len() {
            self.bytes.truncate(self.start + start);
        } else {
            remove_range(&mut self.bytes, self.start + start, self.start + end);
        }
    }

    /// Lets go of the room that is free.
    pub(crate) fn shrink(&mut self)
        ensures { self.new ≡ self.old }
    {
        remove_range(&mut self.bytes, 0, self.start);
        self.start = 0;
        self.bytes.shrink_to_fit();
    }

    /// The bytes, without a copy where none is free in front.
    pub(crate) fn into_vec(self) -> Vec<u8>
        ensures { result.items ≡ self }
    {
        let Buffer { start, mut bytes } = self;
        remove_range(&mut bytes, 0, start);
        bytes
    }
}

// Puts bytes in front of those that begin at a place. Where too few places are free there, the bytes move once to where about as many more
// are free.
fn put_in_front(start: &mut usize, bytes: &mut Vec<u8>, item: &[u8]) -> Result<(), Memory>
    requires { start.old ≤ length bytes.old.items }
    ensures ok { OnOk result (drop start.new bytes.new.items ≡ item.now ++ drop start.old bytes.old.items) }
    ensures err { OnErr result (drop start.new bytes.new.items ≡ drop start.old bytes.old.items) }
    ensures within { start.new ≤ length bytes.new.items }
{
    let len = item.len();
    if len <= *start {
        let begin = *start - len;
        write(bytes, begin, item);
        *start = begin;
        return Ok(());
    }
    let held = &bytes[*start..];
    let room = cmp::max(held.len(), len);
    let moved = with_room(*bytes.allocator(), room, item, held)?;
    *bytes = moved;
    *start = room;
    Ok(())
}

// Writes bytes over those at a place.
fn write(bytes: &mut Vec<u8>, place: usize, item: &[u8])
    requires { place + length item.now ≤ length bytes.old.items }
    ensures { bytes.new.items ≡ take place bytes.old.items ++ (item.now ++ drop (place + length item.now) bytes.old.items) }
{
    bytes[place..place + item.len()].copy_from_slice(item);
}

// Two pieces behind so many free places.
fn with_room(alloc: Global, room: usize, first: &[u8], others: &[u8]) -> Result<Vec<u8>, Memory>
    requires { room < 2 ^ 63 }
    ensures { IfOk result (λ bytes. bytes.items ≡ replicate room 0 ++ (first.now ++ others.now)) }
{
    let mut bytes = Vec::new(alloc);
    bytes.reserve_exact(room)?;
    bytes.resize(room, 0)?;
    bytes.reserve_exact(first.len() + others.len())?;
    bytes.extend_from_slice(first)?;
    bytes.extend_from_slice(others)?;
    Ok(bytes)
}

// Bytes between those before and those behind them, with room for no more.
fn joined(alloc: Global, before: &[u8], item: &[u8], behind: &[u8]) -> Result<Vec<u8>, Memory>
    requires { length before.now + length behind.now < 2 ^ 63 }
    ensures { IfOk result (λ bytes. bytes.items ≡ before.now ++ (item.now ++ behind.now)) }
{
    let mut bytes = Vec::with_capacity(alloc, before.len() + behind.len() + item.len())?;
    bytes.extend_from_slice(before)?;
    bytes.extend_from_slice(item)?;
    bytes.extend_from_slice(behind)?;
    Ok(bytes)
}

// A string: what APPEND, SETRANGE and their like write into, in place. Its bytes are taken out of the blob for that, and put back.
ghost use Rattle.std.specs.Fmt.{signed_decimal};
ghost use Rattle.std.specs.Prelude.{[], ◌≡◌, ◌++◌, ◌+◌, ◌<◌, ◌^◌, length, IfOk, OnOk, OnErr};
ghost use Rattle.nr_model.specs.Strings.{range, overwritten, bit_at, with_bit_at, bits_of, set_bits, ones, joined_two, inverted, max_len};
ghost use Rattle.nr_strings.specs.Joins.{function_of};

use crate::bytes::byte_or_zero;
use crate::counts::{ones_between, ones_of};
use crate::edits;
use crate::joins::{self, BitOperation};
use itoa::Buffer;
use nr_blob::{Blob, MOST_IN_PLACE, Memory, end_of, start_of};
use std::alloc::Global;
use std::marker::Model;

/// The most bytes that a string may have: 512 MiB. No call here refuses more.
pub const MAX_LEN: usize = 536_870_912;

// The limit is that of the definitions.
fn max_len_law()
    ensures { MAX_LEN ≡ max_len }
{}

/// A string, as a key holds it. It is seen as a list of bytes.
#[derive(Debug, Drop)]
pub struct Str {
    bytes: Blob,
}

impl Model for Str {
    ghost use Rattle.std.specs.Prelude.{ℕ, List};

    ghost Value = { List ℕ };

    ghost view = { λ string. string.bytes };
}

/// Takes the bytes over, without a copy of a block.
impl From<Blob> for Str {
    ghost from_gives = { λ blob string. string ≡ blob };

    fn from(blob: Blob) -> Self {
        Str { bytes: blob }
    }
}

/// Gives the bytes back, without a copy of a block.
impl From<Str> for Blob {
    ghost from_gives = { λ string blob. blob ≡ string };

    fn from(string: Str) -> Self {
        string.bytes
    }
}

impl Str {
    /// The empty string. It takes no memory.
    pub fn new(alloc: Global) -> Str
        ensures { result ≡ [] }
    {
        Str {
            bytes: Blob::from(Vec::new(alloc)),
        }
    }

    pub fn from_slice(alloc: Global, bytes: &[u8]) -> Result<Str, Memory>
        ensures { IfOk result (λ string. string ≡ bytes.now) }
    {
        Ok(Str {
            bytes: Blob::from_slice(alloc, bytes)?,
        })
    }

    /// The same bytes once more, from the allocator that these are from.
    pub fn copy(&self) -> Result<Str, Memory>
        ensures { IfOk result (λ string. string ≡ self.now) }
    {
        Ok(Str {
            bytes: self.bytes.copy()?,
        })
    }

    pub fn bytes(&self) -> &[u8]
        ensures { result.now ≡ self.now }
    {
        self.bytes.bytes()
    }

    pub fn len(&self) -> usize
        ensures { result ≡ length self.now }
    {
        self.bytes.len()
    }

    /// The bytes from one index to another, both counted; an index below 0 counts from the end.
    pub fn range(&self, first: i64, last: i64) -> &[u8]
        ensures { result.now ≡ range first last self.now }
    {
        let start = start_of(self.bytes.len(), first);
        let end = end_of(self.bytes.len(), last);
        if end < start {
            return &[];
        }
        &self.bytes()[start..end]
    }

    /// Becomes these bytes. A block that is there is kept where they need one, fit in it and take at least half of it: then they take no memory.
    /// Where that runs out nothing is changed.
    pub fn write(&mut self, bytes: &[u8]) -> Result<(), Memory>
        ensures ok { OnOk result (self.new ≡ bytes.now) }
        ensures err { OnErr result (self.new ≡ self.old) }
    {
        if bytes.len() <= MOST_IN_PLACE {
            self.bytes = Blob::from_slice(self.bytes.allocator(), bytes)?;
            return Ok(());
        }
        let mut text = self.bytes.take();
        let written = edits::write(&mut text, bytes);
        self.bytes = Blob::from(text);
        written
    }

    /// Puts bytes behind these, in place. Where memory runs out nothing is changed.
    pub fn append(&mut self, bytes: &[u8]) -> Result<(), Memory>
        ensures ok { OnOk result (self.new ≡ self.old ++ bytes.now) }
        ensures err { OnErr result (self.new ≡ self.old) }
    {
        let mut text = self.bytes.take();
        let appended = edits::append(&mut text, bytes);
        self.bytes = Blob::from(text);
        appended
    }

    /// Writes bytes over these from an offset on, in place, with zero bytes between the end and the offset. Where memory runs out
    /// nothing is changed.
    pub fn set_range(&mut self, offset: usize, written: &[u8]) -> Result<(), Memory>
        requires { offset + length written.now < 2 ^ 63 }
        ensures ok { OnOk result (self.new ≡ overwritten offset written.now self.old) }
        ensures err { OnErr result (self.new ≡ self.old) }
    {
        let mut text = self.bytes.take();
        let done = edits::set_range(&mut text, offset, written);
        self.bytes = Blob::from(text);
        done
    }

    /// The bit at an offset, the highest of the first byte being at 0. Behind the end it is not set.
    pub fn bit(&self, offset: u64) -> bool
        ensures { result ≡ bit_at self.now offset }
    {
        let byte = byte_or_zero(self.bytes(), (offset / 8) as usize);
        byte & (0x80 >> (offset % 8)) != 0
    }

    /// Sets or clears the bit at an offset, in place, with zero bytes between the end and its byte, and answers what it was. Where memory
    /// runs out nothing is changed.
    pub fn set_bit(&mut self, offset: u64, value: bool) -> Result<bool, Memory>
        requires { offset < 2 ^ 40 }
        ensures was { IfOk result (λ was. was ≡ bit_at self.old offset) }
        ensures ok { OnOk result (self.new ≡ with_bit_at self.old offset value) }
        ensures err { OnErr result (self.new ≡ self.old) }
    {
        let was = self.bit(offset);
        let mut text = self.bytes.take();
        let done = edits::set_bit(&mut text, offset, value);
        self.bytes = Blob::from(text);
        done?;
        Ok(was)
    }

    /// How many bits are set from one byte to another, both counted; an index below 0 counts from the end. Linear in these bytes.
    pub fn count_bytes(&self, first: i64, last: i64) -> usize
        requires { length self.now < 2 ^ 60 }
        ensures count { result ≡ ones (range first last self.now) }
        ensures bound { result < 2 ^ 63 }
    {
        ones_of(self.range(first, last))
    }

    /// How many bits are set from one bit to another, both counted, the highest of the first byte being at 0; an index below 0 counts from
    /// the end. Linear in the bytes that they stand in.
    #[tactic(auto, using(crate::proofs::Counted::counted_none))]
    pub fn count_bits(&self, first: i64, last: i64) -> usize
        requires { length self.now < 2 ^ 60 }
        ensures count { result ≡ set_bits (range first last (bits_of self.now)) }
        ensures bound { result < 2 ^ 63 }
    {
        let len = self.len() * 8;
        let start = start_of(len, first);
        let end = end_of(len, last);
        if end < start {
            return 0;
        }
        ones_between(self.bytes(), start, end)
    }

    /// Joins these bytes with others bit by bit, in place, the shorter padded with zero bytes. Where memory runs out nothing is changed.
    /// Linear in the longer.
    pub fn join_bits(&mut self, operation: BitOperation, other: &[u8]) -> Result<(), Memory>
        ensures ok { OnOk result (self.new ≡ joined_two (function_of operation) self.old other.now) }
        ensures err { OnErr result (self.new ≡ self.old) }
    {
        let mut text = self.bytes.take();
        let done = edits::join_bits(&mut text, operation, other);
        self.bytes = Blob::from(text);
        done
    }

    /// Turns each bit, in place.
    pub fn invert(&mut self)
        ensures { self.new ≡ inverted self.old }
    {
        let mut text = self.bytes.take();
        joins::invert(text.as_mut_slice());
        self.bytes = Blob::from(text);
    }

    /// Becomes the text of an integer. Where memory runs out nothing is changed.
    pub fn write_int(&mut self, n: i64) -> Result<(), Memory>
        ensures ok { OnOk result (self.new ≡ signed_decimal n) }
        ensures err { OnErr result (self.new ≡ self.old) }
    {
        let mut text = Buffer::new();
        self.bytes = Blob::from_slice(self.bytes.allocator(), text.format(n).as_bytes())?;
        Ok(())
    }
}

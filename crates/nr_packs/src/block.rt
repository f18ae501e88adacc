// The bytes of packed pairs and how many pairs they are, in one block of memory.
ghost use Rattle.std.specs.Prelude.{◌≡◌, ◌+◌, ◌-◌, ◌≤◌, ◌<◌, ◌++◌, ◌^◌, [], length, take, drop, slice_index, IfOk, OnOk, ◌∷◌, ◌%◌, ◌/◌};
ghost use Rattle.nr_packs.specs.Packed.{word};

use nr_blob::{Memory, remove_range};
use std::alloc::Global;
use std::marker::Model;

/// Pairs as bytes, behind two bytes that count them, the lower one first. No pairs and no count take no memory. It is seen as the count and the bytes behind it.
#[derive(Debug, Drop)]
pub(crate) struct Block {
    bytes: Vec<u8>,
}

impl Model for Block {
    ghost use Rattle.std.specs.Prelude.{ℕ, ◌<◌, ◌≤◌, List, drop, length};
    ghost use Rattle.nr_packs.specs.Packed.{count_in};

    ghost Value = { ℕ × List ℕ };

    ghost view = { λ block. (count_in block.bytes.items, drop 2 block.bytes.items) };

    ghost invariant = { λ block. 0 < length block.bytes.items → 2 ≤ length block.bytes.items };
}

impl Block {
    /// Of no pairs.
    pub(crate) fn new(alloc: Global) -> Block
        ensures { result ≡ (0, []) }
    {
        Block {
            bytes: Vec::new(alloc),
        }
    }

    /// Of so many pairs, in their bytes, and room for no more.
    pub(crate) fn of(alloc: Global, count: usize, pairs: &[u8]) -> Result<Block, Memory>
        requires { count < 2 ^ 16 }
        ensures { IfOk result (λ block. block ≡ (count, pairs.now)) }
    {
        let mut bytes = counted(alloc, count, pairs.len() + 2)?;
        bytes.extend_from_slice(pairs)?;
        Ok(Block { bytes })
    }

    /// With a pair between those in front of it and those behind it, and room for no more.
    pub(crate) fn joined(
        alloc: Global,
        count: usize,
        before: &[u8],
        field: &[u8],
        value: &[u8],
        after: &[u8],
    ) -> Result<Block, Memory>
        requires count { count < 2 ^ 16 }
        requires field { length field.now ≤ 255 }
        requires value { length value.now ≤ 255 }
        requires room { length before.now + length after.now < 2 ^ 63 }
        ensures { IfOk result (λ block. block ≡ (count, before.now ++ (word field.now ++ (word value.now ++ after.now)))) }
    {
        let len = before.len() + after.len() + field.len() + value.len() + 4;
        let mut bytes = counted(alloc, count, len)?;
        bytes.extend_from_slice(before)?;
        push_word(&mut bytes, field)?;
        push_word(&mut bytes, value)?;
        bytes.extend_from_slice(after)?;
        Ok(Block { bytes })
    }

    /// How many pairs. Constant.
    pub(crate) fn count(&self) -> usize
        ensures count { result ≡ self.now.0 }
        ensures small { result < 2 ^ 16 }
    {
        byte_at(&self.bytes, 0) + 256 * byte_at(&self.bytes, 1)
    }

    /// The pairs.
    pub(crate) fn pairs(&self) -> &[u8]
        ensures pairs { result.now ≡ self.now.1 }
        ensures small { length result.now < 2 ^ 63 }
    {
        match self.bytes.split_at_checked(2) {
            Some((_, pairs)) => pairs,
            None => &[],
        }
    }

    /// Writes bytes over as many of those of the pairs. Linear in them.
    pub(crate) fn write(&mut self, start: usize, bytes: &[u8])
        requires counted { 0 < self.old.0 }
        requires within { start + length bytes.now ≤ length self.old.1 }
        requires small { start + 2 < 2 ^ 64 }
        ensures { self.new ≡ (self.old.0, take start self.old.1 ++ (bytes.now ++ drop (start + length bytes.now) self.old.1)) }
    {
        write(&mut self.bytes, start + 2, bytes);
    }

    /// Takes the bytes of a pair out, from one place to another, and lets go of their room.
    pub(crate) fn cut(&mut self, start: usize, end: usize)
        requires counted { 0 < self.old.0 }
        requires range { start ≤ end }
        requires within { end ≤ length self.old.1 }
        ensures { self.new ≡ (self.old.0 - 1, take start self.old.1 ++ drop end self.old.1) }
    {
        let count = self.count() - 1;
        self.bytes[0] = (count % 256) as u8;
        self.bytes[1] = (count / 256) as u8;
        remove_range(&mut self.bytes, start + 2, end + 2);
        self.bytes.shrink_to_fit();
    }

    /// The same once more.
    pub(crate) fn copy(&self, alloc: Global) -> Result<Block, Memory>
        ensures { IfOk result (λ copied. copied ≡ self.now) }
    {
        Ok(Block {
            bytes: Vec::from_slice(alloc, &self.bytes)?,
        })
    }
}

// A count, with room for so many bytes.
fn counted(alloc: Global, count: usize, len: usize) -> Result<Vec<u8>, Memory>
    requires { count < 2 ^ 16 }
    ensures { IfOk result (λ bytes. bytes.items ≡ count % 256 ∷ count / 256 ∷ []) }
{
    let mut bytes = Vec::with_capacity(alloc, len)?;
    bytes.push((count % 256) as u8)?;
    bytes.push((count / 256) as u8)?;
    Ok(bytes)
}

// The byte at a place, 0 where there is none.
pub(crate) fn byte_at(bytes: &[u8], place: usize) -> usize
    ensures byte { result ≡ slice_index bytes.now place }
    ensures small { result < 256 }
{
    match bytes.get(place) {
        Some(byte) => *byte as usize,
        None => 0,
    }
}

// Writes bytes over those at a place.
fn write(bytes: &mut Vec<u8>, place: usize, text: &[u8])
    requires { place + length text.now ≤ length bytes.old.items }
    ensures { bytes.new.items ≡ take place bytes.old.items ++ (text.now ++ drop (place + length text.now) bytes.old.items) }
{
    bytes[place..place + text.len()].copy_from_slice(text);
}

// Appends a word behind its length.
pub(crate) fn push_word(bytes: &mut Vec<u8>, text: &[u8]) -> Result<(), Memory>
    requires { length text.now ≤ 255 }
    ensures { OnOk result (bytes.new.items ≡ bytes.old.items ++ word text.now) }
{
    bytes.push(text.len() as u8)?;
    bytes.extend_from_slice(text)?;
    Ok(())
}

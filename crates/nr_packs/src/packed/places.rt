// Pairs put in and taken out by their places, whatever their order.
ghost use Rattle.std.specs.Prelude.{◌≡◌, ◌≤◌, ◌<◌, ◌+◌, length, take, drop, OnOk, OnErr};
ghost use Rattle.std.specs.List.{insert, remove};
ghost use Rattle.nr_packs.specs.Packed.{packed, entries_in};

use super::{Packed, first_pair};
use crate::block::Block;
use nr_blob::Memory;
use std::alloc::Global;

impl Packed {
    /// Puts a pair in at a place. Linear in the bytes of all pairs. Where memory runs out nothing is changed.
    pub fn insert_at(
        &mut self,
        alloc: Global,
        place: usize,
        field: &[u8],
        value: &[u8],
    ) -> Result<(), Memory>
        requires within { place ≤ length self.old }
        requires few { length self.old < 512 }
        requires field { length field.now ≤ 255 }
        requires value { length value.now ≤ 255 }
        ensures ok { OnOk result (self.new ≡ insert self.old place (field.now, value.now)) }
        ensures err { OnErr result (self.new ≡ self.old) }
    {
        let (before, after) = parted(self.block.pairs(), place);
        let count = self.block.count() + 1;
        let block = Block::joined(alloc, count, before, field, value, after)?;
        self.block = block;
        Ok(())
    }

    /// Takes the pair at a place out, and lets go of its room. Linear in the bytes of all pairs.
    pub fn remove_at(&mut self, place: usize)
        requires { place < length self.old }
        ensures { self.new ≡ remove self.old place }
    {
        let (start, end) = ends_of(self.block.pairs(), place);
        self.block.cut(start, end);
    }
}

// What is left behind so many pairs.
fn behind(bytes: &[u8], place: usize) -> &[u8]
    requires { packed (entries_in bytes.now) ≡ bytes.now }
    ensures { result.now ≡ packed (drop place (entries_in bytes.now)) }
{
    let mut rest = bytes;
    let mut left = place;
    while left > 0 {
        let Some((_, _, others)) = first_pair(rest) else {
            return rest;
        };
        rest = others;
        left -= 1;
    }
    rest
}

// So many pairs, and those behind them.
fn parted(bytes: &[u8], place: usize) -> (&[u8], &[u8])
    requires { packed (entries_in bytes.now) ≡ bytes.now }
    ensures before { result.0.now ≡ packed (take place (entries_in bytes.now)) }
    ensures after { result.1.now ≡ packed (drop place (entries_in bytes.now)) }
    ensures all { length result.0.now + length result.1.now ≡ length bytes.now }
{
    let after = behind(bytes, place);
    bytes.split_at(bytes.len() - after.len())
}

// Where the pair at a place begins and ends.
fn ends_of(bytes: &[u8], place: usize) -> (usize, usize)
    requires { packed (entries_in bytes.now) ≡ bytes.now }
    ensures start { result.0 ≡ length (packed (take place (entries_in bytes.now))) }
    ensures behind { result.1 + length (packed (drop (place + 1) (entries_in bytes.now))) ≡ length bytes.now }
    ensures range { result.0 ≤ result.1 }
    ensures within { result.1 ≤ length bytes.now }
{
    let (before, after) = parted(bytes, place);
    let (_, others) = parted(after, 1);
    (before.len(), bytes.len() - others.len())
}

// The lengths of items.
ghost use Rattle.std.specs.Prelude.{◌≡◌, ◌+◌, ◌-◌, ◌≤◌, ◌<◌, ◌^◌, ◌++◌, ◌∷◌, [], length, take, drop, vec_len, vec_capacity, IfOk, OnOk, slice_index};
ghost use Rattle.std.specs.List.{insert};
ghost use Rattle.nr_ordered.specs.Blocks.{lens_in, total, HasRoom};

use crate::room::{put_reserved, reserve_few, take_out};
use nr_blob::Memory;
use std::alloc::Global;

/// Lengths of items, in order. Where each fits 16 bits they take two bytes, else eight.
#[derive(Drop)]
pub(crate) enum Lens {
    Short(Vec<u16>),
    Long(Vec<usize>),
}

impl Lens {
    /// That of one item.
    pub(crate) fn one(alloc: Global, len: usize) -> Result<Lens, Memory>
        ensures { IfOk result (λ lens. lens_in lens ≡ len ∷ []) }
    {
        if len <= usize::from(u16::MAX) {
            return Ok(Lens::Short(Vec::from_slice(alloc, &[len as u16])?));
        }
        Ok(Lens::Long(Vec::from_slice(alloc, &[len])?))
    }

    /// The length at a place.
    #[inline(always)]
    pub(crate) fn at(&self, place: usize) -> usize
        requires { place < length (lens_in self.now) }
        ensures { result ≡ slice_index (lens_in self.now) place }
    {
        match self {
            Lens::Short(lens) => usize::from(lens[place]),
            Lens::Long(lens) => lens[place],
        }
    }

    /// The sum of those in front of a place.
    pub(crate) fn before(&self, place: usize) -> usize
        requires within { place ≤ length (lens_in self.now) }
        requires small { total (lens_in self.now) < 2 ^ 63 }
        ensures { result ≡ total (take place (lens_in self.now)) }
    {
        match self {
            Lens::Short(lens) => short_total(&lens[..place]),
            Lens::Long(lens) => long_total(&lens[..place]),
        }
    }

    /// The sum of those from a place on.
    pub(crate) fn behind(&self, place: usize) -> usize
        requires within { place ≤ length (lens_in self.now) }
        requires small { total (lens_in self.now) < 2 ^ 63 }
        ensures { result ≡ total (drop place (lens_in self.now)) }
    {
        match self {
            Lens::Short(lens) => short_total(&lens[place..]),
            Lens::Long(lens) => long_total(&lens[place..]),
        }
    }

    /// Makes room for one more of this size.
    pub(crate) fn reserve(&mut self, len: usize) -> Result<(), Memory>
        ensures same { lens_in self.new ≡ lens_in self.old }
        ensures room { OnOk result (HasRoom self.new len) }
    {
        match self {
            Lens::Long(lens) => {
                reserve_few(lens)?;
                Ok(())
            }
            Lens::Short(lens) => {
                if len <= usize::from(u16::MAX) {
                    reserve_few(lens)?;
                    return Ok(());
                }
                let long = widened(lens)?;
                *self = Lens::Long(long);
                Ok(())
            }
        }
    }

    /// Puts one in at a place, for which there is room.
    pub(crate) fn insert(&mut self, place: usize, len: usize)
        requires within { place ≤ length (lens_in self.old) }
        requires room { HasRoom self.old len }
        ensures { lens_in self.new ≡ insert (lens_in self.old) place len }
    {
        match self {
            Lens::Short(lens) => put_reserved(lens, place, len as u16),
            Lens::Long(lens) => put_reserved(lens, place, len),
        }
    }

    /// Takes those from one place to another out.
    pub(crate) fn cut(&mut self, from: usize, to: usize)
        requires range { from ≤ to }
        requires within { to ≤ length (lens_in self.old) }
        ensures { lens_in self.new ≡ take from (lens_in self.old) ++ drop to (lens_in self.old) }
    {
        match self {
            Lens::Short(lens) => take_out(lens, from, to),
            Lens::Long(lens) => take_out(lens, from, to),
        }
    }

    /// Those from one place to another once more.
    pub(crate) fn part(&self, alloc: Global, from: usize, to: usize) -> Result<Lens, Memory>
        requires range { from ≤ to }
        requires within { to ≤ length (lens_in self.now) }
        ensures { IfOk result (λ lens. lens_in lens ≡ take (to - from) (drop from (lens_in self.now))) }
    {
        match self {
            Lens::Short(lens) => Ok(Lens::Short(Vec::from_slice(alloc, &lens[from..to])?)),
            Lens::Long(lens) => Ok(Lens::Long(Vec::from_slice(alloc, &lens[from..to])?)),
        }
    }
}

// The same lengths in eight bytes each, with room for one more.
fn widened(lens: &Vec<u16>) -> Result<Vec<usize>, Memory>
    ensures items { IfOk result (λ long. long.items ≡ lens.now.items) }
    ensures room { IfOk result (λ long. vec_len long < vec_capacity long) }
{
    let mut long = Vec::new(*lens.allocator());
    for len in lens {
        long.push(usize::from(*len))?;
    }
    reserve_few(&mut long)?;
    Ok(long)
}

fn short_total(lens: &[u16]) -> usize
    requires { total lens.now < 2 ^ 63 }
    ensures { result ≡ total lens.now }
{
    let mut total = 0;
    for len in lens {
        total += usize::from(*len);
    }
    total
}

fn long_total(lens: &[usize]) -> usize
    requires { total lens.now < 2 ^ 63 }
    ensures { result ≡ total lens.now }
{
    let mut total = 0;
    for len in lens {
        total += *len;
    }
    total
}

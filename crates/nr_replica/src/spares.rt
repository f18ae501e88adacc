// Buffers that were written out, for queues that give theirs away.
ghost use Rattle.std.specs.Prelude.{◌≡◌, ◌≤◌, ◌+◌, ◌⊎◌, [], IfSome, IfNone, length};
ghost use Rattle.std.specs.List.{AllByRecursion};
ghost use Rattle.std.specs.Vec.{vec_capacity};

use crate::outbox::MOST_COPIED;
use std::alloc::Global;
use std::marker::Model;

/// The most buffers that are kept.
const MOST_KEPT: usize = 64;

/// The most room of a buffer that is kept.
pub(crate) const MOST_ROOM: usize = 131_072;

/// Buffers with nothing in them, for queues that give theirs away and for pieces that are copied: what a connection gets takes no new memory then each time. At
/// most 64 are kept with room for more than 1,024 bytes and at most 128 KiB, and as many with less. The former are counted.
#[derive(Drop)]
pub struct Spares {
    buffers: Vec<Vec<u8>>,
    // Those with less room.
    short: Vec<Vec<u8>>,
}

impl Model for Spares {
    ghost use Rattle.std.specs.Prelude.{◌≤◌, ℕ, length};
    ghost use Rattle.std.specs.List.{AllByRecursion};
    ghost use Rattle.std.specs.Vec.{vec_capacity};

    ghost Value = { ℕ };

    ghost view = { λ s. length s.buffers.items };

    ghost invariant = { λ s. ((length s.buffers.items ≤ 64) × AllByRecursion (λ buffer. vec_capacity buffer ≤ 131_072) s.buffers.items)
        × ((length s.short.items ≤ 64) × AllByRecursion (λ buffer. vec_capacity buffer ≤ 1_024) s.short.items) };
}

impl Spares {
    /// None. It takes no memory.
    pub fn new(alloc: Global) -> Spares
        ensures { result ≡ 0 }
    {
        Spares {
            buffers: Vec::new(alloc),
            short: Vec::new(alloc),
        }
    }

    /// Keeps a buffer, without the bytes in it, or lets go of it: where it is too large, where as many are kept as may be, or without memory to note it.
    /// Constant.
    pub fn keep(&mut self, buffer: Vec<u8>)
        ensures kept { (self.new ≡ self.old) ⊎ (self.new ≡ self.old + 1) }
        ensures few { self.new ≤ 64 }
    {
        let is_full = self.buffers.len() >= MOST_KEPT;
        let room = buffer.capacity();
        if room > MOST_COPIED && room <= MOST_ROOM && !is_full {
            push_emptied(&mut self.buffers, MOST_ROOM, buffer);
        } else if room <= MOST_COPIED && room > 0 && self.short.len() < MOST_KEPT {
            push_emptied(&mut self.short, MOST_COPIED, buffer);
        }
    }

    /// The one that was kept last, which isn't kept any more, with nothing in it.
    pub(crate) fn take(&mut self) -> Option<Vec<u8>>
        ensures empty { IfSome result (λ buffer. buffer.items ≡ []) }
        ensures some { IfSome result (λ buffer. self.old ≡ self.new + 1) }
        ensures room { IfSome result (λ buffer. vec_capacity buffer ≤ 131_072) }
        ensures none { IfNone result (self.old ≡ 0) }
    {
        let mut buffer = self.buffers.pop()?;
        buffer.clear();
        Some(buffer)
    }

    /// One with room for at most 1,024 bytes and nothing in it: the one that was kept last, else one that takes no memory yet.
    pub(crate) fn take_short(&mut self, alloc: Global) -> Vec<u8>
        ensures empty { result.items ≡ [] }
        ensures room { vec_capacity result ≤ 1_024 }
        ensures same { self.new ≡ self.old }
    {
        let Some(mut short) = self.short.pop() else {
            return Vec::new(alloc);
        };
        short.clear();
        short
    }
}

// Puts a buffer to the others without the bytes in it, where there is memory to note it.
fn push_emptied(buffers: &mut Vec<Vec<u8>>, most: usize, buffer: Vec<u8>)
    requires room { vec_capacity buffer ≤ most }
    requires rooms { AllByRecursion (λ buffer. vec_capacity buffer ≤ most) buffers.old.items }
    ensures rooms { AllByRecursion (λ buffer. vec_capacity buffer ≤ most) buffers.new.items }
    ensures count { (length buffers.new.items ≡ length buffers.old.items) ⊎ (length buffers.new.items ≡ length buffers.old.items + 1) }
{
    let mut emptied = buffer;
    emptied.clear();
    let _ = buffers.push(emptied);
}

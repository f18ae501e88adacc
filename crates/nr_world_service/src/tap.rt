// What was handed out for one connection and not yet written.
ghost use Rattle.std.specs.Prelude.{◌≡◌, ◌≤◌, ◌+◌, ◌++◌, [], drop, length, OnOk};

use nr_blob::{Memory, drop_front};
use std::alloc::Global;
use std::marker::Model;

/// Bytes that were handed out for a connection, from the first that wasn't written on.
#[derive(Drop)]
pub(crate) struct Tap {
    buffer: Vec<u8>,
    // Where the bytes begin that weren't written.
    start: usize,
}

impl Model for Tap {
    ghost use Rattle.std.specs.Prelude.{◌≤◌, ◌+◌, drop, length};
    ghost use Rattle.nr_model.specs.Bytes.{Bytes};

    ghost Value = { Bytes };

    ghost view = { λ t. drop t.start t.buffer.items };

    // At most half of the buffer was written, so it is never more than twice what is kept.
    ghost invariant = { λ t. t.start + t.start ≤ length t.buffer.items };
}

impl Tap {
    /// Nothing. It takes no memory.
    pub(crate) fn new(alloc: Global) -> Tap
        ensures { result ≡ [] }
    {
        Tap {
            buffer: Vec::new(alloc),
            start: 0,
        }
    }

    /// Puts a piece behind the others. Where there are none it is taken over, else its bytes are copied.
    pub(crate) fn put(&mut self, piece: Vec<u8>) -> Result<(), Memory>
        ensures { OnOk result (self.new ≡ self.old ++ piece.items) }
    {
        if self.buffer.is_empty() {
            self.buffer = piece;
            self.start = 0;
            return Ok(());
        }
        self.buffer.extend_from_slice(&piece)?;
        Ok(())
    }

    pub(crate) fn bytes(&self) -> &[u8]
        ensures { result.now ≡ self.now }
    {
        &self.buffer[self.start..]
    }

    /// Lets go of the first so many bytes. Each byte is moved at most once for one that is let go.
    pub(crate) fn let_go(&mut self, count: usize)
        requires { count ≤ length self.old }
        ensures { self.new ≡ drop count self.old }
    {
        self.start = drop_front(&mut self.buffer, self.start + count);
        if self.buffer.is_empty() {
            self.buffer.shrink_to_fit();
        }
    }
}

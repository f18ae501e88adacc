// Bytes that are written from the front and added at the back.
ghost use Rattle.std.specs.Prelude.{◌≡◌, ◌<◌, ◌≤◌, ◌++◌, [], drop, length, IfErr, OnOk, OnErr};

use bytes::BytesMut;
use nr_blob::Memory;
use nr_replica::Spares;
use std::alloc::Global;
use std::marker::Model;
use std::mem;

/// Bytes that were handed out and accepted, from the first that wasn't written on.
#[derive(Drop)]
pub struct WriteBuffer {
    bytes: BytesMut,
}

impl Model for WriteBuffer {
    ghost use Rattle.nr_model.specs.Bytes.{Bytes};

    ghost Value = { Bytes };

    ghost view = { λ b. b.bytes.items };
}

impl WriteBuffer {
    /// Nothing. It takes no memory.
    pub fn new(alloc: Global) -> WriteBuffer
        ensures { result ≡ [] }
    {
        WriteBuffer {
            bytes: BytesMut::new(alloc),
        }
    }

    /// Puts bytes behind the others. Where there are none they are taken over, else they are copied. Where memory runs out they come back.
    pub fn put(&mut self, bytes: Vec<u8>) -> Result<(), (Vec<u8>, Memory)>
        ensures put { OnOk result (self.new ≡ self.old ++ bytes.items) }
        ensures some { OnErr result (0 < length self.old) }
        ensures back { IfErr result (λ back. back.0.items ≡ bytes.items) }
        ensures unchanged { OnErr result (self.new ≡ self.old) }
    {
        if self.bytes.is_empty() {
            self.bytes = BytesMut::from_vec(bytes);
            return Ok(());
        }
        match self.bytes.extend_from_slice(&bytes) {
            Ok(()) => Ok(()),
            Err(error) => Err((bytes, error.into())),
        }
    }

    /// The bytes.
    pub fn bytes(&self) -> &[u8]
        ensures { result.now ≡ self.now }
    {
        self.bytes.as_slice()
    }

    /// How many there are.
    pub fn len(&self) -> usize
        ensures { result ≡ length self.now }
    {
        self.bytes.len()
    }

    /// Nothing, with the same allocator.
    pub fn fresh(&self) -> WriteBuffer
        ensures { result ≡ [] }
    {
        WriteBuffer::new(*self.bytes.allocator())
    }

    /// Lets go of the first so many bytes, and of all memory with the last.
    pub fn let_go(&mut self, count: usize)
        requires { count ≤ length self.old }
        ensures { self.new ≡ drop count self.old }
    {
        self.bytes.advance(count);
        if self.bytes.is_empty() {
            *self = self.fresh();
        }
    }

    /// Lets go of the first so many bytes, and with the last of them its memory is a spare buffer.
    pub fn drain(&mut self, count: usize, spares: &mut Spares)
        requires { count ≤ length self.old }
        ensures { self.new ≡ drop count self.old }
    {
        if count < self.bytes.len() {
            self.let_go(count);
            return;
        }
        let fresh = self.fresh();
        spare(mem::replace(self, fresh), spares);
    }
}

// Its memory is a spare buffer.
fn spare(drained: WriteBuffer, spares: &mut Spares) {
    let mut bytes = drained.bytes;
    bytes.clear();
    if let Ok(bytes) = bytes.into_vec() {
        spares.keep(bytes);
    }
}

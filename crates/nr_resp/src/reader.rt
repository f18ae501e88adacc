// The reader of one connection, which callers see: requests from bytes in any pieces, and what closes it.
ghost use Rattle.std.specs.Prelude.{◌≡◌, [], ◌++◌, None, Some, Err, OnOk, OnErr, IfErr};
ghost use Rattle.nr_model.specs.Requests.{framing_of};
ghost use Rattle.nr_model.specs.declared.fault.Fault.{Fault};
ghost use Rattle.nr_blob.specs.declared.memory.Memory.{Memory};
ghost use Rattle.nr_resp.specs.Frames.{frames_seen};

use crate::frame::Frame;
use nr_blob::Memory;
use nr_model::fault::Fault;
use partial::PartialRequest;
use std::alloc::{AllocError, AllocFailed, Global};
use std::marker::Model;

mod lines;
mod partial;

/// Why a reader is closed.
#[derive(Clone, Copy, Debug, PartialEq, Eq)]
pub enum FeedError {
    /// The bytes are no requests.
    Fault(Fault),
    /// There was no memory left.
    Memory(Memory),
}

impl From<AllocError> for FeedError {
    ghost use Rattle.std.specs.Prelude.{◌≡◌};
    ghost use Rattle.nr_resp.specs.declared.reader.FeedError.TheVariants as errors;
    ghost use Rattle.nr_blob.specs.Refusals.{refusal};

    ghost from_gives = { λ _ e. e ≡ errors.Memory refusal };

    fn from(error: AllocError) -> FeedError {
        FeedError::Memory(error.into())
    }
}

impl From<Memory> for FeedError {
    ghost use Rattle.std.specs.Prelude.{◌≡◌};
    ghost use Rattle.nr_resp.specs.declared.reader.FeedError.TheVariants as errors;

    ghost from_gives = { λ memory e. e ≡ errors.Memory memory };

    fn from(memory: Memory) -> FeedError {
        FeedError::Memory(memory)
    }
}

impl<T: Drop> From<AllocFailed<T>> for FeedError {
    ghost use Rattle.std.specs.Prelude.{◌≡◌};
    ghost use Rattle.nr_resp.specs.declared.reader.FeedError.TheVariants as errors;
    ghost use Rattle.nr_blob.specs.Refusals.{refusal};

    ghost from_gives = { λ _ e. e ≡ errors.Memory refusal };

    fn from(failed: AllocFailed<T>) -> FeedError {
        FeedError::Memory(failed.into())
    }
}

/// Reads the requests of one connection. It keeps what has come of the next one.
#[derive(Drop)]
pub struct Reader {
    next: PartialRequest,
    closed: Option<FeedError>,
}

impl Model for Reader {
    ghost use Rattle.nr_resp.specs.Stream.{Stream};

    ghost Value = { Stream };

    ghost use Rattle.std.specs.Prelude.{◌≡◌, None};
    ghost use Rattle.nr_resp.specs.PartialRequest.{bytes_of, IsHeld};

    ghost view = { λ reader. record { rest = bytes_of reader.next; closed = reader.closed } };

    ghost invariant = { λ reader. reader.closed ≡ None → IsHeld reader.next };
}

impl Reader {
    ghost use Rattle.nr_resp.specs.Stream.{open_at, RanOut};
    ghost use Rattle.nr_resp.specs.declared.reader.FeedError.{FeedError};

    pub fn new(alloc: Global) -> Self
        ensures { result ≡ open_at [] }
    {
        Reader {
            next: PartialRequest::new(alloc),
            closed: None,
        }
    }

    /// Takes the next piece, and adds each request that is whole now. After an error the reader is closed, and repeats it.
    ///
    /// It takes time with the piece, and keeps room only for bytes that came, whatever count or length a header says.
    ///
    /// # Errors
    ///
    /// A fault as soon as the bytes so far decide it, or the refusal of memory: the requests before the one that it failed in were added.
    pub fn feed(&mut self, piece: &[u8], frames: &mut Vec<Frame>) -> Result<(), FeedError>
        ensures ok { OnOk result ((self.old.closed ≡ None) × (self.new ≡ open_at (framing_of (self.old.rest ++ piece.now)).rest)) }
        ensures frames { OnOk result (frames_seen frames.new.items ≡ frames_seen frames.old.items ++ (framing_of (self.old.rest ++ piece.now)).frames) }
        ensures whole { OnOk result ((framing_of (self.old.rest ++ piece.now)).fault ≡ None) }

        // A fault is the one that the bytes so far stand under, and the frames before it were added.
        ensures fault { (fault : Fault) → self.old.closed ≡ None → result ≡ Err (FeedError.Fault fault) →
            ((framing_of (self.old.rest ++ piece.now)).fault ≡ Some fault)
            × (frames_seen frames.new.items ≡ frames_seen frames.old.items ++ (framing_of (self.old.rest ++ piece.now)).frames) }
        // The requests before the one that it failed in were added, and the rest is a front of that one.
        ensures memory { (memory : Memory) → self.old.closed ≡ None → result ≡ Err (FeedError.Memory memory) →
            RanOut (self.old.rest ++ piece.now) self.new.rest (frames_seen frames.old.items) (frames_seen frames.new.items) }

        ensures closes { IfErr result (λ error. self.new.closed ≡ Some error) }
        ensures closed { (error : FeedError) → self.old.closed ≡ Some error → (result ≡ Err error) × (self.new ≡ self.old) × (frames.new.items ≡ frames.old.items) }
    {
        if let Some(error) = self.closed {
            return Err(error);
        }
        let fed = self.next.feed(piece, frames);
        if let Err(error) = fed {
            self.closed = Some(error);
        }
        fed
    }
}

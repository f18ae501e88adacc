// The one way in which a call can fail that no caller foresees.
ghost use Rattle.std.specs.Prelude.{◌≡◌, ◌↔◌, ◌+◌, ◌^◌, IsSome};
ghost use Rattle.std.specs.IoError.{error_kind};
ghost use Rattle.std.specs.declared.io.ErrorKind.TheVariants as ErrorKind;

use std::alloc::{AllocError, AllocFailed};
use std::error::Error;
use std::fmt;
use std::io::{self, ErrorKind};

/// Memory was refused. A value of this type comes from a refusal alone: from an allocation that failed, by `?`, or from the two calls below.
/// No code outside makes one.
#[derive(Clone, Copy, Debug, PartialEq, Eq)]
pub struct Memory {
    // Nothing, and private: so no one else writes a value down.
    refused: (),
}

impl Memory {
    /// What an error of input or output says of memory: a refusal exactly where its kind is `OutOfMemory`. Constant.
    pub fn of(error: &io::Error) -> Option<Memory>
        ensures { IsSome result ↔ (error_kind error.now ≡ ErrorKind.OutOfMemory) }
    {
        if error.kind() == ErrorKind::OutOfMemory {
            Some(Memory { refused: () })
        } else {
            None
        }
    }

    /// What a count of things that take memory says of it: a refusal exactly where the count is 2^64 - 1, the last one that there is, at which
    /// sums and products saturate. No memory holds so many bytes, so what is stored never comes there. Constant.
    pub fn at_last(count: u64) -> Option<Memory>
        ensures { IsSome result ↔ (count + 1 ≡ 2 ^ 64) }
    {
        if count == u64::MAX {
            Some(Memory { refused: () })
        } else {
            None
        }
    }

    /// What could not be stored, given back beside the refusal.
    pub fn giving_back<T>(failed: AllocFailed<T>) -> (T, Memory)
        ensures { result.0 ≡ failed.value }
    {
        (failed.value, Memory { refused: () })
    }
}

impl fmt::Display for Memory {
    ghost use Rattle.std.specs.Prelude.{Some, codes};

    ghost output = { λ _. Some (codes "out of memory") };

    fn fmt<W: fmt::Write>(&self, f: &mut fmt::Formatter<W>) -> fmt::Result {
        f.write_str("out of memory")
    }
}

impl Error for Memory {}

impl From<AllocError> for Memory {
    ghost use Rattle.std.specs.Prelude.{◌≡◌};
    ghost use Rattle.nr_blob.specs.Refusals.{refusal};

    ghost from_gives = { λ _ memory. memory ≡ refusal };

    fn from(_: AllocError) -> Memory {
        Memory { refused: () }
    }
}

impl<T: Drop> From<AllocFailed<T>> for Memory {
    ghost use Rattle.std.specs.Prelude.{◌≡◌};
    ghost use Rattle.nr_blob.specs.Refusals.{refusal};

    ghost from_gives = { λ _ memory. memory ≡ refusal };

    fn from(_: AllocFailed<T>) -> Memory {
        Memory { refused: () }
    }
}

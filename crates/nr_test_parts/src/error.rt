// How what tests and figures hold can fail.
use nr_blob::Memory;
use nr_entry::BuildError;
use nr_node::OpenError;
use std::error::Error;
use std::fmt;

/// Why something wasn't made, or a step not taken.
#[derive(Clone, Copy, Debug, PartialEq, Eq)]
pub enum HeldError {
    /// Memory was refused.
    Memory(Memory),
    /// It can't be so: a size that isn't allowed, a connection too many, a batch before the last one was collected, a piece that its tap doesn't take.
    Invalid,
}

impl fmt::Display for HeldError {
    fn fmt<W: fmt::Write>(&self, f: &mut fmt::Formatter<W>) -> fmt::Result {
        match self {
            HeldError::Memory(memory) => memory.fmt(f),
            HeldError::Invalid => f.write_str("what was asked for can't be so"),
        }
    }
}

impl Error for HeldError {}

impl From<Memory> for HeldError {
    ghost use Rattle.std.specs.Prelude.{◌≡◌};
    ghost use Rattle.nr_test_parts.specs.declared.error.HeldError.TheVariants as errors;

    ghost from_gives = { λ memory error. error ≡ errors.Memory memory };

    fn from(memory: Memory) -> HeldError {
        HeldError::Memory(memory)
    }
}

impl From<BuildError> for HeldError {
    fn from(error: BuildError) -> HeldError {
        match error {
            BuildError::BadShape => HeldError::Invalid,
            BuildError::Memory(memory) => HeldError::Memory(memory),
        }
    }
}

impl From<OpenError> for HeldError {
    fn from(error: OpenError) -> HeldError {
        match error {
            OpenError::TooMany | OpenError::Down => HeldError::Invalid,
            OpenError::Memory(memory) => HeldError::Memory(memory),
        }
    }
}

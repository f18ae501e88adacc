// Why rows are not played: a file or a line that cannot be read, or want of memory.
use nr_blob::Memory;
use std::alloc::{AllocError, AllocFailed};
use std::{fmt, io};

/// Why a line says nothing.
#[derive(Clone, Copy)]
pub(crate) enum LineFault {
    /// It has none of the forms.
    Form,
    /// A connection or a moment is no number.
    Number,
    /// Bytes are not spelled as they are to be.
    Spelling,
    /// It stands before the first row.
    NoRow,
    /// It says what a connection was handed, and stands before the first input of its row.
    NoInput,
    /// There was no memory left to read it.
    Memory,
}

impl fmt::Display for LineFault {
    fn fmt<W: fmt::Write>(&self, f: &mut fmt::Formatter<W>) -> fmt::Result {
        f.write_str(match self {
            LineFault::Form => "no such line",
            LineFault::Number => "no number of a connection or a moment",
            LineFault::Spelling => "no such spelling of bytes",
            LineFault::NoRow => "no row has begun",
            LineFault::NoInput => "nothing was sent yet",
            LineFault::Memory => "out of memory",
        })
    }
}

impl From<AllocError> for LineFault {
    fn from(_: AllocError) -> LineFault {
        LineFault::Memory
    }
}

impl<T: Drop> From<AllocFailed<T>> for LineFault {
    fn from(_: AllocFailed<T>) -> LineFault {
        LineFault::Memory
    }
}

/// Why the rows of a file are not played.
#[derive(Drop)]
pub(crate) enum Failure {
    /// There was no memory left.
    Memory,
    /// The line of this number can't be read.
    Line(usize, LineFault),
    /// A row opens more connections than a server takes.
    Full,
    /// The file can't be read, or what came of it can't be written.
    File(io::Error),
}

impl From<io::Error> for Failure {
    fn from(error: io::Error) -> Failure {
        if Memory::of(&error).is_some() {
            Failure::Memory
        } else {
            Failure::File(error)
        }
    }
}

impl From<Memory> for Failure {
    fn from(_: Memory) -> Failure {
        Failure::Memory
    }
}

impl From<AllocError> for Failure {
    fn from(_: AllocError) -> Failure {
        Failure::Memory
    }
}

impl<T: Drop> From<AllocFailed<T>> for Failure {
    fn from(_: AllocFailed<T>) -> Failure {
        Failure::Memory
    }
}

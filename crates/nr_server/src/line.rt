// One connection on a reader and a writer, as the program has it on standard input and output.
ghost use Rattle.std.specs.Prelude.{◌≡◌, IfOk};
ghost use Rattle.nr_server.specs.Ran.{run_answer, HasRunOn};

use crate::fault::Fault;
use crate::joined::{Beginning, JoinedStream};
use crate::run::{Done, ServedConnection, serve_stream};
use nr_service::Moments;
use nr_transcript::Transcript;
use std::alloc::Global;
use std::hash::RandomState;
use std::io::{Read, Write};
use std::marker::Brand;

/// A reader and a writer on which a connection was served, and what is told of it.
#[derive(Drop)]
pub struct Ran<R, W> {
    pub reader: R,
    pub writer: W,
    /// What was read.
    pub read: Transcript,
    /// What was written.
    pub written: Transcript,
    pub done: Result<(), Fault>,
}

// What is told of it.
fn answer_of(done: Done, has_read_failed: bool, is_stuck: bool) -> Result<(), Fault>
    ensures { result ≡ run_answer done has_read_failed is_stuck }
{
    match done {
        Done::Whole if is_stuck => Err(Fault::Write),
        Done::Whole => Ok(()),
        Done::Memory => Err(Fault::Memory),
        Done::Broken if has_read_failed => Err(Fault::Read),
        Done::Broken => Err(Fault::Write),
    }
}

// Serves one connection on a reader and a writer whose bytes have these names.
fn run_named<R, W, B, M>(
    alloc: Global,
    keys: RandomState,
    reader: R,
    writer: W,
    clock: M,
) -> Result<Ran<R, W>, Fault>
where
    R: Read + Drop,
    W: Write + Drop,
    B: Beginning,
    M: Moments + Drop,
    requires input { R.remaining reader ≡ B.input }
    requires output { W.contents writer ≡ B.output }
    ensures { IfOk result (HasRunOn R.remaining W.contents M.gives clock reader writer) }
{
    let line = JoinedStream::<R, W, B>::new(reader, writer);
    let ServedConnection { stream, done } = serve_stream(alloc, keys, line, clock)?;
    let done = answer_of(done, stream.has_read_failed, stream.is_stuck);
    let JoinedStream {
        reader,
        writer,
        received,
        sent,
        ..
    } = stream;
    Ok(Ran {
        reader,
        writer,
        read: received,
        written: sent,
        done,
    })
}

/// Serves one connection on a reader and a writer, as [`serve_stream`] does on a stream, and hands them back with what is told of it: nothing where the
/// connection ended whole; `Read` or `Write` where the reader or the writer failed, or bytes that were written weren't passed on; `Memory` where memory
/// ran out, also where the node fell by that. What was written is a beginning of the replies, and all of them where it ended whole.
///
/// # Errors
///
/// `Memory` where there is no memory for the server: nothing was read or written.
pub fn run_on<R: Read + Drop, W: Write + Drop, M: Moments + Drop>(
    alloc: Global,
    keys: RandomState,
    reader: R,
    writer: W,
    clock: M,
) -> Result<Ran<R, W>, Fault>
    ensures { IfOk result (HasRunOn R.remaining W.contents M.gives clock reader writer) }
{
    run_named::<R, W, Brand, M>(alloc, keys, reader, writer, clock)
}

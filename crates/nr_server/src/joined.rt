// A reader and a writer as one stream.
ghost use Rattle.std.proofs.Props.{props};
ghost use Rattle.std.specs.Io.KnownBytes.{Appends, Consumes};
ghost use Rattle.std.specs.Prelude.{◌≡◌, ◌≤◌, true, false, [], length, take, IfSome};
ghost use Rattle.nr_server.specs.Known.{Appends-prop, Consumes-prop};
ghost use Rattle.nr_server.specs.Written.{told};
ghost use Rattle.nr_service.specs.Streams.{sent_count, IsSomeSent};

use crate::bytes::{read_some, write_some};
use nr_service::{Received, Sent, Stream};
use nr_transcript::Transcript;
use std::io::{Read, Write};
use std::marker::{Brand, PhantomData};

/// Names what a reader would give at a beginning, and what a writer held then, where these are known.
pub(crate) trait Beginning {
    ghost use Rattle.std.specs.Prelude.{Option};
    ghost use Rattle.nr_model.specs.Bytes.{Bytes};

    ghost input: { Option Bytes };

    ghost output: { Option Bytes };
}

impl Beginning for Brand {
    ghost use Rattle.std.specs.Prelude.{None};

    ghost input = { None };

    ghost output = { None };
}

/// A reader and a writer as one stream, which knows how it stands, and, in proofs, what it received and sent since a beginning. A read waits for bytes,
/// and a write until some are taken.
#[derive(Drop)]
pub(crate) struct JoinedStream<R: Read, W: Write, B: Beginning> {
    pub(crate) reader: R,
    pub(crate) writer: W,
    pub(crate) received: Transcript,
    pub(crate) sent: Transcript,
    pub(crate) has_ended: bool,
    pub(crate) has_read_failed: bool,
    pub(crate) has_write_failed: bool,
    /// Nothing was taken at the last write.
    pub(crate) is_full: bool,
    /// What was written last wasn't passed on: no more is read or written.
    pub(crate) is_stuck: bool,
    of: PhantomData<B>,
    pub ghost reads: { Consumes B.input (R.remaining reader) received.bytes } by { Consumes-prop B.input (R.remaining reader) received.bytes },
    pub ghost ends: { has_ended ≡ true → IfSome B.input (λ all. received.bytes ≡ all) } by { Prim.hlevel props },
    pub ghost writes: { Appends B.output (W.contents writer) sent.bytes } by { Appends-prop B.output (W.contents writer) sent.bytes },
}

impl<R: Read, W: Write, B: Beginning> JoinedStream<R, W, B> {
    /// Nothing was read or written yet.
    pub(crate) fn new(reader: R, writer: W) -> Self
        requires input { R.remaining reader ≡ B.input }
        requires output { W.contents writer ≡ B.output }
        ensures reader { result.reader ≡ reader }
        ensures writer { result.writer ≡ writer }
        ensures open { result.has_ended ≡ false }
        ensures received { result.received.bytes ≡ [] }
        ensures sent { result.sent.bytes ≡ [] }
        ensures sound { (result.has_read_failed ≡ false) × (result.has_write_failed ≡ false) }
        ensures empty { result.is_full ≡ false }
    {
        JoinedStream {
            reader,
            writer,
            received: Transcript::new(),
            sent: Transcript::new(),
            has_ended: false,
            has_read_failed: false,
            has_write_failed: false,
            is_full: false,
            is_stuck: false,
            of: PhantomData,
        }
    }
}

impl<R: Read, W: Write, B: Beginning> Stream for JoinedStream<R, W, B> {
    ghost use Rattle.std.specs.Prelude.{Some, ◌||◌};

    ghost received = { λ line. Some line.received.bytes };

    ghost sent = { λ line. Some line.sent.bytes };

    ghost course = { λ line. Some (record { ended = line.has_ended; failed = line.has_read_failed || line.has_write_failed; full = line.is_full }) };

    fn receive(&mut self, buffer: &mut [u8]) -> Received {
        if self.is_stuck {
            self.has_write_failed = true;
            return Received::Failed;
        }
        if buffer.is_empty() {
            return Received::Nothing;
        }
        let received = read_some(&mut self.reader, buffer);
        match received {
            Received::Bytes(count) => self.received.note(&buffer[..count]),
            Received::End => self.has_ended = true,
            Received::Failed => self.has_read_failed = true,
            Received::Nothing => {}
        }
        received
    }

    fn send(&mut self, bytes: &[u8]) -> Sent {
        if self.is_stuck {
            self.has_write_failed = true;
            return Sent::Failed;
        }
        let sent = write_through(&mut self.writer, bytes, &mut self.is_stuck);
        match sent {
            Sent::Bytes(count) => {
                self.is_full = false;
                self.sent.note(&bytes[..count]);
            }
            Sent::Nothing => self.is_full = true,
            Sent::Failed => self.has_write_failed = true,
        }
        sent
    }
}

// Writes once, and passes on what was taken at once. Where that fails the writer is stuck.
fn write_through<W: Write>(writer: &mut W, bytes: &[u8], is_stuck: &mut bool) -> Sent
    ensures some { IsSomeSent result }
    ensures bound { sent_count result ≤ length bytes.now }
    ensures bytes { Appends (W.contents writer.old) (W.contents writer.new) (take (sent_count result) bytes.now) }
{
    let sent = write_some(writer, bytes);
    *is_stuck = writer.flush().is_err();
    told(sent, *is_stuck)
}

// What is told of a write.
fn told(sent: Sent, is_stuck: bool) -> Sent
    ensures { result ≡ told sent is_stuck }
{
    match sent {
        Sent::Bytes(count) => Sent::Bytes(count),
        Sent::Nothing if is_stuck => Sent::Failed,
        Sent::Nothing => Sent::Nothing,
        Sent::Failed => Sent::Failed,
    }
}

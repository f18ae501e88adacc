// A connection's socket.
ghost use Rattle.std.specs.Io.KnownBytes.{Appends, Consumes, IsAtEnd};
ghost use Rattle.std.specs.Prelude.{◌≡◌, ◌≤◌, ◌<◌, ◌++◌, length, take};
ghost use Rattle.nr_service.specs.Streams.{received_count, sent_count, IsSomeReceived, IsSomeSent};
ghost use Rattle.nr_service.specs.declared.stream.Received.TheVariants as received_as;

use crate::peer::Peer;
use crate::readiness::SharedReadiness;
use nr_service::{Received, Sent, Stream};
use nr_transcript::Transcript;
use std::io::{Error, ErrorKind, Read, Write};

/// What carries a connection's bytes, and which of its calls may do something. No call waits, and a call of which the system told nothing new asks
/// it nothing.
#[derive(Drop)]
pub struct Channel<T> {
    pub(crate) stream: T,
    pub(crate) place: usize,
    pub(crate) readiness: SharedReadiness,
    /// What its reads gave, in order, and what its writes took.
    pub received: Transcript,
    pub sent: Transcript,
}

/// A connection's socket.
pub type Socket = Channel<Peer>;

// Whether a call is to be tried again once the system tells of a change.
fn would_wait(error: &Error) -> bool {
    error.kind() == ErrorKind::WouldBlock
}

fn was_interrupted(error: &Error) -> bool {
    error.kind() == ErrorKind::Interrupted
}

impl<T: Read + Write> Channel<T> {
    /// Reads what is there, at most as much as the buffer takes, and notes it.
    fn read(&mut self, buffer: &mut [u8]) -> Received
        ensures some { IsSomeReceived result }
        ensures bound { received_count result ≤ length buffer.new }
        ensures bytes { Consumes (T.remaining self.old.stream) (T.remaining self.new.stream) (take (received_count result) buffer.new) }
        ensures end { result ≡ received_as.End → 0 < length buffer.new → IsAtEnd (T.remaining self.new.stream) }
        ensures received { self.new.received.bytes ≡ self.old.received.bytes ++ take (received_count result) buffer.new }
        ensures sent { self.new.sent.bytes ≡ self.old.sent.bytes }
    {
        match self.stream.read(buffer) {
            Ok(0) => Received::End,
            Ok(count) => {
                // Fewer than there was room for: no more were there, but maybe the end, or what stands behind an urgent byte.
                if count < buffer.len() && !self.readiness.may_have_more() {
                    self.readiness.set_readable(false);
                }
                self.received.note(&buffer[..count]);
                Received::Bytes(count)
            }
            Err(error) if would_wait(&error) => {
                self.readiness.set_readable(false);
                Received::Nothing
            }
            Err(error) if was_interrupted(&error) => Received::Nothing,
            Err(_) => Received::Failed,
        }
    }

    /// Writes a beginning of the bytes, and notes it.
    fn write(&mut self, bytes: &[u8]) -> Sent
        ensures some { IsSomeSent result }
        ensures bound { sent_count result ≤ length bytes.now }
        ensures bytes { Appends (T.contents self.old.stream) (T.contents self.new.stream) (take (sent_count result) bytes.now) }
        ensures received { self.new.received.bytes ≡ self.old.received.bytes }
        ensures sent { self.new.sent.bytes ≡ self.old.sent.bytes ++ take (sent_count result) bytes.now }
    {
        match self.stream.write(bytes) {
            Ok(0) => Sent::Nothing,
            Ok(count) => {
                self.sent.note(&bytes[..count]);
                Sent::Bytes(count)
            }
            Err(error) if would_wait(&error) => {
                self.readiness.set_writable(false);
                Sent::Nothing
            }
            Err(error) if was_interrupted(&error) => Sent::Nothing,
            Err(_) => Sent::Failed,
        }
    }
}

impl<T: Read + Write> Stream for Channel<T> {
    ghost use Rattle.std.specs.Prelude.{Some};

    ghost received = { λ channel. Some channel.received.bytes };

    ghost sent = { λ channel. Some channel.sent.bytes };

    fn place(&self) -> usize
        ensures { result ≡ self.now.place }
    {
        self.place
    }

    fn receive(&mut self, buffer: &mut [u8]) -> Received
        ensures some { IsSomeReceived result }
        ensures bound { received_count result ≤ length buffer.new }
        ensures received { self.new.received.bytes ≡ self.old.received.bytes ++ take (received_count result) buffer.new }
        ensures sent { self.new.sent.bytes ≡ self.old.sent.bytes }
        ensures bytes { Consumes (T.remaining self.old.stream) (T.remaining self.new.stream) (take (received_count result) buffer.new) }
        ensures end { result ≡ received_as.End → 0 < length buffer.new → IsAtEnd (T.remaining self.new.stream) }
    {
        if !self.readiness.is_readable() {
            return Received::Nothing;
        }
        self.read(buffer)
    }

    fn send(&mut self, bytes: &[u8]) -> Sent
        ensures some { IsSomeSent result }
        ensures bound { sent_count result ≤ length bytes.now }
        ensures sent { self.new.sent.bytes ≡ self.old.sent.bytes ++ take (sent_count result) bytes.now }
        ensures received { self.new.received.bytes ≡ self.old.received.bytes }
        ensures bytes { Appends (T.contents self.old.stream) (T.contents self.new.stream) (take (sent_count result) bytes.now) }
    {
        if !self.readiness.is_writable() {
            return Sent::Nothing;
        }
        self.write(bytes)
    }
}

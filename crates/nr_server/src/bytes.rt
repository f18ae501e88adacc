// One read and one write, over any reader and writer. What each took or gave stands in its contract.
ghost use Rattle.std.specs.Prelude.{◌≡◌, ◌≤◌, ◌<◌, length, take};
ghost use Rattle.std.specs.Io.KnownBytes.{Appends, Consumes, IsAtEnd};
ghost use Rattle.nr_service.specs.Streams.{received_count, sent_count, IsSomeReceived, IsSomeSent};
ghost use Rattle.nr_service.specs.declared.stream.Received.TheVariants as received_as;

use nr_service::{Received, Sent};
use std::io::{ErrorKind, Read, Write};

/// Reads once, at most as much as the buffer takes.
pub(crate) fn read_some<R: Read>(reader: &mut R, buffer: &mut [u8]) -> Received
    ensures some { IsSomeReceived result }
    ensures bound { received_count result ≤ length buffer.new }
    ensures bytes { Consumes (R.remaining reader.old) (R.remaining reader.new) (take (received_count result) buffer.new) }
    ensures end { result ≡ received_as.End → 0 < length buffer.new → IsAtEnd (R.remaining reader.new) }
{
    match reader.read(buffer) {
        Ok(0) => Received::End,
        Ok(count) => Received::Bytes(count),
        Err(error) if error.kind() == ErrorKind::Interrupted => Received::Nothing,
        Err(_) => Received::Failed,
    }
}

/// Writes once, a beginning of the bytes. A writer that takes none has failed.
pub(crate) fn write_some<W: Write>(writer: &mut W, bytes: &[u8]) -> Sent
    ensures some { IsSomeSent result }
    ensures bound { sent_count result ≤ length bytes.now }
    ensures bytes { Appends (W.contents writer.old) (W.contents writer.new) (take (sent_count result) bytes.now) }
{
    match writer.write(bytes) {
        Ok(0) => Sent::Failed,
        Ok(count) => Sent::Bytes(count),
        Err(error) if error.kind() == ErrorKind::Interrupted => Sent::Nothing,
        Err(_) => Sent::Failed,
    }
}

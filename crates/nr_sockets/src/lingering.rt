// Sockets of which all was sent: what their peers still send is read and dropped, until they end, send nothing for a second, or half a minute is over,
// since a socket that is closed over bytes that nobody read takes back those that were sent. A peer that sends nothing more may read on behind that: the
// system keeps what was sent for it.
ghost use Rattle.std.specs.Prelude.{ℕ, ◌≡◌, ◌<◌, ◌-◌, ◌*◌, true, false};
ghost use Rattle.std.specs.Bool.{OnTrue};
ghost use Rattle.std.specs.Time.{instant_nanos};
ghost use Rattle.nr_service.specs.declared.stream.Received.TheVariants as received_as;

use crate::socket::Socket;
use nr_service::{Received, Stream};
use std::time::Instant;

/// How many bytes are read at once.
pub(crate) const PIECE: usize = 16_384;

/// How long a socket lingers at most, in milliseconds.
const MOST_MILLISECONDS: u128 = 30_000;

/// For how long it lingers on while no byte comes, in milliseconds.
const MOST_SILENT_MILLISECONDS: u128 = 1_000;

/// A socket that lingers, since when, and when a byte came last: at first when it began to linger.
#[derive(Drop)]
pub(crate) struct Lingering {
    pub(crate) socket: Socket,
    since: Instant,
    heard: Instant,
}

// Whether less than so many milliseconds lie between two moments.
fn is_within(from: Instant, now: Instant, milliseconds: u128) -> bool
    ensures { OnTrue result (instant_nanos now - instant_nanos from < milliseconds * 1_000_000) }
{
    now.duration_since(from).as_millis() < milliseconds
}

// When a byte came last, behind a try to read at this moment.
fn heard_behind(received: Received, heard: Instant, now: Instant) -> Instant
    ensures bytes { (count : ℕ) → received ≡ received_as.Bytes count → result ≡ now }
    ensures silent { ((count : ℕ) → received ≡ received_as.Bytes count → ⊥) → result ≡ heard }
{
    match received {
        Received::Bytes(_) => now,
        Received::Nothing => heard,
        Received::End => heard,
        Received::Failed => heard,
    }
}

impl Lingering {
    pub(crate) fn new(socket: Socket, since: Instant) -> Lingering
        ensures since { result.since ≡ since }
        ensures heard { result.heard ≡ since }
    {
        Lingering {
            socket,
            since,
            heard: since,
        }
    }

    // Whether it lingers on, behind a try to read at this moment.
    fn hears(&mut self, received: Received, now: Instant) -> bool
        ensures ended { received ≡ received_as.End → result ≡ false }
        ensures failed { received ≡ received_as.Failed → result ≡ false }
        ensures bytes { (count : ℕ) → received ≡ received_as.Bytes count → self.new.heard ≡ now }
        ensures silent { ((count : ℕ) → received ≡ received_as.Bytes count → ⊥) → self.new.heard ≡ self.old.heard }
        ensures most { OnTrue result (instant_nanos now - instant_nanos self.new.since < 30_000_000_000) }
        ensures most_silent { OnTrue result (instant_nanos now - instant_nanos self.new.heard < 1_000_000_000) }
        ensures since { self.new.since ≡ self.old.since }
        ensures socket { self.new.socket ≡ self.old.socket }
    {
        self.heard = heard_behind(received, self.heard, now);
        match received {
            Received::End | Received::Failed => false,
            Received::Bytes(_) | Received::Nothing => {
                is_within(self.since, now, MOST_MILLISECONDS)
                    && is_within(self.heard, now, MOST_SILENT_MILLISECONDS)
            }
        }
    }

    /// Drops what is there to be read, where any may be: as much as the buffer takes. Whether it lingers on: until its peer ends, no byte came for a
    /// second, or it has lingered for 30, whatever the number of bytes.
    pub(crate) fn goes_on(&mut self, now: Instant, buffer: &mut [u8]) -> bool
        ensures since { self.new.since ≡ self.old.since }
        ensures most { OnTrue result (instant_nanos now - instant_nanos self.new.since < 30_000_000_000) }
        ensures most_silent { OnTrue result (instant_nanos now - instant_nanos self.new.heard < 1_000_000_000) }
        ensures silent { self.new.socket.received.bytes ≡ self.old.socket.received.bytes → self.new.heard ≡ self.old.heard }
        ensures sent { self.new.socket.sent.bytes ≡ self.old.socket.sent.bytes }
    {
        let received = self.socket.receive(buffer);
        self.hears(received, now)
    }
}

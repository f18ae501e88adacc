// Connections for which there is no room: each is told so, and what it sends is read and dropped for a while, since a connection that is closed over
// bytes that nobody read takes back those that were sent. Nobody waits for them.
ghost use Rattle.std.specs.Prelude.{◌≡◌, ◌≤◌, ◌<◌, ◌-◌, length};
ghost use Rattle.std.specs.Bool.{OnTrue};
ghost use Rattle.std.specs.Time.{instant_nanos};
ghost use Rattle.nr_sockets.specs.Refusing.{IsTold};

use crate::peer::Peer;
use std::alloc::Global;
use std::io::{ErrorKind, Read, Write};
use std::rt::Clock;
use std::time::Instant;

/// What a connection is told for which there is no room.
const REFUSAL: &[u8] = b"-ERR max number of clients reached\r\n";

/// How many stay open for a while at most. For one more the oldest is closed.
const MOST_LEAVING: usize = 64;

/// How long one stays open at most, in milliseconds.
const MOST_MILLISECONDS: u128 = 1_000;

/// How many bytes are read at once, and how many times at most in a look at one.
const PIECE: usize = 4_096;

const MOST_PIECES: usize = 16;

// Writes the refusal, or as much of it as the stream takes at once.
fn tell<W: Write>(stream: &mut W)
    ensures { IsTold (W.contents stream.old) (W.contents stream.new) }
{
    let _ = stream.write(REFUSAL);
}

// Reads what is there, and drops it. Whether more may come.
fn drop_what_came<T: Read>(stream: &mut T) -> bool {
    let mut dropped = [0u8; PIECE];
    for _ in 0..MOST_PIECES {
        match stream.read(&mut dropped) {
            Ok(0) => return false,
            Ok(_) => {}
            Err(error) => {
                return matches!(error.kind(), ErrorKind::WouldBlock | ErrorKind::Interrupted);
            }
        }
    }
    true
}

// A connection that was told, and when.
#[derive(Drop)]
struct ToldPeer {
    peer: Peer,
    since: Instant,
}

impl ToldPeer {
    // Drops what came. Whether it stays open: until its peer ends, or a second is over.
    fn stays(&mut self, now: Instant) -> bool
        ensures most { OnTrue result (instant_nanos now - instant_nanos self.new.since < 1_000_000_000) }
        ensures since { self.new.since ≡ self.old.since }
    {
        drop_what_came(&mut self.peer)
            && now.duration_since(self.since).as_millis() < MOST_MILLISECONDS
    }
}

/// Those that were told, for a second each at most.
#[derive(Drop)]
pub(crate) struct Farewells {
    leaving: Vec<ToldPeer>,
    pub ghost few_leave: { length leaving.items ≤ 64 },
}

impl Farewells {
    pub(crate) fn new(alloc: Global) -> Farewells {
        Farewells {
            leaving: Vec::new(alloc),
        }
    }

    /// Tells one that there is no room for it, where it takes that at once, and ends what it is sent. Where there is no clock or no memory it is closed.
    pub(crate) fn bid<R: Clock>(&mut self, runtime: &R, mut peer: Peer) {
        tell(&mut peer);
        let ended = peer.end();
        if let Ok(since) = Instant::now(runtime)
            && ended.is_ok()
        {
            self.keep(ToldPeer { peer, since });
        }
    }

    fn keep(&mut self, leaving: ToldPeer) {
        if self.leaving.len() >= MOST_LEAVING {
            self.leaving.remove(0);
        }
        let _ = self.leaving.push(leaving);
    }

    /// Drops what came from each, and closes those whose time is over. Where there is no clock all are closed.
    pub(crate) fn look<R: Clock>(&mut self, runtime: &R) {
        if self.leaving.is_empty() {
            return;
        }
        let now = Instant::now(runtime).ok();
        self.leaving.retain_mut(|leaving| match now {
            Some(now) => leaving.stays(now),
            None => false,
        });
    }
}

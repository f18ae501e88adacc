// An input whose end ends the server, and how it ends.
ghost use Rattle.std.specs.Prelude.{◌≡◌, ◌≢◌, false, true, ◌⊎◌, ◌-◌, ◌*◌, nat_lt, None, if◌then◌else◌};
ghost use Rattle.std.specs.Time.{instant_nanos};

use crate::listening::INPUT;
use mio::unix::SourceFd;
use mio::{Interest, Registry};
use nr_service::Ends;
use std::os::fd::RawFd;
use std::rt::Clock;
use std::time::Instant;

/// How many bytes are read at once.
const PIECE: usize = 4_096;

/// Nanoseconds of a second.
const SECOND: u128 = 1_000_000_000;

/// An input of which the system tells.
#[derive(Drop)]
pub(crate) struct Input {
    descriptor: RawFd,
}

// Reads what is there, once, and drops it. Whether more may come.
fn drop_what_came(descriptor: RawFd) -> bool {
    let mut dropped = [0u8; PIECE];
    let count = libc::read(descriptor, &mut dropped);
    if count < 0 {
        matches!(os::errno(), libc::EAGAIN | libc::EINTR)
    } else {
        count > 0
    }
}

impl Input {
    /// Has the system tell of an input. `None` where it tells nothing of such a one, as of a file: then it has ended.
    pub(crate) fn watch(registry: &Registry, descriptor: RawFd) -> Option<Input> {
        let mut source = SourceFd(&descriptor);
        let watched = registry.register(&mut source, INPUT, Interest::READABLE);
        watched.is_ok().then_some(Input { descriptor })
    }

    /// Reads what the system told of, and drops it. Whether the input goes on. It is read once, since a further read may have to wait: where there is
    /// more the system tells it again.
    pub(crate) fn goes_on(&self, registry: &Registry) -> bool {
        let mut source = SourceFd(&self.descriptor);
        drop_what_came(self.descriptor)
            && registry
                .reregister(&mut source, INPUT, Interest::READABLE)
                .is_ok()
    }
}

/// How it stands with an input whose end ends the server.
#[derive(Clone, Copy)]
pub(crate) enum Course {
    /// It goes on, or there is none.
    Open,
    /// It has ended, at this moment where there is a clock.
    Ended(Option<Instant>),
}

// How a server ends at this moment whose input ended at that one, and that has so many seconds to end in order.
fn ends_at(since: Instant, now: Instant, seconds: u32) -> Ends
    ensures { result ≡ (if nat_lt (instant_nanos now - instant_nanos since) (seconds * 1_000_000_000) then Ends.InOrder else Ends.AtOnce) }
{
    if now.duration_since(since).as_nanos() < u128::from(seconds) * SECOND {
        Ends::InOrder
    } else {
        Ends::AtOnce
    }
}

impl Course {
    pub(crate) fn is_open(self) -> bool
        ensures open { result ≡ true → self ≡ Course.Open }
        ensures over { result ≡ false → self ≢ Course.Open }
    {
        matches!(self, Course::Open)
    }

    /// Whether the server goes on. Behind the end it has so many seconds to end in order, and none where there is no clock.
    pub(crate) fn ending<R: Clock>(self, runtime: &R, seconds: u32) -> Ends
        ensures open { self ≡ Course.Open → result ≡ Ends.Not }
        ensures ended { (since : _) → self ≡ Course.Ended since → (result ≡ Ends.InOrder) ⊎ (result ≡ Ends.AtOnce) }
        ensures unclocked { self ≡ Course.Ended None → result ≡ Ends.AtOnce }
    {
        let since = match self {
            Course::Open => return Ends::Not,
            Course::Ended(None) => return Ends::AtOnce,
            Course::Ended(Some(since)) => since,
        };
        match Instant::now(runtime) {
            Ok(now) => ends_at(since, now, seconds),
            Err(_) => Ends::AtOnce,
        }
    }
}

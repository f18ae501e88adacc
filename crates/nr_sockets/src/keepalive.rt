// How the system finds out that the peer of a connection is gone that says nothing: it asks it, and closes the connection where no answer comes.
ghost use Rattle.std.specs.Prelude.{◌≡◌, ◌<◌, ◌/◌, min, max, MatchOption};

use libc::net as c;
use mio::net::TcpStream;
use std::os::fd::AsRawFd;

/// The most seconds that Linux waits, at first and between two questions.
const MOST_SECONDS: u32 = 32_767;

/// How many questions in a row stay without an answer until the connection is closed.
const MOST_QUESTIONS: u32 = 3;

/// When the peer of a silent connection is asked whether it is there.
#[derive(Clone, Copy, Debug, PartialEq, Eq)]
pub(crate) struct Keepalive {
    /// Behind how many seconds without a word: 1 to 32,767.
    pub(crate) idle: u32,
    /// Behind how many seconds without an answer it is asked again: 1 to 10,922.
    pub(crate) interval: u32,
    /// How many times in all.
    pub(crate) count: u32,
}

/// What the system is told where a silent peer is to be asked after so many seconds. At 0 it never is. More than 32,767 are that many.
pub(crate) fn keepalive_of(seconds: u32) -> Option<Keepalive>
    ensures { MatchOption result (seconds ≡ 0) (λ asks. (0 < seconds) × (asks ≡ record { idle = min seconds 32767; interval = max (min seconds 32767 / 3) 1; count = 3 })) }
{
    if seconds == 0 {
        return None;
    }
    let idle = seconds.min(MOST_SECONDS);
    Some(Keepalive {
        idle,
        interval: (idle / 3).max(1),
        count: MOST_QUESTIONS,
    })
}

// A number as the value of an option.
fn value_of(number: u32) -> [u8; 16] {
    let mut value = [0u8; 16];
    value[..4].copy_from_slice(&number.to_ne_bytes());
    value
}

impl Keepalive {
    /// Tells the system. What it refuses stays as it was.
    pub(crate) fn set_on(self, stream: &TcpStream) {
        let (fd, on) = (stream.as_raw_fd(), value_of(1));
        let (idle, interval) = (value_of(self.idle), value_of(self.interval));
        let count = value_of(self.count);
        let (socket, tcp) = (c::SOL_SOCKET, c::IPPROTO_TCP);
        unsafe {
            c::setsockopt(fd, tcp, c::TCP_KEEPIDLE, &idle, 4);
            c::setsockopt(fd, tcp, c::TCP_KEEPINTVL, &interval, 4);
            c::setsockopt(fd, tcp, c::TCP_KEEPCNT, &count, 4);
            c::setsockopt(fd, socket, c::SO_KEEPALIVE, &on, 4);
        }
    }
}

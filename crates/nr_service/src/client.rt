// A connection that is served, and the stream of its bytes.
ghost use Rattle.std.specs.Prelude.{◌≡◌, false};

use nr_entry::ConnId;

// How many bytes of a client are read at once, at first and at most.
pub(crate) const FIRST_ROOM: usize = 4_096;

pub(crate) const MOST_ROOM: usize = 65_536;

/// How a client ends.
#[derive(Clone, Copy, Debug, PartialEq, Eq)]
pub enum Ending {
    /// All was written that it gets.
    Finished,
    /// Nothing came from it for too long.
    Silent,
    /// Its stream failed, or more waits for it than may.
    Lost,
}

/// A connection that is served.
#[derive(Drop)]
pub struct Client<S> {
    pub conn: ConnId,
    pub stream: S,
    /// Its input has ended: nothing more is read.
    pub is_ending: bool,
    /// Its stream failed.
    pub is_broken: bool,
    /// Its stream took nothing when it was written last.
    pub is_full: bool,
    /// It wasn't read when it was looked at, since too much waited for it.
    pub is_held: bool,
    /// How many bytes of it are read at once: 4,096, four times as many behind a read that filled them where at most so many wait for it, 65,536
    /// at most, and 4,096 again behind any other visit. So a client whose requests call up much is read little at a time, and so is one behind a
    /// burst.
    pub room: usize,
    /// So many were there when it was read last.
    pub has_filled: bool,
    /// The moment, in milliseconds, at which a byte of it came or was taken by its stream last, or at which it was seen to be one that messages may
    /// come to. At first that of the service as it was opened, and then that at which it was looked at first.
    pub heard: u64,
    /// It wasn't looked at yet.
    pub is_new: bool,
    /// The moment, in milliseconds, at which it was seen that what answers it is down and its stream takes less than is there for it.
    pub fell: Option<u64>,
}

impl<S> Client<S> {
    /// The client of a connection that was opened at a moment, in milliseconds.
    pub(crate) fn new(conn: ConnId, stream: S, heard: u64) -> Self
        ensures conn { result.conn ≡ conn }
        ensures stream { result.stream ≡ stream }
        ensures going { result.is_ending ≡ false }
        ensures sound { result.is_broken ≡ false }
        ensures empty { result.is_full ≡ false }
        ensures heard { result.heard ≡ heard }
    {
        Client {
            conn,
            stream,
            is_ending: false,
            is_broken: false,
            is_full: false,
            is_held: false,
            room: FIRST_ROOM,
            has_filled: false,
            heard,
            is_new: true,
            fell: None,
        }
    }
}

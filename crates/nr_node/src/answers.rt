// What a node's calls answer.
ghost use Rattle.std.specs.Prelude.{◌≡◌};
ghost use Rattle.nr_node.specs.Batches.{take_error};

use nr_blob::Memory;
use nr_entry::Refusal;

/// What came of a step of a node.
#[derive(Clone, Copy, Debug, PartialEq, Eq)]
pub enum Round {
    /// It was done, or there was nothing to do.
    Done,
    /// All places of the log are taken by entries that some node hasn't passed. The updates that lead go on waiting.
    Full,
    /// Another node reserved in between, or updates that led found no place before. They go on waiting.
    Again,
    /// An entry that was reserved isn't filled yet, or much waits for a connection, which is handed out first, or the server is lent. All before it were applied.
    NotYet,
    /// The replica is down: it goes on passing entries, and executes nothing.
    Down,
}

/// What came of a look, or of going on without one.
#[derive(Clone, Copy, Debug, PartialEq, Eq)]
pub struct Looked {
    pub round: Result<Round, Memory>,
    /// Whether an entry that was reserved before wasn't filled yet, or was held back for what waits or for a loan of the server. Else all those entries were passed, also by
    /// a replica that is down.
    pub is_behind: bool,
}

/// Why a connection wasn't opened. The reasons are told in this order.
#[derive(Clone, Copy, Debug, PartialEq, Eq)]
pub enum OpenError {
    /// All connections that there may be are in use, or the node has no such worker: who holds its lock tells it.
    TooMany,
    /// The replica is down.
    Down,
    /// There was no memory.
    Memory(Memory),
}

/// Why a batch wasn't taken.
#[derive(Clone, Copy, Debug, PartialEq, Eq)]
pub enum TakeError {
    /// It names another node or a worker that there isn't, or has a job of a connection that its worker doesn't serve, or whose end was taken before.
    Stranger,
    /// A job's number isn't its connection's next one, or its own isn't above that of the worker's last batch.
    WrongNumber,
    /// There was no memory to take the jobs in.
    Memory(Memory),
    /// The replica is down.
    Down,
}

/// The refusal of a batch by the accounts.
pub(crate) fn take_error(why: Refusal) -> TakeError
    ensures { result ≡ take_error why }
{
    match why {
        Refusal::Stranger => TakeError::Stranger,
        Refusal::WrongNumber => TakeError::WrongNumber,
        Refusal::Memory(memory) => TakeError::Memory(memory),
    }
}

// What a connection asks of the server: updates, which go through the log, and reads, which take no entry. The type says which.
ghost use Rattle.std.specs.Prelude.{◌≡◌, ◌≤◌};
ghost use Rattle.nr_model.specs.Keyspace.{last_moment};

use crate::conn::ConnId;
use nr_blob::Blob;
use nr_model::command::{Change, Kind, Look, Operation};
use nr_resp::Reply;

/// A command that a transaction may hold.
#[derive(Clone, Copy, Debug, PartialEq, Eq)]
pub enum Queueable {
    Perform(Operation),
    Unwatch,
    Publish,
    Pubsub,
}

/// A command of a transaction, with all words of its request.
#[derive(Debug, Drop)]
pub struct Queued {
    pub command: Queueable,
    pub words: Vec<Blob>,
}

/// The commands of a transaction.
#[derive(Debug, Drop)]
pub enum Transaction {
    /// To be run one after the other.
    Queued(Vec<Queued>),
    /// Refused, since a request in it was faulty.
    Spoiled,
}

/// A command that speaks of connections: of subscriptions, of watches, or to subscribers.
#[derive(Clone, Copy, Debug, PartialEq, Eq)]
pub enum SessionUpdate {
    Subscribe(Kind),
    Unsubscribe(Kind),
    Publish,
    Watch,
    Unwatch,
    /// DISCARD, which ended a transaction.
    Discard,
}

/// An update: it takes a place in the log.
#[derive(Debug, Drop)]
pub enum Update {
    /// A command that may change the keyspace, with all words of its request.
    Change {
        command: Change,
        words: Vec<Blob>,
    },
    /// A command that speaks of connections, with all words of its request.
    Session {
        command: SessionUpdate,
        words: Vec<Blob>,
    },
    /// EXEC.
    Exec(Transaction),
    /// The connection's end, with a last reply or none.
    Close(Option<Reply>),
}

/// A read: it takes no place in the log.
#[derive(Debug, Drop)]
pub enum Read {
    /// A command that only looks, with all words of its request.
    Look { command: Look, words: Vec<Blob> },
    /// PUBSUB, with all words of its request.
    Pubsub { words: Vec<Blob> },
    /// A reply that needs no state.
    Local(Reply),
}

/// What a job asks for.
#[derive(Debug, Drop)]
pub enum JobKind {
    Update(Update),
    Read(Read),
}

/// A job of a connection.
#[derive(Debug, Drop)]
pub struct Job {
    pub conn: ConnId,
    /// Its number among the connection's jobs, from 0 without gap.
    pub number: u64,
    /// The moment at which its request was complete, in milliseconds, at most 2^53.
    pub moment: u64,
    pub kind: JobKind,
    pub ghost in_time: { moment ≤ last_moment },
}

impl JobKind {
    ghost use Rattle.nr_model.specs.Items.{is_end};
    ghost use Rattle.nr_entry.specs.Kinds.{deed_of};

    /// Whether it ends its connection.
    pub fn is_end(&self) -> bool
        ensures { result ≡ is_end (deed_of self.now) }
    {
        match self {
            JobKind::Update(Update::Close(_)) => true,
            JobKind::Update(_) | JobKind::Read(_) => false,
        }
    }
}

impl Job {
    ghost use Rattle.nr_model.specs.Items.{is_update};
    ghost use Rattle.nr_entry.specs.Kinds.{deed_of};

    /// Whether it takes a place in the log. The kind says so, no table.
    pub fn is_update(&self) -> bool
        ensures { result ≡ is_update (deed_of self.now.kind) }
    {
        match self.kind {
            JobKind::Update(_) => true,
            JobKind::Read(_) => false,
        }
    }
}

// What an operator is told while the server serves, each in a line with its time.
ghost use Rattle.std.specs.Prelude.{◌≡◌, ◌+◌, ◌<◌, ◌≤◌, ◌↔◌, Some, IfSome, IfNone, IsTrue};
ghost use Rattle.nr_server.specs.Notices.{notice_of_end};

use crate::fault::Fault;
use nr_service::Ends;
use std::fmt;

/// How many milliseconds lie at least between two lines of something that may come often.
const BETWEEN: u64 = 60_000;

/// What an operator is told while the server serves.
#[derive(Clone, Copy, Debug, PartialEq, Eq)]
pub enum Notice {
    /// A node is down, from 0 on, by which so many connections are closed.
    Down {
        node: usize,
        connections: usize,
    },
    /// A node is up again, from 0 on, with so many keys, which were copied in so many milliseconds.
    Back {
        node: usize,
        keys: u64,
        milliseconds: u64,
    },
    /// So many tries to bring this node back found no memory since that was told last.
    NoCopy {
        node: usize,
        tries: u64,
    },
    /// So many connections were turned away since that was told last: every node that is up has as many as it takes.
    TurnedAway(u64),
    /// So often the system had no descriptor or no memory for a connection that waits since that was told last.
    Short(u64),
    /// All that was read is executed, and all that was answered is written.
    Ended,
    /// The time for an end in order was over before that.
    BrokenOff,
}

impl fmt::Display for Notice {
    ghost use Rattle.std.specs.Prelude.{Some};
    ghost use Rattle.nr_server.specs.Notices.{notice_text};

    ghost output = { λ notice. Some (notice_text notice) };

    fn fmt<W: fmt::Write>(&self, f: &mut fmt::Formatter<W>) -> fmt::Result {
        match self {
            Notice::Down { node, connections } => {
                write!(f, "node {node} is down: {connections} connections closed")
            }
            Notice::Back {
                node,
                keys,
                milliseconds,
            } => write!(
                f,
                "node {node} is up again: {keys} keys copied in {milliseconds} milliseconds"
            ),
            Notice::NoCopy { node, tries } => {
                write!(f, "no memory to bring node {node} back: {tries} tries")
            }
            Notice::TurnedAway(count) => write!(f, "connections turned away: {count}"),
            Notice::Short(count) => write!(
                f,
                "no descriptor or memory for connections that wait: {count} tries"
            ),
            Notice::Ended => f.write_str("ended in order"),
            Notice::BrokenOff => f.write_str("ended before all was written"),
        }
    }
}

/// What is told as a server ends, by how it was told to end, and what came of that. Nothing where it wasn't told to, or where it failed: that has a line of its own.
pub(crate) fn notice_of_end(ends: Ends, ended: &Result<(), Fault>) -> Option<Notice>
    ensures { result ≡ notice_of_end ends ended.now }
{
    match (ends, ended) {
        (Ends::InOrder, Ok(())) => Some(Notice::Ended),
        (Ends::AtOnce, Ok(())) => Some(Notice::BrokenOff),
        _ => None,
    }
}

/// Something that may come often: it is told at once, and then at most once a minute, with how often it came since.
#[derive(Clone, Copy, Debug)]
pub(crate) struct Repeated {
    // How often it had come as it was told last, and when that was, in milliseconds.
    count: u64,
    told: Option<u64>,
}

// Whether so long ago is long enough to tell of it again, at this moment, in milliseconds.
fn is_due(told: Option<u64>, moment: u64) -> bool
    ensures { IsTrue result ↔ IfSome told (λ before. before + 60000 ≤ moment) }
{
    match told {
        Some(told) => moment.saturating_sub(told) >= BETWEEN,
        None => true,
    }
}

impl Repeated {
    /// It wasn't told yet.
    pub(crate) fn new() -> Repeated {
        Repeated {
            count: 0,
            told: None,
        }
    }

    /// How often it came since it was told last, where it came so often in all, and it is time to tell of it, at this moment in milliseconds.
    pub(crate) fn take(&mut self, count: u64, moment: u64) -> Option<u64>
        ensures more { IfSome result (λ more. (0 < more) × (self.old.count + more ≡ count)) }
        ensures counted { IfSome result (λ _. (self.new.count ≡ count) × (self.new.told ≡ Some moment)) }
        ensures seldom { IfSome result (λ _. IfSome self.old.told (λ before. before + 60000 ≤ moment)) }
        ensures same { IfNone result (self.new ≡ self.old) }
        ensures due { IfNone result (self.old.count < count → IfSome self.old.told (λ before. before + 60000 ≤ moment) → ⊥) }
    {
        if count <= self.count || !is_due(self.told, moment) {
            return None;
        }
        let more = count - self.count;
        self.count = count;
        self.told = Some(moment);
        Some(more)
    }
}

// The steps that a server of several nodes can take, and what comes of one.
ghost use Rattle.std.specs.Prelude.{◌≡◌, map, [], None};
ghost use Rattle.nr_model.specs.Nodes.Pasts.{is_done};
ghost use Rattle.nr_world.specs.Seen.{outcome_seen, handed_seen};

use nr_entry::ConnId;
use nr_model::reason::Reason;
use std::alloc::Global;

/// A step that a server can take. Nodes and workers are numbered from 0.
#[derive(Debug, Drop)]
pub enum Step {
    /// A connection is opened at a worker of a node: the node, the worker.
    Open(usize, usize),
    /// Bytes of a connection come, at a moment in milliseconds.
    Feed(ConnId, u64, Vec<u8>),
    /// A worker of a node posts a batch, the first 1,024 jobs of its connections: the node, the worker.
    Post(usize, usize),
    /// A node lifts the batch that a worker posted: the node, the worker.
    Lift(usize, usize),
    /// A node reserves an entry of the log for the updates that lead, at most 1,024 of them.
    Reserve(usize),
    /// A node fills another node's cell of the entry that it reserved: the node, the other one.
    Fill(usize, usize),
    /// A node fetches its next entry.
    Fetch(usize),
    /// A node applies the entry that it fetched, and passes it.
    Apply(usize),
    /// A node applies all entries that were reserved, and runs the reads that lead.
    Look(usize),
    /// A node answers the batch of a worker: the node, the worker.
    Answer(usize, usize),
    /// A worker of a node takes the answer to its batch, and hands out the bytes that wait for its connections: the node, the worker.
    Collect(usize, usize),
    /// A connection is closed, at a moment in milliseconds.
    Close(ConnId, u64),
    /// The next entry that a node applies is refused, as where memory runs out.
    Refuse(usize),
    /// A node that is down comes back with a copy of another node's server: the node, the other one.
    Revive(usize, usize),
}

/// What came of a step.
#[derive(Clone, Copy, Debug, PartialEq, Eq)]
pub enum StepOutcome {
    Opened(ConnId),
    Done,
    /// Nothing changed.
    Idle(Reason),
}

/// Bytes that were handed to a connection.
#[derive(Debug, Drop)]
pub struct HandedBytes {
    pub conn: ConnId,
    pub bytes: Vec<u8>,
}

/// The answer to a batch, as its worker took it.
#[derive(Clone, Copy, Debug, PartialEq, Eq)]
pub struct Answered {
    pub node: usize,
    pub worker: usize,
    /// The batch's number among those of its worker, from 0.
    pub batch: u64,
    /// Whether all its jobs were executed.
    pub executed: bool,
}

/// What a step hands back: what came of it, the bytes that it handed to connections, and the answer that it took.
#[derive(Debug, Drop)]
pub struct Happened {
    pub outcome: StepOutcome,
    pub handed: Vec<HandedBytes>,
    pub answer: Option<Answered>,
}

impl StepOutcome {
    /// Whether the step was enabled, and was taken.
    pub fn is_done(self) -> bool
        ensures { result ≡ is_done (outcome_seen self) }
    {
        match self {
            StepOutcome::Opened(_) | StepOutcome::Done => true,
            StepOutcome::Idle(_) => false,
        }
    }
}

impl Happened {
    /// A step that handed out nothing and took no answer.
    pub(crate) fn plain(alloc: Global, outcome: StepOutcome) -> Happened
        ensures outcome { result.outcome ≡ outcome }
        ensures handed { map handed_seen result.handed.items ≡ [] }
        ensures answer { result.answer ≡ None }
    {
        Happened {
            outcome,
            handed: Vec::new(alloc),
            answer: None,
        }
    }
}

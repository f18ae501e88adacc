// A worker: what a worker on a thread keeps of its connections, its jobs and its node.
ghost use Rattle.std.specs.Prelude.{◌≡◌};
ghost use Rattle.nr_combiner.specs.Workers.{fresh_worker, shared_of};
ghost use Rattle.nr_worker.specs.Moves.{fresh_desk};
ghost use Rattle.nr_worker.specs.Working.{fresh_work, without_mark, Reflects};

use crate::due::DueJobs;
use crate::open_connections::OpenConnections;
use nr_combiner::{NodeHandle, ServerName};
use nr_entry::{Job, MOST_JOBS};
use nr_node::LastPiece;
use nr_replica::Spares;
use nr_taps::Mark;
use std::alloc::Global;
use std::marker::Model;
use std::mem;
use std::sync::Wait;

/// What a worker on a thread keeps: its place at its node, its connections' seats, the jobs that their bytes asked for and that weren't handed in yet, and its mark.
#[derive(Drop)]
pub struct Worker<'a, R, B: ServerName> {
    pub(crate) alloc: Global,
    pub(crate) rt: &'a R,
    pub(crate) worker: NodeHandle<B>,
    // How many batches were handed in.
    pub(crate) batches: u64,
    pub(crate) seats: OpenConnections,
    // Serials below it may have been opened here.
    pub(crate) next: u64,
    // Those of a batch that was handed back, in front of the others.
    pub(crate) returned: Vec<Job>,
    pub(crate) due: DueJobs,
    // Whether the answer to the last batch wasn't collected.
    pub(crate) is_waiting: bool,
    pub(crate) mark: Mark<B>,
    // What a turn hands out, between two calls none: the vector keeps its memory.
    pub(crate) pieces: Vec<LastPiece>,
    // Buffers that were written out, for its node's queues.
    pub(crate) spares: Spares,
    // How many reads are run at once beside its node's lock, at most.
    pub(crate) most_reads: usize,
    pub(crate) is_down: bool,
    pub(crate) limit: usize,
    // How many connections its node had as it came back last, as far as was heard; and whether ends are to be put for those, and behind which serial.
    pub(crate) since: u64,
    pub(crate) is_ending: bool,
    pub(crate) ended: Option<u64>,
}

impl<'a, R, B: ServerName> Model for Worker<'a, R, B> {
    ghost use Rattle.std.specs.Prelude.{◌≡◌, ◌≤◌, ◌++◌, [], length};
    ghost use Rattle.nr_worker.specs.Working.{WorkState, coded_work, IsKept};

    ghost Value = { WorkState };

    ghost coded = { coded_work };

    ghost view = { λ d. record { worker = d.worker; seats = d.seats; next = d.next; jobs = d.returned.items ++ d.due.jobs; returned = length d.returned.items; mark = d.mark.standing; waiting = d.is_waiting; down = d.is_down; limit = d.limit; late = d.due.late; since = d.since; ending = d.is_ending; ended = d.ended } };

    ghost invariant = { λ d. IsKept d.batches (record { worker = d.worker; seats = d.seats; next = d.next; jobs = d.returned.items ++ d.due.jobs; returned = length d.returned.items; mark = d.mark.standing; waiting = d.is_waiting; down = d.is_down; limit = d.limit; late = d.due.late; since = d.since; ending = d.is_ending; ended = d.ended }) × (d.pieces.items ≡ []) × (length d.seats ≤ d.due.room) };
}

impl<'a, R: Wait, B: ServerName> Worker<'a, R, B> {
    /// A worker that has handed in nothing, with no connections. At most `limit` bytes wait for each that is opened. It takes no memory.
    pub fn new(alloc: Global, rt: &'a R, worker: NodeHandle<B>, limit: usize) -> Worker<'a, R, B>
        requires { worker ≡ fresh_worker (shared_of worker) worker.seat.worker }
        ensures fresh { result ≡ fresh_work worker limit }
        ensures reflects { Reflects result (fresh_desk worker.node worker.seat.worker) }
    {
        Worker {
            alloc,
            rt,
            worker,
            batches: 0,
            seats: OpenConnections::new(alloc),
            next: 0,
            returned: Vec::new(alloc),
            due: DueJobs::new(alloc),
            is_waiting: false,
            mark: Mark::new(),
            pieces: Vec::new(alloc),
            spares: Spares::new(alloc),
            most_reads: MOST_JOBS,
            is_down: false,
            limit,
            since: 0,
            is_ending: false,
            ended: None,
        }
    }

    /// The number of its node.
    pub fn node(&self) -> usize
        ensures { result ≡ self.now.worker.node }
    {
        self.worker.shared().node()
    }

    /// Its mark, in whose place it has one that keeps nothing: for when it ends. Constant.
    pub fn take_mark(&mut self) -> Mark<B>
        ensures mark { result.standing ≡ self.old.mark }
        ensures left { self.new ≡ without_mark self.old }
    {
        mem::replace(&mut self.mark, Mark::new())
    }
}

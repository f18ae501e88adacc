// What a worker begins with, and what it leaves.
ghost use Rattle.std.proofs.Props.{props};
ghost use Rattle.std.specs.Prelude.{◌≡◌, IfOk};
ghost use Rattle.nr_combiner.specs.Workers.{fresh_worker, shared_of};

use crate::serving::ClientLimits;
use nr_blob::Memory;
use nr_combiner::{NodeHandle, ServerName};
use nr_service::{Client, Ended, Moments, Poller, Stream, read_buffer};
use nr_taps::Mark;
use std::alloc::Global;
use std::thread::Promise;

/// What a worker begins with: its place at its node, where its connections come from, its clock, and room for what it reads at once.
#[derive(Drop)]
pub struct Lane<B: ServerName, D, M> {
    pub worker: NodeHandle<B>,
    pub device: D,
    pub clock: M,
    pub(crate) buffer: Vec<u8>,
    // It has handed in nothing.
    pub ghost fresh: { worker ≡ fresh_worker (shared_of worker) worker.seat.worker } by { Prim.hlevel props },
}

impl<B: ServerName, D: Drop, M: Drop> Lane<B, D, M> {
    /// The lane of a worker. It takes room for 65,536 bytes.
    ///
    /// # Errors
    ///
    /// `Memory` where there is no room.
    pub fn new(
        alloc: Global,
        worker: NodeHandle<B>,
        device: D,
        clock: M,
    ) -> Result<Lane<B, D, M>, Memory>
        requires { worker ≡ fresh_worker (shared_of worker) worker.seat.worker }
        ensures worker { IfOk result (λ lane. lane.worker ≡ worker) }
        ensures device { IfOk result (λ lane. lane.device ≡ device) }
        ensures clock { IfOk result (λ lane. lane.clock ≡ clock) }
    {
        let buffer = read_buffer(alloc)?;
        Ok(Lane {
            worker,
            device,
            clock,
            buffer,
        })
    }
}

/// What a worker leaves: which one of which node it was, its device and its clock, the clients that were there, within which limits it served them, and how it ended.
#[derive(Drop)]
pub struct WorkerEnd<S, D, M> {
    /// Its node, from 0 on.
    pub node: usize,
    /// Which worker of the node it was, from 0 on.
    pub worker: usize,
    pub device: D,
    pub clock: M,
    pub clients: Vec<Client<S>>,
    pub limits: ClientLimits,
    pub ended: Ended,
}

/// The same, with what its node had done when it last handed something out to it.
#[derive(Drop)]
pub(crate) struct Leaving<B: ServerName, S, D, M> {
    pub(crate) mark: Mark<B>,
    pub(crate) left: WorkerEnd<S, D, M>,
}

/// What a worker of a node promises of what it leaves, which served within these limits.
#[derive(Drop)]
pub(crate) struct WorkerPromise {
    pub(crate) node: usize,
    pub(crate) worker: usize,
    pub(crate) limits: ClientLimits,
}

impl<B: ServerName, S: Stream, D: Poller<S>, M: Moments> Promise<Leaving<B, S, D, M>>
    for WorkerPromise {
    ghost use Rattle.std.specs.Prelude.{◌≡◌};
    ghost use Rattle.nr_crew.specs.Left.{IsAnswered};

    ghost kept_by = { λ promise leaving. IsAnswered S.received S.sent M.gives (D.parted leaving.left.device) leaving.left.node leaving.left.worker leaving.left.ended
        leaving.mark.standing leaving.left.clients.items
        × (leaving.left.limits ≡ promise.limits)
        × (leaving.left.node ≡ promise.node)
        × (leaving.left.worker ≡ promise.worker) };
}

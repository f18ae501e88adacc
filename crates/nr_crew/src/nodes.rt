// A server of several nodes, with a thread for each worker, from its size on.
ghost use Rattle.std.specs.Prelude.{◌≡◌, ◌+◌, ◌*◌, ◌++◌, [], ◌∷◌, IfOk, OnOk, length, map, flat_map};
ghost use Rattle.std.specs.List.{AllByRecursion};
ghost use Rattle.std.specs.Vec.{vec_len};
ghost use Rattle.nr_model.specs.Bytes.{IsBeginningOf};
ghost use Rattle.nr_oplog.specs.Opening.{name_of, nodes_of, places_of};
ghost use Rattle.nr_combiner.specs.Opened.{AreNamed, AreOfWorkers};
ghost use Rattle.nr_crew.specs.Dealing.{HasDealt};
ghost use Rattle.nr_crew.specs.Ended.{HasEnded};
ghost use Rattle.nr_crew.specs.Left.{AreServedWithin};
ghost use Rattle.nr_crew.specs.Nodes.{AreFresh, IsFresh};
ghost use Rattle.nr_crew.specs.Places.{place_of, places_from, places_left};
ghost use Rattle.nr_crew.specs.Together.{AreServedTogether};

use crate::lane::{Lane, WorkerEnd};
use crate::running::{ServeError, run_workers};
use crate::serving::ClientLimits;
use nr_blob::Memory;
use nr_combiner::{Node, NodeHandle, OpenedSlots, ServerName, build, open_slots};
use nr_entry::{BuildError, Setup};
use nr_oplog::{OpenedLog, Oplog};
use nr_replica::Replica;
use nr_service::{Accepts, Gate, Moments, Poller, Rings, Stream};
use nr_worker_service::SharedHints;
use std::alloc::Global;
use std::hash::RandomState;
use std::marker::Brand;
use std::sync::{Arc, Wait};
use std::thread::Threads;

/// Where the connections of one worker come from, and its clock.
#[derive(Drop)]
pub struct WorkerPorts<D, M> {
    pub device: D,
    pub clock: M,
}

/// What the workers of a server left, the replicas of its nodes, that of node 0 first, and why they ended.
#[derive(Drop)]
pub struct Served<S, D, M> {
    pub lefts: Vec<WorkerEnd<S, D, M>>,
    pub replicas: Vec<Replica>,
    pub ended: Result<(), ServeError>,
}

/// Why a server didn't start.
#[derive(Clone, Copy, Debug, PartialEq, Eq)]
pub enum StartError {
    /// A node has no worker, or there is none: a [`Setup`] doesn't allow it.
    BadShape,
    /// There are fewer places for workers than workers.
    FewPlaces,
    /// There was no memory.
    Memory(Memory),
}

impl From<Memory> for StartError {
    ghost use Rattle.std.specs.Prelude.{◌≡◌};
    ghost use Rattle.nr_crew.specs.declared.nodes.StartError.TheVariants as errors;

    ghost from_gives = { λ memory error. error ≡ errors.Memory memory };

    fn from(memory: Memory) -> StartError {
        StartError::Memory(memory)
    }
}

// The lanes of a node's workers, in order, with the next places.
fn add_lanes<B: ServerName, D: Drop, M: Drop>(
    alloc: Global,
    workers: Vec<NodeHandle<B>>,
    places: &mut Vec<WorkerPorts<D, M>>,
    lanes: &mut Vec<Lane<B, D, M>>,
) -> Result<(), StartError>
    requires { AllByRecursion IsFresh workers.items }
    ensures len { OnOk result (vec_len lanes.new ≡ vec_len lanes.old + vec_len workers) }
    ensures placed { OnOk result (map (λ lane. place_of lane.worker) lanes.new.items ≡ map (λ lane. place_of lane.worker) lanes.old.items ++ map place_of workers.items) }
{
    for worker in workers {
        let Some(WorkerPorts { device, clock }) = places.pop() else {
            return Err(StartError::FewPlaces);
        };
        let lane = Lane::new(alloc, worker, device, clock)?;
        keep(lane, lanes)?;
    }
    Ok(())
}

// Keeps one more.
fn keep<T: Drop>(one: T, all: &mut Vec<T>) -> Result<(), Memory>
    ensures len { OnOk result (vec_len all.new ≡ vec_len all.old + 1) }
    ensures items { OnOk result (all.new.items ≡ all.old.items ++ one ∷ []) }
{
    all.push(one)?;
    Ok(())
}

/// The lanes of all workers, so many a node, those of node 0 first, each with the place of its number.
///
/// # Errors
///
/// `FewPlaces` where there are fewer places than workers, and `Memory` where memory runs out.
pub fn lanes_of<B: ServerName, D: Drop, M: Drop>(
    alloc: Global,
    built: Vec<Vec<NodeHandle<B>>>,
    setup: Setup,
    mut places: Vec<WorkerPorts<D, M>>,
) -> Result<Vec<Lane<B, D, M>>, StartError>
    requires { AllByRecursion (λ workers. AreFresh setup.workers workers.items) built.items }
    ensures len { IfOk result (λ lanes. vec_len lanes ≡ vec_len built * setup.workers) }
    ensures placed { IfOk result (λ lanes. map (λ lane. place_of lane.worker) lanes.items ≡ flat_map (λ workers. map place_of workers.items) built.items) }
{
    places.reverse();
    let mut lanes = room_for_lanes(alloc, built.len().saturating_mul(setup.workers()))?;
    for workers in built {
        add_lanes(alloc, workers, &mut places, &mut lanes)?;
    }
    Ok(lanes)
}

// Room for so many lanes.
fn room_for_lanes<B: ServerName, D: Drop, M: Drop>(
    alloc: Global,
    count: usize,
) -> Result<Vec<Lane<B, D, M>>, Memory>
    ensures { IfOk result (λ lanes. lanes.items ≡ []) }
{
    Ok(Vec::with_capacity(alloc, count)?)
}

// Serves by the nodes of a log that was opened.
fn serve_named<B, R, S, D, M, K, G, L>(
    rt: &R,
    alloc: Global,
    keys: RandomState,
    opened: OpenedLog,
    slots: Vec<OpenedSlots>,
    setup: Setup,
    timeout: u64,
    places: Vec<WorkerPorts<D, M>>,
    bells: K,
    main: L,
    gate: &G,
) -> Result<(Served<S, D, M>, L), StartError>
where
    B: ServerName + Send + Sync,
    R: Threads + Wait + Sync,
    S: Stream + Drop + Send,
    D: Poller<S> + Drop + Send,
    M: Moments + Drop + Send,
    K: Rings + Drop + Sync,
    G: Gate + Sync,
    L: Accepts + Drop,
    requires name { name_of opened ≡ B.log }
    requires shape { (nodes_of opened ≡ B.nodes) × (places_of opened ≡ B.places) }
    requires nodes { setup.nodes ≡ B.nodes }
    requires slots { (length slots.items ≡ B.nodes) × AreNamed B.slots slots.items }
    requires workers { AreOfWorkers setup.workers slots.items }
    ensures together { IfOk result (λ served. AreServedTogether S.received S.sent M.gives D.parted served.0.lefts.items served.0.replicas.items) }
    ensures dealt { IfOk result (λ served. HasDealt setup.nodes setup.workers (L.dealt main) (L.dealt served.1)) }
    ensures ended { IfOk result (λ served. HasEnded (setup.nodes * setup.workers) served.0.ended served.0.lefts.items) }
    ensures within { IfOk result (λ served. AreServedWithin (record { limit = setup.queue_limit; timeout = timeout }) served.0.lefts.items) }
    ensures in_place { IfOk result (λ served. IsBeginningOf (places_left served.0.lefts.items) (places_from 0 setup.nodes setup.workers)) }
{
    let crew = SharedHints::new(
        alloc,
        bells,
        setup.nodes(),
        setup.workers(),
        setup.connections(),
    )?;
    let built = build::<B>(alloc, keys, opened, slots, setup)?;
    let log = share_log(&built)?;
    let nodes = share_nodes(alloc, &built)?;
    let lanes = lanes_of(alloc, built, setup, places)?;
    let (ran, main) = run_workers::<B, R, S, D, M, K, G, L>(
        rt,
        alloc,
        lanes,
        nodes,
        &log,
        &crew,
        main,
        gate,
        setup,
        ClientLimits {
            limit: setup.queue_limit(),
            timeout,
        },
    )?;
    Ok((
        Served {
            lefts: ran.lefts,
            replicas: ran.replicas,
            ended: ran.ended,
        },
        main,
    ))
}

// The log that all of these share, of which there is one.
fn share_log<B: ServerName>(
    built: &[Vec<NodeHandle<B>>],
) -> Result<Arc<Oplog<B>, Global>, StartError> {
    let Some(workers) = built.first() else {
        return Err(StartError::BadShape);
    };
    match workers.first() {
        Some(worker) => Ok(worker.shared().share_log()?),
        None => Err(StartError::BadShape),
    }
}

/// The nodes that these workers share, in order.
///
/// # Errors
///
/// `Memory` where memory runs out, `BadShape` where a node has no worker.
pub fn share_nodes<B: ServerName>(
    alloc: Global,
    built: &[Vec<NodeHandle<B>>],
) -> Result<Vec<Arc<Node<B>, Global>>, StartError>
    ensures { IfOk result (λ nodes. vec_len nodes ≡ length built.now) }
{
    let mut nodes = Vec::new(alloc);
    for workers in built {
        let node = share_node(workers)?;
        keep(node, &mut nodes)?;
    }
    Ok(nodes)
}

// The node that these workers share.
fn share_node<B: ServerName>(
    workers: &[NodeHandle<B>],
) -> Result<Arc<Node<B>, Global>, StartError> {
    match workers.first() {
        Some(worker) => Ok(worker.share_node()?),
        None => Err(StartError::BadShape),
    }
}

/// Serves by a new server of this size, a client for `timeout` milliseconds without a byte, 0 for ever, each worker on a thread of its own, which has the place of its number: worker w of node n is number n * workers + w. The
/// connections that come from `main` are dealt out to them as [`run_workers`] says, and it ends as that does. Strangers choose the keys, so the hashers take a seed of
/// their own.
///
/// # Errors
///
/// [`StartError`]'s, before any worker starts.
pub fn serve_nodes<R, S, D, M, K, G, L>(
    rt: &R,
    alloc: Global,
    keys: RandomState,
    setup: Setup,
    timeout: u64,
    places: Vec<WorkerPorts<D, M>>,
    bells: K,
    main: L,
    gate: &G,
) -> Result<(Served<S, D, M>, L), StartError>
where
    R: Threads + Wait + Sync,
    S: Stream + Drop + Send,
    D: Poller<S> + Drop + Send,
    M: Moments + Drop + Send,
    K: Rings + Drop + Sync,
    G: Gate + Sync,
    L: Accepts + Drop,
    ensures together { IfOk result (λ served. AreServedTogether S.received S.sent M.gives D.parted served.0.lefts.items served.0.replicas.items) }
    ensures dealt { IfOk result (λ served. HasDealt setup.nodes setup.workers (L.dealt main) (L.dealt served.1)) }
    ensures ended { IfOk result (λ served. HasEnded (setup.nodes * setup.workers) served.0.ended served.0.lefts.items) }
    ensures within { IfOk result (λ served. AreServedWithin (record { limit = setup.queue_limit; timeout = timeout }) served.0.lefts.items) }
    ensures in_place { IfOk result (λ served. IsBeginningOf (places_left served.0.lefts.items) (places_from 0 setup.nodes setup.workers)) }
{
    let opened = match OpenedLog::open(alloc, setup.nodes(), setup.places()) {
        Ok(opened) => opened,
        Err(BuildError::BadShape) => return Err(StartError::BadShape),
        Err(BuildError::Memory(memory)) => return Err(StartError::Memory(memory)),
    };
    let slots = match open_slots(alloc, setup.nodes(), setup.workers()) {
        Ok(slots) => slots,
        Err(BuildError::BadShape) => return Err(StartError::BadShape),
        Err(BuildError::Memory(memory)) => return Err(StartError::Memory(memory)),
    };
    serve_named::<Brand, R, S, D, M, K, G, L>(
        rt, alloc, keys, opened, slots, setup, timeout, places, bells, main, gate,
    )
}

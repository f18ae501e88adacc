// The workers of a server, each on a thread of its own, beside the thread that deals connections out.
ghost use Rattle.std.specs.Prelude.{◌≡◌, ◌+◌, ◌<◌, ◌≤◌, [], ◌∷◌, ◌++◌, List, IsTrue, IfOk, IfSome, OnOk, map, false};
ghost use Rattle.std.specs.List.{AllByRecursion};
ghost use Rattle.std.specs.Vec.{vec_len, vec_capacity};
ghost use Rattle.nr_model.specs.Bytes.{IsBeginningOf};
ghost use Rattle.nr_taps.specs.Marks.{MarkState};
ghost use Rattle.nr_node.specs.Level.{IsLevel};
ghost use Rattle.nr_node.specs.Sound.{IsSound};
ghost use Rattle.nr_crew.specs.Dealing.{HasDealt};
ghost use Rattle.nr_crew.specs.Ended.{HasEnded, any_device, any_down, ended_of, is_device, is_down, unless_wanted};
ghost use Rattle.nr_crew.specs.Left.{AreServedWithin, IsAnswered};
ghost use Rattle.nr_crew.specs.Places.{place_of, places_left};
ghost use Rattle.nr_crew.specs.Together.{AreAnsweredTogether, AreLeft, AreTakenOut};

use crate::dealing::deal_out;
use crate::lane::{Lane, Leaving, WorkerEnd, WorkerPromise};
use crate::serving::{ClientLimits, serve_lane};
use nr_blob::Memory;
use nr_combiner::{Node, ServerName};
use nr_entry::Setup;
use nr_oplog::{Oplog, Token};
use nr_replica::Replica;
use nr_service::{Accepts, Ended, Gate, Moments, Poller, Rings, Stream};
use nr_taps::{Mark, meet_marks};
use nr_worker::desk_law;
use nr_worker_service::SharedHints;
use std::alloc::Global;
use std::sync::{Arc, Wait};
use std::thread::{self, PromisedHandle, Scope, Threads};

/// Why a server's workers ended before they were to.
#[derive(Clone, Copy, Debug, PartialEq, Eq)]
pub enum ServeError {
    /// Every node is down.
    Down,
    /// Memory ran out for a worker.
    Memory(Memory),
    /// No connection can come any more, or a worker can't wait for those that it has.
    Device,
    /// The system gave no thread: those that had started ended.
    NoThread,
}

/// What the workers left that had started, and why they ended; and the replicas of the nodes, in the order in which those were told, but of a node that somebody else holds still.
/// And the marks: what the node of each worker had done when it last handed something out to it, and behind these how the end of the log of each replica stood.
#[derive(Drop)]
pub struct RanWorkers<B: ServerName, S, D, M> {
    pub marks: Vec<Mark<B>>,
    pub lefts: Vec<WorkerEnd<S, D, M>>,
    pub replicas: Vec<Replica>,
    pub ended: Result<(), ServeError>,
}

// The same without the replicas.
struct Joined<B: ServerName, S, D, M> {
    marks: Vec<Mark<B>>,
    lefts: Vec<WorkerEnd<S, D, M>>,
    ended: Result<(), ServeError>,
}

// Room for all that is made of so many lanes.
struct Room<B: ServerName, S: Stream, D: Poller<S>, M: Moments> {
    handles: Vec<PromisedHandle<Leaving<B, S, D, M>, WorkerPromise>>,
    marks: Vec<Mark<B>>,
    lefts: Vec<WorkerEnd<S, D, M>>,
}

fn room_for<B: ServerName, S: Stream + Drop, D: Poller<S> + Drop, M: Moments + Drop>(
    alloc: Global,
    lanes: usize,
) -> Result<Room<B, S, D, M>, Memory>
    ensures handles { IfOk result (λ room. (room.handles.items ≡ []) × (lanes ≤ vec_capacity room.handles)) }
    ensures marks { IfOk result (λ room. (room.marks.items ≡ []) × (lanes ≤ vec_capacity room.marks)) }
    ensures lefts { IfOk result (λ room. (room.lefts.items ≡ []) × (lanes ≤ vec_capacity room.lefts)) }
{
    Ok(Room {
        handles: Vec::with_capacity(alloc, lanes)?,
        marks: Vec::with_capacity(alloc, lanes)?,
        lefts: Vec::with_capacity(alloc, lanes)?,
    })
}

// Waits for a worker to end, and keeps what it left.
fn join_one<B, R, S, D, M>(
    rt: &R,
    handle: PromisedHandle<Leaving<B, S, D, M>, WorkerPromise>,
    marks: &mut Vec<Mark<B>>,
    lefts: &mut Vec<WorkerEnd<S, D, M>>,
)
where
    B: ServerName,
    R: Threads,
    S: Stream + Drop,
    D: Poller<S> + Drop,
    M: Moments + Drop,
    requires marks { vec_len marks.old < vec_capacity marks.old }
    requires lefts { vec_len lefts.old < vec_capacity lefts.old }
    ensures within { AreServedWithin handle.promise.limits lefts.old.items → AreServedWithin handle.promise.limits lefts.new.items }
    ensures marks { (vec_len marks.new ≡ vec_len marks.old + 1) × (vec_capacity marks.new ≡ vec_capacity marks.old) }
    ensures lefts { (vec_len lefts.new ≡ vec_len lefts.old + 1) × (vec_capacity lefts.new ≡ vec_capacity lefts.old) }
    ensures answered { AreLeft S.received S.sent M.gives D.parted marks.old.items lefts.old.items → AreLeft S.received S.sent M.gives D.parted marks.new.items
        lefts.new.items }
    ensures placed { places_left lefts.new.items ≡ places_left lefts.old.items ++ (handle.promise.node, handle.promise.worker) ∷ [] }
{
    let Leaving { mark, left } = handle.join(rt);
    marks.push_reserved(mark);
    lefts.push_reserved(left);
}

// Waits for all of them to end, and keeps what each left.
fn join_all<B, R, S, D, M>(
    rt: &R,
    handles: Vec<PromisedHandle<Leaving<B, S, D, M>, WorkerPromise>>,
    limits: ClientLimits,
    marks: &mut Vec<Mark<B>>,
    lefts: &mut Vec<WorkerEnd<S, D, M>>,
)
where
    B: ServerName,
    R: Threads,
    S: Stream + Drop,
    D: Poller<S> + Drop,
    M: Moments + Drop,
    requires promised { AllByRecursion (λ handle. handle.promise.limits ≡ limits) handles.items }
    requires marks { (marks.old.items ≡ []) × (vec_len handles ≤ vec_capacity marks.old) }
    requires lefts { (lefts.old.items ≡ []) × (vec_len handles ≤ vec_capacity lefts.old) }
    ensures answered { AreLeft S.received S.sent M.gives D.parted marks.new.items lefts.new.items }
    ensures within { AreServedWithin limits lefts.new.items }
    ensures placed { places_left lefts.new.items ≡ map (λ handle. (handle.promise.node, handle.promise.worker)) handles.items }
    ensures len { vec_len lefts.new ≡ vec_len handles }
{
    for handle in handles {
        join_one(rt, handle, marks, lefts);
    }
}

// Why they ended, once all have.
fn ended_by<S, D, M>(
    lefts: &[WorkerEnd<S, D, M>],
    has_all_threads: bool,
    comes_more: bool,
) -> Result<(), ServeError>
    ensures { result ≡ ended_of has_all_threads comes_more lefts.now }
{
    if !has_all_threads {
        return Err(ServeError::NoThread);
    }
    if !comes_more || any_device(lefts) {
        return Err(ServeError::Device);
    }
    if any_down(lefts) {
        return Err(ServeError::Down);
    }
    unless_wanted(lefts)
}

// Whether one of these ended since its device can't wait any more.
fn any_device<S, D, M>(lefts: &[WorkerEnd<S, D, M>]) -> bool
    ensures { result ≡ any_device lefts.now }
{
    lefts.iter().any(|left| is_device(left.ended))
}

// Whether one of these ended since every node is down.
fn any_down<S, D, M>(lefts: &[WorkerEnd<S, D, M>]) -> bool
    ensures { result ≡ any_down lefts.now }
{
    lefts.iter().any(|left| is_down(left.ended))
}

// Whether it ended since its device can't wait any more.
fn is_device(ended: Ended) -> bool
    ensures { result ≡ is_device ended }
{
    matches!(ended, Ended::Device)
}

// Whether it ended since every node is down.
fn is_down(ended: Ended) -> bool
    ensures { result ≡ is_down ended }
{
    matches!(ended, Ended::Down)
}

// The want of memory for which the first of those ended that did for that.
fn unless_wanted<S, D, M>(lefts: &[WorkerEnd<S, D, M>]) -> Result<(), ServeError>
    ensures { result ≡ unless_wanted lefts.now }
{
    for left in lefts {
        if let Ended::Memory(memory) = left.ended {
            return Err(ServeError::Memory(memory));
        }
    }
    Ok(())
}

// What the threads of all lanes share, and what each of them is told.
#[derive(Drop)]
struct Shared<'e, R, K, G> {
    rt: &'e R,
    alloc: Global,
    crew: &'e SharedHints<K>,
    gate: &'e G,
    limits: ClientLimits,
}

impl<'e, R, K, G> Shared<'e, R, K, G> {
    // The same once more, for one more thread.
    fn share(&self) -> Shared<'e, R, K, G>
        ensures { result.limits ≡ self.now.limits }
    {
        Shared {
            rt: self.rt,
            alloc: self.alloc,
            crew: self.crew,
            gate: self.gate,
            limits: self.limits,
        }
    }
}

// Serves by a lane, on this thread.
fn serve_shared<B, R, S, D, M, K, G>(
    shared: Shared<'_, R, K, G>,
    lane: Lane<B, D, M>,
) -> Leaving<B, S, D, M>
where
    B: ServerName,
    R: Wait,
    S: Stream + Drop,
    D: Poller<S> + Drop,
    M: Moments + Drop,
    K: Rings,
    G: Gate,
    ensures answered { IsAnswered S.received S.sent M.gives (D.parted result.left.device) result.left.node result.left.worker result.left.ended result.mark.standing
        result.left.clients.items }
    ensures limits { result.left.limits ≡ shared.entry.limits }
    ensures node { result.left.node ≡ lane.worker.node }
    ensures worker { result.left.worker ≡ lane.worker.seat.worker }
{
    let Shared {
        rt,
        alloc,
        crew,
        gate,
        limits,
    } = shared;
    serve_lane(rt, alloc, lane, crew, gate, limits)
}

// Starts the thread of a lane, and keeps it. Whether it was started: else all that were are told to stop.
fn start_one<'s, 'e, B, R, S, D, M, K, G>(
    scope: &Scope<'s, &'e ()>,
    shared: &Shared<'e, R, K, G>,
    lane: Lane<B, D, M>,
    handles: &mut Vec<PromisedHandle<Leaving<B, S, D, M>, WorkerPromise>>,
) -> bool
where
    B: ServerName + Send + Sync + 'e,
    R: Threads + Wait + Sync + 'e,
    S: Stream + Drop + Send + 'e,
    D: Poller<S> + Drop + Send + 'e,
    M: Moments + Drop + Send + 'e,
    K: Rings + Sync + 'e,
    G: Gate + Sync + 'e,
    requires { vec_len handles.old < vec_capacity handles.old }
    ensures promised { AllByRecursion (λ handle. handle.promise.limits ≡ shared.now.limits) handles.old.items
        → AllByRecursion (λ handle. handle.promise.limits ≡ shared.now.limits) handles.new.items }
    ensures kept { IsTrue result → vec_len handles.new ≡ vec_len handles.old + 1 }
    ensures placed { IsTrue result → map (λ handle. (handle.promise.node, handle.promise.worker)) handles.new.items
        ≡ map (λ handle. (handle.promise.node, handle.promise.worker)) handles.old.items ++ place_of lane.worker ∷ [] }
    ensures none { result ≡ false → handles.new.items ≡ handles.old.items }
    ensures room { vec_capacity handles.new ≡ vec_capacity handles.old }
{
    shared.crew.begin();
    let share = shared.share();
    let answered = WorkerPromise {
        node: lane.worker.shared().node(),
        worker: lane.worker.number(),
        limits: shared.limits,
    };
    let started = scope.spawn_with(answered, move || serve_shared(share, lane));
    let Ok(handle) = started else {
        shared.crew.end();
        shared.crew.stop();
        return false;
    };
    handles.push_reserved(handle);
    true
}

// Starts a thread for each lane, and keeps them, up to the first that can't be started. Whether all were.
fn start_all<'s, 'e, B, R, S, D, M, K, G>(
    scope: &Scope<'s, &'e ()>,
    shared: &Shared<'e, R, K, G>,
    lanes: Vec<Lane<B, D, M>>,
    handles: &mut Vec<PromisedHandle<Leaving<B, S, D, M>, WorkerPromise>>,
) -> bool
where
    B: ServerName + Send + Sync + 'e,
    R: Threads + Wait + Sync + 'e,
    S: Stream + Drop + Send + 'e,
    D: Poller<S> + Drop + Send + 'e,
    M: Moments + Drop + Send + 'e,
    K: Rings + Sync + 'e,
    G: Gate + Sync + 'e,
    requires { (handles.old.items ≡ []) × (vec_len lanes ≤ vec_capacity handles.old) }
    ensures promised { AllByRecursion (λ handle. handle.promise.limits ≡ shared.now.limits) handles.new.items }
    ensures kept { IsTrue result → vec_len handles.new ≡ vec_len lanes }
    ensures placed { IsBeginningOf (map (λ handle. (handle.promise.node, handle.promise.worker)) handles.new.items) (map (λ lane. place_of lane.worker) lanes.items) }
    ensures len { vec_len handles.new ≤ vec_len lanes }
{
    for lane in lanes {
        if !start_one(scope, shared, lane, handles) {
            return false;
        }
    }
    true
}

// Starts a thread for each lane, deals connections out to them until they have ended or shall end, and waits for all of them. Memory runs out before any starts.
fn run_all<B, R, S, D, M, K, G, L>(
    rt: &R,
    alloc: Global,
    lanes: Vec<Lane<B, D, M>>,
    nodes: &[Arc<Node<B>, Global>],
    crew: &SharedHints<K>,
    main: L,
    gate: &G,
    setup: Setup,
    limits: ClientLimits,
) -> Result<(Joined<B, S, D, M>, L), Memory>
where
    B: ServerName + Send + Sync,
    R: Threads + Wait + Sync,
    S: Stream + Drop + Send,
    D: Poller<S> + Drop + Send,
    M: Moments + Drop + Send,
    K: Rings + Sync,
    G: Gate + Sync,
    L: Accepts + Drop,
    ensures left { IfOk result (λ r. AreLeft S.received S.sent M.gives D.parted r.0.marks.items r.0.lefts.items) }
    ensures dealt { IfOk result (λ r. HasDealt setup.nodes setup.workers (L.dealt main) (L.dealt r.1)) }
    ensures ended { IfOk result (λ r. HasEnded (vec_len lanes) r.0.ended r.0.lefts.items) }
    ensures within { IfOk result (λ r. AreServedWithin limits r.0.lefts.items) }
    ensures placed { IfOk result (λ r. IsBeginningOf (places_left r.0.lefts.items) (map (λ lane. place_of lane.worker) lanes.items)) }
{
    let ClientLimits { limit, timeout } = limits;
    thread::scope(
        thread::scope_env(),
        rt,
        move |scope| -> Result<(Joined<B, S, D, M>, L), Memory>
            ensures left { IfOk result (λ r. AreLeft S.received S.sent M.gives D.parted r.0.marks.items r.0.lefts.items) }
            ensures dealt { IfOk result (λ r. HasDealt setup.nodes setup.workers (L.dealt main) (L.dealt r.1)) }
            ensures ended { IfOk result (λ r. HasEnded (vec_len lanes) r.0.ended r.0.lefts.items) }
            ensures within { IfOk result (λ r. AreServedWithin (record { limit = limit; timeout = timeout }) r.0.lefts.items) }
            ensures placed { IfOk result (λ r. IsBeginningOf (places_left r.0.lefts.items) (map (λ lane. place_of lane.worker) lanes.items)) }
        {
            let room = room_for(alloc, lanes.len())?;
            let Room {
                mut handles,
                mut marks,
                mut lefts,
            } = room;
            let mut main = main;
            let shared = Shared {
                rt,
                alloc,
                crew,
                gate,
                limits: ClientLimits { limit, timeout },
            };
            let has_all_threads = start_all(scope, &shared, lanes, &mut handles);
            let comes_more = deal_out(rt, &mut main, crew, nodes, setup);
            crew.stop();
            crew.ring_all();
            join_all(
                rt,
                handles,
                ClientLimits { limit, timeout },
                &mut marks,
                &mut lefts,
            );
            let ended = ended_by(&lefts, has_all_threads, comes_more);
            Ok((
                Joined {
                    marks,
                    lefts,
                    ended,
                },
                main,
            ))
        },
    )
}

// The replica of a node that nobody else holds any more, with a token that keeps how its end of the log stood.
fn take_out<B: ServerName>(node: Arc<Node<B>, Global>) -> Option<(Replica, Token<B>)>
    ensures { IfSome result (λ left. IsLevel left.1.standing left.0 × IsSound left.1.standing) }
{
    let node = Arc::try_unwrap(node).ok()?;
    node.into_replica()
}

// Room for one more mark and one more replica.
fn make_room<B: ServerName>(
    marks: &mut Vec<Mark<B>>,
    replicas: &mut Vec<Replica>,
) -> Result<(), Memory>
    ensures marks { marks.new.items ≡ marks.old.items }
    ensures replicas { replicas.new.items ≡ replicas.old.items }
    ensures room { OnOk result ((vec_len marks.new < vec_capacity marks.new) × (vec_len replicas.new < vec_capacity replicas.new)) }
{
    marks.reserve(1)?;
    replicas.reserve(1)?;
    Ok(())
}

// Keeps the replica of a node, and how its end of the log stood, where nobody else holds the node and there is room for them.
fn keep_replica<B: ServerName>(
    node: Arc<Node<B>, Global>,
    marks: &mut Vec<Mark<B>>,
    replicas: &mut Vec<Replica>,
)
    ensures { (own : List MarkState) → AreTakenOut own marks.old.items replicas.old.items → AreTakenOut own marks.new.items replicas.new.items }
{
    if make_room(marks, replicas).is_err() {
        return;
    }
    let Some((replica, token)) = take_out(node) else {
        return;
    };
    marks.push_reserved(Mark::of(token));
    replicas.push_reserved(replica);
}

// Keeps the replicas of all these nodes.
fn keep_replicas<B: ServerName>(
    nodes: Vec<Arc<Node<B>, Global>>,
    marks: &mut Vec<Mark<B>>,
    replicas: &mut Vec<Replica>,
)
    requires { replicas.old.items ≡ [] }
    ensures { AreTakenOut marks.old.items marks.new.items replicas.new.items }
{
    for node in nodes {
        keep_replica(node, marks, replicas);
    }
}

/// Serves by these lanes, each on a thread of its own, and deals the connections out to them that come from `main`: connection number x, from 0 on, goes to
/// node x mod nodes, worker (x / nodes) mod workers, or to that worker of the next node that takes it. The lanes stand in the order of their nodes, and of the
/// workers of each: worker w of node n is lane n * workers + w. Each connection is served within these limits. It ends once the gate stopped all workers, every node
/// is down, one of them can't wait any more, no connection can come any more, `main` told to end, and all rest where that is to be in order, or it is
/// told to stop: then all end, and what they left is handed back with `main` and the replicas of these nodes, which are those of the lanes. A node that somebody
/// else holds then keeps its replica. A node that is down meanwhile is brought back with a copy of another's server, as often as `main` says that it is time to.
///
/// # Errors
///
/// `Memory` where memory runs out before any worker starts.
pub fn run_workers<B, R, S, D, M, K, G, L>(
    rt: &R,
    alloc: Global,
    lanes: Vec<Lane<B, D, M>>,
    nodes: Vec<Arc<Node<B>, Global>>,
    log: &Oplog<B>,
    crew: &SharedHints<K>,
    main: L,
    gate: &G,
    setup: Setup,
    limits: ClientLimits,
) -> Result<(RanWorkers<B, S, D, M>, L), Memory>
where
    B: ServerName + Send + Sync,
    R: Threads + Wait + Sync,
    S: Stream + Drop + Send,
    D: Poller<S> + Drop + Send,
    M: Moments + Drop + Send,
    K: Rings + Sync,
    G: Gate + Sync,
    L: Accepts + Drop,
    ensures together { IfOk result (λ ran. AreAnsweredTogether S.received S.sent M.gives D.parted ran.0.marks.items ran.0.lefts.items ran.0.replicas.items) }
    ensures dealt { IfOk result (λ ran. HasDealt setup.nodes setup.workers (L.dealt main) (L.dealt ran.1)) }
    ensures ended { IfOk result (λ ran. HasEnded (vec_len lanes) ran.0.ended ran.0.lefts.items) }
    ensures within { IfOk result (λ ran. AreServedWithin limits ran.0.lefts.items) }
    ensures placed { IfOk result (λ ran. IsBeginningOf (places_left ran.0.lefts.items) (map (λ lane. place_of lane.worker) lanes.items)) }
{
    let ran_all = run_all(rt, alloc, lanes, &nodes, crew, main, gate, setup, limits)?;
    let (joined, main) = ran_all;
    let Joined {
        mut marks,
        lefts,
        ended,
    } = joined;
    let mut replicas = Vec::new(alloc);
    keep_replicas(nodes, &mut marks, &mut replicas);
    meet_marks(log, &mut marks);
    desk_law();
    let ran = RanWorkers {
        marks,
        lefts,
        replicas,
        ended,
    };
    Ok((ran, main))
}

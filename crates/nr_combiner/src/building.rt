// The nodes of a server, over one log.
ghost use Rattle.std.specs.Prelude.{ℕ, ◌≡◌, ◌+◌, ◌<◌, ◌≤◌, [], length, slice_get, replicate, Some, None, IfOk};
ghost use Rattle.std.specs.Arc.{arc_value};
ghost use Rattle.nr_oplog.specs.Rule.{opening_view};
ghost use Rattle.nr_oplog.specs.Opening.{name_of, nodes_of, places_of};
ghost use Rattle.nr_slots.specs.Seats.{new_worker};
ghost use Rattle.nr_combiner.specs.Opened.{AreNamed, AreOfWorkers};
ghost use Rattle.nr_combiner.specs.Served.{HasNoJobs};
ghost use Rattle.nr_combiner.specs.Workers.{fresh_workers, IsNode};

use crate::combiner::Combiner;
use crate::name::ServerName;
use crate::node::Node;
use crate::node_handle::NodeHandle;
use crate::opened::OpenedSlots;
use nr_blob::Memory;
use nr_entry::Setup;
use nr_node::Core;
use nr_oplog::{End, LogSeat, OpenedLog, Oplog};
use nr_slots::WorkerSeat;
use std::alloc::Global;
use std::hash::RandomState;
use std::sync::Arc;

/// The nodes of a log that was opened, with no key and no connection, each with its slots, of a server so large: the workers of each, those of
/// node 0 first. Strangers choose the keys, so the hashers take a seed of their own.
pub fn build<B: ServerName>(
    alloc: Global,
    keys: RandomState,
    opened: OpenedLog,
    slots: Vec<OpenedSlots>,
    setup: Setup,
) -> Result<Vec<Vec<NodeHandle<B>>>, Memory>
    requires name { name_of opened ≡ B.log }
    requires shape { (nodes_of opened ≡ B.nodes) × (places_of opened ≡ B.places) × (setup.nodes ≡ B.nodes) }
    requires slots { (length slots.items ≡ B.nodes) × AreNamed B.slots slots.items }
    requires workers { AreOfWorkers setup.workers slots.items }
    ensures nodes { IfOk result (λ built. length built.items ≡ B.nodes) }
    ensures workers { IfOk result (λ built. (node : ℕ) (workers : _) → slice_get built.items node ≡ Some workers → IsNode setup.workers setup.connections setup.queue_limit node workers.items) }
{
    let (log, seats) = opened.named::<B>(alloc)?;
    let nodes = log.nodes();
    let log = Arc::new(alloc, log)?;
    let mut slots = slots.into_iter();
    let mut built = Vec::with_capacity(alloc, nodes)?;
    for seat in seats {
        let Some(opened) = slots.next() else {
            unreachable!();
        };
        let node = built.len();
        let log = Arc::try_clone(&log)?;
        built.push(build_node(alloc, keys, seat, log, node, opened, setup)?)?;
    }
    Ok(built)
}

// The workers of a node that has done nothing yet.
fn build_node<B: ServerName>(
    alloc: Global,
    keys: RandomState,
    seat: LogSeat<B>,
    log: Arc<Oplog<B>, Global>,
    node: usize,
    slots: OpenedSlots,
    setup: Setup,
) -> Result<Vec<NodeHandle<B>>, Memory>
    requires seat { seat ≡ opening_view B.nodes B.places node (node + 1) }
    requires nodes { (setup.nodes ≡ B.nodes) × (node < B.nodes) }
    requires slots { (slots.id ≡ B.slots node) × (slots.workers ≡ setup.workers) }
    ensures { IfOk result (λ workers. IsNode setup.workers setup.connections setup.queue_limit node workers.items) }
{
    let end = End::new(seat, Arc::try_clone(&log)?);
    let core = Core::new(alloc, keys, end, node, setup)?;
    seat_node(alloc, core, log, node, slots, setup)
}

// Puts a node behind its lock, with slots for its workers.
fn seat_node<B: ServerName>(
    alloc: Global,
    core: Core<B>,
    log: Arc<Oplog<B>, Global>,
    node: usize,
    opened: OpenedSlots,
    setup: Setup,
) -> Result<Vec<NodeHandle<B>>, Memory>
    requires node { core.book.node ≡ node }
    requires owed { core.replica.owed ≡ replicate setup.workers None }
    requires idle { HasNoJobs core }
    requires connections { core.replica.members ≡ [] }
    requires slots { (opened.id ≡ B.slots node) × (opened.workers ≡ setup.workers) }
    ensures { IfOk result (λ workers. IsNode setup.workers setup.connections setup.queue_limit node workers.items) }
{
    let OpenedSlots { slots, seats, desk } = opened;
    let slots = Arc::new(alloc, slots)?;
    let own = Arc::try_clone(&slots)?;
    let combiner = Combiner::new(alloc, node, setup.workers(), core, desk, own)?;
    let node = Node::new(
        node,
        combiner,
        log,
        slots,
        setup.workers(),
        setup.connections(),
        setup.queue_limit(),
    );
    let shared = Arc::new(alloc, node)?;
    workers_of(alloc, &shared, seats)
}

// The workers of a node, one for each seat.
fn workers_of<B: ServerName>(
    alloc: Global,
    shared: &Arc<Node<B>, Global>,
    seats: Vec<WorkerSeat>,
) -> Result<Vec<NodeHandle<B>>, Memory>
    requires seats { (worker : ℕ) → worker < length seats.items → slice_get seats.items worker ≡ Some (new_worker (arc_value shared.now).slots.id worker) }
    requires workers { (length seats.items ≡ (arc_value shared.now).slots.workers) × (length seats.items ≤ 16) }
    ensures { IfOk result (λ workers. workers.items ≡ fresh_workers (arc_value shared.now) 0 (length seats.items)) }
{
    let mut workers = Vec::with_capacity(alloc, seats.len())?;
    for seat in seats {
        let worker = workers.len();
        workers.push(NodeHandle::new(Arc::try_clone(shared)?, worker, seat))?;
    }
    Ok(workers)
}

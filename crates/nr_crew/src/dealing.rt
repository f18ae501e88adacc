// The thread that takes connections deals them out to the workers.
ghost use Rattle.std.specs.Prelude.{◌≡◌, ◌<◌, IfSome};
ghost use Rattle.nr_crew.specs.Dealing.{DealsFrom, DealsOne, HasDealt};

use nr_combiner::{Node, RevivalError, ServerName};
use nr_entry::Setup;
use nr_service::{Accepts, Ends, Revival, Rings, lane_at, node_at};
use nr_worker_service::SharedHints;
use std::alloc::Global;
use std::sync::{Arc, Wait};

// How many connections are dealt out between two waits at most.
const MOST_DEALT: u32 = 64;

/// What knows whether there is room for one more connection of a node.
pub(crate) trait Admission {
    ghost use Rattle.std.specs.Prelude.{ℕ, Bool};

    // What it said as it was asked for room at a node.
    ghost admits: { Self → ℕ → Bool → Type 0 };

    /// Takes room for one more connection of a node, where there is some.
    fn admit(&self, node: usize) -> bool
        ensures { admits self.now node result };
}

impl<K: Rings> Admission for SharedHints<K> {
    ghost admits = { λ _ _ _. Unit {0} };

    fn admit(&self, node: usize) -> bool {
        SharedHints::admit(self, node)
    }
}

// Deals one out that is held, which was taken as this number, to the worker of its number at the node of its number, or at the next node that takes it. Where none
// does it is turned away.
fn deal_one<L: Accepts, C: Admission>(main: &mut L, rooms: &C, setup: Setup, number: u64)
    ensures { DealsOne setup.nodes setup.workers number (C.admits rooms.now) (L.dealt main.old) (L.dealt main.new) }
{
    for passed in 0..setup.nodes() {
        let node = node_at(setup, number, passed);
        if rooms.admit(node) {
            main.deal(lane_at(setup, number, node));
            return;
        }
    }
    main.turn_away();
}

// Deals those out that wait to be taken, at most 64, from this number on. The next number.
fn deal_waiting<L: Accepts, K: Rings>(
    main: &mut L,
    crew: &SharedHints<K>,
    setup: Setup,
    number: u64,
) -> u64
    ensures { DealsFrom setup.nodes setup.workers number result (L.dealt main.old) (L.dealt main.new) }
{
    let mut number = number;
    for _ in 0..MOST_DEALT {
        if !main.accept() {
            break;
        }
        deal_one(main, crew, setup, number);
        number = number.wrapping_add(1);
    }
    number
}

// A node refuses the next entry that it applies, where it is to.
fn refuse_one<B: ServerName, R: Wait, L: Accepts>(
    rt: &R,
    main: &mut L,
    nodes: &[Arc<Node<B>, Global>],
    node: usize,
)
    ensures { L.dealt main.new ≡ L.dealt main.old }
{
    if !main.refuses(node) {
        return;
    }
    if let Some(shared) = nodes.get(node) {
        shared.refuse(rt);
    }
}

// So do all that are to.
fn refuse_each<B: ServerName, R: Wait, L: Accepts>(
    rt: &R,
    main: &mut L,
    nodes: &[Arc<Node<B>, Global>],
)
    ensures { L.dealt main.new ≡ L.dealt main.old }
{
    for node in 0..nodes.len() {
        refuse_one(rt, main, nodes, node);
    }
}

// Tells of a node, where it is down and it didn't hear of that yet.
fn tell_of_fall<L: Accepts, K: Rings>(main: &mut L, crew: &SharedHints<K>, node: usize)
    ensures { L.dealt main.new ≡ L.dealt main.old }
{
    let Some(connections) = crew.take_fall(node) else {
        return;
    };
    main.hear_of_fall(node, connections);
}

// The next node behind one that isn't known to be down.
fn next_up<K: Rings>(crew: &SharedHints<K>, setup: Setup, node: usize) -> Option<usize>
    requires { node < setup.nodes }
    ensures { IfSome result (λ other. other < setup.nodes) }
{
    for passed in 1..setup.nodes() {
        let other = node_at(setup, node as u64, passed);
        if !crew.is_down(other) {
            return Some(other);
        }
    }
    None
}

// Tries to bring a node back, from the next that is up. What came of it; nothing where it isn't down.
fn revive_from_next<B: ServerName, R: Wait, K: Rings>(
    rt: &R,
    crew: &SharedHints<K>,
    nodes: &[Arc<Node<B>, Global>],
    setup: Setup,
    node: usize,
) -> Result<u64, RevivalError>
    requires { node < setup.nodes }
{
    let Some(other) = next_up(crew, setup, node) else {
        return Err(RevivalError::DonorDown);
    };
    match (nodes.get(node), nodes.get(other)) {
        (Some(fallen), Some(donor)) => fallen.revive(rt, donor),
        _ => Err(RevivalError::Elsewhere),
    }
}

// Tells what became of a try, but where the node isn't down.
fn tell_of_revival<L: Accepts>(main: &mut L, node: usize, revived: Result<u64, RevivalError>)
    ensures { L.dealt main.new ≡ L.dealt main.old }
{
    match revived {
        Ok(keys) => main.hear_of_revival(node, Revival::Back(keys)),
        Err(RevivalError::Memory(memory)) => {
            main.hear_of_revival(node, Revival::Memory(memory));
        }
        Err(RevivalError::NotDown) => {}
        Err(_) => main.hear_of_revival(node, Revival::NotYet),
    }
}

// Tries to bring a node back whose fall was told, where another one is up and it is time to. None is brought back once all shall end in order: what a turn of its donor puts into the
// log then, nobody is told of.
fn revive_in_time<B: ServerName, R: Wait, L: Accepts, K: Rings>(
    rt: &R,
    main: &mut L,
    crew: &SharedHints<K>,
    nodes: &[Arc<Node<B>, Global>],
    setup: Setup,
    node: usize,
)
    requires { node < setup.nodes }
    ensures { L.dealt main.new ≡ L.dealt main.old }
{
    if !crew.is_known_down(node) || crew.are_down() || crew.is_ending() {
        return;
    }
    if !main.is_time_to_revive(node) {
        return;
    }
    refuse_each(rt, main, nodes);
    crew.begin_to_revive();
    let revived = revive_from_next(rt, crew, nodes, setup, node);
    if matches!(revived, Ok(_) | Err(RevivalError::NotDown)) {
        crew.rise(node);
    }
    crew.end_reviving();
    tell_of_revival(main, node, revived);
}

// Tells of the nodes that are down, of which it didn't hear yet, and tries to bring them back.
fn hear_of_falls<B: ServerName, R: Wait, L: Accepts, K: Rings>(
    rt: &R,
    main: &mut L,
    crew: &SharedHints<K>,
    nodes: &[Arc<Node<B>, Global>],
    setup: Setup,
)
    ensures { L.dealt main.new ≡ L.dealt main.old }
{
    refuse_each(rt, main, nodes);
    for node in 0..setup.nodes() {
        tell_of_fall(main, crew, node);
        revive_in_time(rt, main, crew, nodes, setup, node);
    }
}

// Whether all end now: at once where that was told, and where they end in order once each rests.
fn is_over<L: Accepts, K: Rings>(main: &mut L, crew: &SharedHints<K>) -> bool
    ensures { L.dealt main.new ≡ L.dealt main.old }
{
    match main.ending() {
        Ends::Not => false,
        Ends::AtOnce => true,
        Ends::InOrder => {
            crew.end_in_order();
            crew.are_at_rest()
        }
    }
}

// Waits, and hears what there is. None where it goes on; else whether connections could come yet.
fn wait_once<B: ServerName, R: Wait, L: Accepts, K: Rings>(
    rt: &R,
    main: &mut L,
    crew: &SharedHints<K>,
    nodes: &[Arc<Node<B>, Global>],
    setup: Setup,
) -> Option<bool>
    ensures { L.dealt main.new ≡ L.dealt main.old }
{
    let can_come = main.wait();
    hear_of_falls(rt, main, crew, nodes, setup);
    if !can_come {
        return Some(false);
    }
    if is_over(main, crew) {
        return Some(true);
    }
    None
}

// Deals connections out from number 0 on, as [`deal_out`] does, once that was told.
fn deal_on<B: ServerName, R: Wait, L: Accepts, K: Rings>(
    rt: &R,
    main: &mut L,
    crew: &SharedHints<K>,
    nodes: &[Arc<Node<B>, Global>],
    setup: Setup,
) -> bool
    ensures { HasDealt setup.nodes setup.workers (L.dealt main.old) (L.dealt main.new) }
{
    let mut number = 0;
    for _ in 0..u64::MAX {
        if crew.is_stopped() || crew.serving() == 0 {
            return true;
        }
        number = deal_waiting(main, crew, setup, number);
        if let Some(can_come) = wait_once(rt, main, crew, nodes, setup) {
            return can_come;
        }
    }
    true
}

/// Deals connections out until all shall stop, nobody serves any more, all were told to end and rest or shall do so at once, or none can come any more. False where
/// none can, or where whoever is to hear that all serve can't be told. A node of these that is down is brought back once it is time to.
pub(crate) fn deal_out<B: ServerName, R: Wait, L: Accepts, K: Rings>(
    rt: &R,
    main: &mut L,
    crew: &SharedHints<K>,
    nodes: &[Arc<Node<B>, Global>],
    setup: Setup,
) -> bool
    ensures { HasDealt setup.nodes setup.workers (L.dealt main.old) (L.dealt main.new) }
{
    if crew.is_stopped() {
        return true;
    }
    if !main.begin() {
        return false;
    }
    refuse_each(rt, main, nodes);
    deal_on(rt, main, crew, nodes, setup)
}

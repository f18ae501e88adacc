// A server of several nodes in one value: the nodes, and the log between them.
ghost use Rattle.std.specs.Prelude.{◌≡◌, Some, IfOk, map, replicate};
ghost use Rattle.nr_model.specs.Nodes as nodes;
ghost use Rattle.nr_world.specs.Served.{node_seen};
ghost use Rattle.nr_world.specs.Whole.{AreWhole};
ghost use Rattle.nr_world.specs.WorldState.{Shows};

use crate::log::Log;
use crate::node::WorldNode;
use nr_blob::Memory;
use nr_entry::Setup;
use std::alloc::Global;
use std::hash::RandomState;
use std::marker::Model;

/// A server of several nodes, which takes one step at a time. Once memory ran out it has failed, and refuses every step from then on.
#[derive(Drop)]
pub struct World {
    pub(crate) alloc: Global,
    pub(crate) setup: Setup,
    pub(crate) nodes: Vec<WorldNode>,
    pub(crate) log: Log,
    // Why it failed, once it has.
    pub(crate) failed: Option<Memory>,
}

impl Model for World {
    ghost use Rattle.std.specs.Prelude.{◌≡◌, false, is_some};
    ghost use Rattle.nr_world.specs.WorldState.{WorldState, coded_world};
    ghost use Rattle.nr_world.specs.Whole.{IsHeld};

    ghost Value = { WorldState };

    ghost coded = { coded_world };

    ghost view = { λ w. record { setup = w.setup; nodes = w.nodes.items; log = w.log; failed = is_some w.failed } };

    ghost invariant = { λ w. is_some w.failed ≡ false → IsHeld (record { setup = w.setup; nodes = w.nodes.items; log = w.log; failed = is_some w.failed }) };
}

// So many nodes with nothing to do.
fn fresh_nodes(alloc: Global, keys: RandomState, setup: Setup) -> Result<Vec<WorldNode>, Memory>
    ensures seen { IfOk result (λ made. map node_seen made.items ≡ replicate setup.nodes (nodes.fresh_node setup)) }
    ensures whole { IfOk result (λ made. AreWhole 0 made.items) }
{
    let mut nodes = Vec::with_capacity(alloc, setup.nodes())?;
    for node in 0..setup.nodes() {
        nodes.push(WorldNode::new(alloc, keys, node, setup)?)?;
    }
    Ok(nodes)
}

/// A world fails for want of memory: it keeps the cause, and hands it back.
pub(crate) fn fail(failed: &mut Option<Memory>, memory: Memory) -> Memory
    ensures kept { failed.new ≡ Some memory }
    ensures cause { result ≡ memory }
{
    *failed = Some(memory);
    memory
}

impl World {
    /// No connection and no key. Strangers choose the keys, so the hashers take a seed of their own.
    #[tactic(auto, using(crate::proofs::Fresh::fresh_held, crate::proofs::Fresh::fresh_shown))]
    pub fn new(alloc: Global, keys: RandomState, setup: Setup) -> Result<World, Memory>
        ensures setup { IfOk result (λ world. world.setup ≡ setup) }
        ensures fresh { IfOk result (λ world. Shows world (nodes.fresh setup)) }
    {
        let nodes = fresh_nodes(alloc, keys, setup)?;
        Ok(World {
            alloc,
            setup,
            nodes,
            log: Log::new(alloc),
            failed: None,
        })
    }

    /// How large it is.
    pub fn setup(&self) -> Setup
        ensures { result ≡ self.now.setup }
    {
        self.setup
    }
}

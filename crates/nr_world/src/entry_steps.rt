// Entries of the log: a node reserves one and fills its cells, and each node fetches them in turn.
ghost use Rattle.std.specs.Prelude.{◌≡◌, ◌<◌, ◌≤◌, ◌+◌, ◌^◌, ◌++◌, ◌∷◌, [], ◌&&◌, ◌==◌, ℕ, true, false, not, nat_lt, length, slice_index_or, IfOk, IfNone, OnOk, OnErr, IsErr, List};
ghost use Rattle.std.specs.List.{list_all};
ghost use Rattle.nr_model.specs.Entries.{entry_jobs};
ghost use Rattle.nr_model.specs.Nodes as nodes;
ghost use Rattle.nr_model.specs.Nodes.Steps as steps;
ghost use Rattle.nr_model.specs.Nodes.Pasts.{Event, IsPast};
ghost use Rattle.nr_entry.specs.Waiting.{has_some};
ghost use Rattle.nr_world.specs.Seen.{outcome_seen};
ghost use Rattle.nr_world.specs.Served.{node_seen, reserved_node};
ghost use Rattle.nr_world.specs.Logs.{log_seen};
ghost use Rattle.nr_world.specs.Taken.{Steps, idle_or};
ghost use Rattle.nr_world.specs.Whole.{IsWhole};
ghost use Rattle.nr_world.specs.WorldState.{Shows};

use crate::log::Log;
use crate::node::WorldNode;
use crate::step::StepOutcome;
use crate::world::{World, fail};
use nr_blob::Memory;
use nr_model::reason::Reason;
use std::alloc::Global;

impl World {
    /// A node reserves an entry of the log for the updates that lead, at most 1,024 of them.
    pub fn reserve(&mut self, node: usize) -> Result<StepOutcome, Memory>
        ensures taken { IfOk result (λ outcome. Steps self.old self.new (steps.Reserve node) (outcome_seen outcome)) }
        ensures failed { OnErr result (self.new.failed ≡ true) }
        ensures setup { self.new.setup ≡ self.old.setup }
        ensures repeats { self.old.failed ≡ true → IsErr result }
    {
        if let Some(memory) = self.failed {
            return Err(memory);
        }
        if let Some(reason) = self.why_not_reserve(node) {
            return Ok(StepOutcome::Idle(reason));
        }
        match reserve_next(self.alloc, &mut self.nodes[node], &mut self.log) {
            Ok(()) => Ok(StepOutcome::Done),
            Err(memory) => Err(fail(&mut self.failed, memory)),
        }
    }

    fn why_not_reserve(&self, number: usize) -> Option<Reason>
        requires still { self.now.failed ≡ false }
        ensures reason { (world : nodes.World) → Shows self.now world → steps.outcome self.now.setup world (steps.Reserve number) ≡ idle_or result steps.Done }
        ensures there { IfNone result (number < length self.now.nodes) }
        ensures leads { (d : WorldNode) → IfNone result (has_some (entry_jobs (node_seen (slice_index_or self.now.nodes number d)).waiting) ≡ true) }
    {
        if number >= self.setup.nodes() {
            return Some(Reason::NoSuch);
        }
        let node = &self.nodes[number];
        if node.replica.is_down() {
            return Some(Reason::Down);
        }
        if node.is_filling() {
            return Some(Reason::Busy);
        }
        if !node.replica.leads_update() {
            return Some(Reason::Nothing);
        }
        if !self.has_place() {
            return Some(Reason::Full);
        }
        None
    }

    // Whether the next entry finds a place that every node has passed.
    fn has_place(&self) -> bool
        requires still { self.now.failed ≡ false }
        ensures { (world : nodes.World) → Shows self.now world → result ≡ steps.has_place self.now.setup world }
    {
        all_leave_place(&self.nodes, self.log.tail(), self.setup.places() as u64)
    }

    /// A node fills another node's cell of the entry that it reserved.
    pub fn fill(&mut self, node: usize, other: usize) -> Result<StepOutcome, Memory>
        ensures taken { IfOk result (λ outcome. Steps self.old self.new (steps.Fill node other) (outcome_seen outcome)) }
        ensures failed { OnErr result (self.new.failed ≡ true) }
        ensures setup { self.new.setup ≡ self.old.setup }
        ensures repeats { self.old.failed ≡ true → IsErr result }
    {
        if let Some(memory) = self.failed {
            return Err(memory);
        }
        if let Some(reason) = self.why_not_fill(node, other) {
            return Ok(StepOutcome::Idle(reason));
        }
        self.nodes[node].fill(other);
        Ok(StepOutcome::Done)
    }

    fn why_not_fill(&self, node: usize, other: usize) -> Option<Reason>
        requires still { self.now.failed ≡ false }
        ensures reason { (world : nodes.World) → Shows self.now world → steps.outcome self.now.setup world (steps.Fill node other) ≡ idle_or result steps.Done }
        ensures there { IfNone result (node < length self.now.nodes) }
        ensures cell { (d : WorldNode) → IfNone result (other < length (slice_index_or self.now.nodes node d).unfilled.items) }
    {
        if node >= self.setup.nodes() || other >= self.setup.nodes() {
            return Some(Reason::NoSuch);
        }
        if !self.nodes[node].unfilled[other] {
            return Some(Reason::Nothing);
        }
        None
    }

    /// A node fetches its next entry.
    pub fn fetch(&mut self, node: usize) -> Result<StepOutcome, Memory>
        ensures taken { IfOk result (λ outcome. Steps self.old self.new (steps.Fetch node) (outcome_seen outcome)) }
        ensures failed { OnErr result (self.new.failed ≡ true) }
        ensures setup { self.new.setup ≡ self.old.setup }
        ensures repeats { self.old.failed ≡ true → IsErr result }
    {
        if let Some(memory) = self.failed {
            return Err(memory);
        }
        if let Some(reason) = self.why_not_fetch(node) {
            return Ok(StepOutcome::Idle(reason));
        }
        self.nodes[node].fetch();
        Ok(StepOutcome::Done)
    }

    fn why_not_fetch(&self, number: usize) -> Option<Reason>
        requires still { self.now.failed ≡ false }
        ensures reason { (events : List Event) (world : nodes.World) → IsPast self.now.setup events world → Shows self.now world → steps.outcome self.now.setup world (steps.Fetch number) ≡ idle_or result steps.Done }
        ensures there { IfNone result (number < length self.now.nodes) }
    {
        if number >= self.setup.nodes() {
            return Some(Reason::NoSuch);
        }
        let node = &self.nodes[number];
        if node.is_fetched {
            return Some(Reason::Busy);
        }
        if node.passed == self.log.tail() {
            return Some(Reason::Nothing);
        }
        if !self.is_filled(number, node.passed) {
            return Some(Reason::NotYet);
        }
        None
    }

    /// Whether a node's cell of an entry is filled.
    pub(crate) fn is_filled(&self, node: usize, number: u64) -> bool
        requires still { self.now.failed ≡ false }
        requires there { node < length self.now.nodes }
        requires base { self.now.log.base ≤ number }
        requires tail { number < self.now.log.base + length (log_seen self.now.log) }
        ensures { (events : List Event) (world : nodes.World) → IsPast self.now.setup events world → Shows self.now world → result ≡ steps.is_filled world node number }
    {
        let owner = self.log.entry(number).node;
        is_filled_by(&self.nodes[owner], node, number)
    }
}

// A node reserves the next entry, for the updates that lead. Entries have 2^64 - 1 numbers: behind the last of them memory has run out.
fn reserve_next(alloc: Global, node: &mut WorldNode, log: &mut Log) -> Result<(), Memory>
    requires fits { log.old.base + length (log_seen log.old) < 2 ^ 64 }
    requires leads { has_some (entry_jobs (node_seen node.old).waiting) ≡ true }
    ensures reserved { OnOk result (node_seen node.new
        ≡ reserved_node (length node.old.unfilled.items) (log.old.base + length (log_seen log.old)) (node_seen node.old)) }
    ensures entry { OnOk result (log_seen log.new
        ≡ log_seen log.old ++ record { node = node.old.replica.node; jobs = entry_jobs (node_seen node.old).waiting } ∷ []) }
    ensures base { log.new.base ≡ log.old.base }
    ensures fits { OnOk result (log.new.base + length (log_seen log.new) < 2 ^ 64) }
    ensures whole { (n : ℕ) → IsWhole n node.old → OnOk result (IsWhole n node.new) }
{
    let tail = log.tail();
    if let Some(memory) = Memory::at_last(tail) {
        return Err(memory);
    }
    let entry = node.reserve(tail)?;
    log.push(alloc, entry)?;
    Ok(())
}

// Whether a node's cell of an entry that this one reserved is filled.
fn is_filled_by(by: &WorldNode, node: usize, number: u64) -> bool
    requires { node < length by.now.unfilled.items }
    ensures { result ≡ not (by.now.at == number && slice_index_or by.now.unfilled.items node false) }
{
    !(by.at == number && by.unfilled[node])
}

// Whether an entry at the tail finds a place that a node has passed.
fn leaves_place(passed: u64, tail: u64, places: u64) -> bool
    ensures { result ≡ nat_lt tail (passed + places) }
{
    tail < passed || tail - passed < places
}

// Whether it finds one that each of these has passed.
fn all_leave_place(nodes: &[WorldNode], tail: u64, places: u64) -> bool
    ensures { result ≡ list_all (λ node. nat_lt tail (node.passed + places)) nodes.now }
{
    nodes
        .iter()
        .all(|node| leaves_place(node.passed, tail, places))
}

// What happens to connections: they are opened, fed and closed.
ghost use Rattle.std.specs.Prelude.{◌≡◌, ℕ, true, IfOk, OnErr, IsErr, length};
ghost use Rattle.nr_model.specs.Bytes.{Bytes};
ghost use Rattle.nr_model.specs.Connections as traffic;
ghost use Rattle.nr_model.specs.Nodes.{node_at};
ghost use Rattle.nr_model.specs.Nodes.Steps as steps;
ghost use Rattle.nr_entry.specs.Jobs.{connection_of};
ghost use Rattle.nr_world.specs.Seen.{outcome_seen};
ghost use Rattle.nr_world.specs.Connected.{seen_world};
ghost use Rattle.nr_world.specs.Standing.{has_ended};
ghost use Rattle.nr_world.specs.Taken.{idle_or, Steps};
ghost use Rattle.nr_world.specs.Whole.{AreWhole};

use crate::node::WorldNode;
use crate::step::StepOutcome;
use crate::world::{World, fail};
use nr_blob::Memory;
use nr_entry::{ConnId, Setup};
use nr_model::reason::Reason;

impl World {
    /// Opens a connection at a worker of a node. Logarithmic in the node's open connections. Where memory runs out the world has failed, here and in
    /// every step.
    pub fn open(&mut self, node: usize, worker: usize) -> Result<StepOutcome, Memory>
        ensures taken { IfOk result (λ outcome. Steps self.old self.new (steps.Open node worker) (outcome_seen outcome)) }
        ensures failed { OnErr result (self.new.failed ≡ true) }
        ensures setup { self.new.setup ≡ self.old.setup }
        ensures repeats { self.old.failed ≡ true → IsErr result }
    {
        if let Some(memory) = self.failed {
            return Err(memory);
        }
        if let Some(reason) = why_not_open(self.setup, &self.nodes, node, worker) {
            return Ok(StepOutcome::Idle(reason));
        }
        match self.nodes[node].open(self.alloc, worker, self.setup.queue_limit()) {
            Ok(conn) => Ok(StepOutcome::Opened(conn)),
            Err(memory) => Err(fail(&mut self.failed, memory)),
        }
    }

    /// Feeds bytes to a connection, at a moment in milliseconds. Linear in the bytes and the jobs that they ask for, logarithmic in the node's open
    /// connections.
    pub fn feed(&mut self, conn: ConnId, moment: u64, bytes: &[u8]) -> Result<StepOutcome, Memory>
        ensures taken { IfOk result (λ outcome. Steps self.old self.new (steps.Feed (connection_of conn) moment bytes.now) (outcome_seen outcome)) }
        ensures failed { OnErr result (self.new.failed ≡ true) }
        ensures setup { self.new.setup ≡ self.old.setup }
        ensures repeats { self.old.failed ≡ true → IsErr result }
    {
        if let Some(memory) = self.failed {
            return Err(memory);
        }
        if let Some(reason) = why_not_feed(&self.nodes, conn) {
            return Ok(StepOutcome::Idle(reason));
        }
        match self.nodes[conn.node].feed(conn, moment, bytes) {
            Ok(()) => Ok(StepOutcome::Done),
            Err(memory) => Err(fail(&mut self.failed, memory)),
        }
    }

    /// Closes a connection, at a moment in milliseconds. Linear in the jobs that its worker hasn't posted, and in the worker's connections
    /// that aren't closed.
    pub fn close(&mut self, conn: ConnId, moment: u64) -> Result<StepOutcome, Memory>
        ensures taken { IfOk result (λ outcome. Steps self.old self.new (steps.Close (connection_of conn) moment) (outcome_seen outcome)) }
        ensures failed { OnErr result (self.new.failed ≡ true) }
        ensures setup { self.new.setup ≡ self.old.setup }
        ensures repeats { self.old.failed ≡ true → IsErr result }
    {
        if let Some(memory) = self.failed {
            return Err(memory);
        }
        if let Some(reason) = why_not_close(&self.nodes, conn) {
            return Ok(StepOutcome::Idle(reason));
        }
        match self.nodes[conn.node].close(conn, moment) {
            Ok(()) => Ok(StepOutcome::Done),
            Err(memory) => Err(fail(&mut self.failed, memory)),
        }
    }
}

// Why a connection can't be opened.
fn why_not_open(setup: Setup, nodes: &[WorldNode], node: usize, worker: usize) -> Option<Reason>
    requires sized { length nodes.now ≡ setup.nodes }
    requires whole { AreWhole 0 nodes.now }
    ensures { steps.outcome setup (seen_world nodes.now) (steps.Open node worker)
        ≡ idle_or result (steps.Opened (record { node = node; serial = length (node_at node (seen_world nodes.now)).clients })) }
{
    if node >= setup.nodes() {
        return Some(Reason::NoSuch);
    }
    if worker >= setup.workers() {
        return Some(Reason::NoSuch);
    }
    let at = &nodes[node];
    if at.in_use >= setup.connections() {
        return Some(Reason::TooMany);
    }
    if at.replica.is_down() {
        return Some(Reason::Down);
    }
    None
}

fn is_there(nodes: &[WorldNode], conn: ConnId) -> bool
    requires whole { AreWhole 0 nodes.now }
    ensures { result ≡ steps.is_client (seen_world nodes.now) (connection_of conn) }
{
    if conn.node >= nodes.len() {
        return false;
    }
    conn.serial < nodes[conn.node].sessions.len() as u64
}

/// Whether a connection takes no more bytes.
pub(crate) fn has_ended_in(nodes: &[WorldNode], conn: ConnId) -> bool
    requires whole { AreWhole 0 nodes.now }
    ensures { result ≡ has_ended (seen_world nodes.now) (connection_of conn) }
{
    if !is_there(nodes, conn) {
        return true;
    }
    nodes[conn.node].has_ended(conn.serial as usize)
}

// Why a connection can't be fed.
fn why_not_feed(nodes: &[WorldNode], conn: ConnId) -> Option<Reason>
    requires whole { AreWhole 0 nodes.now }
    ensures { (setup : traffic.Setup) → (time : ℕ) → (bytes : Bytes)
        → steps.outcome setup (seen_world nodes.now) (steps.Feed (connection_of conn) time bytes) ≡ idle_or result steps.Done }
{
    if !is_there(nodes, conn) {
        return Some(Reason::NoSuch);
    }
    let node = &nodes[conn.node];
    if node.is_over(conn.serial as usize) {
        return Some(Reason::Ended);
    }
    if node.replica.is_down() {
        return Some(Reason::Down);
    }
    if node.is_cut(conn.serial as usize) {
        return Some(Reason::Ended);
    }
    None
}

// Why a connection can't be closed.
fn why_not_close(nodes: &[WorldNode], conn: ConnId) -> Option<Reason>
    requires whole { AreWhole 0 nodes.now }
    ensures { (setup : traffic.Setup) → (time : ℕ)
        → steps.outcome setup (seen_world nodes.now) (steps.Close (connection_of conn) time) ≡ idle_or result steps.Done }
{
    if !is_there(nodes, conn) {
        return Some(Reason::NoSuch);
    }
    let node = &nodes[conn.node];
    if node.is_closed(conn.serial as usize) {
        return Some(Reason::Ended);
    }
    if node.replica.is_down() {
        return Some(Reason::Down);
    }
    None
}

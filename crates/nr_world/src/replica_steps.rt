// A node replays the log: it applies the entry that it fetched, or catches up with all entries and runs its reads.
ghost use Rattle.std.specs.Prelude.{◌≡◌, ◌+◌, ◌-◌, ◌<◌, ◌≤◌, ◌^◌, true, false, length, drop, List, IfOk, OnOk, OnErr, IsErr};
ghost use Rattle.nr_model.specs.Nodes as nodes;
ghost use Rattle.nr_model.specs.Nodes.Steps as steps;
ghost use Rattle.nr_model.specs.Nodes.Pasts.{Event, IsPast};
ghost use Rattle.nr_world.specs.Logs.{log_seen};
ghost use Rattle.nr_world.specs.Served.{node_seen};
ghost use Rattle.nr_world.specs.Whole.{IsWhole};
ghost use Rattle.nr_world.specs.WorldState.{Shows};
ghost use Rattle.nr_world.specs.Replayed.{IsWithin, IsNext, IsAhead, HasLooked, HavePassed, LetsGo, least_of};
ghost use Rattle.nr_world.specs.Batches.{ComesTo};
ghost use Rattle.nr_world.specs.Seen.{outcome_seen};
ghost use Rattle.nr_world.specs.Taken.{Steps, idle_or};

use crate::log::Log;
use crate::node::WorldNode;
use crate::step::StepOutcome;
use crate::world::{World, fail};
use nr_blob::Memory;
use nr_model::reason::Reason;

// A node applies its next entry, and passes it.
fn apply_next(node: &mut WorldNode, log: &Log)
    requires within { IsWithin log.now node.old }
    requires more { node.old.passed < log.now.base + length (log_seen log.now) }
    ensures next { (all : List nodes.Logged) → log_seen log.now ≡ drop log.now.base all → IsNext node.old.replica.node all (node_seen node.old) (node_seen node.new) }
    ensures within { IsWithin log.now node.new }
    ensures number { node.new.replica.node ≡ node.old.replica.node }
    ensures passed { node.new.passed ≡ node.old.passed + 1 }
{
    node.apply(log.entry(node.passed));
}

// A node applies all entries that were reserved.
fn catch_up(node: &mut WorldNode, log: &Log)
    requires { IsWithin log.now node.old }
    ensures ahead { (all : List nodes.Logged) → log_seen log.now ≡ drop log.now.base all → IsAhead node.old.replica.node (log.now.base + length (log_seen log.now) - node.old.passed) all (node_seen node.old) (node_seen node.new) }
    ensures within { IsWithin log.now node.new }
    ensures number { node.new.replica.node ≡ node.old.replica.node }
{
    for _ in node.passed..log.tail() {
        apply_next(node, log);
    }
}

// It runs the reads that lead behind them, unless it is down.
fn read_at_tail(node: &mut WorldNode, log: &Log) -> Result<(), Memory>
    requires { IsWithin log.now node.old }
    ensures looked { (all : List nodes.Logged) → log_seen log.now ≡ drop log.now.base all → OnOk result (HasLooked node.old.replica.node (log.now.base + length (log_seen log.now)) all (node_seen node.old) (node_seen node.new)) }
    ensures whole { OnOk result (IsWhole node.old.replica.node node.new) }
    ensures passed { OnOk result (log.now.base ≤ node.new.passed) }
{
    catch_up(node, log);
    if node.replica.is_down() {
        return Ok(());
    }
    node.run_reads()?;
    Ok(())
}

// How many entries each node has passed, at most so many.
fn least_passed(nodes: &[WorldNode], most: u64) -> u64
    ensures { result ≡ least_of most nodes.now }
{
    let mut least = most;
    for node in nodes {
        least = least.min(node.passed);
    }
    least
}

// Lets go of the entries that every node has passed.
fn let_go(nodes: &[WorldNode], log: &mut Log)
    requires passed { HavePassed log.old.base nodes.now }
    requires fits { log.old.base + length (log_seen log.old) < 2 ^ 64 }
    ensures base { log.new.base ≡ least_of (log.old.base + length (log_seen log.old)) nodes.now }
    ensures entries { log_seen log.new ≡ drop (log.new.base - log.old.base) (log_seen log.old) }
{
    let tail = log.tail();
    log.pass(least_passed(nodes, tail));
}

impl World {
    /// A node applies the entry that it fetched, and passes it. Linear in the entry's jobs and the nodes.
    pub fn apply(&mut self, node: usize) -> Result<StepOutcome, Memory>
        ensures taken { IfOk result (λ outcome. Steps self.old self.new (steps.Apply node) (outcome_seen outcome)) }
        ensures lets_go { IfOk result (λ outcome. outcome_seen outcome ≡ steps.Done → LetsGo self.old self.new) }
        ensures failed { OnErr result (self.new.failed ≡ true) }
        ensures setup { self.new.setup ≡ self.old.setup }
        ensures repeats { self.old.failed ≡ true → IsErr result }
    {
        if let Some(memory) = self.failed {
            return Err(memory);
        }
        if let Some(reason) = self.why_not_apply(node) {
            return Ok(StepOutcome::Idle(reason));
        }
        apply_next(&mut self.nodes[node], &self.log);
        let_go(&self.nodes, &mut self.log);
        Ok(StepOutcome::Done)
    }

    fn why_not_apply(&self, node: usize) -> Option<Reason>
        requires { self.now.failed ≡ false }
        ensures { ComesTo self.now (steps.Apply node) (idle_or result steps.Done) }
    {
        if node >= self.setup.nodes() {
            return Some(Reason::NoSuch);
        }
        if !self.nodes[node].is_fetched {
            return Some(Reason::Nothing);
        }
        None
    }

    /// A node applies all entries that were reserved, and runs the reads that lead. Linear in these entries' jobs and in the reads.
    pub fn look(&mut self, node: usize) -> Result<StepOutcome, Memory>
        ensures taken { IfOk result (λ outcome. Steps self.old self.new (steps.Look node) (outcome_seen outcome)) }
        ensures lets_go { IfOk result (λ outcome. outcome_seen outcome ≡ steps.Done → LetsGo self.old self.new) }
        ensures failed { OnErr result (self.new.failed ≡ true) }
        ensures setup { self.new.setup ≡ self.old.setup }
        ensures repeats { self.old.failed ≡ true → IsErr result }
    {
        if let Some(memory) = self.failed {
            return Err(memory);
        }
        if let Some(reason) = self.why_not_look(node) {
            return Ok(StepOutcome::Idle(reason));
        }
        match read_at_tail(&mut self.nodes[node], &self.log) {
            Ok(()) => {
                let_go(&self.nodes, &mut self.log);
                Ok(StepOutcome::Done)
            }
            Err(memory) => Err(fail(&mut self.failed, memory)),
        }
    }

    fn why_not_look(&self, number: usize) -> Option<Reason>
        requires { self.now.failed ≡ false }
        ensures { ComesTo self.now (steps.Look number) (idle_or result steps.Done) }
    {
        if number >= self.setup.nodes() {
            return Some(Reason::NoSuch);
        }
        let node = &self.nodes[number];
        if node.replica.is_down() {
            return Some(Reason::Down);
        }
        if !node.replica.leads_read() {
            return Some(Reason::Nothing);
        }
        if !self.are_filled(number, node.next_fetch()) {
            return Some(Reason::NotYet);
        }
        None
    }

    // Whether a node's cells of all entries from this one on are filled.
    fn are_filled(&self, node: usize, first: u64) -> bool
        requires still { self.now.failed ≡ false }
        requires there { node < length self.now.nodes }
        requires base { self.now.log.base ≤ first }
        requires tail { first ≤ self.now.log.base + length (log_seen self.now.log) }
        ensures { (events : List Event) (world : nodes.World) → IsPast self.now.setup events world → Shows self.now world → result ≡ steps.are_filled world node first (nodes.tail_of world - first) }
    {
        for entry in first..self.log.tail() {
            if !self.is_filled(node, entry) {
                return false;
            }
        }
        true
    }

    /// The next entry that a node applies is refused, as where memory runs out.
    pub fn refuse(&mut self, node: usize) -> Result<StepOutcome, Memory>
        ensures taken { IfOk result (λ outcome. Steps self.old self.new (steps.Refuse node) (outcome_seen outcome)) }
        ensures failed { OnErr result (self.new.failed ≡ true) }
        ensures setup { self.new.setup ≡ self.old.setup }
        ensures repeats { self.old.failed ≡ true → IsErr result }
    {
        if let Some(memory) = self.failed {
            return Err(memory);
        }
        if let Some(reason) = self.why_not_refuse(node) {
            return Ok(StepOutcome::Idle(reason));
        }
        self.nodes[node].refuse();
        Ok(StepOutcome::Done)
    }

    fn why_not_refuse(&self, node: usize) -> Option<Reason>
        requires { self.now.failed ≡ false }
        ensures { ComesTo self.now (steps.Refuse node) (idle_or result steps.Done) }
    {
        if node >= self.setup.nodes() {
            return Some(Reason::NoSuch);
        }
        if self.nodes[node].replica.is_down() {
            return Some(Reason::Down);
        }
        None
    }

    /// A node that is down comes back with a copy of the server of another one, which is up and has passed as many entries: its connections so
    /// far get nothing more, and can only be closed. Where memory is refused for the copy it stays down, and the world goes on. Linear in what
    /// the server stores and remembers, and in the node's connections that aren't closed.
    pub fn revive(&mut self, node: usize, donor: usize) -> Result<StepOutcome, Memory>
        ensures taken { IfOk result (λ outcome. Steps self.old self.new (steps.Revive node donor) (outcome_seen outcome)) }
        ensures before { OnErr result (self.old.failed ≡ true) }
        ensures failed { OnErr result (self.new.failed ≡ true) }
        ensures setup { self.new.setup ≡ self.old.setup }
        ensures repeats { self.old.failed ≡ true → IsErr result }
    {
        if let Some(memory) = self.failed {
            return Err(memory);
        }
        if let Some(reason) = self.why_not_revive(node, donor) {
            return Ok(StepOutcome::Idle(reason));
        }
        let Ok(offer) = self.nodes[donor].replica.offer() else {
            return Ok(StepOutcome::Idle(Reason::NoMemory));
        };
        let tail = self.log.tail();
        self.nodes[node].revive(offer, tail);
        Ok(StepOutcome::Done)
    }

    fn why_not_revive(&self, number: usize, other: usize) -> Option<Reason>
        requires { self.now.failed ≡ false }
        ensures { ComesTo self.now (steps.Revive number other) (idle_or result steps.Done) }
    {
        if number >= self.setup.nodes() || other >= self.setup.nodes() {
            return Some(Reason::NoSuch);
        }
        let node = &self.nodes[number];
        let donor = &self.nodes[other];
        if donor.replica.is_down() {
            return Some(Reason::Down);
        }
        if node.is_busy() {
            return Some(Reason::Busy);
        }
        if !node.replica.is_down() {
            return Some(Reason::Nothing);
        }
        if node.passed != donor.passed {
            return Some(Reason::NotYet);
        }
        None
    }
}

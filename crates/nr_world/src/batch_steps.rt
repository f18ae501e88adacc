// Batches: a worker posts one, its node lifts and answers it, and the worker takes the answer, and what waits for its connections.
ghost use Rattle.std.specs.Prelude.{◌≡◌, ◌-◌, ◌++◌, true, false, Bool, IfOk, IfNone, OnOk, OnErr, IsErr, map, slice_index_or};
ghost use Rattle.std.specs.Option.{option_map};
ghost use Rattle.nr_model.specs.Nodes.Steps as steps;
ghost use Rattle.nr_world.specs.Batches.{HasWorker, ComesTo, IsPlace, IsCollected};
ghost use Rattle.nr_world.specs.Behind.{HandsOutBehind};
ghost use Rattle.nr_world.specs.Seen.{outcome_seen, handed_seen, answer_seen};
ghost use Rattle.nr_world.specs.Served.{node_seen};
ghost use Rattle.nr_world.specs.Taken.{Steps, Takes, idle_or};
ghost use Rattle.nr_world.specs.Whole.{IsWhole};

use crate::node::WorldNode;
use crate::step::{Answered, HandedBytes, Happened, StepOutcome};
use crate::world::{World, fail};
use nr_blob::Memory;
use nr_model::reason::Reason;

impl World {
    // Whether there is such a worker.
    fn is_worker(&self, node: usize, worker: usize) -> bool
        requires { self.now.failed ≡ false }
        ensures is { result ≡ steps.is_worker self.now.setup node worker }
        ensures there { result ≡ true → HasWorker self.now node worker }
    {
        node < self.setup.nodes() && worker < self.setup.workers()
    }

    /// A worker of a node posts a batch, the first 1,024 jobs of its connections. Linear in the jobs that it keeps.
    pub fn post(&mut self, node: usize, worker: usize) -> Result<StepOutcome, Memory>
        ensures taken { IfOk result (λ outcome. Steps self.old self.new (steps.Post node worker) (outcome_seen outcome)) }
        ensures failed { OnErr result (self.new.failed ≡ true) }
        ensures setup { self.new.setup ≡ self.old.setup }
        ensures repeats { self.old.failed ≡ true → IsErr result }
    {
        if let Some(memory) = self.failed {
            return Err(memory);
        }
        if let Some(reason) = self.why_not_post(node, worker) {
            return Ok(StepOutcome::Idle(reason));
        }
        match self.nodes[node].post(self.alloc, worker) {
            Ok(()) => Ok(StepOutcome::Done),
            Err(memory) => Err(fail(&mut self.failed, memory)),
        }
    }

    fn why_not_post(&self, node: usize, worker: usize) -> Option<Reason>
        requires { self.now.failed ≡ false }
        ensures outcome { ComesTo self.now (steps.Post node worker) (idle_or result steps.Done) }
        ensures there { IfNone result (HasWorker self.now node worker) }
    {
        if !self.is_worker(node, worker) {
            return Some(Reason::NoSuch);
        }
        self.nodes[node].why_not_post(worker)
    }

    /// A node lifts the batch that a worker posted. Linear in its jobs.
    pub fn lift(&mut self, node: usize, worker: usize) -> Result<StepOutcome, Memory>
        ensures taken { IfOk result (λ outcome. Steps self.old self.new (steps.Lift node worker) (outcome_seen outcome)) }
        ensures failed { OnErr result (self.new.failed ≡ true) }
        ensures setup { self.new.setup ≡ self.old.setup }
        ensures repeats { self.old.failed ≡ true → IsErr result }
    {
        if let Some(memory) = self.failed {
            return Err(memory);
        }
        if let Some(reason) = self.why_not_lift(node, worker) {
            return Ok(StepOutcome::Idle(reason));
        }
        match self.nodes[node].lift(self.alloc, worker) {
            Ok(()) => Ok(StepOutcome::Done),
            Err(memory) => Err(fail(&mut self.failed, memory)),
        }
    }

    fn why_not_lift(&self, node: usize, worker: usize) -> Option<Reason>
        requires { self.now.failed ≡ false }
        ensures outcome { ComesTo self.now (steps.Lift node worker) (idle_or result steps.Done) }
        ensures there { IfNone result (HasWorker self.now node worker) }
        ensures up { (d : WorldNode) → IfNone result ((slice_index_or self.now.nodes node d).replica.down ≡ false) }
    {
        if !self.is_worker(node, worker) {
            return Some(Reason::NoSuch);
        }
        self.nodes[node].why_not_lift(worker)
    }

    /// A node answers the batch of a worker, once all its jobs were executed, or once it is down.
    pub fn answer(&mut self, node: usize, worker: usize) -> Result<StepOutcome, Memory>
        ensures taken { IfOk result (λ outcome. Steps self.old self.new (steps.Answer node worker) (outcome_seen outcome)) }
        ensures failed { OnErr result (self.new.failed ≡ true) }
        ensures setup { self.new.setup ≡ self.old.setup }
        ensures repeats { self.old.failed ≡ true → IsErr result }
    {
        if let Some(memory) = self.failed {
            return Err(memory);
        }
        if let Some(reason) = self.why_not_answer(node, worker) {
            return Ok(StepOutcome::Idle(reason));
        }
        self.nodes[node].answer(worker);
        Ok(StepOutcome::Done)
    }

    fn why_not_answer(&self, node: usize, worker: usize) -> Option<Reason>
        requires { self.now.failed ≡ false }
        ensures outcome { ComesTo self.now (steps.Answer node worker) (idle_or result steps.Done) }
        ensures there { IfNone result (HasWorker self.now node worker) }
    {
        if !self.is_worker(node, worker) {
            return Some(Reason::NoSuch);
        }
        self.nodes[node].why_not_answer(worker)
    }

    /// A worker of a node takes the answer to its batch, and hands out all bytes that wait for its connections. Linear in those of its
    /// connections for which bytes wait, and the bytes.
    pub fn collect(&mut self, node: usize, worker: usize) -> Result<Happened, Memory>
        ensures taken { IfOk result (λ happened. Takes self.old self.new (steps.Collect node worker)
            (outcome_seen happened.outcome) (map handed_seen happened.handed.items) (option_map answer_seen happened.answer)) }
        ensures failed { OnErr result (self.new.failed ≡ true) }
        ensures setup { self.new.setup ≡ self.old.setup }
        ensures repeats { self.old.failed ≡ true → IsErr result }
    {
        let mut handed = Vec::new(self.alloc);
        let (outcome, answer) = self.collect_behind(node, worker, &mut handed)?;
        Ok(Happened {
            outcome,
            handed,
            answer,
        })
    }

    /// A collect whose bytes go behind those that were handed out before. It costs what a collect costs.
    pub(crate) fn collect_behind(
        &mut self,
        node: usize,
        worker: usize,
        handed: &mut Vec<HandedBytes>,
    ) -> Result<(StepOutcome, Option<Answered>), Memory>
        ensures taken { IfOk result (λ came. HandsOutBehind self.old self.new node worker (outcome_seen came.0)
            (map handed_seen handed.old.items) (map handed_seen handed.new.items) (option_map answer_seen came.1)) }
        ensures failed { OnErr result (self.new.failed ≡ true) }
        ensures setup { self.new.setup ≡ self.old.setup }
        ensures repeats { self.old.failed ≡ true → IsErr result }
    {
        if let Some(memory) = self.failed {
            return Err(memory);
        }
        if !self.is_worker(node, worker) {
            return Ok((StepOutcome::Idle(Reason::NoSuch), None));
        }
        match collect_at(&mut self.nodes[node], node, worker, handed) {
            Ok(came) => Ok(came),
            Err(memory) => Err(fail(&mut self.failed, memory)),
        }
    }
}

// What a collect at a worker of a node comes to. Its bytes go behind those that were handed out before.
fn collect_at(
    node: &mut WorldNode,
    number: usize,
    worker: usize,
    handed: &mut Vec<HandedBytes>,
) -> Result<(StepOutcome, Option<Answered>), Memory>
    requires { IsPlace number worker node.old }
    ensures collected { IfOk result (λ came. IsCollected number worker (node_seen node.old) (node_seen node.new)
        (outcome_seen came.0) (steps.collected worker (node_seen node.old).clients) (option_map answer_seen came.1)) }
    ensures handed { OnOk result (map handed_seen handed.new.items ≡ map handed_seen handed.old.items ++ steps.collected worker (node_seen node.old).clients) }
    ensures whole { OnOk result (IsWhole number node.new) }
{
    let batches = node.workers[worker].batches;
    let before = handed.len();
    let executed = node.collect(worker, handed)?;
    let answer = answer_to(number, worker, batches, executed);
    if answer.is_none() && handed.len() == before {
        return Ok((StepOutcome::Idle(Reason::Nothing), None));
    }
    Ok((StepOutcome::Done, answer))
}

// The answer to the last of so many batches of a worker.
fn answer_to(node: usize, worker: usize, batches: u64, executed: Option<bool>) -> Option<Answered>
    ensures { option_map answer_seen result ≡ option_map (λ (executed : Bool). record { node = node; worker = worker; batch = batches - 1; executed = executed }) executed }
{
    let Some(executed) = executed else {
        return None;
    };
    Some(Answered {
        node,
        worker,
        batch: batches.saturating_sub(1),
        executed,
    })
}

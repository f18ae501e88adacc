// Any step, and a run of any steps from nothing: the function that carries the headline.
ghost use Rattle.std.specs.Prelude.{◌≡◌, true, IfOk, OnErr, IsErr, map};
ghost use Rattle.std.specs.Option.{option_map};
ghost use Rattle.nr_world.specs.Seen.{step_seen, outcome_seen, handed_seen, answer_seen};
ghost use Rattle.nr_world.specs.Taken.{Takes};
ghost use Rattle.nr_world.specs.Ran.{HasRun};

use crate::step::{Happened, Step};
use crate::world::World;
use nr_blob::Memory;
use nr_entry::Setup;
use std::alloc::Global;
use std::hash::RandomState;

impl World {
    /// Takes a step.
    #[tactic(auto, using(crate::proofs::Runs::plain_takes))]
    pub fn step(&mut self, step: &Step) -> Result<Happened, Memory>
        ensures taken { IfOk result (λ happened. Takes self.old self.new (step_seen step.now)
            (outcome_seen happened.outcome) (map handed_seen happened.handed.items) (option_map answer_seen happened.answer)) }
        ensures failed { OnErr result (self.new.failed ≡ true) }
        ensures setup { self.new.setup ≡ self.old.setup }
        ensures repeats { self.old.failed ≡ true → IsErr result }
    {
        match step {
            Step::Open(node, worker) => {
                let outcome = self.open(*node, *worker)?;
                Ok(Happened::plain(self.alloc, outcome))
            }
            Step::Feed(conn, moment, bytes) => {
                let outcome = self.feed(*conn, *moment, bytes)?;
                Ok(Happened::plain(self.alloc, outcome))
            }
            Step::Post(node, worker) => {
                let outcome = self.post(*node, *worker)?;
                Ok(Happened::plain(self.alloc, outcome))
            }
            Step::Lift(node, worker) => {
                let outcome = self.lift(*node, *worker)?;
                Ok(Happened::plain(self.alloc, outcome))
            }
            Step::Reserve(node) => {
                let outcome = self.reserve(*node)?;
                Ok(Happened::plain(self.alloc, outcome))
            }
            Step::Fill(node, other) => {
                let outcome = self.fill(*node, *other)?;
                Ok(Happened::plain(self.alloc, outcome))
            }
            Step::Fetch(node) => {
                let outcome = self.fetch(*node)?;
                Ok(Happened::plain(self.alloc, outcome))
            }
            Step::Apply(node) => {
                let outcome = self.apply(*node)?;
                Ok(Happened::plain(self.alloc, outcome))
            }
            Step::Look(node) => {
                let outcome = self.look(*node)?;
                Ok(Happened::plain(self.alloc, outcome))
            }
            Step::Answer(node, worker) => {
                let outcome = self.answer(*node, *worker)?;
                Ok(Happened::plain(self.alloc, outcome))
            }
            Step::Collect(node, worker) => self.collect(*node, *worker),
            Step::Close(conn, moment) => {
                let outcome = self.close(*conn, *moment)?;
                Ok(Happened::plain(self.alloc, outcome))
            }
            Step::Refuse(node) => {
                let outcome = self.refuse(*node)?;
                Ok(Happened::plain(self.alloc, outcome))
            }
            Step::Revive(node, donor) => {
                let outcome = self.revive(*node, *donor)?;
                Ok(Happened::plain(self.alloc, outcome))
            }
        }
    }
}

/// What came of a run: the world, and what each step handed back.
#[derive(Drop)]
pub struct RanSteps {
    pub world: World,
    pub happened: Vec<Happened>,
}

/// Takes steps one after the other from nothing: the clients are answered as by one sequential Redis.
pub fn run(
    alloc: Global,
    keys: RandomState,
    setup: &Setup,
    steps: &[Step],
) -> Result<RanSteps, Memory>
    ensures setup { IfOk result (λ ran. ran.world.setup ≡ setup.now) }
    ensures ran { IfOk result (λ ran. HasRun setup.now (map step_seen steps.now) ran.happened.items ran.world) }
{
    let mut world = World::new(alloc, keys, *setup)?;
    let mut happened = Vec::new(alloc);
    for step in steps {
        let came = world.step(step)?;
        happened.push(came)?;
    }
    Ok(RanSteps { world, happened })
}

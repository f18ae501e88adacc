// Rounds of steps, until nothing is left to do.
ghost use Rattle.std.specs.Prelude.{◌≡◌, ◌<◌, ◌-◌, ◌^◌, [], ◌∷◌, true, IfOk, OnOk, OnErr, IsErr, flat_map, map};
ghost use Rattle.std.specs.List.{range_with_len};
ghost use Rattle.std.specs.Bool.{OnTrue};
ghost use Rattle.nr_model.specs.Nodes.Steps as steps;
ghost use Rattle.nr_model.specs.Nodes.Settling.{lifting, reserving, answering};
ghost use Rattle.nr_entry.specs.Setups.{IsAllowed};
ghost use Rattle.nr_world.specs.Seen.{handed_seen};
ghost use Rattle.nr_world.specs.Settles.{SettlesWorld};
ghost use Rattle.nr_world.specs.Rounds.{RunsSteps, RunsBy, turns_left, TakesNodeTurns, Replays, ReplayEach, TakesRound, TakesRounds};

use crate::step::HandedBytes;
use crate::world::{World, fail};
use nr_blob::Memory;
use nr_entry::Setup;

impl World {
    /// Takes rounds of steps until nothing is done in one: then every batch was answered, every node has passed the whole log, and no byte
    /// waits. Hands back all bytes that were handed out, in order. There are at most three rounds more than jobs were left, and each costs
    /// as its steps do: a connection that is closed costs nothing.
    pub fn settle(&mut self) -> Result<Vec<HandedBytes>, Memory>
        ensures settled { IfOk result (λ handed. SettlesWorld self.old self.new (map handed_seen handed.items)) }
        ensures failed { OnErr result (self.new.failed ≡ true) }
        ensures setup { self.new.setup ≡ self.old.setup }
        ensures repeats { self.old.failed ≡ true → IsErr result }
    {
        if let Some(memory) = self.failed {
            return Err(memory);
        }
        let mut handed = Vec::new(self.alloc);
        let rounds = self.take_rounds(&mut handed)?;
        if let Some(memory) = Memory::at_last(rounds) {
            return Err(fail(&mut self.failed, memory));
        }
        Ok(handed)
    }

    // Rounds up to one in which nothing was done, and how many there were before it: at most 2^64 - 1, and where it is so many there was no such one.
    fn take_rounds(&mut self, handed: &mut Vec<HandedBytes>) -> Result<u64, Memory>
        requires none { handed.old.items ≡ [] }
        ensures settles { IfOk result (λ rounds. rounds < 2 ^ 64 - 1 → SettlesWorld self.old self.new (map handed_seen handed.new.items)) }
        ensures most { IfOk result (λ rounds. rounds ≡ 2 ^ 64 - 1 → TakesRounds (2 ^ 64 - 1) self.old self.new (map handed_seen handed.new.items)) }
        ensures failed { OnErr result (self.new.failed ≡ true) }
        ensures setup { self.new.setup ≡ self.old.setup }
    {
        for rounds in 0..u64::MAX {
            if !self.take_round(handed)? {
                return Ok(rounds);
            }
        }
        Ok(u64::MAX)
    }

    // A round, and whether a step of it was done.
    fn take_round(&mut self, handed: &mut Vec<HandedBytes>) -> Result<bool, Memory>
        ensures round { IfOk result (λ done. TakesRound self.old self.new (map handed_seen handed.old.items) (map handed_seen handed.new.items) done) }
        ensures allowed { IsAllowed self.old.setup }
        ensures failed { OnErr result (self.new.failed ≡ true) }
        ensures setup { self.new.setup ≡ self.old.setup }
    {
        let setup = self.setup();
        let lifted = self.lift_all(setup)?;
        let reserved = self.reserve_all(setup)?;
        let applied = self.replay_all(setup.nodes())?;
        let answered = self.answer_all(setup, handed)?;
        Ok(lifted | reserved | applied | answered)
    }

    fn lift_all(&mut self, setup: Setup) -> Result<bool, Memory>
        ensures runs { IfOk result (λ done. RunsBy self.old self.new (lifting setup) done) }
        ensures failed { OnErr result (self.new.failed ≡ true) }
        ensures setup { self.new.setup ≡ self.old.setup }
    {
        let mut done = false;
        for node in 0..setup.nodes() {
            done |= self.lift_each(node, setup.workers())?;
        }
        Ok(done)
    }

    // The workers of a node post, and it lifts.
    fn lift_each(&mut self, node: usize, workers: usize) -> Result<bool, Memory>
        ensures runs { IfOk result (λ done. RunsBy self.old self.new
            (flat_map (λ w. steps.Post node w ∷ steps.Lift node w ∷ []) (range_with_len 0 workers)) done) }
        ensures failed { OnErr result (self.new.failed ≡ true) }
        ensures setup { self.new.setup ≡ self.old.setup }
    {
        let mut done = false;
        for worker in 0..workers {
            done |= self.lift_one(node, worker)?;
        }
        Ok(done)
    }

    fn lift_one(&mut self, node: usize, worker: usize) -> Result<bool, Memory>
        ensures runs { IfOk result (λ done. RunsBy self.old self.new (steps.Post node worker ∷ steps.Lift node worker ∷ []) done) }
        ensures failed { OnErr result (self.new.failed ≡ true) }
        ensures setup { self.new.setup ≡ self.old.setup }
    {
        let posted = self.post(node, worker)?;
        let lifted = self.lift(node, worker)?;
        Ok(posted.is_done() | lifted.is_done())
    }

    fn reserve_all(&mut self, setup: Setup) -> Result<bool, Memory>
        ensures runs { IfOk result (λ done. RunsBy self.old self.new (reserving setup) done) }
        ensures failed { OnErr result (self.new.failed ≡ true) }
        ensures setup { self.new.setup ≡ self.old.setup }
    {
        let mut done = false;
        for node in 0..setup.nodes() {
            done |= self.reserve_one(node, setup.nodes())?;
        }
        Ok(done)
    }

    // A node reserves an entry, and fills its cells.
    fn reserve_one(&mut self, node: usize, nodes: usize) -> Result<bool, Memory>
        ensures runs { IfOk result (λ done. RunsBy self.old self.new (steps.Reserve node ∷ map (steps.Fill node) (range_with_len 0 nodes)) done) }
        ensures failed { OnErr result (self.new.failed ≡ true) }
        ensures setup { self.new.setup ≡ self.old.setup }
    {
        let reserved = self.reserve(node)?;
        let filled = self.fill_each(node, nodes)?;
        Ok(reserved.is_done() | filled)
    }

    fn fill_each(&mut self, node: usize, nodes: usize) -> Result<bool, Memory>
        ensures runs { IfOk result (λ done. RunsBy self.old self.new (map (steps.Fill node) (range_with_len 0 nodes)) done) }
        ensures failed { OnErr result (self.new.failed ≡ true) }
        ensures setup { self.new.setup ≡ self.old.setup }
    {
        let mut done = false;
        for other in 0..nodes {
            let filled = self.fill(node, other)?;
            done |= filled.is_done();
        }
        Ok(done)
    }

    fn replay_all(&mut self, nodes: usize) -> Result<bool, Memory>
        ensures replays { IfOk result (λ done. ReplayEach nodes self.old self.new done) }
        ensures failed { OnErr result (self.new.failed ≡ true) }
        ensures setup { self.new.setup ≡ self.old.setup }
    {
        let mut done = false;
        for node in 0..nodes {
            done |= self.replay(node)?;
        }
        Ok(done)
    }

    // A node applies and fetches in turn, until both are idle, and looks.
    fn replay(&mut self, node: usize) -> Result<bool, Memory>
        ensures replays { IfOk result (λ done. Replays node self.old self.new done) }
        ensures failed { OnErr result (self.new.failed ≡ true) }
        ensures setup { self.new.setup ≡ self.old.setup }
    {
        let applied = self.take_turns(node)?;
        let looked = self.look(node)?;
        Ok(applied | looked.is_done())
    }

    // Turns up to one in which nothing was done, and whether something was done before it.
    fn take_turns(&mut self, node: usize) -> Result<bool, Memory>
        ensures turns { IfOk result (λ done. TakesNodeTurns node self.old self.new done) }
        ensures failed { OnErr result (self.new.failed ≡ true) }
        ensures setup { self.new.setup ≡ self.old.setup }
    {
        let mut done = false;
        while self.take_turn(node)? {
            done = true;
        }
        Ok(done)
    }

    // A node applies and fetches. Where something was done less of the log is left to be passed.
    fn take_turn(&mut self, node: usize) -> Result<bool, Memory>
        ensures runs { IfOk result (λ done. RunsBy self.old self.new (steps.Apply node ∷ steps.Fetch node ∷ []) done) }
        ensures less { IfOk result (λ done. OnTrue done (turns_left node self.new < turns_left node self.old)) }
        ensures failed { OnErr result (self.new.failed ≡ true) }
        ensures setup { self.new.setup ≡ self.old.setup }
    {
        if let Some(memory) = self.failed {
            return Err(memory);
        }
        let applied = self.apply(node)?;
        let fetched = self.fetch(node)?;
        Ok(applied.is_done() | fetched.is_done())
    }

    fn answer_all(&mut self, setup: Setup, handed: &mut Vec<HandedBytes>) -> Result<bool, Memory>
        ensures runs { IfOk result (λ done. RunsSteps self.old self.new (answering setup)
            (map handed_seen handed.old.items) (map handed_seen handed.new.items) done) }
        ensures failed { OnErr result (self.new.failed ≡ true) }
        ensures setup { self.new.setup ≡ self.old.setup }
    {
        let mut done = false;
        for node in 0..setup.nodes() {
            done |= self.answer_each(node, setup.workers(), handed)?;
        }
        Ok(done)
    }

    // A node answers its workers, and they collect.
    fn answer_each(
        &mut self,
        node: usize,
        workers: usize,
        handed: &mut Vec<HandedBytes>,
    ) -> Result<bool, Memory>
        ensures runs { IfOk result (λ done. RunsSteps self.old self.new
            (flat_map (λ w. steps.Answer node w ∷ steps.Collect node w ∷ []) (range_with_len 0 workers))
            (map handed_seen handed.old.items) (map handed_seen handed.new.items) done) }
        ensures failed { OnErr result (self.new.failed ≡ true) }
        ensures setup { self.new.setup ≡ self.old.setup }
    {
        let mut done = false;
        for worker in 0..workers {
            done |= self.answer_one(node, worker, handed)?;
        }
        Ok(done)
    }

    fn answer_one(
        &mut self,
        node: usize,
        worker: usize,
        handed: &mut Vec<HandedBytes>,
    ) -> Result<bool, Memory>
        ensures runs { IfOk result (λ done. RunsSteps self.old self.new (steps.Answer node worker ∷ steps.Collect node worker ∷ [])
            (map handed_seen handed.old.items) (map handed_seen handed.new.items) done) }
        ensures failed { OnErr result (self.new.failed ≡ true) }
        ensures setup { self.new.setup ≡ self.old.setup }
    {
        let answered = self.answer(node, worker)?;
        let collected = self.collect_into(node, worker, handed)?;
        Ok(answered.is_done() | collected)
    }

    // What a collect handed out goes behind the rest.
    fn collect_into(
        &mut self,
        node: usize,
        worker: usize,
        handed: &mut Vec<HandedBytes>,
    ) -> Result<bool, Memory>
        ensures runs { IfOk result (λ done. RunsSteps self.old self.new (steps.Collect node worker ∷ [])
            (map handed_seen handed.old.items) (map handed_seen handed.new.items) done) }
        ensures failed { OnErr result (self.new.failed ≡ true) }
        ensures setup { self.new.setup ≡ self.old.setup }
    {
        let (outcome, _) = self.collect_behind(node, worker, handed)?;
        Ok(outcome.is_done())
    }
}

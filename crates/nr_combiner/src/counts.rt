// What a combiner counts of its workers' connections.
ghost use Rattle.std.specs.Prelude.{◌≡◌, ◌+◌, ◌<◌, ◌^◌, IfOk};
ghost use Rattle.nr_combiner.specs.Counts.{closed_of, fresh_counts, generation_of, with_next, with_opened, with_since};

use nr_blob::Memory;
use std::alloc::Global;
use std::marker::Model;

/// How many connections aren't closed; for each worker its generation: how often something was handed out for its connections, or one of them was closed; and how many
/// connections there were as the node came back last. A worker counts its generation, too: where both agree nobody else did either since it last did.
#[derive(Drop)]
pub(crate) struct Counts {
    unclosed: usize,
    generations: Vec<u64>,
    since: u64,
}

impl Model for Counts {
    ghost use Rattle.nr_combiner.specs.Counts.{Counts, coded_counts};

    ghost Value = { Counts };

    ghost coded = { coded_counts };

    ghost view = { λ c. record { unclosed = c.unclosed; generations = c.generations.items; since = c.since } };
}

impl Counts {
    /// Of so many workers, for which nothing was done yet.
    pub(crate) fn new(alloc: Global, workers: usize) -> Result<Counts, Memory>
        ensures { IfOk result (λ counts. counts ≡ fresh_counts workers) }
    {
        let mut generations = Vec::with_capacity(alloc, workers)?;
        generations.resize(workers, 0)?;
        Ok(Counts {
            unclosed: 0,
            generations,
            since: 0,
        })
    }

    /// How many connections aren't closed.
    pub(crate) fn unclosed(&self) -> usize
        ensures { result ≡ self.now.unclosed }
    {
        self.unclosed
    }

    /// How many there were as the node came back last: 0 where it never did.
    pub(crate) fn since(&self) -> u64
        ensures { result ≡ self.now.since }
    {
        self.since
    }

    /// The node came back, with so many.
    pub(crate) fn come_back(&mut self, since: u64)
        ensures { self.new ≡ with_since since self.old }
    {
        self.since = since;
    }

    /// One more was opened.
    pub(crate) fn add_opened(&mut self)
        requires { self.old.unclosed + 1 < 2 ^ 64 }
        ensures { self.new ≡ with_opened self.old }
    {
        self.unclosed += 1;
    }

    /// The generation of a worker; 0 of one that there isn't.
    pub(crate) fn generation(&self, worker: usize) -> u64
        ensures { result ≡ generation_of worker self.now }
    {
        self.generations.get(worker).copied().unwrap_or(0)
    }

    /// Something was handed out for a worker's connections.
    pub(crate) fn go_on(&mut self, worker: usize)
        ensures { self.new ≡ with_next worker self.old }
    {
        if let Some(generation) = self.generations.get_mut(worker) {
            *generation = generation.wrapping_add(1);
        }
    }

    /// A connection of a worker was closed, or none where there is no worker.
    pub(crate) fn close(&mut self, worker: Option<usize>)
        ensures { self.new ≡ closed_of worker self.old }
    {
        if let Some(worker) = worker {
            self.go_on(worker);
            self.unclosed = self.unclosed.saturating_sub(1);
        }
    }
}

// How large a server is, within the ranges that are allowed.
ghost use Rattle.std.specs.Prelude.{◌≡◌, ◌↔◌, IsSome, IfSome};
ghost use Rattle.nr_entry.specs.Setups.{IsAllowed};

use nr_blob::Memory;
use std::marker::Model;

/// Why what a server consists of, its log or its nodes' slots, isn't opened.
#[derive(Clone, Copy, Debug, PartialEq, Eq)]
pub enum BuildError {
    /// The nodes, places or workers are outside of the ranges that [`Setup`] allows.
    BadShape,
    /// There was no memory for it.
    Memory(Memory),
}

impl From<Memory> for BuildError {
    ghost use Rattle.std.specs.Prelude.{◌≡◌};
    ghost use Rattle.nr_entry.specs.declared.setup.BuildError.TheVariants as errors;

    ghost from_gives = { λ memory error. error ≡ errors.Memory memory };

    fn from(memory: Memory) -> BuildError {
        BuildError::Memory(memory)
    }
}

/// How large a server is: how many nodes, places of the log, workers a node and connections a node there are, and how many bytes
/// a queue holds.
#[derive(Clone, Copy, Debug, PartialEq, Eq)]
pub struct Setup {
    nodes: usize,
    places: usize,
    workers: usize,
    connections: usize,
    queue_limit: usize,
}

impl Model for Setup {
    ghost use Rattle.nr_model.specs.Connections as traffic;
    ghost use Rattle.nr_entry.specs.Setups.{IsAllowed};

    ghost Value = { traffic.Setup };

    ghost view = { λ s. record { nodes = s.nodes; places = s.places; workers = s.workers; connections = s.connections; queue_limit = s.queue_limit } };

    ghost invariant = { λ s. IsAllowed (record { nodes = s.nodes; places = s.places; workers = s.workers; connections = s.connections; queue_limit = s.queue_limit }) };

    ghost inverse = { λ s. record { nodes = s.nodes; places = s.places; workers = s.workers; connections = s.connections; queue_limit = s.queue_limit } };
}

impl Setup {
    /// `None` outside of 1 to 8 nodes, 2 to 65,536 places, 1 to 16 workers a node, 1 to 1,024 connections a node, and a queue of
    /// 1,024 to 1,073,741,824 bytes.
    pub fn new(
        nodes: usize,
        places: usize,
        workers: usize,
        connections: usize,
        queue_limit: usize,
    ) -> Option<Setup>
        ensures allowed { IsSome result ↔ IsAllowed (record { nodes = nodes; places = places; workers = workers; connections = connections; queue_limit = queue_limit }) }
        ensures value { IfSome result (λ setup. setup ≡ record { nodes = nodes; places = places; workers = workers; connections = connections; queue_limit = queue_limit }) }
    {
        if nodes < 1 || nodes > 8 {
            return None;
        }
        if places < 2 || places > 65_536 {
            return None;
        }
        if workers < 1 || workers > 16 {
            return None;
        }
        if connections < 1 || connections > 1_024 {
            return None;
        }
        if queue_limit < 1_024 || queue_limit > 1_073_741_824 {
            return None;
        }
        Some(Setup {
            nodes,
            places,
            workers,
            connections,
            queue_limit,
        })
    }

    /// How many nodes there are.
    pub fn nodes(self) -> usize
        ensures value { result ≡ self.nodes }
        ensures allowed { IsAllowed self }
    {
        self.nodes
    }

    /// How many places the log has.
    pub fn places(self) -> usize
        ensures value { result ≡ self.places }
        ensures allowed { IsAllowed self }
    {
        self.places
    }

    /// How many workers a node has.
    pub fn workers(self) -> usize
        ensures value { result ≡ self.workers }
        ensures allowed { IsAllowed self }
    {
        self.workers
    }

    /// How many connections of a node are open at most.
    pub fn connections(self) -> usize
        ensures value { result ≡ self.connections }
        ensures allowed { IsAllowed self }
    {
        self.connections
    }

    /// How many bytes wait for a connection at most.
    pub fn queue_limit(self) -> usize
        ensures value { result ≡ self.queue_limit }
        ensures allowed { IsAllowed self }
    {
        self.queue_limit
    }
}

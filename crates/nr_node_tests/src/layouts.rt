// How large the servers are at whose nodes something is played.
use nr_entry::Setup;

/// The nodes of a log, and how many places it has.
#[derive(Clone, Copy)]
pub(crate) struct Layout {
    pub(crate) nodes: usize,
    pub(crate) places: usize,
    pub(crate) workers: usize,
    pub(crate) connections: usize,
    pub(crate) limit: usize,
}

impl Layout {
    /// The record of such a server; none where there can't be one.
    pub(crate) fn setup(self) -> Option<Setup> {
        Setup::new(
            self.nodes,
            self.places,
            self.workers,
            self.connections,
            self.limit,
        )
    }
}

/// Two nodes of a worker each, and a megabyte for each connection.
pub(crate) const TWO_NODES: Layout = Layout {
    nodes: 2,
    places: 4,
    workers: 1,
    connections: 4,
    limit: 1 << 20,
};

/// The same, where the log has two places.
pub(crate) const TWO_PLACES: Layout = Layout {
    places: 2,
    ..TWO_NODES
};

/// The same, where two connections of each are open at most.
pub(crate) const TWO_EACH: Layout = Layout {
    nodes: 2,
    places: 4,
    workers: 1,
    connections: 2,
    limit: 1 << 20,
};

/// The same of three nodes.
pub(crate) const THREE_NODES: Layout = Layout {
    nodes: 3,
    ..TWO_EACH
};

/// The same, where one connection of each is open at most.
pub(crate) const ONE_EACH: Layout = Layout {
    nodes: 2,
    places: 4,
    workers: 1,
    connections: 1,
    limit: 1 << 20,
};

/// Two nodes of a worker each, which has many connections, and sixteen megabytes for each. No entry of some 200 waits for its place.
pub(crate) const WIDE: Layout = Layout {
    nodes: 2,
    places: 256,
    workers: 1,
    connections: 32,
    limit: 1 << 24,
};

/// A node of one worker, of which one connection is open at most, for which at most a kilobyte waits.
pub(crate) const NARROW: Layout = Layout {
    nodes: 1,
    places: 64,
    workers: 1,
    connections: 1,
    limit: 1024,
};

/// The same with two workers, and a connection for each.
pub(crate) const NARROW_PAIR: Layout = Layout {
    nodes: 1,
    places: 64,
    workers: 2,
    connections: 2,
    limit: 1024,
};

/// Sixteen workers of three nodes.
pub(crate) const MANY_WORKERS: Layout = Layout {
    nodes: 3,
    places: 64,
    workers: 16,
    connections: 16,
    limit: 1 << 30,
};

/// Two workers of one node.
pub(crate) const TWO_WORKERS: Layout = Layout {
    nodes: 1,
    places: 4,
    workers: 2,
    connections: 3,
    limit: 1 << 20,
};

/// Three workers of one node.
pub(crate) const THREE_WORKERS: Layout = Layout {
    workers: 3,
    connections: 6,
    ..TWO_WORKERS
};

/// Two of them, where five connections are open at most.
pub(crate) const TWO_PAIRS: Layout = Layout {
    connections: 5,
    ..TWO_WORKERS
};

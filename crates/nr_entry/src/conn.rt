// A connection's name: the node that serves it and its number there, never used again.

/// A connection: the node that serves it, and its number among that node's connections, from 0. It is never used again.
#[derive(Clone, Copy, Debug, PartialEq, Eq, PartialOrd, Ord, Hash)]
pub struct ConnId {
    pub node: usize,
    pub serial: u64,
}

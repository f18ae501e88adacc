// Which nodes fall.
use std::sync::atomic::{AtomicU64, Ordering};

/// The bit of a node.
pub(crate) fn bit(node: usize) -> u64 {
    if node < 64 { 1 << node } else { 0 }
}

/// The nodes of which each is to refuse the next entry that it applies: a bit for each, node 0's the lowest.
#[derive(Drop)]
pub(crate) struct Falls {
    bits: AtomicU64,
}

impl Falls {
    /// These are to.
    pub(crate) fn new(first: u64) -> Falls {
        Falls {
            bits: AtomicU64::new(first),
        }
    }

    /// This one is to, where there is one.
    pub(crate) fn of(node: Option<usize>) -> Falls {
        Falls::new(node.map_or(0, bit))
    }

    /// These too.
    pub(crate) fn add(&self, nodes: u64) {
        self.bits.fetch_or(nodes, Ordering::SeqCst);
    }

    /// Whether a node is to, and wasn't asked for since.
    pub(crate) fn take(&self, node: usize) -> bool {
        let bit = bit(node);
        self.bits.fetch_and(!bit, Ordering::SeqCst) & bit != 0
    }
}

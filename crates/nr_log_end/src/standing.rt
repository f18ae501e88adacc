// How a node stands to the log.
use nr_entry::{Entry, Job};
use std::collections::LinkedList;

/// What a replica did, in the order in which it did it. No value of it is made: contracts alone speak of it.
pub enum LogEvent {
    /// It passed this entry, which it had applied.
    Applied(Entry),
    /// It ran this read.
    Ran(Job),
    /// It opened its next connection, which this worker serves.
    Opened(u8),
}

/// A load that an end made, and what it found. No value of it is made: contracts alone speak of it.
pub enum Load {
    /// The tail.
    Tail(u64),
    /// The count of entries that a node has passed.
    Passed(u64, u64),
    /// The cell of the entry of this number, the next one that the node has to pass, in which it found nothing.
    Unfilled(u64),
}

/// How a node stands to the log: what its seat has met of it, and done. No value of it is made: contracts alone speak of it.
pub struct Standing {
    /// The node, and how many nodes the log has.
    pub node: u64,
    pub nodes: u64,
    /// What was done since the log was opened.
    pub history: LinkedList<LogEvent>,
    /// The entry that was fetched and isn't passed yet.
    pub held: Option<Entry>,
    /// The greatest tail that was met. All entries of lower numbers are reserved.
    pub seen: u64,
    /// The numbers that this node reserved, in order, each with its entry.
    pub reservations: LinkedList<(u64, Entry)>,
    /// The last of these numbers.
    pub at: u64,
    /// The shares of its entry that aren't in their cells yet: at each node's place its share, or `None` where the cell is filled.
    pub unfilled: LinkedList<Option<Entry>>,
}

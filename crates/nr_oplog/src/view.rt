// What a seat at the log knows.
use atomic_table::{Seat, Table, TableRule};
use nr_entry::Entry;
use nr_log_end::{Load, Standing};
use std::alloc::Global;
use std::collections::LinkedList;
use std::sync::Arc;

/// How many nodes and places a log has.
#[derive(Clone, Copy, Debug, PartialEq, Eq)]
pub struct LogShape {
    pub nodes: u64,
    pub places: u64,
}

/// What a seat knows of its log. No value of it is made: contracts alone speak of it.
pub struct LogView {
    pub standing: Standing,
    /// How many places the log has.
    pub places: u64,
    /// The seat is that of the nodes from its standing's on and below this one: of one, or of none where it is a token's.
    pub upto: u64,
    /// For each node a count of entries that it has passed, as last met.
    pub met: LinkedList<u64>,
    /// The loads of the tail, of passed counts, and of the next cell where that wasn't filled, in order.
    pub looks: LinkedList<Load>,
    /// 0, or 1 more than the node whose cell is being filled.
    pub filling: u64,
    /// The standing that another seat told.
    pub told: Standing,
}

/// The share of an entry in a cell, or none.
pub(crate) type Share = Option<Arc<Entry, Global>>;

pub(crate) type LogTable = Table<Share, LogView, LogShape, LogLaw, Global>;

pub(crate) type LogSlotSeat = Seat<Share, LogView>;

// The rule of the log.
pub struct LogLaw;

impl TableRule<Option<Arc<Entry, Global>>, LogView, LogShape> for LogLaw {
    ghost use Rattle.nr_oplog.specs.Rule.{LogRule, first_view};

    ghost holds = { λ key. LogRule key.nodes key.places };

    ghost first = { λ key. first_view key.nodes key.places };
}

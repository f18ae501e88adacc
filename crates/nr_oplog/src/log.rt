// The log that all nodes share.
ghost use Rattle.std.specs.Prelude.{◌≡◌, ◌+◌, ◌*◌, ◌<◌, ◌≤◌};
ghost use Rattle.atomic_table.specs.Seated.{TableId};
ghost use Rattle.nr_oplog.specs.Layout.{words_of, slots_of};

use crate::view::LogTable;
use std::marker::{Brand, PhantomData};

/// Names one log, of so many nodes and places. All that is of a log bears its name, so that it can't be used with another one.
pub trait LogName {
    ghost use Rattle.std.specs.Prelude.{ℕ};
    ghost use Rattle.atomic_table.specs.Seated.{TableId};

    ghost log: { TableId };

    ghost nodes: { ℕ };

    ghost places: { ℕ };
}

impl LogName for Brand {
    ghost use Rattle.nr_oplog.specs.Names.{no_log};

    ghost log = { no_log };

    ghost nodes = { 0 };

    ghost places = { 0 };
}

/// The operation log of some nodes.
#[derive(Drop)]
pub struct Oplog<B: LogName> {
    pub(crate) table: LogTable,
    pub(crate) nodes: usize,
    pub(crate) places: usize,
    pub(crate) of: PhantomData<B>,
    pub ghost named: { table.shared.table_id ≡ B.log },
    pub ghost shape: { (table.shared.key.nodes ≡ nodes) × (table.shared.key.places ≡ places) },
    pub ghost shaped: { (table.shared.key.nodes ≡ B.nodes) × (table.shared.key.places ≡ B.places) },
    pub ghost sized: { (table.shared.table_id.words ≡ words_of table.shared.key.nodes table.shared.key.places) × (table.shared.table_id.slots ≡ slots_of table.shared.key.nodes table.shared.key.places) },
    pub ghost ranges: { (0 < nodes) × (nodes ≤ 8) × (2 ≤ places) × (places ≤ 65536) },
}

impl<B: LogName> Oplog<B> {
    /// How many nodes it has.
    pub fn nodes(&self) -> usize
        ensures { result ≡ B.nodes }
    {
        self.nodes
    }

    /// How many places it has.
    pub fn places(&self) -> usize
        ensures { result ≡ B.places }
    {
        self.places
    }
}

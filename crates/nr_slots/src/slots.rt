// The slots that a node's workers and its combiner share.
use crate::view::SlotTable;
use std::marker::Model;

/// The slots of a node's workers. Contracts see which they are, and of how many workers.
#[derive(Drop)]
pub struct Slots {
    pub(crate) table: SlotTable,
    pub(crate) workers: usize,
}

impl Model for Slots {
    ghost use Rattle.std.specs.Prelude.{◌≡◌};
    ghost use Rattle.nr_slots.specs.Seats.{SlotsView, IsOfWorkers};

    ghost Value = { SlotsView };

    ghost view = { λ s. record { id = s.table.shared.table_id; workers = s.workers } };

    ghost invariant = { λ s. (s.table.shared.key ≡ s.workers) × IsOfWorkers s.table.shared.table_id s.workers };
}

// A log that is being opened.
ghost use Rattle.std.specs.Prelude.{◌≡◌, ◌<◌, ◌≤◌, []};
ghost use Rattle.nr_oplog.specs.Layout.{words_of, slots_of};
ghost use Rattle.nr_oplog.specs.Rule.{first_view};

use crate::view::{LogSlotSeat, LogTable};

/// A log that was opened, and has no name yet.
#[derive(Drop)]
pub struct OpenedLog {
    pub(crate) table: LogTable,
    pub(crate) seat: LogSlotSeat,
    pub(crate) nodes: usize,
    pub(crate) places: usize,
    ghost shape: { (table.shared.key.nodes ≡ nodes) × (table.shared.key.places ≡ places) },
    ghost sized: { (table.shared.table_id.words ≡ words_of table.shared.key.nodes table.shared.key.places) × (table.shared.table_id.slots ≡ slots_of table.shared.key.nodes table.shared.key.places) },
    ghost ranges: { (0 < nodes) × (nodes ≤ 8) × (2 ≤ places) × (places ≤ 65536) },
    ghost fits: { (seat.table_id ≡ table.shared.table_id) × (seat.me ≡ (first_view nodes places, [])) },
}

// Opening the slots of a node.
ghost use Rattle.std.specs.Prelude.{ℕ, ◌≡◌, ◌+◌, ◌<◌, ◌≤◌, ◌↔◌, [], length, IfOk, Err, slice_get, Some};
ghost use Rattle.nr_slots.specs.Seats.{new_worker, new_combiner, IsOfWorkers};
ghost use Rattle.nr_slots.specs.Rule.{opening_view};

use crate::combiner::CombinerSeat;
use crate::slots::Slots;
use crate::steps::cut;
use crate::view::{SlotSeat, SlotTable, SlotWords};
use crate::worker::WorkerSeat;
use atomic_table::Table;
use nr_blob::Memory;
use nr_entry::BuildError;
use std::alloc::Global;

impl Slots {
    /// The slots of `workers` workers, 1 to 16, the seat of each worker, the first one worker 0, and the combiner's. No call of a seat takes
    /// memory.
    pub fn open(
        alloc: Global,
        workers: usize,
    ) -> Result<(Slots, Vec<WorkerSeat>, CombinerSeat), BuildError>
        ensures shape { (result ≡ Err BuildError.BadShape) ↔ ((1 ≤ workers) × (workers ≤ 16) → ⊥) }
        ensures slots { IfOk result (λ opened. opened.0.workers ≡ workers) }
        ensures seats { IfOk result (λ opened. (length opened.1.items ≡ workers) × ((worker : ℕ) → worker < workers → slice_get opened.1.items worker ≡ Some (new_worker opened.0.id worker))) }
        ensures combiner { IfOk result (λ opened. opened.2 ≡ new_combiner opened.0.id workers) }
    {
        if workers < 1 || workers > 16 {
            return Err(BuildError::BadShape);
        }
        let (table, seat) = laid(alloc, workers)?;
        let slots = Slots { table, workers };
        let (seats, combiner) = seats(alloc, &slots.table.shared, seat, workers)?;
        Ok((slots, seats, combiner))
    }
}

// The words and slots of so many workers, and the first seat at them.
fn laid(alloc: Global, workers: usize) -> Result<(SlotTable, SlotSeat), Memory>
    requires { (1 ≤ workers) × (workers ≤ 16) }
    ensures table { IfOk result (λ laid. IsOfWorkers laid.0.shared.table_id workers × (laid.0.shared.key ≡ workers)) }
    ensures seat { IfOk result (λ laid. (laid.1.table_id ≡ laid.0.shared.table_id) × (laid.1.me ≡ (opening_view workers 0, []))) }
{
    let words = Vec::from_elem(alloc, 0u64, 16 * workers + 16)?;
    Ok(Table::vacant(alloc, words.as_slice(), 2 * workers, &workers)?)
}

// The seats of all workers, cut from the first one, and the combiner's, which is what is left of it.
fn seats(
    alloc: Global,
    words: &SlotWords,
    mut seat: SlotSeat,
    workers: usize,
) -> Result<(Vec<WorkerSeat>, CombinerSeat), Memory>
    requires words { IsOfWorkers words.now.table_id workers × (words.now.key ≡ workers) × (workers ≤ 16) }
    requires seat { (seat.table_id ≡ words.now.table_id) × (seat.me ≡ (opening_view workers 0, [])) }
    ensures seats { IfOk result (λ r. (length r.0.items ≡ workers) × ((worker : ℕ) → worker < workers → slice_get r.0.items worker ≡ Some (new_worker words.now.table_id worker))) }
    ensures combiner { IfOk result (λ r. r.1 ≡ new_combiner words.now.table_id workers) }
{
    let mut seats = Vec::with_capacity(alloc, workers)?;
    for worker in 0..workers {
        let own = cut(words, &mut seat, worker);
        seats.push(WorkerSeat::first(own, worker))?;
    }
    Ok((seats, CombinerSeat::first(seat, workers)))
}

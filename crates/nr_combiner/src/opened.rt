// The slots of a server's nodes, opened before they have a name.
ghost use Rattle.std.specs.Prelude.{◌≡◌, ◌≤◌, ◌↔◌, length, IfOk, OnOk, Err};
ghost use Rattle.nr_combiner.specs.Opened.{AreOfWorkers};

use nr_blob::Memory;
use nr_entry::BuildError;
use nr_slots::{CombinerSeat, Slots, WorkerSeat};
use std::alloc::Global;
use std::marker::Model;

/// The slots of a node, with the seats of its workers and of its combiner, which have done nothing yet. Contracts see which slots these are, and of how many
/// workers.
#[derive(Drop)]
pub struct OpenedSlots {
    pub(crate) slots: Slots,
    pub(crate) seats: Vec<WorkerSeat>,
    pub(crate) desk: CombinerSeat,
}

impl Model for OpenedSlots {
    ghost use Rattle.std.specs.Prelude.{◌≡◌};
    ghost use Rattle.nr_slots.specs.Seats.{SlotsView, new_combiner};
    ghost use Rattle.nr_combiner.specs.Opened.{coded_slots, AreNewWorkers};

    ghost Value = { SlotsView };

    ghost coded = { coded_slots };

    ghost view = { λ o. o.slots };

    ghost invariant = { λ o. AreNewWorkers o.slots.id o.slots.workers o.seats.items × (o.desk ≡ new_combiner o.slots.id o.slots.workers) };
}

/// The slots of so many nodes, each with so many workers, 1 to 16, those of node 0 first.
pub fn open_slots(
    alloc: Global,
    nodes: usize,
    workers: usize,
) -> Result<Vec<OpenedSlots>, BuildError>
    ensures nodes { IfOk result (λ all. length all.items ≡ nodes) }
    ensures workers { IfOk result (λ all. AreOfWorkers workers all.items) }
    ensures shape { (result ≡ Err BuildError.BadShape) ↔ ((1 ≤ workers) × (workers ≤ 16) → ⊥) }
    ensures range { OnOk result ((1 ≤ workers) × (workers ≤ 16)) }
{
    if workers < 1 || workers > 16 {
        return Err(BuildError::BadShape);
    }
    match open_all(alloc, nodes, workers) {
        Ok(all) => Ok(all),
        Err(memory) => Err(BuildError::Memory(memory)),
    }
}

fn open_all(alloc: Global, nodes: usize, workers: usize) -> Result<Vec<OpenedSlots>, Memory>
    requires { (1 ≤ workers) × (workers ≤ 16) }
    ensures nodes { IfOk result (λ all. length all.items ≡ nodes) }
    ensures workers { IfOk result (λ all. AreOfWorkers workers all.items) }
{
    let mut all = Vec::with_capacity(alloc, nodes)?;
    for _ in 0..nodes {
        all.push(open_one(alloc, workers)?)?;
    }
    Ok(all)
}

fn open_one(alloc: Global, workers: usize) -> Result<OpenedSlots, Memory>
    requires { (1 ≤ workers) × (workers ≤ 16) }
    ensures { IfOk result (λ slots. slots.workers ≡ workers) }
{
    match Slots::open(alloc, workers) {
        Ok((slots, seats, desk)) => Ok(OpenedSlots { slots, seats, desk }),
        Err(BuildError::Memory(memory)) => Err(memory),
        Err(BuildError::BadShape) => unreachable!(),
    }
}

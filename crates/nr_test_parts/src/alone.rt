// The one worker of one node.
ghost use Rattle.std.specs.Prelude.{◌≡◌, [], length, IfOk};
ghost use Rattle.nr_oplog.specs.Opening.{name_of, nodes_of, places_of};
ghost use Rattle.nr_combiner.specs.Opened.{AreNamed, AreOfWorkers};

use crate::error::HeldError;
use nr_combiner::{NodeHandle, OpenedSlots, ServerName, build};
use nr_entry::Setup;
use nr_oplog::OpenedLog;
use std::alloc::Global;
use std::hash::RandomState;

/// The worker of a node that has no other one, at a log that has no other node.
pub struct Alone<B: ServerName> {
    pub worker: NodeHandle<B>,
}

impl<B: ServerName> Drop for Alone<B> {
    fn drop(self) {
        let Alone { worker: _worker } = self;
    }
}

impl<B: ServerName> Alone<B> {
    /// The first worker of the first node of a log that was opened, which has handed in nothing. Where there are others, they go.
    pub fn new(
        alloc: Global,
        keys: RandomState,
        opened: OpenedLog,
        slots: Vec<OpenedSlots>,
        setup: Setup,
    ) -> Result<Alone<B>, HeldError>
        requires name { name_of opened ≡ B.log }
        requires shape { (nodes_of opened ≡ B.nodes) × (places_of opened ≡ B.places) × (setup.nodes ≡ B.nodes) }
        requires slots { (length slots.items ≡ B.nodes) × AreNamed B.slots slots.items }
        requires workers { AreOfWorkers setup.workers slots.items }
        ensures { IfOk result (λ alone. alone.worker.seat.lane.posted ≡ []) }
    {
        let nodes = build::<B>(alloc, keys, opened, slots, setup)?;
        let Some(workers) = nodes.into_iter().next() else {
            return Err(HeldError::Invalid);
        };
        let Some(worker) = workers.into_iter().next() else {
            return Err(HeldError::Invalid);
        };
        Ok(Alone { worker })
    }
}

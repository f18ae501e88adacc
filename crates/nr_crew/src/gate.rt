// A gate that stops whoever asks once all shall stop.
use nr_service::{Gate, Go, Rings};
use nr_worker_service::SharedHints;

/// Another gate, until all shall stop.
#[derive(Drop)]
pub(crate) struct Stoppable<'g, 'c, G, K> {
    pub(crate) gate: &'g G,
    pub(crate) crew: &'c SharedHints<K>,
}

impl<G: Gate, K: Rings> Gate for Stoppable<'_, '_, G, K> {
    fn turn(&self, node: usize, worker: usize, turn: u64) -> Go {
        if self.crew.is_stopped() {
            return Go::Stop;
        }
        self.gate.turn(node, worker, turn)
    }
}

// Connections for which nothing more comes.
ghost use Rattle.std.specs.Prelude.{[], IfOk};
ghost use Rattle.nr_combiner.specs.Behind.{CutsBehind};
ghost use Rattle.nr_worker.specs.Placed.{open_ones};
ghost use Rattle.nr_worker.specs.Working.{unchanged, CutsOff, Goes};

use crate::worker::Worker;
use nr_combiner::{AskError, ServerName};
use nr_entry::ConnId;
use nr_replica::CutReason;
use std::sync::Wait;

impl<'a, R: Wait, B: ServerName> Worker<'a, R, B> {
    /// Those of its connections for which nothing more comes, since their node cut their queues, and from which bytes are taken yet. A turn tells of a queue that is
    /// cut beside the last bytes that it hands out for it; where none wait as it is cut, this alone tells. It takes the lock once. Linear in the connections, and
    /// logarithmic for each.
    ///
    /// # Errors
    ///
    /// `Memory` where there is no room for them; `Elsewhere` where another node stands behind the lock, which there never is.
    pub fn cut_ones(&self) -> Result<Vec<ConnId>, AskError>
        ensures { IfOk result (λ cut. CutsBehind self.now.worker.node self.now.worker.seat.worker self.now.worker.generation (open_ones self.now.worker.node self.now.seats) [] cut.items) }
    {
        let conns = self
            .seats
            .open_ones(self.alloc, self.worker.shared().node())?;
        let mut cut = Vec::new(self.alloc);
        self.worker.cut_among(self.rt, &conns, &mut cut)?;
        Ok(cut)
    }

    /// Takes no more bytes from a connection. It is told of. Logarithmic.
    pub fn stop(&mut self, serial: u64)
        ensures stopped { CutsOff serial self.old self.new }
        ensures goes { Goes unchanged self.old self.new }
    {
        self.seats.cut(serial, CutReason::Closed);
    }
}

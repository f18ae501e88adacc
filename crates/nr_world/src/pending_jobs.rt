// The jobs that wait at a node's workers are dropped when it falls.
ghost use Rattle.std.specs.Prelude.{length};
ghost use Rattle.nr_world.specs.Forgotten.{AreForgotten};

use crate::worker::WorldWorker;

/// Drops the jobs that these haven't posted.
pub(crate) fn drop_pending(workers: &mut [WorldWorker])
    ensures { AreForgotten (length workers.old) workers.old workers.new }
{
    for worker in workers.iter_mut() {
        worker.pending.clear();
    }
}

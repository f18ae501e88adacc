// The jobs of a connection that are dropped, where it is closed or its node falls, and the number of the first one.
ghost use Rattle.std.specs.Prelude.{◌≡◌, not, filter};
ghost use Rattle.nr_model.specs.Items.{Item, same_connection};
ghost use Rattle.nr_model.specs.Asked.{own_jobs, first_number};
ghost use Rattle.nr_entry.specs.Jobs.{connection_of, items_of};
ghost use Rattle.nr_world.specs.Dropped.{dropped_of, pending_at, posted_at};

use crate::worker::WorldWorker;
use nr_entry::{ConnId, Job};
use nr_replica::Replica;

/// Drops a connection's jobs from those that wait, and gives the number of the first. Linear in those that wait.
pub(crate) fn drop_own(conn: ConnId, waiting: &mut Vec<Job>) -> Option<u64>
    ensures first { result ≡ first_number (own_jobs (connection_of conn) (items_of waiting.old.items)) }
    ensures left { items_of waiting.new.items ≡ filter (λ (job : Item). not (same_connection job.connection (connection_of conn))) (items_of waiting.old.items) }
{
    let first = first_own(conn, waiting);
    waiting.retain(|job| job.conn != conn);
    first
}

/// The number of the first of a connection's jobs among these, where there is one.
pub(crate) fn first_own(conn: ConnId, waiting: &[Job]) -> Option<u64>
    ensures { result ≡ first_number (own_jobs (connection_of conn) (items_of waiting.now)) }
{
    for job in waiting {
        if job.conn == conn {
            return Some(job.number);
        }
    }
    None
}

/// The number of the first of a connection's jobs that its node drops where it falls, where there is one: of those that were lifted, those
/// that workers have posted, and those that they keep, in this order. Linear in these; it takes no memory.
pub(crate) fn first_dropped(conn: ConnId, replica: &Replica, workers: &[WorldWorker]) -> Option<u64>
    ensures { result ≡ first_number (own_jobs (connection_of conn) (dropped_of (items_of replica.now.waiting) workers.now)) }
{
    if let Some(number) = replica.first_waiting(conn) {
        return Some(number);
    }
    if let Some(number) = first_posted(conn, workers) {
        return Some(number);
    }
    first_pending(conn, workers)
}

// Of those that workers have posted.
fn first_posted(conn: ConnId, workers: &[WorldWorker]) -> Option<u64>
    ensures { result ≡ first_number (own_jobs (connection_of conn) (posted_at workers.now)) }
{
    for worker in workers {
        if let Some(number) = worker.first_posted(conn) {
            return Some(number);
        }
    }
    None
}

// Of those that workers keep.
fn first_pending(conn: ConnId, workers: &[WorldWorker]) -> Option<u64>
    ensures { result ≡ first_number (own_jobs (connection_of conn) (pending_at workers.now)) }
{
    for worker in workers {
        if let Some(number) = first_own(conn, &worker.pending) {
            return Some(number);
        }
    }
    None
}

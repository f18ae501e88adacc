// A connection is closed.
ghost use Rattle.std.specs.Prelude.{◌≡◌, ◌<◌, ◌≤◌, ◌+◌, ◌++◌, true, length, is_some};
ghost use Rattle.nr_slots.specs.Seats.{one_if};
ghost use Rattle.nr_model.specs.Keyspace.{last_moment};
ghost use Rattle.nr_entry.specs.Jobs.{items_of};
ghost use Rattle.nr_worker.specs.Placed.{closed_seen, seat_at};
ghost use Rattle.nr_worker.specs.Working.{all_closed, last_here, last_seen, Closes, Goes};

use crate::due::DueJobs;
use crate::open_connections::Closed;
use crate::worker::Worker;
use nr_combiner::{ClosedQueue, ServerName};
use nr_entry::ConnId;
use std::sync::Wait;

// Puts the last job of a connection behind the others, where it has one: in the room that was kept for it, which is let go of.
fn put_last(due: &mut DueJobs, closed: Closed)
    requires room { is_some (closed_seen closed) ≡ true → 0 < due.old.room }
    ensures last { items_of due.new.jobs ≡ items_of due.old.jobs ++ last_seen (closed_seen closed) }
    ensures late { due.new.late ≡ due.old.late + length (last_seen (closed_seen closed)) }
    ensures room { due.new.room + one_if (is_some (closed_seen closed)) ≡ due.old.room }
{
    match closed {
        Closed::Absent => {}
        Closed::Ended => due.give_room(),
        Closed::Last(job) => due.push_last(job),
    }
}

impl<'a, R: Wait, B: ServerName> Worker<'a, R, B> {
    /// Closes the connection of its node with this serial, at a moment in milliseconds, at most 2^53: its seat goes, with the bytes that wait for it, and its last job,
    /// which ends it, waits behind the others, unless its bytes asked for their end before. It takes no memory. Its node, whose lock is taken once, lets go of its
    /// queue: its room comes back, as what this hands on says. Logarithmic.
    pub fn close(&mut self, serial: u64, moment: u64) -> ClosedQueue
        requires in_time { moment ≤ last_moment }
        ensures node { result ≡ record { node = self.old.worker.node; serial = serial } }
        ensures closed { Closes serial moment self.old self.new }
        ensures goes { Goes (all_closed (last_here moment (seat_at serial self.old.seats))) self.old self.new }
    {
        let closed = self.seats.close(serial, moment);
        put_last(&mut self.due, closed);
        let node = self.worker.shared().node();
        self.worker.close(self.rt, ConnId { node, serial })
    }
}

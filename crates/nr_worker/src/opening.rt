// A connection is opened.
ghost use Rattle.std.specs.Prelude.{◌≡◌, ◌<◌, ◌≤◌, ◌+◌, ◌^◌, Some, false, is_some, length, IfOk, OnOk, OnErr};
ghost use Rattle.nr_entry.specs.Jobs.{connection_of};
ghost use Rattle.nr_worker.specs.Seated.{fresh_seat};
ghost use Rattle.nr_worker.specs.Placed.{seat_at, IsPut};
ghost use Rattle.nr_worker.specs.Due.{with_room};
ghost use Rattle.nr_worker.specs.Working.{one_opened, unchanged, Goes, MayHaveClosed, OpensNew};

use crate::due::DueJobs;
use crate::open_connections::OpenConnections;
use crate::worker::Worker;
use nr_blob::Memory;
use nr_combiner::ServerName;
use nr_entry::ConnId;
use nr_node::OpenError;
use std::sync::Wait;

/// Why no connection was opened at a worker.
#[derive(Clone, Copy, Debug, PartialEq, Eq)]
pub enum SeatError {
    /// Its node opened none.
    Unopened(OpenError),
    /// The node gave a number that it had given before, which it never does, and closes the connection again.
    Again,
    /// There is no memory for its seat here, or for its last job: the node closes it again.
    Memory(Memory),
}

// A seat for a connection that was just opened, and room for its last job. Where memory runs out nothing changes. Logarithmic.
fn seat(seats: &mut OpenConnections, due: &mut DueJobs, conn: ConnId) -> Result<(), Memory>
    ensures opened { OnOk result (IsPut conn.serial (Some (fresh_seat (connection_of conn))) seats.old seats.new) }
    ensures count { OnOk result (length seats.new ≤ length seats.old + 1) }
    ensures room { OnOk result (due.new ≡ with_room due.old) }
    ensures same { OnErr result ((seats.new ≡ seats.old) × (due.new ≡ due.old)) }
{
    due.make_room()?;
    match seats.open(conn) {
        Ok(()) => Ok(()),
        Err(memory) => {
            due.give_room();
            Err(memory)
        }
    }
}

// Takes in a connection that was just opened, where its serial is above all before and one more can be counted: a seat, and room for its last job. Where it
// isn't taken in nothing changes. Logarithmic.
fn take_in(
    seats: &mut OpenConnections,
    due: &mut DueJobs,
    next: u64,
    conn: ConnId,
) -> Result<(), SeatError>
    ensures later { OnOk result (next ≤ conn.serial) }
    ensures absent { OnOk result (is_some (seat_at conn.serial seats.old) ≡ false) }
    ensures fits { OnOk result (conn.serial + 1 < 2 ^ 64) }
    ensures opened { OnOk result (IsPut conn.serial (Some (fresh_seat (connection_of conn))) seats.old seats.new) }
    ensures count { OnOk result (length seats.new ≤ length seats.old + 1) }
    ensures room { OnOk result (due.new ≡ with_room due.old) }
    ensures same { OnErr result ((seats.new ≡ seats.old) × (due.new ≡ due.old)) }
{
    if conn.serial < next || seats.is_open(conn.serial) {
        return Err(SeatError::Again);
    }
    if let Some(memory) = Memory::at_last(conn.serial) {
        return Err(SeatError::Memory(memory));
    }
    if let Err(memory) = seat(seats, due, conn) {
        return Err(SeatError::Memory(memory));
    }
    Ok(())
}

impl<'a, R: Wait, B: ServerName> Worker<'a, R, B> {
    /// Opens a connection of its node, which this worker serves, with a seat here, and room for its last job: [`NodeHandle::open`](nr_combiner::NodeHandle::open), three
    /// loads and an entry by serial. None is opened while its node is taken for down ([`Worker::hear_of_node`]). Where it isn't opened nothing changes here, but what was heard of
    /// the node, and that it may have closed it again. Logarithmic.
    pub fn open(&mut self) -> Result<ConnId, SeatError>
        ensures opened { IfOk result (λ conn. OpensNew (connection_of conn) self.old self.new) }
        ensures goes { IfOk result (λ conn. Goes (one_opened (connection_of conn)) self.old self.new) }
        ensures unopened { OnErr result (MayHaveClosed self.old self.new) }
        ensures stands { OnErr result (Goes unchanged self.old self.new) }
        ensures up { OnOk result (self.old.down ≡ false) }
    {
        if self.is_down {
            return Err(SeatError::Unopened(OpenError::Down));
        }
        let (conn, token) = match self.worker.open(self.rt, self.since) {
            Ok(opened) => opened,
            Err(why) => return Err(SeatError::Unopened(why)),
        };
        self.mark.adopt(self.worker.shared().log(), token);
        if let Err(why) = take_in(&mut self.seats, &mut self.due, self.next, conn) {
            self.worker.close(self.rt, conn);
            return Err(why);
        }
        self.next = conn.serial + 1;
        Ok(conn)
    }
}

// What waits for a connection is written to it.
ghost use Rattle.std.specs.Prelude.{◌≡◌, ◌≤◌, is_some, length};
ghost use Rattle.nr_worker.specs.Placed.{are_written, pending_here, seat_at};
ghost use Rattle.nr_worker.specs.Working.{unchanged, Goes, Writes};

use crate::worker::Worker;
use nr_combiner::ServerName;
use std::sync::Wait;

impl<'a, R: Wait, B: ServerName> Worker<'a, R, B> {
    /// Whether the connection of its node with this serial is open here. Logarithmic.
    pub fn is_open(&self, serial: u64) -> bool
        ensures { result ≡ is_some (seat_at serial self.now.seats) }
    {
        self.seats.is_open(serial)
    }

    /// The bytes that were handed out for it and aren't written yet; none where it isn't open here. Logarithmic.
    pub fn pending(&self, serial: u64) -> &[u8]
        ensures { result.now ≡ pending_here (seat_at serial self.now.seats) }
    {
        self.seats.pending(serial)
    }

    /// Whether nothing waits to be written for any connection that is open here. Linear in these.
    pub fn are_written(&self) -> bool
        ensures { result ≡ are_written self.now.seats }
    {
        self.seats.are_written()
    }

    /// So many of these were written, and are let go of; their memory is kept for what its node hands out next. Logarithmic.
    pub fn written(&mut self, serial: u64, count: usize)
        requires { count ≤ length (pending_here (seat_at serial self.old.seats)) }
        ensures written { Writes serial count self.old self.new }
        ensures goes { Goes unchanged self.old self.new }
    {
        self.seats.written(serial, count, &mut self.spares);
    }

    /// No connection is told of any more.
    pub fn forget_told(&mut self)
        ensures { self.new ≡ self.old }
    {
        self.seats.forget_told();
    }

    /// How many bytes waited at most for one of those that are told of, behind what was handed out for it. A hint. Constant.
    pub fn most_waiting(&self) -> usize {
        self.seats.most_waiting()
    }

    /// The serial of a connection for which turns handed something out since this was forgotten last, the first at place 0 and so on; one may be there more than
    /// once. A hint: one may be missing where there was no memory to tell of it. Constant.
    pub fn told(&self, place: usize) -> Option<u64> {
        self.seats.told(place)
    }
}

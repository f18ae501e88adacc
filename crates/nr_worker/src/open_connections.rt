// What a worker keeps of its connections.
ghost use Rattle.std.specs.Prelude.{◌≡◌, ◌==◌, ◌≤◌, ◌+◌, ◌∷◌, [], true, None, Some, map, length, is_some, IfOk, OnOk, OnErr};
ghost use Rattle.std.specs.Option.{option_map};
ghost use Rattle.nr_model.specs.Keyspace.{last_moment};
ghost use Rattle.nr_entry.specs.Jobs.{connection_of, item_of, items_of};
ghost use Rattle.nr_worker.specs.Seated.{cut_off, fresh_seat, with_written, last_job};
ghost use Rattle.nr_worker.specs.Placed.{are_written, open_ones, seat_at, IsPut, listens_here, takes_here, pending_here, FeedsSeat, StopsSeat, closed_seen};
ghost use Rattle.nr_worker.specs.Portions.{portion_of, AcceptsPortions};

use crate::open_connection::OpenConnection;
use nr_blob::Memory;
use nr_entry::{ConnId, Job};
use nr_node::LastPiece;
use nr_replica::{CutReason, Spares};
use std::alloc::Global;
use std::collections::BTreeMap;
use std::marker::Model;

/// What closing a connection came to.
#[derive(Drop)]
pub enum Closed {
    /// It wasn't open.
    Absent,
    /// Its bytes asked for its end before.
    Ended,
    /// Its last job, which ends it.
    Last(Job),
}

/// What a worker keeps of its connections, by their serials.
#[derive(Drop)]
pub struct OpenConnections {
    alloc: Global,
    by_serial: BTreeMap<u64, OpenConnection>,
    // For which serials something was handed out since this was forgotten last, one behind the other; and how many bytes waited at most for one of them behind that.
    // Hints.
    told: Vec<u64>,
    most_waiting: usize,
}

impl Model for OpenConnections {
    ghost use Rattle.nr_worker.specs.Placed.{OpenConnectionsState, coded_seats};

    ghost Value = { OpenConnectionsState };

    ghost coded = { coded_seats };

    ghost view = { λ s. s.by_serial.entries };
}

// Tells of a connection, where there is room for that.
fn tell(told: &mut Vec<u64>, serial: u64) {
    let _ = told.push(serial);
}

impl OpenConnections {
    /// None. It takes no memory.
    pub fn new(alloc: Global) -> OpenConnections
        ensures { result ≡ [] }
    {
        OpenConnections {
            alloc,
            by_serial: BTreeMap::new(alloc),
            told: Vec::new(alloc),
            most_waiting: 0,
        }
    }

    /// A connection that was just opened, in the place of any other of its serial. Logarithmic.
    ///
    /// # Errors
    ///
    /// `Memory` where memory runs out: then nothing changes.
    pub fn open(&mut self, conn: ConnId) -> Result<(), Memory>
        ensures opened { OnOk result (IsPut conn.serial (Some (fresh_seat (connection_of conn))) self.old self.new) }
        ensures count { OnOk result (length self.new ≤ length self.old + 1) }
        ensures same { OnErr result (self.new ≡ self.old) }
    {
        let seat = OpenConnection::new(self.alloc, conn);
        open_at(&mut self.by_serial, conn.serial, seat)
    }

    /// Whether no connection is open here. Constant.
    pub fn is_empty(&self) -> bool
        ensures { result ≡ (length self.now == 0) }
    {
        self.by_serial.is_empty()
    }

    /// Whether a connection is open here. Logarithmic.
    pub fn is_open(&self, serial: u64) -> bool
        ensures { result ≡ is_some (seat_at serial self.now) }
    {
        self.by_serial.contains_key(&serial)
    }

    /// Whether it is open, and bytes are taken from it. Logarithmic.
    pub fn takes(&self, serial: u64) -> bool
        ensures { result ≡ takes_here (seat_at serial self.now) }
    {
        match self.by_serial.get(&serial) {
            Some(seat) => seat.takes(),
            None => false,
        }
    }

    /// Whether it is open, and messages may come for it, since it is subscribed to something. Logarithmic.
    pub fn is_listening(&self, serial: u64) -> bool
        ensures { result ≡ listens_here (seat_at serial self.now) }
    {
        match self.by_serial.get(&serial) {
            Some(seat) => seat.is_listening(),
            None => false,
        }
    }

    /// Whether nothing waits to be written for any connection that is open here. Linear in these.
    pub fn are_written(&self) -> bool
        ensures { result ≡ are_written self.now }
    {
        for (_, seat) in self.by_serial.iter() {
            if !seat.pending().is_empty() {
                return false;
            }
        }
        true
    }

    /// Feeds bytes that came from a connection, as [`OpenConnection::feed`] does. Logarithmic, and linear in the bytes.
    ///
    /// # Errors
    ///
    /// Those of [`OpenConnection::feed`].
    pub fn feed(
        &mut self,
        serial: u64,
        moment: u64,
        bytes: &[u8],
        jobs: &mut Vec<Job>,
    ) -> Result<(), Memory>
        requires taken { takes_here (seat_at serial self.old) ≡ true }
        requires in_time { moment ≤ last_moment }
        ensures fed { OnOk result (FeedsSeat serial moment bytes.now self.old self.new (items_of jobs.old.items) (items_of jobs.new.items)) }
        ensures stopped { OnErr result (StopsSeat serial moment bytes.now self.old self.new (items_of jobs.old.items) (items_of jobs.new.items)) }
        ensures count { length self.new ≡ length self.old }
    {
        feed_at(&mut self.by_serial, serial, moment, bytes, jobs)
    }

    // Puts a piece at its connection's seat, or loses it where that isn't open.
    fn put(&mut self, handed: LastPiece, limit: usize)
        ensures accepts { AcceptsPortions limit (portion_of handed ∷ []) self.old self.new }
        ensures count { length self.new ≡ length self.old }
    {
        let serial = handed.piece.conn.serial;
        tell(&mut self.told, serial);
        let waiting = put_at(&mut self.by_serial, serial, handed, limit);
        self.most_waiting = self.most_waiting.max(waiting);
    }

    /// Puts each piece at its connection's seat, in their order, as [`OpenConnection::take_in`] does; a piece for a connection that isn't open is lost. None
    /// is left, and the vector keeps its memory. These connections are told of too from now on. Logarithmic for each piece, and linear in the bytes.
    #[tactic(auto, using(crate::proofs::Growing::accepting_none, crate::proofs::Growing::accepting_more, crate::proofs::Growing::accepting_all))]
    pub fn put_each(&mut self, pieces: &mut Vec<LastPiece>, limit: usize)
        ensures accepts { AcceptsPortions limit (map portion_of pieces.old.items) self.old self.new }
        ensures none { pieces.new.items ≡ [] }
        ensures count { length self.new ≡ length self.old }
    {
        for piece in pieces.drain(..) {
            self.put(piece, limit);
        }
    }

    /// No connection is told of any more.
    pub fn forget_told(&mut self)
        ensures { self.new ≡ self.old }
    {
        self.told.clear();
        self.most_waiting = 0;
    }

    /// How many bytes waited at most for one of those that are told of, behind what was handed out for it. A hint.
    pub fn most_waiting(&self) -> usize {
        self.most_waiting
    }

    /// The serial of a connection for which something was handed out since this was forgotten last, the first at place 0 and so on; one may be there more than
    /// once. A hint: one of which there was no memory to tell is missing.
    pub fn told(&self, place: usize) -> Option<u64> {
        self.told.get(place).copied()
    }

    /// The bytes that were handed out for a connection and aren't written yet. Logarithmic.
    pub fn pending(&self, serial: u64) -> &[u8]
        ensures { result.now ≡ pending_here (seat_at serial self.now) }
    {
        match self.by_serial.get(&serial) {
            Some(seat) => seat.pending(),
            None => &[],
        }
    }

    /// So many of these were written, and are let go of; with the last their memory is a spare buffer. Logarithmic.
    pub fn written(&mut self, serial: u64, count: usize, spares: &mut Spares)
        requires { count ≤ length (pending_here (seat_at serial self.old)) }
        ensures written { IsPut serial (option_map (with_written count) (seat_at serial self.old)) self.old self.new }
        ensures count { length self.new ≡ length self.old }
    {
        let_go_at(&mut self.by_serial, serial, count, spares);
    }

    /// Takes no more bytes from a connection, as [`OpenConnection::cut`] does. It is told of too from now on. Logarithmic.
    pub fn cut(&mut self, serial: u64, why: CutReason)
        ensures cut { IsPut serial (option_map cut_off (seat_at serial self.old)) self.old self.new }
        ensures count { length self.new ≡ length self.old }
    {
        tell(&mut self.told, serial);
        cut_at(&mut self.by_serial, serial, why);
    }

    /// The connections that are open here, and from which bytes may be taken yet, as connections of this node, in the order of their serials. Linear in those that are
    /// open.
    ///
    /// # Errors
    ///
    /// `Memory` where there is no room for them.
    pub fn open_ones(&self, alloc: Global, node: usize) -> Result<Vec<ConnId>, Memory>
        ensures { IfOk result (λ conns. conns.items ≡ open_ones node self.now) }
    {
        let mut conns = Vec::new(alloc);
        for (serial, seat) in self.by_serial.iter() {
            if seat.takes() {
                conns.push(ConnId {
                    node,
                    serial: *serial,
                })?;
            }
        }
        Ok(conns)
    }

    /// Closes a connection, at a moment in milliseconds, at most 2^53: its seat goes, with the bytes that wait for it. Logarithmic.
    #[tactic(auto, using(crate::proofs::Found::put_by))]
    pub fn close(&mut self, serial: u64, moment: u64) -> Closed
        requires { moment ≤ last_moment }
        ensures closed { closed_seen result ≡ option_map (last_job moment) (seat_at serial self.old) }
        ensures gone { IsPut serial None self.old self.new }
        ensures fewer { is_some (seat_at serial self.old) ≡ true → length self.new + 1 ≡ length self.old }
        ensures count { length self.new ≤ length self.old }
    {
        match self.by_serial.remove(&serial) {
            Some(mut seat) => closing(seat.close(moment)),
            None => Closed::Absent,
        }
    }
}

// A seat stands at a serial. Where memory runs out nothing changes.
#[tactic(auto, using(crate::proofs::Found::put_by))]
fn open_at(
    by_serial: &mut BTreeMap<u64, OpenConnection>,
    serial: u64,
    seat: OpenConnection,
) -> Result<(), Memory>
    ensures opened { OnOk result (IsPut serial (Some seat) by_serial.old.entries by_serial.new.entries) }
    ensures count { OnOk result (length by_serial.new.entries ≤ length by_serial.old.entries + 1) }
    ensures same { OnErr result (by_serial.new.entries ≡ by_serial.old.entries) }
{
    by_serial.insert(serial, seat)?;
    Ok(())
}

// The seat at a serial is fed.
fn feed_at(
    by_serial: &mut BTreeMap<u64, OpenConnection>,
    serial: u64,
    moment: u64,
    bytes: &[u8],
    jobs: &mut Vec<Job>,
) -> Result<(), Memory>
    requires taken { takes_here (seat_at serial by_serial.old.entries) ≡ true }
    requires in_time { moment ≤ last_moment }
    ensures fed { OnOk result (FeedsSeat serial moment bytes.now by_serial.old.entries by_serial.new.entries (items_of jobs.old.items)
        (items_of jobs.new.items)) }
    ensures stopped { OnErr result (StopsSeat serial moment bytes.now by_serial.old.entries by_serial.new.entries (items_of jobs.old.items)
        (items_of jobs.new.items)) }
    ensures count { length by_serial.new.entries ≡ length by_serial.old.entries }
{
    let Some(seat) = by_serial.get_mut(&serial) else {
        // It takes bytes, so it is there.
        unreachable!()
    };
    seat.feed(moment, bytes, jobs)
}

// A piece comes to the seat at its serial. How many bytes wait there behind it.
fn put_at(
    by_serial: &mut BTreeMap<u64, OpenConnection>,
    serial: u64,
    handed: LastPiece,
    limit: usize,
) -> usize
    requires { handed.piece.conn.serial ≡ serial }
    ensures accepts { AcceptsPortions limit (portion_of handed ∷ []) by_serial.old.entries by_serial.new.entries }
    ensures count { length by_serial.new.entries ≡ length by_serial.old.entries }
{
    let Some(seat) = by_serial.get_mut(&serial) else {
        return 0;
    };
    seat.take_in(handed, limit);
    seat.pending().len()
}

// So many bytes of the seat at a serial are let go of.
fn let_go_at(
    by_serial: &mut BTreeMap<u64, OpenConnection>,
    serial: u64,
    count: usize,
    spares: &mut Spares,
)
    requires { count ≤ length (pending_here (seat_at serial by_serial.old.entries)) }
    ensures written { IsPut serial (option_map (with_written count) (seat_at serial by_serial.old.entries)) by_serial.old.entries by_serial.new.entries }
    ensures count { length by_serial.new.entries ≡ length by_serial.old.entries }
{
    let Some(seat) = by_serial.get_mut(&serial) else {
        return;
    };
    seat.written(count, spares);
}

// The seat at a serial takes no more bytes.
fn cut_at(by_serial: &mut BTreeMap<u64, OpenConnection>, serial: u64, why: CutReason)
    ensures cut { IsPut serial (option_map cut_off (seat_at serial by_serial.old.entries)) by_serial.old.entries by_serial.new.entries }
    ensures count { length by_serial.new.entries ≡ length by_serial.old.entries }
{
    let Some(seat) = by_serial.get_mut(&serial) else {
        return;
    };
    seat.cut(why);
}

// A seat was closed, with this last job.
fn closing(job: Option<Job>) -> Closed
    ensures { closed_seen result ≡ Some (option_map (λ job. item_of job) job) }
{
    match job {
        Some(job) => Closed::Last(job),
        None => Closed::Ended,
    }
}

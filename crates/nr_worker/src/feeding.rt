// Bytes come from a connection.
ghost use Rattle.std.specs.Prelude.{◌≡◌, ◌≤◌, true, OnOk, OnErr};
ghost use Rattle.nr_model.specs.Keyspace.{last_moment};
ghost use Rattle.nr_entry.specs.Jobs.{connection_of};
ghost use Rattle.nr_worker.specs.Working.{all_fed, listens_to, takes_from, Feeds, Goes, Stops};

use crate::worker::Worker;
use nr_blob::Memory;
use nr_combiner::ServerName;
use nr_entry::ConnId;
use std::sync::Wait;

impl<'a, R: Wait, B: ServerName> Worker<'a, R, B> {
    /// Whether bytes are taken from a connection: it is of this node and open here, its session hasn't ended, and it isn't cut. Logarithmic.
    pub fn takes(&self, conn: ConnId) -> bool
        ensures { result ≡ takes_from (connection_of conn) self.now }
    {
        conn.node == self.worker.shared().node() && self.seats.takes(conn.serial)
    }

    /// Whether messages may come for a connection: it is of this node and open here, and subscribed to something. Logarithmic.
    pub fn is_listening(&self, conn: ConnId) -> bool
        ensures { result ≡ listens_to (connection_of conn) self.now }
    {
        conn.node == self.worker.shared().node() && self.seats.is_listening(conn.serial)
    }

    /// Feeds bytes that came from a connection, at a moment in milliseconds, at most 2^53. The jobs that they ask for wait behind the others. Logarithmic, and linear
    /// in the bytes.
    ///
    /// # Errors
    ///
    /// `Memory` where memory runs out, or where more than 2^64 - 2 bytes were fed in all: then the connection is cut, and the first of these jobs wait.
    #[tactic(auto, using(crate::proofs::Nourished::on_feeds, crate::proofs::Nourished::on_stops))]
    pub fn feed(&mut self, conn: ConnId, moment: u64, bytes: &[u8]) -> Result<(), Memory>
        requires taken { takes_from (connection_of conn) self.old ≡ true }
        requires in_time { moment ≤ last_moment }
        ensures fed { OnOk result (Feeds conn.serial moment bytes.now self.old self.new) }
        ensures stopped { OnErr result (Stops conn.serial moment bytes.now self.old self.new) }
        ensures goes { Goes (all_fed (record { connection = connection_of conn; moment = moment; bytes = bytes.now })) self.old self.new }
    {
        self.due.feed(&mut self.seats, conn.serial, moment, bytes)
    }
}

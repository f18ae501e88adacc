// What a worker keeps of one connection.
ghost use Rattle.std.specs.Prelude.{◌≡◌, ◌+◌, ◌<◌, ◌≤◌, ◌^◌, ◌↔◌, ◌∷◌, [], true, false, Err, length, is_some, IfErr, IsOk, OnOk, OnErr};
ghost use Rattle.std.specs.Option.{option_map};
ghost use Rattle.nr_model.specs.Keyspace.{last_moment};
ghost use Rattle.nr_entry.specs.Jobs.{connection_of, item_of, items_of};
ghost use Rattle.nr_worker.specs.Portions.{portion_of, Grows};
ghost use Rattle.nr_worker.specs.Seated.{fresh_seat, listens, takes, cut_off, with_bytes, with_written, HasFed, HasStopped, HasAccepted, last_job, closed_seat, has_room, IsFullOrRefused};

use nr_blob::Memory;
use nr_entry::{ConnId, Job};
use nr_node::LastPiece;
use nr_replica::{CutReason, Piece, Spares};
use nr_session::{Session, SessionError};
use nr_taps::WriteBuffer;
use std::alloc::Global;
use std::marker::Model;

/// What a worker keeps of one connection.
#[derive(Drop)]
pub struct OpenConnection {
    session: Session,
    // What was handed out and isn't written yet.
    bytes: WriteBuffer,
    // How many bytes were handed out in all.
    handed: u64,
    // Why no more bytes are taken from it, where that is so.
    cut: Option<CutReason>,
}

impl Model for OpenConnection {
    ghost use Rattle.std.specs.Prelude.{is_some};
    ghost use Rattle.nr_worker.specs.Seated.{OpenConnectionState, coded_seat};

    ghost Value = { OpenConnectionState };

    ghost coded = { coded_seat };

    ghost view = { λ s. record { session = s.session; pending = s.bytes; handed = s.handed; cut = is_some s.cut } };
}

impl OpenConnection {
    /// A connection that was just opened. It takes no memory.
    pub fn new(alloc: Global, conn: ConnId) -> OpenConnection
        ensures { result ≡ fresh_seat (connection_of conn) }
    {
        OpenConnection {
            session: Session::new(alloc, conn),
            bytes: WriteBuffer::new(alloc),
            handed: 0,
            cut: None,
        }
    }

    /// Whether bytes are taken from the connection: its session hasn't ended, and it isn't cut.
    pub fn takes(&self) -> bool
        ensures { result ≡ takes self.now }
    {
        !self.session.has_ended() && self.cut.is_none()
    }

    /// Whether messages may come for the connection, since it is subscribed to something.
    pub fn is_listening(&self) -> bool
        ensures { result ≡ listens self.now }
    {
        self.session.is_subscribed()
    }

    /// Feeds bytes that came from the connection, at a moment in milliseconds, at most 2^53. The jobs that they ask for stand behind those
    /// before. Linear in the bytes.
    ///
    /// # Errors
    ///
    /// `Memory` where memory runs out, or where more than 2^64 - 2 bytes were fed in all: then the connection is cut for that, and the first of these jobs are there,
    /// none of them an end.
    pub fn feed(&mut self, moment: u64, bytes: &[u8], jobs: &mut Vec<Job>) -> Result<(), Memory>
        requires taken { takes self.old ≡ true }
        requires in_time { moment ≤ last_moment }
        ensures fed { OnOk result (HasFed moment bytes.now self.old self.new (items_of jobs.old.items) (items_of jobs.new.items)) }
        ensures stopped { OnErr result (HasStopped moment bytes.now self.old self.new (items_of jobs.old.items) (items_of jobs.new.items)) }
    {
        if let Some(memory) = self.session.last_count(bytes.len()) {
            self.cut(CutReason::Refused(memory));
            return Err(memory);
        }
        match self.session.feed(bytes, moment, jobs) {
            Ok(()) => Ok(()),
            Err(SessionError::Memory(memory)) => {
                self.cut(CutReason::Refused(memory));
                Err(memory)
            }
            // It takes bytes.
            Err(SessionError::Ended) => unreachable!(),
        }
    }

    /// Takes what was handed out for the connection behind the bytes that wait for it. Where none wait the piece's memory is taken over, else
    /// its bytes are copied. A connection that is cut still takes what was handed out for it.
    ///
    /// # Errors
    ///
    /// `Full` exactly where it doesn't begin where the last one ended, where more than `limit` bytes would wait, or where more than 2^64 - 1 were handed out in all;
    /// `Refused` where memory runs out, which it doesn't where none waited. Then it is lost, and the connection is cut for that.
    pub fn accept(&mut self, piece: Piece, limit: usize) -> Result<(), CutReason>
        ensures taken { OnOk result (HasAccepted limit piece.from piece.bytes.items self.old self.new) }
        ensures refused { OnErr result (self.new ≡ cut_off self.old) }
        ensures full { (result ≡ Err CutReason.Full) ↔ (has_room piece.from (length piece.bytes.items) limit self.old ≡ false) }
        ensures causes { IfErr result IsFullOrRefused }
        ensures room { self.old.pending ≡ [] → has_room piece.from (length piece.bytes.items) limit self.old ≡ true → IsOk result }
    {
        if !self.has_room(&piece, limit) {
            self.cut(CutReason::Full);
            return Err(CutReason::Full);
        }
        match self.put(piece) {
            Ok(()) => Ok(()),
            Err(memory) => {
                self.cut(CutReason::Refused(memory));
                Err(CutReason::Refused(memory))
            }
        }
    }

    /// Takes what was handed out, as [`accept`](OpenConnection::accept) does, and cuts the connection behind it where nothing more comes for it. Whether
    /// it was kept.
    pub fn take_in(&mut self, handed: LastPiece, limit: usize) -> bool
        ensures { Grows limit (record { portion = portion_of handed; kept = result } ∷ []) self.old self.new }
    {
        let is_last = handed.is_cut;
        let is_kept = self.accept(handed.piece, limit).is_ok();
        if is_last {
            self.cut(CutReason::Closed);
        }
        is_kept
    }

    // Puts a piece behind the bytes that wait. Where memory runs out nothing changes.
    fn put(&mut self, piece: Piece) -> Result<(), Memory>
        requires { self.old.handed + length piece.bytes.items < 2 ^ 64 }
        ensures put { OnOk result (self.new ≡ with_bytes piece.bytes.items self.old) }
        ensures same { OnErr result (self.new ≡ self.old) }
        ensures some { self.old.pending ≡ [] → IsOk result }
    {
        let count = piece.bytes.len() as u64;
        if let Err((_, memory)) = self.bytes.put(piece.bytes) {
            return Err(memory);
        }
        self.handed += count;
        Ok(())
    }

    // Whether a piece begins where the last one ended, and can be counted, and at most so many bytes wait behind it.
    fn has_room(&self, piece: &Piece, limit: usize) -> bool
        ensures { result ≡ has_room piece.now.from (length piece.now.bytes.items) limit self.now }
    {
        let more = piece.bytes.len();
        piece.from == self.handed
            && self.bytes.len() <= limit
            && more <= limit - self.bytes.len()
            && more as u64 <= u64::MAX - self.handed
    }

    /// Takes no more bytes from the connection, for this reason where there was none before.
    pub fn cut(&mut self, why: CutReason)
        ensures { self.new ≡ cut_off self.old }
    {
        self.cut = Some(self.cut.unwrap_or(why));
    }

    /// Why no more bytes are taken from it, where that is so.
    pub fn why_cut(&self) -> Option<CutReason>
        ensures { is_some result ≡ self.now.cut }
    {
        self.cut
    }

    /// The bytes that were handed out for the connection and aren't written yet.
    pub fn pending(&self) -> &[u8]
        ensures { result.now ≡ self.now.pending }
    {
        self.bytes.bytes()
    }

    /// So many of these were written. They are let go of, and with the last their memory is a spare buffer.
    pub fn written(&mut self, count: usize, spares: &mut Spares)
        requires { count ≤ length self.old.pending }
        ensures { self.new ≡ with_written count self.old }
    {
        self.bytes.drain(count, spares);
    }

    /// Closes the connection, at a moment in milliseconds, at most 2^53: its session lets go of what it keeps. Its last job, which ends it,
    /// unless its bytes asked for their end before.
    pub fn close(&mut self, moment: u64) -> Option<Job>
        requires { moment ≤ last_moment }
        ensures job { option_map (λ job. item_of job) result ≡ last_job moment self.old }
        ensures closed { self.new ≡ closed_seat self.old }
    {
        self.session.close(moment, None)
    }
}

// A connection, as its client and its worker drive it.
ghost use Rattle.std.specs.Prelude.{◌≡◌, ◌<◌, ◌+◌, ◌++◌, length, IfOk, OnOk, OnErr};
ghost use Rattle.nr_model.specs.Asked.{jobs_from};
ghost use Rattle.nr_entry.specs.Jobs.{connection_of, items_of};
ghost use Rattle.nr_session.specs.SessionState.{asked};
ghost use Rattle.nr_taps.specs.Taps.{fresh_tap, order_of, with_written};
ghost use Rattle.nr_test_parts.specs.Clients.{HasOffered, fresh_session};
ghost use Rattle.nr_test_parts.specs.Pieces.{AreHandedOut};

use crate::error::HeldError;
use crate::station::{Station, Turn};
use nr_blob::Memory;
use nr_combiner::ServerName;
use nr_entry::ConnId;
use nr_session::{Session, SessionError};
use nr_taps::{Refused, Tap, meet};
use std::alloc::Global;
use std::cmp::Ordering;
use std::sync::Wait;

/// A connection of a worker: from its bytes to its jobs, and what was handed out for it.
pub struct Client<B: ServerName> {
    pub session: Session,
    pub tap: Tap<B>,
}

impl<B: ServerName> Drop for Client<B> {
    fn drop(self) {
        let Client {
            session: _session,
            tap: _tap,
        } = self;
    }
}

/// What came of a piece that a tap was to take in.
#[derive(Clone, Copy, Debug, PartialEq, Eq)]
pub enum Offered {
    /// Nothing waits.
    Nothing,
    /// It was accepted.
    Accepted,
    /// It was refused: from where on it is, and why.
    Refused(u64, Refused),
}

impl<B: ServerName> Client<B> {
    // The client of a connection that was opened.
    pub(crate) fn new(alloc: Global, conn: ConnId) -> Client<B>
        ensures session { result.session ≡ fresh_session (connection_of conn) }
        ensures tap { result.tap ≡ fresh_tap (connection_of conn) }
    {
        Client {
            session: Session::new(alloc, conn),
            tap: Tap::new(alloc, conn),
        }
    }

    /// Its connection.
    pub fn conn(&self) -> ConnId
        ensures { connection_of result ≡ self.now.tap.connection }
    {
        self.tap.conn()
    }

    /// Sends these bytes: their jobs are added to the next batch of its worker.
    pub fn send(&mut self, station: &mut Station<B>, sent: &[u8]) -> Result<(), HeldError>
        ensures jobs { OnOk result (items_of station.new.jobs.items ≡ items_of station.old.jobs.items
            ++ jobs_from self.old.session.connection self.old.session.next 0 (asked self.old.session.mode self.old.session.rest sent.now).deeds) }
        ensures fed { OnOk result (self.new.session.fed ≡ self.old.session.fed + length sent.now) }
        ensures tap { self.new.tap ≡ self.old.tap }
        ensures worker { station.new.worker ≡ station.old.worker }
    {
        if !self.session.fits(sent.len()) {
            return Err(HeldError::Invalid);
        }
        match self.session.feed(sent, 0, &mut station.jobs) {
            Ok(()) => Ok(()),
            Err(SessionError::Ended) => Err(HeldError::Invalid),
            Err(SessionError::Memory(memory)) => Err(HeldError::Memory(memory)),
        }
    }

    /// Has its tap take in a piece of a connection of this worker, its own or another: at most so many of the bytes that wait.
    pub fn offer<R: Wait>(
        &mut self,
        rt: &R,
        station: &mut Station<B>,
        conn: ConnId,
        most: usize,
    ) -> Result<Offered, Memory>
        requires { 0 < most }
        ensures offered { IfOk result (λ offered. HasOffered most offered self.old.tap self.new.tap) }
        ensures err { OnErr result (self.new.tap ≡ self.old.tap) }
        ensures session { self.new.session ≡ self.old.session }
    {
        let Some((piece, token)) = station.take_piece(rt, conn, most)? else {
            return Ok(Offered::Nothing);
        };
        let log = station.worker().shared().log();
        match self.tap.accept(log, piece, token) {
            Ok(()) => Ok(Offered::Accepted),
            Err((back, _, why)) => Ok(Offered::Refused(back.from, why)),
        }
    }

    /// Has its tap take in the last piece that a turn of its worker handed out, as if it were written at once. How many bytes there were. A turn that failed is
    /// an error.
    pub fn take_in(&mut self, station: &Station<B>, mut turn: Turn<B>) -> Result<usize, HeldError>
        requires { AreHandedOut turn.pieces.items turn.token }
        ensures written { IfOk result (λ count. self.new.tap.written ≡ self.old.tap.written + count) }
        ensures err { OnErr result (self.new.tap ≡ self.old.tap) }
        ensures session { self.new.session ≡ self.old.session }
    {
        turn.turned.combined?;
        turn.turned.collected?;
        let Some(token) = turn.token.take() else {
            return Ok(0);
        };
        let Some(handed) = turn.pieces.pop() else {
            return Ok(0);
        };
        let log = station.worker().shared().log();
        if self.tap.accept(log, handed.piece, token).is_err() {
            return Err(HeldError::Invalid);
        }
        Ok(self.write())
    }

    /// What its tap has taken in and isn't written yet.
    pub fn pending(&self) -> &[u8]
        ensures { result.now ≡ self.now.tap.pending }
    {
        self.tap.pending()
    }

    /// All of that was written. How many bytes there were.
    pub fn write(&mut self) -> usize
        ensures count { result ≡ length self.old.tap.pending }
        ensures written { self.new.tap ≡ with_written (length self.old.tap.pending) self.old.tap }
        ensures session { self.new.session ≡ self.old.session }
    {
        let count = self.tap.pending().len();
        self.tap.written(count);
        count
    }

    /// Which of two taps knows more entries of the log that this worker's node shares; `None` where one of them has taken in nothing.
    pub fn meet(&mut self, station: &Station<B>, other: &mut Client<B>) -> Option<Ordering>
        ensures order { result ≡ order_of self.old.tap.standing other.old.tap.standing }
        ensures own { self.new ≡ self.old }
        ensures other { other.new ≡ other.old }
    {
        meet(
            station.worker().shared().log(),
            &mut self.tap,
            &mut other.tap,
        )
    }
}

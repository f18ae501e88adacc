// The session of a connection: bytes in, jobs out. It owns the reader and the number of the next job, and touches nothing else.
ghost use Rattle.std.specs.Prelude.{◌≡◌, ◌↔◌, ◌+◌, ◌<◌, ◌≤◌, ◌^◌, ◌++◌, [], true, false, None, Some, Err, OnOk, OnErr, IfOk, IfSome, IsNone, IsTrue, is_ok, is_some, cond, not, ◌||◌, unwrap_or, if◌then◌else◌, length};
ghost use Rattle.std.specs.Vec.{vec_capacity};
ghost use Rattle.nr_model.specs.Items.{End};
ghost use Rattle.nr_blob.specs.declared.memory.Memory.{Memory};
ghost use Rattle.nr_model.specs.Keyspace.{last_moment};
ghost use Rattle.nr_model.specs.Asked.{jobs_from};
ghost use Rattle.nr_resp.specs.Frames.{frames_seen};
ghost use Rattle.nr_resp.specs.Stream.{open_at};
ghost use Rattle.nr_entry.specs.Jobs.{connection_of, item_of, items_of};
ghost use Rattle.nr_model.specs.Modes.{is_subscribed, plain};
ghost use Rattle.nr_session.specs.SessionState.{framed, asked, request_jobs, IsFrontOf, AddsFront, ends};

use crate::jobs::{push_close, push_jobs};
use crate::mode::Mode;
use crate::texts::fault_reply;
use nr_blob::Memory;
use nr_entry::{ConnId, Job, JobKind, Update};
use nr_model::fault::Fault;
use nr_resp::{FeedError, Frame, Reader};
use std::alloc::Global;
use std::marker::Model;

/// The most requests of a piece for which a session keeps room: one that pipelines more takes it anew with each piece.
const MOST_KEPT: usize = 16;

// Reads a piece: its frames and the fault that they end with, or the frames before a refusal.
fn read(reader: &mut Reader, piece: &[u8], frames: &mut Vec<Frame>) -> Result<Option<Fault>, Memory>
    requires is_open { reader.old.closed ≡ None }
    requires empty { frames.old.items ≡ [] }
    ensures front { IsFrontOf (frames_seen frames.new.items) (framed reader.old.rest piece.now).frames }
    ensures fault { IfOk result (λ fault. (framed reader.old.rest piece.now).fault ≡ fault) }
    ensures frames { OnOk result (frames_seen frames.new.items ≡ (framed reader.old.rest piece.now).frames) }
    ensures rest { IfOk result (λ fault. fault ≡ None → reader.new ≡ open_at (framed reader.old.rest piece.now).rest) }
{
    match reader.feed(piece, frames) {
        Ok(()) => Ok(None),
        Err(FeedError::Fault(fault)) => Ok(Some(fault)),
        Err(FeedError::Memory(refused)) => Err(refused),
    }
}

// Reads a piece, and adds the jobs that it asks for, numbered on. Says whether they end the connection. The requests come into room that is there.
fn feed_requests(
    alloc: Global,
    conn: ConnId,
    reader: &mut Reader,
    mode: &mut Mode,
    next: &mut u64,
    moment: u64,
    piece: &[u8],
    frames: &mut Vec<Frame>,
    jobs: &mut Vec<Job>,
) -> Result<bool, Memory>
    requires is_open { reader.old.closed ≡ None }
    requires fits { next.old + (length reader.old.rest + length piece.now) + 1 < 2 ^ 64 }
    requires in_time { moment ≤ last_moment }
    ensures jobs { OnOk result (items_of jobs.new.items ≡ items_of jobs.old.items
        ++ jobs_from (connection_of conn) next.old moment (asked mode.old reader.old.rest piece.now).deeds) }
    ensures next { OnOk result (next.new ≡ next.old + length (asked mode.old reader.old.rest piece.now).deeds) }
    ensures mode { OnOk result (mode.new ≡ (asked mode.old reader.old.rest piece.now).mode) }
    ensures ended { IfOk result (λ ended. ended ≡ (asked mode.old reader.old.rest piece.now).ended) }
    ensures rest { IfOk result (λ ended. ended ≡ false → reader.new ≡ open_at (framed reader.old.rest piece.now).rest) }
    ensures numbers { IfOk result (λ ended. ended ≡ false → next.new + length reader.new.rest ≤ next.old + (length reader.old.rest + length piece.now)) }
    ensures err { OnErr result (AddsFront (items_of jobs.old.items) (items_of jobs.new.items) next.old next.new
        (request_jobs (connection_of conn) next.old moment mode.old (framed reader.old.rest piece.now).frames)) }
    ensures no_end { OnErr result (ends (items_of jobs.new.items) ≡ ends (items_of jobs.old.items)) }
{
    frames.clear();
    let fed = read(reader, piece, frames);
    if push_jobs(conn, mode, next, moment, frames, jobs)? {
        return Ok(true);
    }
    match fed? {
        None => Ok(false),
        Some(fault) => {
            push_close(conn, *next, moment, Some(fault_reply(alloc, fault)?), jobs)?;
            *next += 1;
            Ok(true)
        }
    }
}

// Lets go of the requests that are left, and of room for more than are kept.
fn trim(alloc: Global, frames: &mut Vec<Frame>)
    ensures empty { frames.new.items ≡ [] }
    ensures few { vec_capacity frames.new ≤ 16 }
{
    if frames.capacity() > MOST_KEPT {
        *frames = Vec::new(alloc);
    } else {
        frames.clear();
    }
}

/// Why a session took no bytes.
#[derive(Clone, Copy, Debug, PartialEq, Eq)]
pub enum SessionError {
    /// The connection has ended. Nothing changes.
    Ended,
    /// There was no memory left. The session has ended.
    Memory(Memory),
}

impl From<Memory> for SessionError {
    ghost use Rattle.std.specs.Prelude.{◌≡◌};
    ghost use Rattle.nr_session.specs.declared.session.SessionError.TheVariants as errors;

    ghost from_gives = { λ memory e. e ≡ errors.Memory memory };

    fn from(memory: Memory) -> SessionError {
        SessionError::Memory(memory)
    }
}

// Where a connection is in its life.
#[derive(Clone, Copy, Debug, PartialEq, Eq)]
enum Life {
    /// It takes bytes.
    Open,
    /// It has ended, and its end is among its jobs.
    GaveEnd,
    /// It was closed or ran out of memory, and its end isn't among its jobs.
    Cut,
}

/// The session of a connection: it turns the bytes that come into jobs.
#[derive(Drop)]
pub struct Session {
    alloc: Global,
    conn: ConnId,
    reader: Reader,
    mode: Mode,
    next: u64,
    // How many bytes it was fed: at least the next number and the bytes that are kept, while it takes bytes.
    fed: u64,
    life: Life,
    lost: Option<u64>,
    fell: bool,
    // Room for the requests of a piece.
    frames: Vec<Frame>,
}

impl Model for Session {
    ghost use Rattle.std.specs.Prelude.{◌≡◌, ◌+◌, ◌≤◌, None, [], length};
    ghost use Rattle.std.specs.Vec.{vec_capacity};
    ghost use Rattle.nr_entry.specs.Jobs.{connection_of};
    ghost use Rattle.nr_session.specs.declared.session.Life.TheVariants.{Open};
    ghost use Rattle.nr_session.specs.SessionState.{SessionState, coded_session};
    ghost use Rattle.nr_session.specs.Lives.{has_ended, gave_end};

    ghost Value = { SessionState };

    ghost coded = { coded_session };

    ghost view = { λ s. record { connection = connection_of s.conn; rest = s.reader.rest; mode = s.mode; next = s.next; fed = s.fed; ended = has_ended s.life; gave_end = gave_end s.life; lost = s.lost; fell = s.fell } };

    ghost invariant = { λ s. (s.life ≡ Open → (s.reader.closed ≡ None) × (s.next + length s.reader.rest ≤ s.fed))
        × ((vec_capacity s.frames ≤ 16) × (s.frames.items ≡ [])) };
}

impl Session {
    pub fn new(alloc: Global, conn: ConnId) -> Self
        ensures { result ≡ record { connection = connection_of conn; rest = []; mode = plain; next = 0; fed = 0; ended = false; gave_end = false; lost = None; fell = false } }
    {
        Session {
            alloc,
            conn,
            reader: Reader::new(alloc),
            mode: Mode::new(alloc),
            next: 0,
            fed: 0,
            life: Life::Open,
            lost: None,
            fell: false,
            frames: Vec::new(alloc),
        }
    }

    /// Whether it takes no more bytes.
    pub fn has_ended(&self) -> bool
        ensures { result ≡ self.now.ended }
    {
        self.life != Life::Open
    }

    /// Whether its connection is subscribed to something, by all that it was fed. Constant.
    pub fn is_subscribed(&self) -> bool
        ensures { result ≡ is_subscribed self.now.mode }
    {
        self.mode.is_subscribed()
    }

    /// Whether so many more bytes can be counted: the count of all that it was fed goes up to 2^64 - 2.
    pub fn fits(&self, bytes: usize) -> bool
        ensures { IsTrue result ↔ (self.now.fed + bytes + 1 < 2 ^ 64) }
    {
        (bytes as u64) < u64::MAX - self.fed
    }

    /// Where so many more bytes bring the count of all that it was fed to its end, 2^64 - 1, what that comes to: want of memory.
    pub fn last_count(&self, bytes: usize) -> Option<Memory>
        ensures { IsNone result ↔ (self.now.fed + bytes + 1 < 2 ^ 64) }
    {
        Memory::at_last(self.fed.saturating_add(bytes as u64))
    }

    /// Takes bytes, and adds the jobs that they ask for, numbered on, each at the moment, in milliseconds, at most 2^53. A fault's error is
    /// the reply of a close.
    ///
    /// # Errors
    ///
    /// `Ended`, and nothing changes; or `Memory`, and the session has ended: the jobs of the requests before are there, none of them
    /// an end, and the next number stands behind them.
    pub fn feed(
        &mut self,
        bytes: &[u8],
        moment: u64,
        jobs: &mut Vec<Job>,
    ) -> Result<(), SessionError>
        requires fits { self.old.ended ≡ false → self.old.fed + length bytes.now + 1 < 2 ^ 64 }
        requires in_time { moment ≤ last_moment }
        ensures jobs { OnOk result (items_of jobs.new.items ≡ items_of jobs.old.items
            ++ jobs_from self.old.connection self.old.next moment (asked self.old.mode self.old.rest bytes.now).deeds) }
        ensures next { OnOk result (self.new.next ≡ self.old.next + length (asked self.old.mode self.old.rest bytes.now).deeds) }
        ensures fed { OnOk result (self.new.fed ≡ self.old.fed + length bytes.now) }
        ensures mode { OnOk result (self.new.mode ≡ (asked self.old.mode self.old.rest bytes.now).mode) }
        ensures goes_on { OnOk result (self.new.ended ≡ (asked self.old.mode self.old.rest bytes.now).ended) }
        ensures gave_end { self.new.gave_end ≡ (if is_ok result then (asked self.old.mode self.old.rest bytes.now).ended else self.old.gave_end) }
        ensures rest { OnOk result (self.new.ended ≡ false → self.new.rest ≡ (framed self.old.rest bytes.now).rest) }
        ensures numbers { OnOk result (self.new.ended ≡ false
            → self.new.next + length self.new.rest ≤ self.old.next + (length self.old.rest + length bytes.now)) }
        ensures connection { self.new.connection ≡ self.old.connection }
        ensures lost { self.new.lost ≡ self.old.lost }
        ensures fell { self.new.fell ≡ self.old.fell }

        ensures ended { (result ≡ Err SessionError.Ended) ↔ (self.old.ended ≡ true) }
        ensures unchanged { result ≡ Err SessionError.Ended → (self.new ≡ self.old) × (jobs.new.items ≡ jobs.old.items) }
        ensures memory { (memory : Memory) → result ≡ Err (SessionError.Memory memory) → (self.new.ended ≡ true)
            × AddsFront (items_of jobs.old.items) (items_of jobs.new.items) self.old.next self.new.next
            (request_jobs self.old.connection self.old.next moment self.old.mode (framed self.old.rest bytes.now).frames) }
        ensures no_end { (memory : Memory) → result ≡ Err (SessionError.Memory memory) → ends (items_of jobs.new.items) ≡ ends (items_of jobs.old.items) }
    {
        if self.has_ended() {
            return Err(SessionError::Ended);
        }
        let fed = feed_requests(
            self.alloc,
            self.conn,
            &mut self.reader,
            &mut self.mode,
            &mut self.next,
            moment,
            bytes,
            &mut self.frames,
            jobs,
        );
        trim(self.alloc, &mut self.frames);
        match fed {
            Ok(true) => {
                self.fed += bytes.len() as u64;
                self.life = Life::GaveEnd;
                Ok(())
            }
            Ok(false) => {
                self.fed += bytes.len() as u64;
                Ok(())
            }
            Err(refused) => {
                self.life = Life::Cut;
                Err(SessionError::Memory(refused))
            }
        }
    }

    /// The number of the first of its jobs that a fall of its node dropped, where one was dropped.
    pub fn lost(&self) -> Option<u64>
        ensures { result ≡ self.now.lost }
    {
        self.lost
    }

    /// Whether its node fell while the connection's queue wasn't cut.
    pub fn fell(&self) -> bool
        ensures { result ≡ self.now.fell }
    {
        self.fell
    }

    /// Its node falls: the number of the first of its jobs that were dropped, and whether its connection's queue was cut before. A number
    /// that was noted at an earlier fall stays.
    pub fn fall(&mut self, dropped: Option<u64>, is_cut: bool)
        ensures { self.new ≡ record self.old { lost = cond (is_some self.old.lost) self.old.lost dropped; fell = self.old.fell || not is_cut } }
    {
        if self.lost.is_none() {
            self.lost = dropped;
        }
        self.fell = self.fell || !is_cut;
    }

    /// Ends the session, and lets go of the bytes and the queued commands that it keeps. The close has no reply, and the number of the first
    /// job that was dropped, else the next; there is none exactly where the session gave an end and nothing was dropped.
    pub fn close(&mut self, moment: u64, dropped: Option<u64>) -> Option<Job>
        requires in_time { moment ≤ last_moment }
        ensures none { IsNone result ↔ ((self.old.gave_end ≡ true) × (dropped ≡ None)) }
        ensures job { IfSome result (λ job. item_of job
            ≡ record { connection = self.old.connection; number = unwrap_or dropped self.old.next; moment = moment; deed = End None }) }
        ensures ended { self.new ≡ record self.old { rest = []; mode = plain; ended = true } }
    {
        self.reader = Reader::new(self.alloc);
        self.mode = Mode::new(self.alloc);
        self.frames = Vec::new(self.alloc);
        if self.life == Life::GaveEnd && dropped.is_none() {
            return None;
        }
        if self.life == Life::Open {
            self.life = Life::Cut;
        }
        Some(Job {
            conn: self.conn,
            number: dropped.unwrap_or(self.next),
            moment,
            kind: JobKind::Update(Update::Close(None)),
        })
    }
}

// The sessions of a node's connections.
ghost use Rattle.std.specs.Prelude.{◌≡◌, ◌<◌, ◌∷◌, ◌++◌, [], false, not, Option, OnOk, filter, length, option_to_list, slice_index_or, slice_set};
ghost use Rattle.nr_model.specs.Items.{Item, same_connection};
ghost use Rattle.nr_model.specs.Asked.{own_jobs};
ghost use Rattle.nr_model.specs.Nodes.Steps.{close_job};
ghost use Rattle.nr_entry.specs.Jobs.{connection_of, items_of};
ghost use Rattle.nr_session.specs.SessionState.{SessionState};
ghost use Rattle.nr_replica.specs.Members.{Member};
ghost use Rattle.nr_world.specs.Dropped.{fallen_session};
ghost use Rattle.nr_world.specs.Served.{client_seen};
ghost use Rattle.nr_world.specs.BySerial.{fresh_session, closed_session};
ghost use Rattle.nr_world.specs.Fed.{IsFed};

use crate::session_feeds::{close_session, feed_session};
use nr_blob::Memory;
use nr_entry::{ConnId, Job};
use nr_session::Session;
use std::alloc::Global;
use std::collections::BTreeMap;
use std::marker::Model;

/// The sessions of a node's connections, by serial. One that was closed takes no memory.
#[derive(Drop)]
pub(crate) struct Sessions {
    count: usize,
    by_serial: BTreeMap<u64, Session>,
}

impl Model for Sessions {
    ghost use Rattle.std.specs.Prelude.{List};
    ghost use Rattle.nr_session.specs.SessionState.{SessionState};
    ghost use Rattle.nr_world.specs.BySerial.{coded_sessions, sessions_of};

    ghost Value = { List SessionState };

    ghost coded = { coded_sessions };

    ghost view = { λ s. sessions_of s.count s.by_serial.entries };
}

impl Sessions {
    /// None. It takes no memory.
    pub(crate) fn new(alloc: Global) -> Sessions
        ensures { result ≡ [] }
    {
        Sessions {
            count: 0,
            by_serial: BTreeMap::new(alloc),
        }
    }

    /// How many were ever opened.
    pub(crate) fn len(&self) -> usize
        ensures { result ≡ length self.now }
    {
        self.count
    }

    /// Opens the next one. Logarithmic in those that aren't closed.
    pub(crate) fn open(&mut self, alloc: Global, conn: ConnId) -> Result<(), Memory>
        requires next { conn.serial ≡ length self.old }
        ensures { OnOk result (self.new ≡ self.old ++ fresh_session (connection_of conn) ∷ []) }
    {
        if let Some(memory) = Memory::at_last(self.count as u64) {
            return Err(memory);
        }
        self.by_serial
            .insert(conn.serial, Session::new(alloc, conn))?;
        self.count += 1;
        Ok(())
    }

    /// Whether one takes no more bytes.
    pub(crate) fn has_ended(&self, serial: usize) -> bool
        requires { serial < length self.now }
        ensures { (d : SessionState) → result ≡ (slice_index_or self.now serial d).ended }
    {
        match self.by_serial.get(&(serial as u64)) {
            Some(session) => session.has_ended(),
            None => true,
        }
    }

    /// Whether its node fell while its queue wasn't cut. One that was closed has forgotten it.
    pub(crate) fn fell(&self, serial: usize) -> bool
        requires { serial < length self.now }
        ensures { (d : SessionState) → result ≡ (slice_index_or self.now serial d).fell }
    {
        match self.by_serial.get(&(serial as u64)) {
            Some(session) => session.fell(),
            None => false,
        }
    }

    /// The node of one that isn't closed falls: the number of the first of its jobs that were dropped, and whether its queue was cut before.
    /// Logarithmic.
    pub(crate) fn fall(&mut self, serial: usize, dropped: Option<u64>, is_cut: bool)
        requires is_there { serial < length self.old }
        requires unclosed { (d : SessionState) → (slice_index_or self.old serial d).ended ≡ (slice_index_or self.old serial d).gave_end }
        ensures { (d : SessionState) → self.new ≡ slice_set self.old serial (fallen_session dropped is_cut (slice_index_or self.old serial d)) }
    {
        let key = serial as u64;
        // One that isn't closed has its session.
        let Some(session) = self.by_serial.get_mut(&key) else {
            return;
        };
        session.fall(dropped, is_cut);
    }

    /// Feeds bytes to one that takes them: the jobs that they ask for wait behind the others. Linear in the bytes and these jobs.
    pub(crate) fn feed(
        &mut self,
        serial: usize,
        milliseconds: u64,
        bytes: &[u8],
        pending: &mut Vec<Job>,
    ) -> Result<(), Memory>
        requires is_there { serial < length self.old }
        requires going { (d : SessionState) → (slice_index_or self.old serial d).ended ≡ false }
        ensures others { (d : SessionState) → OnOk result (self.new ≡ slice_set self.old serial (slice_index_or self.new serial d)) }
        ensures fed { (d : SessionState) → OnOk result (IsFed milliseconds bytes.now (slice_index_or self.old serial d) (slice_index_or self.new serial d)
            (items_of pending.old.items) (items_of pending.new.items)) }
    {
        // One that takes bytes isn't closed.
        let Some(session) = self.by_serial.get_mut(&(serial as u64)) else {
            unreachable!()
        };
        feed_session(session, milliseconds, bytes, pending)?;
        Ok(())
    }

    /// Closes one: the jobs of its connection that wait are dropped, and that of its end, if it needs one, waits behind the others. Its
    /// memory goes. Linear in the jobs that wait.
    pub(crate) fn close(
        &mut self,
        conn: ConnId,
        milliseconds: u64,
        pending: &mut Vec<Job>,
    ) -> Result<(), Memory>
        requires is_there { conn.serial < length self.old }
        requires named { (d : SessionState) → (slice_index_or self.old conn.serial d).connection ≡ connection_of conn }
        requires unclosed { (d : SessionState) → (slice_index_or self.old conn.serial d).ended ≡ (slice_index_or self.old conn.serial d).gave_end }
        ensures closed { OnOk result (self.new ≡ slice_set self.old conn.serial closed_session) }
        ensures jobs { (d : SessionState) → (member : Member) → OnOk result (items_of pending.new.items
            ≡ filter (λ (job : Item). not (same_connection job.connection (connection_of conn))) (items_of pending.old.items)
            ++ option_to_list (close_job (client_seen (slice_index_or self.old conn.serial d) member) (connection_of conn) milliseconds
            (own_jobs (connection_of conn) (items_of pending.old.items)))) }
    {
        // One that isn't closed has its session.
        let Some(mut session) = self.by_serial.remove(&conn.serial) else {
            unreachable!()
        };
        close_session(&mut session, conn, milliseconds, pending)?;
        Ok(())
    }
}

// Which clients a turn looks at. Nothing that is proved rests on it: a client that it misses is found when all are looked at.
ghost use Rattle.std.specs.Prelude.{◌≡◌};
ghost use Rattle.nr_service.specs.Sweeps.{turns_between};

use crate::backend::Backend;
use crate::client::Client;
use crate::poller::{Poller, Ready};
use crate::stream::Stream;
use nr_entry::ConnId;
use std::alloc::Global;
use std::collections::BTreeMap;

// All clients are looked at in one of so many turns and one,
const TURNS: u32 = 1_023;

// and behind so many waits that nothing ended.
const WAITS: u32 = 16;

/// Where clients stand in their list, and which of them are looked at.
#[derive(Drop)]
pub(crate) struct Visits {
    // Where each stands, by its connection, and by the place of its stream. So many are noted.
    by_conn: BTreeMap<ConnId, usize>,
    by_stream: BTreeMap<usize, usize>,
    noted: usize,
    // The places of those that are looked at, in order, each once.
    listed: Vec<usize>,
    // Who is looked at in the next turn too.
    again: Vec<ConnId>,
    // All are looked at in the next turn, and how many waits that nothing ended there may be yet before that.
    is_due: bool,
    waits: u32,
}

impl Visits {
    pub(crate) fn new(alloc: Global) -> Visits {
        Visits {
            by_conn: BTreeMap::new(alloc),
            by_stream: BTreeMap::new(alloc),
            noted: 0,
            listed: Vec::new(alloc),
            again: Vec::new(alloc),
            is_due: true,
            waits: WAITS,
        }
    }

    // Notes where a client stands. Where there is no room for that, all are noted once more, and looked at.
    fn note<S: Stream>(&mut self, client: &Client<S>, place: usize) {
        let by_conn = self.by_conn.insert(client.conn, place);
        let by_stream = self.by_stream.insert(client.stream.place(), place);
        if by_conn.is_err() || by_stream.is_err() {
            self.noted = 0;
            self.is_due = true;
        }
    }

    // Lists the one at this place.
    fn list(&mut self, place: usize) {
        if self.listed.push(place).is_err() {
            self.is_due = true;
        }
    }

    // Lists the client of a connection.
    fn list_conn(&mut self, conn: ConnId) {
        if let Some(place) = self.by_conn.get(&conn).copied() {
            self.list(place);
        }
    }

    // Notes and lists the clients behind those that are noted.
    fn note_new<S: Stream>(&mut self, clients: &[Client<S>]) {
        let first = self.noted;
        self.noted = clients.len();
        for place in first..clients.len() {
            self.note(&clients[place], place);
            self.list(place);
        }
    }

    // Lists those of which the device tells that they are ready. Whether every one may be.
    fn list_ready<S: Stream, D: Poller<S>>(&mut self, device: &D) -> bool {
        for place in 0..usize::MAX {
            match device.ready(place) {
                Ready::Every => return true,
                Ready::One(stream) => {
                    if let Some(place) = self.by_stream.get(&stream).copied() {
                        self.list(place);
                    }
                }
                Ready::NoMore => return false,
            }
        }
        false
    }

    // Lists those that are looked at once more.
    fn list_again(&mut self) {
        for place in 0..self.again.len() {
            if let Some(conn) = self.again.get(place).copied() {
                self.list_conn(conn);
            }
        }
        self.again.clear();
    }

    // In order, each once.
    fn arrange(&mut self) {
        self.listed.sort_unstable();
        self.listed.dedup();
    }

    /// A turn begins: who is new, who is ready, and who is to be looked at once more. Whether all are looked at. Logarithmic for each of these.
    pub(crate) fn begin<S: Stream, D: Poller<S>>(
        &mut self,
        device: &D,
        clients: &[Client<S>],
    ) -> bool {
        self.listed.clear();
        self.note_new(clients);
        let is_every = self.list_ready(device);
        self.list_again();
        self.arrange();
        is_every | self.is_due
    }

    /// All are looked at. In at most so many turns they are again.
    pub(crate) fn look_at_all(&mut self) -> u32
        ensures { result ≡ turns_between }
    {
        self.is_due = false;
        self.waits = WAITS;
        TURNS
    }

    /// Those that the last work of what answers changed are looked at too.
    pub(crate) fn hear<A: Backend>(&mut self, answers: &A) {
        for place in 0..usize::MAX {
            match answers.told(place) {
                Some(conn) => self.list_conn(conn),
                None => break,
            }
        }
        self.arrange();
    }

    /// One is looked at in the next turn too.
    pub(crate) fn come_again(&mut self, conn: ConnId) {
        if self.again.push(conn).is_err() {
            self.is_due = true;
        }
    }

    /// Those that are listed are looked at in the next turn too. Linear in these.
    pub(crate) fn put_off<S>(&mut self, clients: &[Client<S>]) {
        for visit in 0..self.listed.len() {
            if let Some(client) = clients.get(self.place(visit)) {
                self.come_again(client.conn);
            }
        }
    }

    /// All are looked at in the next turn.
    pub(crate) fn put_off_all(&mut self) {
        self.is_due = true;
    }

    /// A wait has ended: where nothing ended it so often, and there was no work at hand, all are looked at.
    pub(crate) fn waited<S: Stream, D: Poller<S>>(&mut self, device: &D, is_busy: bool) {
        if !is_busy && device.ready(0) == Ready::NoMore {
            self.waits = self.waits.saturating_sub(1);
        }
        if self.waits == 0 {
            self.is_due = true;
        }
    }

    /// How many are listed.
    pub(crate) fn count(&self) -> usize {
        self.listed.len()
    }

    /// Where the one stands that is listed as this one, from 0 on.
    pub(crate) fn place(&self, visit: usize) -> usize {
        self.listed.get(visit).copied().unwrap_or(usize::MAX)
    }

    /// A client is let go of.
    pub(crate) fn forget<S: Stream>(&mut self, client: &Client<S>) {
        self.by_conn.remove(&client.conn);
        self.by_stream.remove(&client.stream.place());
        self.noted = self.noted.saturating_sub(1);
    }

    /// Another stands at its place now.
    pub(crate) fn moved<S: Stream>(&mut self, clients: &[Client<S>], place: usize) {
        if place < clients.len() {
            self.note(&clients[place], place);
        }
    }
}

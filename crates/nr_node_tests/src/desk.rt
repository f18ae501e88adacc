// A worker with the client that it serves, and what they do in turn.
ghost use Rattle.std.specs.Prelude.{◌<◌};

use crate::asserted::{holds, same};
use nr_blob::Memory;
use nr_combiner::{AskError, Lifts, ServerName};
use nr_node::{OpenError, Round};
use nr_replica::Spares;
use nr_test_parts::{Client, Offered, Station};
use std::process::Abort;
use std::sync::Wait;

/// How many bytes a tap takes in at once where no test says it.
pub(crate) const MANY: usize = 1 << 20;

/// A worker, and its client.
#[derive(Drop)]
pub(crate) struct Desk<B: ServerName> {
    pub(crate) station: Station<B>,
    pub(crate) client: Client<B>,
}

/// What a client and its worker do, and what has to come of it.
#[derive(Clone, Copy)]
pub(crate) enum Act {
    /// The client sends this, and the worker hands it in and takes a turn of the combiner, in which it is executed.
    Sends(&'static [u8]),
    /// The same, byte by byte.
    SendsEach(&'static [u8]),
    /// The same, where the client sends it so often, in one batch.
    SendsMany(&'static [u8], usize),
    /// So often the client sends `INCR n`, each in a batch of its own, and gets a number.
    Counts(u32),
    /// The client sends this, and the worker hands it in.
    HandsIn(&'static [u8]),
    /// The worker takes a turn of the combiner, of which this comes.
    Combines(Round),
    /// So often the worker takes a turn of the combiner, and each time an entry has to wait.
    IsHeldUp(u32),
    /// Whether the worker is told that what it handed in was executed, or nothing.
    IsTold(bool),
    /// The worker is told that its node is down.
    IsLost,
    /// A worker that counts another generation than its node gets no turn and no pieces, and isn't told which queues are cut.
    IsAnother,
    /// The next entry that the worker's node applies is refused, as where memory runs out.
    Refuses,
    /// Just these bytes wait for the client, and are written.
    Gets(&'static [u8]),
    /// The same, and they are taken in byte by byte.
    GetsEach(&'static [u8]),
    /// At least and at most so many bytes wait for the client, and are written.
    GetsLength(usize, usize),
    /// The client sends this, and once it is executed gets that.
    Asks(&'static [u8], &'static [u8]),
    /// The client's connection is closed.
    Closes,
    /// A new client is served in the place of this one.
    Opens,
    /// No connection is opened, for this reason.
    OpensNone(OpenError),
    /// So often the client's connection is closed, twice, and another one is opened.
    Reopens(u32),
}

impl<B: ServerName> Desk<B> {
    /// A worker with a client of a new connection.
    pub(crate) fn new<R: Wait + Abort>(rt: &R, mut station: Station<B>) -> Desk<B> {
        let client = station.open(rt).ok().expect(rt, "a connection is opened");
        Desk { station, client }
    }

    /// One after the other.
    pub(crate) fn all<R: Wait + Abort>(&mut self, rt: &R, acts: &[Act]) {
        for act in acts {
            self.does(rt, *act);
        }
    }

    /// One of them.
    pub(crate) fn does<R: Wait + Abort>(&mut self, rt: &R, act: Act) {
        match act {
            Act::Sends(sent) => self.sends(rt, sent),
            Act::SendsEach(sent) => self.sends_each(rt, sent),
            Act::SendsMany(sent, count) => self.sends_many(rt, sent, count),
            Act::Counts(count) => self.counts(rt, count),
            Act::HandsIn(sent) => self.hands_in(rt, sent),
            Act::Combines(round) => self.combines(rt, round),
            Act::IsHeldUp(turns) => self.is_held_up(rt, turns),
            Act::IsTold(told) => self.is_told(rt, told),
            Act::IsLost => self.is_lost(rt),
            Act::IsAnother => self.is_another(rt),
            Act::Refuses => self.station.refuse(rt),
            Act::Gets(wanted) => self.gets(rt, wanted),
            Act::GetsEach(wanted) => self.gets_each(rt, wanted),
            Act::GetsLength(least, most) => self.gets_length(rt, least, most),
            Act::Asks(sent, wanted) => self.asks(rt, sent, wanted),
            Act::Closes => self.closes(rt),
            Act::Opens => self.opens(rt),
            Act::OpensNone(why) => self.opens_none(rt, why),
            Act::Reopens(count) => self.reopens(rt, count),
        }
    }

    /// The client sends this, and the worker hands it in.
    pub(crate) fn hands_in<R: Abort>(&mut self, rt: &R, sent: &[u8]) {
        self.client
            .send(&mut self.station, sent)
            .expect(rt, "memory");
        self.station.post().expect(rt, "a batch is handed in");
    }

    /// The same, and then it is executed.
    pub(crate) fn sends<R: Wait + Abort>(&mut self, rt: &R, sent: &[u8]) {
        self.hands_in(rt, sent);
        self.combines(rt, Round::Done);
        self.is_told(rt, true);
    }

    fn sends_each<R: Wait + Abort>(&mut self, rt: &R, sent: &[u8]) {
        for byte in sent {
            self.sends(rt, &[*byte]);
        }
    }

    fn sends_many<R: Wait + Abort>(&mut self, rt: &R, sent: &[u8], count: usize) {
        for _ in 0..count {
            self.client
                .send(&mut self.station, sent)
                .expect(rt, "memory");
        }
        self.sends(rt, b"");
    }

    fn counts<R: Wait + Abort>(&mut self, rt: &R, count: u32) {
        for _ in 0..count {
            self.sends(rt, b"INCR n\r\n");
            self.gets_length(rt, b":1\r\n".len(), MANY);
        }
    }

    fn combines<R: Wait + Abort>(&self, rt: &R, round: Round) {
        holds(rt, "a turn is taken", self.station.combine(rt) == Ok(round));
    }

    fn is_held_up<R: Wait + Abort>(&self, rt: &R, turns: u32) {
        for _ in 0..turns {
            self.combines(rt, Round::NotYet);
        }
    }

    pub(crate) fn is_told<R: Abort>(&mut self, rt: &R, told: bool) {
        let wanted = if told { Some(true) } else { None };
        holds(
            rt,
            "the batch is answered",
            self.station.collect() == wanted,
        );
    }

    fn is_lost<R: Abort>(&mut self, rt: &R) {
        holds(
            rt,
            "the batch is lost",
            self.station.collect() == Some(false),
        );
    }

    /// What came of at most so many of the bytes that wait for the client, where its tap was to take them in.
    pub(crate) fn offer<R: Wait + Abort>(&mut self, rt: &R, most: usize) -> Result<Offered, Memory>
        requires { 0 < most }
    {
        let conn = self.client.conn();
        self.client.offer(rt, &mut self.station, conn, most)
    }

    /// Lets its tap take in at most so many of the bytes that wait for it. Whether there were any.
    pub(crate) fn takes<R: Wait + Abort>(&mut self, rt: &R, most: usize) -> bool
        requires { 0 < most }
    {
        let offered = self.offer(rt, most);
        holds(
            rt,
            "what waits is taken in",
            offered == Ok(Offered::Accepted) || offered == Ok(Offered::Nothing),
        );
        offered == Ok(Offered::Accepted)
    }

    fn is_another<R: Wait + Abort>(&mut self, rt: &R) {
        let alloc = *self.station.jobs.allocator();
        let conn = self.client.conn();
        let node = self.station.worker.shared();
        let (mut spares, mut pieces) = (Spares::new(alloc), Vec::new(alloc));
        let turned = node.turn(rt, 0, 77, Lifts::All, 8, &mut spares, &mut pieces);
        holds(rt, "no turn is taken", turned.is_none());
        let got = node.collect_pieces(rt, 0, 77, 8, &mut spares, &mut pieces);
        holds(rt, "nothing is handed out", got.is_none());
        holds(rt, "no piece came", pieces.is_empty());
        let mut cut = Vec::new(alloc);
        let asked = node.cut_among(rt, 0, 77, &[conn], &mut cut);
        holds(rt, "it isn't told", asked == Err(AskError::Elsewhere));
    }

    /// Just these bytes wait for the client, and are written.
    pub(crate) fn gets<R: Wait + Abort>(&mut self, rt: &R, wanted: &[u8]) {
        let some = self.takes(rt, MANY);
        holds(rt, "bytes wait", some == !wanted.is_empty());
        self.has(rt, wanted);
    }

    // Just these bytes are pending, and are written.
    fn has<R: Abort>(&mut self, rt: &R, wanted: &[u8]) {
        same(
            rt,
            "the wanted bytes are pending",
            self.client.pending(),
            wanted,
        );
        self.client.write();
    }

    fn gets_each<R: Wait + Abort>(&mut self, rt: &R, wanted: &[u8]) {
        for _ in wanted {
            let some = self.takes(rt, 1);
            holds(rt, "a byte waits", some);
        }
        self.has(rt, wanted);
    }

    fn gets_length<R: Wait + Abort>(&mut self, rt: &R, least: usize, most: usize) {
        let some = self.takes(rt, MANY);
        let count = self.client.write();
        holds(
            rt,
            "so many bytes wait",
            some && least <= count && count <= most,
        );
    }

    pub(crate) fn asks<R: Wait + Abort>(&mut self, rt: &R, sent: &[u8], wanted: &[u8]) {
        self.sends(rt, sent);
        self.gets(rt, wanted);
    }

    fn closes<R: Wait + Abort>(&mut self, rt: &R) {
        self.station.close(rt, self.client.conn());
    }

    fn opens<R: Wait + Abort>(&mut self, rt: &R) {
        self.client = self
            .station
            .open(rt)
            .ok()
            .expect(rt, "a connection is opened");
    }

    fn opens_none<R: Wait + Abort>(&mut self, rt: &R, wanted: OpenError) {
        let why = self.station.open(rt).err();
        holds(rt, "none is opened", why == Some(wanted));
    }

    fn reopens<R: Wait + Abort>(&mut self, rt: &R, count: u32) {
        for _ in 0..count {
            self.closes(rt);
            self.closes(rt);
            self.opens(rt);
        }
    }
}

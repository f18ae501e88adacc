// A worker as what answers its service.
ghost use Rattle.std.specs.Prelude.{◌≡◌, [], None};
ghost use Rattle.nr_combiner.specs.Workers.{fresh_worker, shared_of};
ghost use Rattle.nr_service.specs.Stories.{beginning};
ghost use Rattle.nr_worker.specs.Working.{without_mark};
ghost use Rattle.nr_worker_service.specs.Led.{HasLedTo, size_of};
ghost use Rattle.nr_worker_service.specs.Serving.{has_nothing_to_do};

use crate::shared_hints::SharedHints;
use crate::turns::work_on;
use crate::wake_list::News;
use nr_blob::Memory;
use nr_combiner::{NodeHandle, ServerName};
use nr_entry::{ConnId, capped};
use nr_service::{Backend, ConnectionState, Rings};
use nr_taps::Mark;
use nr_worker::Worker;
use std::alloc::Global;
use std::cell::Cell;
use std::marker::Model;
use std::sync::Wait;

/// How many works go by until the worker hears which queues its node has cut: with nothing to do some 640 milliseconds.
const WORKS_TO_HEAR: u8 = 64;

/// A worker among those of its server, as what answers its service.
#[derive(Drop)]
pub struct WorkerBackend<'a, R, B: ServerName, K> {
    desk: Worker<'a, R, B>,
    crew: &'a SharedHints<K>,
    // Which worker of its node it is.
    worker: usize,
    // What its works found for others that wasn't passed on yet.
    news: Cell<News>,
    is_busy: bool,
    // Behind how many bytes that wait for a connection a work ends, so that they are written.
    enough: usize,
    // A queue of one of its connections was cut in the last work: the next one hears which.
    has_cut: bool,
    // How many works it has done, counted to 256.
    works: u8,
    // How often workers had passed something on as its last work began, where all shall end in order.
    rises: u64,
}

impl<'a, R, B: ServerName, K> Model for WorkerBackend<'a, R, B, K> {
    ghost use Rattle.nr_worker_service.specs.Serving.{WorkerBackendState, coded_serving};

    ghost Value = { WorkerBackendState };

    ghost coded = { coded_serving };

    ghost view = { λ d. record { desk = d.desk; busy = d.is_busy } };
}

impl<'a, R: Wait, B: ServerName, K: Rings> WorkerBackend<'a, R, B, K> {
    /// A worker that has handed in nothing, with no connections. At most `limit` bytes wait for each, and a work ends once more than `enough` do. It takes no
    /// memory.
    pub fn new(
        alloc: Global,
        rt: &'a R,
        worker: NodeHandle<B>,
        crew: &'a SharedHints<K>,
        limit: usize,
        enough: usize,
    ) -> WorkerBackend<'a, R, B, K>
        requires { worker ≡ fresh_worker (shared_of worker) worker.seat.worker }
        ensures past { HasLedTo result (beginning (size_of worker.node worker.seat.worker)) }
        ensures mark { result.desk.mark ≡ None }
        ensures limit { result.desk.limit ≡ limit }
    {
        let number = worker.number();
        WorkerBackend {
            desk: Worker::new(alloc, rt, worker, limit),
            crew,
            worker: number,
            news: Cell::new(News::none()),
            is_busy: false,
            enough,
            has_cut: false,
            works: 0,
            rises: 0,
        }
    }

    // Whether nothing is left to be done, and nothing to be written. Linear in its connections, and asked only where all shall end in order.
    fn has_nothing_to_do(&self) -> bool
        ensures { result ≡ has_nothing_to_do self.now }
    {
        !self.is_busy && !self.desk.is_at_work() && self.desk.are_written()
    }

    /// Its mark, in whose place it has one that keeps nothing: for when it ends. Constant.
    pub fn take_mark(&mut self) -> Mark<B>
        ensures mark { result.standing ≡ self.old.desk.mark }
        ensures left { self.new.desk ≡ without_mark self.old.desk }
    {
        self.desk.take_mark()
    }
}

impl<'a, R: Wait, B: ServerName, K: Rings> Backend for WorkerBackend<'a, R, B, K> {
    ghost use Rattle.std.specs.Prelude.{◌≡◌, ◌&&◌, not, true, None};
    ghost use Rattle.nr_worker.specs.Portions.{seat_of};
    ghost use Rattle.nr_worker_service.specs.Led.{HasLedTo, IsAtRest};
    ghost use Rattle.nr_worker_service.specs.Serving.{kept_at, standing_of};
    ghost use Rattle.nr_worker.specs.Working.{listens_to};

    ghost is_past = { HasLedTo };

    ghost is_settled = { IsAtRest B.places };

    ghost is_left = { HasLedTo };

    ghost busy = { λ d. d.busy };

    ghost kept = { kept_at };

    ghost stands = { λ d c standing. standing ≡ standing_of d c };

    // Its own node is down. Nobody knows of all nodes at once.
    ghost falls = { λ d falls. falls ≡ true → d.desk.down ≡ true };

    // There may be no memory for one more.
    ghost is_full = { λ _. Unit {0} };

    // Where it goes was decided as it was dealt out.
    ghost is_placed = { λ d e number c. c.node ≡ d.desk.worker.node };

    ghost is_gone = { λ d c. seat_of d.desk.worker.node d.desk.seats c ≡ None };

    // No message comes while its node is taken for down.
    ghost listens = { λ d c is_listening. is_listening ≡ (not d.desk.down && listens_to c d.desk) };

    /// A connection of its node. `None` where the node is down, has no room, or memory runs out. Where the number came from says nothing here.
    fn open(&mut self, _: u64) -> Result<Option<ConnId>, Memory> {
        if let Ok(conn) = self.desk.open() {
            return Ok(Some(conn));
        }
        self.crew.leave(self.desk.node());
        Ok(None)
    }

    /// The room that was taken for it as it was dealt out comes back.
    fn turn_away(&mut self, _: Memory) -> Result<(), Memory> {
        self.crew.leave(self.desk.node());
        Ok(())
    }

    fn standing(&self, conn: ConnId) -> ConnectionState {
        if self.desk.is_down() {
            return ConnectionState::Down;
        }
        if self.desk.takes(conn) {
            return ConnectionState::Open;
        }
        ConnectionState::Over
    }

    fn is_down(&self) -> bool {
        self.desk.is_down() && self.crew.are_down()
    }

    /// Where memory runs out the connection is cut.
    fn feed(&mut self, conn: ConnId, moment: u64, bytes: &[u8]) -> Result<(), Memory> {
        let _is_whole = self.desk.feed(conn, capped(moment), bytes);
        Ok(())
    }

    /// At most 64 turns of its node. Where memory runs out what is left waits. A work behind one in which a queue was cut hears which ones its node has cut, and so
    /// does each 64th.
    fn work(&mut self) -> Result<(), Memory> {
        self.rises = self.crew.rises();
        let revivals = self.crew.revivals(self.desk.node());
        self.desk.forget_told();
        self.works = self.works.wrapping_add(1);
        let is_time = self.has_cut || self.works % WORKS_TO_HEAR == 0;
        let worked = work_on(&mut self.desk, is_time, self.enough);
        self.crew.hear_of_work(
            self.desk.node(),
            self.worker,
            revivals,
            worked.is_down,
            self.desk.is_down(),
        );
        self.news.set(self.news.get().with(worked.news));
        self.has_cut = worked.has_cut;
        self.is_busy = worked.is_busy;
        Ok(())
    }

    fn is_busy(&self) -> bool {
        self.is_busy
    }

    fn leaves(&self) {}

    fn pass_on(&self) {
        let news = self.news.replace(News::none());
        self.crew.pass_on(self.desk.node(), self.worker, &news);
        if self.crew.is_ending() && news.is_none() && self.has_nothing_to_do() {
            self.crew.rest(self.desk.node(), self.worker, self.rises);
        }
    }

    fn is_listening(&self, conn: ConnId) -> bool {
        !self.desk.is_down() && self.desk.is_listening(conn)
    }

    fn told(&self, place: usize) -> Option<ConnId> {
        let serial = self.desk.told(place)?;
        Some(ConnId {
            node: self.desk.node(),
            serial,
        })
    }

    fn pending(&self, conn: ConnId) -> &[u8] {
        if conn.node != self.desk.node() {
            return &[];
        }
        self.desk.pending(conn.serial)
    }

    fn written(&mut self, conn: ConnId, count: usize) {
        if conn.node == self.desk.node() {
            self.desk.written(conn.serial, count);
        }
    }

    /// Its last job waits behind the others, and its node lets go of its queue. It takes no memory.
    fn close(&mut self, conn: ConnId, moment: u64) -> Result<(), Memory> {
        if conn.node != self.desk.node() {
            return Ok(());
        }
        if !self.desk.is_open(conn.serial) {
            return Ok(());
        }
        self.desk.close(conn.serial, capped(moment));
        self.crew.leave(conn.node);
        Ok(())
    }
}

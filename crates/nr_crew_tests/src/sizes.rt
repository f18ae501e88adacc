// All workers of a server, on one thread, at sizes: what no contract says where a call may do less than it could.
ghost use Rattle.std.specs.Prelude.{◌≡◌, length};
ghost use Rattle.nr_oplog.specs.Opening.{name_of, nodes_of, places_of};
ghost use Rattle.nr_combiner.specs.Opened.{AreNamed, AreOfWorkers};

use crate::asserted::holds;
use crate::returning::{Falling, Nodes, come_back};
use nr_combiner::{NodeHandle, OpenedSlots, ServerName, build, open_slots};
use nr_crew::{Lane, StartError, WorkerPorts, lanes_of, share_nodes};
use nr_entry::{ConnId, Setup};
use nr_oplog::OpenedLog;
use nr_service::{Backend, ConnectionState, Rings, Silent};
use nr_worker_service::{SharedHints, WorkerBackend};
use std::alloc::Global;
use std::hash::RandomState;
use std::marker::Brand;
use std::process::Abort;
use std::random::RandomSource;
use std::sync::Wait;
use std::sync::atomic::{AtomicU64, Ordering};

/// How many works are done at most until something came.
const MOST_WORKS: u32 = 100_000;

/// A mebibyte, and how many more bytes a reply that holds one has.
const MEBIBYTE: usize = 1_048_576;

const AROUND: usize = 12;

/// What is done at a server.
#[derive(Clone, Copy, Debug)]
enum Task {
    /// Each worker alone answers a connection of its own.
    EachAlone,
    /// A subscriber at each worker of node 0 gets what the first worker publishes, and is woken for it.
    Woken,
    /// One connection hands in so many batches.
    Batches(u32),
    /// So many connections come, and go.
    Closes(u32),
    /// So many connections are open at once, which are as many as may be.
    Full(usize),
    /// One connection sends so many requests at once.
    AtOnce(usize),
    /// A reader asks so often behind a writer of the same worker.
    BehindAWriter(usize),
    /// So many mebibytes wait for a connection.
    Replies(usize),
    /// So many mebibytes are published to one whose worker does nothing meanwhile.
    Messages(u32),
    /// So many subscribers of one worker get what another node publishes.
    Subscribers(usize),
    /// So often the queue of a connection of the last worker is cut beside others, and it goes.
    Cuts(u32),
    /// Node 0 falls, and so many entries come behind that.
    Falls(u32),
    /// Node 0 falls and comes back, of which its second worker hears late.
    ComesBack,
}

/// Servers of so many nodes, of so many workers each, with so many places, and what is done there.
const ROWS: [(usize, usize, usize, Task); 12] = [
    (8, 16, 1_024, Task::EachAlone),
    (5, 16, 64, Task::Woken),
    (1, 1, 64, Task::Batches(200_100)),
    (1, 2, 64, Task::Closes(140_000)),
    (1, 2, 64, Task::Full(1_024)),
    (1, 3, 64, Task::AtOnce(9_000)),
    (1, 2, 64, Task::BehindAWriter(600)),
    (1, 1, 64, Task::Replies(17)),
    (1, 2, 64, Task::Messages(17)),
    (2, 3, 1_024, Task::Subscribers(1_000)),
    (1, 16, 64, Task::Cuts(1_100)),
    (3, 1, 64, Task::Falls(5_000)),
];

/// How many connections a node has at most, and how many bytes wait for one.
const CONNECTIONS: usize = 1_024;

const LIMIT: usize = 64 * MEBIBYTE;

/// How many bytes wait for one where its queue is to be cut: one of the replies below, and not two.
const NARROW: usize = 1_024;

const STORE: (&[u8], &[u8]) = (b"SETRANGE v 999 x\r\n", b":1000\r\n");

const TWICE: &[u8] = b"GET v\r\nGET v\r\n";

pub(crate) const PING: (&[u8], &[u8]) = (b"PING\r\n", b"+PONG\r\n");

pub(crate) const SET: (&[u8], &[u8]) = (b"SET k v\r\n", b"+OK\r\n");

pub(crate) const SUBSCRIBE: (&[u8], &[u8]) = (
    b"SUBSCRIBE c\r\n",
    b"*3\r\n$9\r\nsubscribe\r\n$1\r\nc\r\n:1\r\n",
);

const MESSAGE: &[u8] = b"*3\r\n$7\r\nmessage\r\n$1\r\nc\r\n$1\r\nm\r\n";

/// How many more bytes than its text a message of a mebibyte has.
const AROUND_MESSAGE: usize = 36;

// Counts how often each lane was rung.
#[derive(Drop)]
pub(crate) struct Bells {
    counts: Vec<AtomicU64>,
}

impl Rings for Bells {
    fn ring(&self, lane: usize) {
        if let Some(count) = self.counts.get(lane) {
            count.fetch_add(1, Ordering::SeqCst);
        }
    }
}

impl Bells {
    fn new<R: Abort>(rt: &R, alloc: Global, lanes: usize) -> Bells {
        let mut counts = Vec::new(alloc);
        for _ in 0..lanes {
            counts.push(AtomicU64::new(0)).ok().expect(rt, "memory");
        }
        Bells { counts }
    }

    // Whether a lane was rung since this was last asked.
    fn take(&self, lane: usize) -> bool {
        match self.counts.get(lane) {
            Some(count) => count.swap(0, Ordering::SeqCst) != 0,
            None => false,
        }
    }
}

// All workers, those of node 0 first, and what they share.
#[derive(Drop)]
pub(crate) struct Server<'c, A> {
    nodes: usize,
    workers: usize,
    pub(crate) crew: &'c SharedHints<Bells>,
    desks: Vec<A>,
}

impl<A: Backend> Server<'_, A> {
    // The lane of a worker of a node.
    fn lane(&self, node: usize, worker: usize) -> usize {
        node.saturating_mul(self.workers).saturating_add(worker)
    }

    pub(crate) fn desk<R: Abort>(&mut self, rt: &R, node: usize, worker: usize) -> &mut A {
        let lane = self.lane(node, worker);
        self.desks.get_mut(lane).expect(rt, "a desk")
    }

    // A connection of a worker of a node.
    pub(crate) fn opens<R: Abort>(&mut self, rt: &R, node: usize, worker: usize) -> ConnId {
        holds(rt, "there is room", self.crew.admit(node));
        opens(rt, self.desk(rt, node, worker))
    }
}

pub(crate) fn opens<R: Abort, A: Backend>(rt: &R, desk: &mut A) -> ConnId {
    let opened = desk.open(0).ok().expect(rt, "memory");
    opened.expect(rt, "it is opened")
}

// A connection sends this.
pub(crate) fn sends<R: Abort, A: Backend>(rt: &R, desk: &mut A, conn: ConnId, bytes: &[u8]) {
    match desk.standing(conn) {
        ConnectionState::Open => {
            let fed = desk.feed(conn, 0, bytes);
            holds(rt, "it is fed", fed.is_ok());
        }
        ConnectionState::Over | ConnectionState::Down => panic!(rt; "its bytes are taken"),
    }
}

// A work, behind which others are told.
pub(crate) fn works<R: Abort, A: Backend>(rt: &R, desk: &mut A) {
    holds(rt, "it works", desk.work().is_ok());
    desk.pass_on();
}

// Works until so many bytes wait for a connection.
fn works_for<R: Abort, A: Backend>(rt: &R, desk: &mut A, conn: ConnId, count: usize) {
    for _ in 0..MOST_WORKS {
        if desk.pending(conn).len() >= count {
            return;
        }
        works(rt, desk);
    }
    panic!(rt; "the bytes come");
}

// What came for a connection is written.
fn is_written<A: Backend>(desk: &mut A, conn: ConnId) {
    let count = desk.pending(conn).len();
    desk.written(conn, count);
}

// Just this came for a connection.
fn gets<R: Abort, A: Backend>(rt: &R, desk: &mut A, conn: ConnId, wanted: &[u8]) {
    holds(rt, "just that came", desk.pending(conn) == wanted);
    is_written(desk, conn);
}

// Just so many bytes come for a connection.
fn gets_length<R: Abort, A: Backend>(rt: &R, desk: &mut A, conn: ConnId, wanted: usize) {
    works_for(rt, desk, conn, wanted);
    holds(rt, "so many came", desk.pending(conn).len() == wanted);
    is_written(desk, conn);
}

// A connection asks this, and gets that.
pub(crate) fn asks<R: Abort, A: Backend>(
    rt: &R,
    desk: &mut A,
    conn: ConnId,
    (sent, wanted): (&[u8], &[u8]),
) {
    sends(rt, desk, conn, sent);
    works_for(rt, desk, conn, wanted.len());
    gets(rt, desk, conn, wanted);
}

// A connection of a worker of a node, which has asked this, and got that.
pub(crate) fn opens_and_asks<R: Abort, A: Backend>(
    rt: &R,
    server: &mut Server<'_, A>,
    (node, worker): (usize, usize),
    row: (&[u8], &[u8]),
) -> ConnId {
    let conn = server.opens(rt, node, worker);
    asks(rt, server.desk(rt, node, worker), conn, row);
    conn
}

// Each worker in turn serves one, while no other takes a turn.
fn each_alone<R: Abort, A: Backend>(rt: &R, server: &mut Server<'_, A>) {
    for lane in 0..server.desks.len() {
        let place = (lane / server.workers.max(1), lane % server.workers.max(1));
        let conn = opens_and_asks(rt, server, place, PING);
        let desk = server.desk(rt, place.0, place.1);
        asks(rt, desk, conn, SET);
    }
}

// One subscriber at each worker of node 0.
fn subscribe_each<R: Abort, A: Backend>(
    rt: &R,
    alloc: Global,
    server: &mut Server<'_, A>,
) -> Vec<ConnId> {
    let mut subscribers = Vec::new(alloc);
    for worker in 0..server.workers {
        let conn = opens_and_asks(rt, server, (0, worker), SUBSCRIBE);
        subscribers.push(conn).ok().expect(rt, "memory");
    }
    subscribers
}

// One at the first worker of each other node.
fn open_at_others<R: Abort, A: Backend>(rt: &R, server: &mut Server<'_, A>) {
    for node in 1..server.nodes {
        server.opens(rt, node, 0);
    }
}

// No lane was rung yet.
fn forget_bells<A: Backend>(server: &Server<'_, A>) {
    for lane in 0..server.desks.len() {
        let _was_rung = server.crew.bells().take(lane);
    }
}

// The first worker of each other node is woken, which has a connection.
fn others_are_woken<R: Abort, A: Backend>(rt: &R, server: &Server<'_, A>) {
    for node in 1..server.nodes {
        let is_woken = server.crew.bells().take(server.lane(node, 0));
        holds(rt, "another node is woken", is_woken);
    }
}

// Each subscriber gets the message, and its worker is woken for it, but for the one that published.
fn are_woken<R: Abort, A: Backend>(rt: &R, server: &mut Server<'_, A>, subscribers: &[ConnId]) {
    for (worker, conn) in subscribers.iter().enumerate() {
        let is_woken = server.crew.bells().take(worker);
        holds(rt, "its worker is woken", worker == 0 || is_woken);
        let desk = server.desk(rt, 0, worker);
        works_for(rt, desk, *conn, MESSAGE.len());
        gets(rt, desk, *conn, MESSAGE);
    }
}

fn woken<R: Abort, A: Backend>(rt: &R, alloc: Global, server: &mut Server<'_, A>) {
    let subscribers = subscribe_each(rt, alloc, server);
    open_at_others(rt, server);
    let publisher = server.opens(rt, 0, 0);
    forget_bells(server);
    asks(
        rt,
        server.desk(rt, 0, 0),
        publisher,
        (b"PUBLISH c m\r\n", b":16\r\n"),
    );
    others_are_woken(rt, server);
    are_woken(rt, server, &subscribers);
}

// One connection asks so often.
fn batches<R: Abort, A: Backend>(rt: &R, server: &mut Server<'_, A>, count: u32) {
    let conn = server.opens(rt, 0, 0);
    let desk = server.desk(rt, 0, 0);
    for _ in 0..count {
        asks(rt, desk, conn, PING);
    }
}

// So many come and go, at both workers in turn, and one behind them is served.
fn closes<R: Abort, A: Backend>(rt: &R, server: &mut Server<'_, A>, count: u32) {
    for number in 0..count {
        let worker = number as usize % 2;
        let conn = server.opens(rt, 0, worker);
        let desk = server.desk(rt, 0, worker);
        holds(rt, "it is closed", desk.close(conn, 0).is_ok());
        works(rt, desk);
    }
    opens_and_asks(rt, server, (0, 1), SET);
}

// So many are open at once, each of which is answered, and one more isn't let in.
fn full<R: Abort, A: Backend>(rt: &R, server: &mut Server<'_, A>, count: usize) {
    for number in 0..count {
        opens_and_asks(rt, server, (0, number % 2), PING);
    }
    holds(rt, "one more isn't let in", !server.crew.admit(0));
}

// One connection sends so many requests at once.
fn at_once<R: Abort, A: Backend>(rt: &R, alloc: Global, server: &mut Server<'_, A>, count: usize) {
    let sent = PING.0.repeat(alloc, count).ok().expect(rt, "memory");
    let wanted = PING.1.repeat(alloc, count).ok().expect(rt, "memory");
    opens_and_asks(rt, server, (0, 0), (&sent, &wanted));
}

// A writer asks so often, and a reader of the same worker behind it: the reads go first, beside the lock, so the key isn't there for them. Both get all their replies.
fn behind_a_writer<R: Abort, A: Backend>(
    rt: &R,
    alloc: Global,
    server: &mut Server<'_, A>,
    count: usize,
) {
    let (writer, reader) = (server.opens(rt, 0, 0), server.opens(rt, 0, 0));
    let writes = SET.0.repeat(alloc, count).ok().expect(rt, "memory");
    let reads = b"GET k\r\n".as_slice().repeat(alloc, count).ok();
    let reads = reads.expect(rt, "memory");
    let done = SET.1.repeat(alloc, count).ok().expect(rt, "memory");
    let none = b"$-1\r\n".as_slice().repeat(alloc, count).ok();
    let none = none.expect(rt, "memory");
    let desk = server.desk(rt, 0, 0);
    sends(rt, desk, writer, &writes);
    sends(rt, desk, reader, &reads);
    works_for(rt, desk, writer, done.len());
    gets(rt, desk, reader, &none);
    gets(rt, desk, writer, &done);
}

// A value of a mebibyte is asked for so often at once, and none of it is written until all came.
fn replies<R: Abort, A: Backend>(rt: &R, alloc: Global, server: &mut Server<'_, A>, count: usize) {
    let store = (
        b"SETRANGE v 1048575 x\r\n".as_slice(),
        b":1048576\r\n".as_slice(),
    );
    let conn = opens_and_asks(rt, server, (0, 0), store);
    let sent = b"GET v\r\n"
        .as_slice()
        .repeat(alloc, count)
        .ok()
        .expect(rt, "memory");
    let desk = server.desk(rt, 0, 0);
    sends(rt, desk, conn, &sent);
    let wanted = count.saturating_mul(MEBIBYTE.saturating_add(AROUND));
    gets_length(rt, desk, conn, wanted);
}

// A mebibyte is published so often.
fn publish_each<R: Abort, A: Backend>(rt: &R, desk: &mut A, conn: ConnId, sent: &[u8], count: u32) {
    for _ in 0..count {
        asks(rt, desk, conn, (sent, b":1\r\n"));
    }
}

// So many mebibytes are published to one whose worker does nothing meanwhile: then it gets them all.
fn messages<R: Abort, A: Backend>(rt: &R, alloc: Global, server: &mut Server<'_, A>, count: u32) {
    let subscriber = opens_and_asks(rt, server, (0, 1), SUBSCRIBE);
    let publisher = server.opens(rt, 0, 0);
    let mut sent = Vec::new(alloc);
    sent.extend_from_slice(b"*3\r\n$7\r\nPUBLISH\r\n$1\r\nc\r\n$1048576\r\n")
        .expect(rt, "memory");
    sent.resize(sent.len().saturating_add(MEBIBYTE), b'm')
        .expect(rt, "memory");
    sent.extend_from_slice(b"\r\n").expect(rt, "memory");
    publish_each(rt, server.desk(rt, 0, 0), publisher, &sent, count);
    let wanted = (count as usize).saturating_mul(MEBIBYTE.saturating_add(AROUND_MESSAGE));
    gets_length(rt, server.desk(rt, 0, 1), subscriber, wanted);
}

// So many subscribers at one worker.
fn subscribe_many<R: Abort, A: Backend>(
    rt: &R,
    alloc: Global,
    server: &mut Server<'_, A>,
    count: usize,
) -> Vec<ConnId> {
    let mut subscribers = Vec::new(alloc);
    for _ in 0..count {
        let conn = opens_and_asks(rt, server, (0, 1), SUBSCRIBE);
        subscribers.push(conn).ok().expect(rt, "memory");
    }
    subscribers
}

// Each of these is told of, and gets the message.
fn each_gets<R: Abort, A: Backend>(rt: &R, desk: &mut A, subscribers: &[ConnId]) {
    for (place, conn) in subscribers.iter().enumerate() {
        holds(rt, "it is told of", desk.told(place).is_some());
        gets(rt, desk, *conn, MESSAGE);
    }
}

// What the other node publishes comes to all of them by one work.
fn subscribers<R: Abort, A: Backend>(
    rt: &R,
    alloc: Global,
    server: &mut Server<'_, A>,
    count: usize,
) {
    let subscribers = subscribe_many(rt, alloc, server, count);
    let publish = (b"PUBLISH c m\r\n".as_slice(), b":1000\r\n".as_slice());
    opens_and_asks(rt, server, (1, 0), publish);
    let desk = server.desk(rt, 0, 1);
    works(rt, desk);
    each_gets(rt, desk, &subscribers);
    works(rt, desk);
    holds(rt, "nobody is told of twice", desk.told(0).is_none());
}

// Works until nothing more comes for a connection.
fn works_until_cut<R: Abort, A: Backend>(rt: &R, desk: &mut A, conn: ConnId) {
    for _ in 0..MOST_WORKS {
        if desk.standing(conn) == ConnectionState::Over {
            return;
        }
        works(rt, desk);
    }
    panic!(rt; "it is cut");
}

// One more waits for more than its queue holds, beside one that came behind it; and both go.
fn cut<R: Abort, A: Backend>(rt: &R, server: &mut Server<'_, A>, worker: usize) {
    let slow = server.opens(rt, 0, worker);
    let other = opens_and_asks(rt, server, (0, worker), PING);
    let desk = server.desk(rt, 0, worker);
    sends(rt, desk, slow, TWICE);
    works_until_cut(rt, desk, slow);
    asks(rt, desk, other, PING);
    holds(rt, "it is closed", desk.close(slow, 0).is_ok());
    holds(rt, "so is the other", desk.close(other, 0).is_ok());
    works(rt, desk);
}

// So many are cut and go, one by one, while others stay.
fn cuts<R: Abort, A: Backend>(rt: &R, alloc: Global, server: &mut Server<'_, A>, count: u32) {
    let worker = server.workers.saturating_sub(1);
    let mut stay = Vec::new(alloc);
    for _ in 0..4 {
        let conn = opens_and_asks(rt, server, (0, worker), STORE);
        stay.push(conn).ok().expect(rt, "memory");
    }
    for _ in 0..count {
        cut(rt, server, worker);
    }
    for conn in &stay {
        asks(rt, server.desk(rt, 0, worker), *conn, PING);
    }
}

// An entry comes, and all nodes pass it.
fn passes<R: Abort, A: Backend>(rt: &R, server: &mut Server<'_, A>, conn: ConnId) {
    asks(rt, server.desk(rt, 1, 0), conn, SET);
    works(rt, server.desk(rt, 0, 0));
    works(rt, server.desk(rt, 2, 0));
}

// Node 0 falls over the first entry, and holds none up of so many more.
fn falls<R: Abort, A: Backend>(rt: &R, server: &mut Server<'_, A>, count: u32) {
    let fallen = server.opens(rt, 0, 0);
    let conn = server.opens(rt, 1, 0);
    for _ in 0..count {
        passes(rt, server, conn);
    }
    let standing = server.desk(rt, 0, 0).standing(fallen);
    holds(rt, "it is down", standing == ConnectionState::Down);
}

fn does<R: Wait + Abort, A: Backend, N: Falling>(
    rt: &R,
    alloc: Global,
    server: &mut Server<'_, A>,
    nodes: &N,
    task: Task,
) {
    match task {
        Task::EachAlone => each_alone(rt, server),
        Task::Woken => woken(rt, alloc, server),
        Task::Batches(count) => batches(rt, server, count),
        Task::Closes(count) => closes(rt, server, count),
        Task::Full(count) => full(rt, server, count),
        Task::AtOnce(count) => at_once(rt, alloc, server, count),
        Task::BehindAWriter(count) => behind_a_writer(rt, alloc, server, count),
        Task::Replies(count) => replies(rt, alloc, server, count),
        Task::Messages(count) => messages(rt, alloc, server, count),
        Task::Subscribers(count) => subscribers(rt, alloc, server, count),
        Task::Cuts(count) => cuts(rt, alloc, server, count),
        Task::Falls(count) => falls(rt, server, count),
        Task::ComesBack => come_back(rt, server, nodes),
    }
}

// How many bytes wait for a connection at most.
fn limit_of(task: Task) -> usize {
    match task {
        Task::Cuts(_) => NARROW,
        _ => LIMIT,
    }
}

// A number in the place of where the connections of a lane come from: a test hands them in itself.
fn places_by_number<R: Abort>(
    rt: &R,
    alloc: Global,
    lanes: usize,
) -> Vec<WorkerPorts<usize, Silent>> {
    let mut places = Vec::new(alloc);
    for number in 0..lanes {
        let put = places.push(WorkerPorts {
            device: number,
            clock: Silent,
        });
        put.ok().expect(rt, "memory");
    }
    places
}

fn desks_of<'c, B: ServerName, R: Wait + Abort>(
    rt: &'c R,
    alloc: Global,
    lanes: Vec<Lane<B, usize, Silent>>,
    crew: &'c SharedHints<Bells>,
    limit: usize,
) -> Vec<WorkerBackend<'c, R, B, Bells>> {
    let mut desks = Vec::new(alloc);
    for lane in lanes {
        let Lane { worker, device, .. } = lane;
        holds(
            rt,
            "each has the place of its number",
            device == desks.len(),
        );
        let desk = WorkerBackend::new(alloc, rt, worker, crew, limit, MEBIBYTE);
        desks.push(desk).ok().expect(rt, "memory");
    }
    desks
}

// The next entry that node 0 applies is refused.
fn refuse_first<B: ServerName, R: Wait + Abort>(rt: &R, built: &[Vec<NodeHandle<B>>]) {
    let workers = built.first().expect(rt, "a node");
    workers.first().expect(rt, "a worker").refuse(rt);
}

fn does_named<B: ServerName, R: Wait + Abort>(
    rt: &R,
    alloc: Global,
    keys: RandomState,
    opened: OpenedLog,
    slots: Vec<OpenedSlots>,
    setup: Setup,
    task: Task,
) -> Result<(), StartError>
where
    requires name { name_of opened ≡ B.log }
    requires shape { (nodes_of opened ≡ B.nodes) × (places_of opened ≡ B.places) × (setup.nodes ≡ B.nodes) }
    requires slots { (length slots.items ≡ B.nodes) × AreNamed B.slots slots.items }
    requires workers { AreOfWorkers setup.workers slots.items }
{
    let nodes = setup.nodes();
    let workers = setup.workers();
    let lanes = nodes.saturating_mul(workers);
    let bells = Bells::new(rt, alloc, lanes);
    let crew = SharedHints::new(alloc, bells, nodes, workers, CONNECTIONS)?;
    let built = build::<B>(alloc, keys, opened, slots, setup)?;
    if let Task::Falls(_) = task {
        refuse_first(rt, &built);
    }
    let shared = Nodes {
        all: share_nodes(alloc, &built)?,
    };
    let places = places_by_number(rt, alloc, lanes);
    let lanes = lanes_of(alloc, built, setup, places)?;
    let desks = desks_of(rt, alloc, lanes, &crew, limit_of(task));
    let mut server = Server {
        nodes,
        workers,
        crew: &crew,
        desks,
    };
    does(rt, alloc, &mut server, &shared, task);
    Ok(())
}

// Does the task of a row at a new server.
fn does_row<R: RandomSource + Wait + Abort>(
    rt: &R,
    alloc: Global,
    (nodes, workers, places, task): (usize, usize, usize, Task),
) {
    let keys = RandomState::new(rt).ok().expect(rt, "random bytes");
    let setup = Setup::new(nodes, places, workers, CONNECTIONS, limit_of(task)).expect(
        rt,
        "there may be such a server",
    );
    let opened = OpenedLog::open(alloc, setup.nodes(), setup.places())
        .ok()
        .expect(rt, "a log is opened");
    let slots = open_slots(alloc, setup.nodes(), setup.workers())
        .ok()
        .expect(rt, "slots are opened");
    let done = does_named::<Brand, R>(rt, alloc, keys, opened, slots, setup, task);
    holds(rt, "there is memory for it", done.is_ok());
}

#[test]
fn a_desk_hears_late(rt: HostRuntime) {
    does_row(&rt, rt.alloc(), (2, 2, 64, Task::ComesBack));
}

#[test]
fn desks_serve_on_at_sizes(rt: HostRuntime) {
    for row in ROWS {
        does_row(&rt, rt.alloc(), row);
    }
}

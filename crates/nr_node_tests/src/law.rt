// A worker of one node answers one connection, and one sequence explains what that got.
ghost use Rattle.std.specs.Prelude.{◌≡◌, ◌≤◌, [], ◌∷◌, length, IfSome};
ghost use Rattle.nr_oplog.specs.Opening.{name_of, nodes_of, places_of};
ghost use Rattle.nr_entry.specs.Jobs.{connection_of, items_of};
ghost use Rattle.nr_slots.specs.Seats.{with_heard};
ghost use Rattle.nr_combiner.specs.Opened.{AreNamed, AreOfWorkers};
ghost use Rattle.nr_combiner.specs.Workers.{told_of};
ghost use Rattle.nr_worker.specs.Worker.{asked_of};
ghost use Rattle.nr_worker.specs.Law.{AreAnswered};
ghost use Rattle.nr_node_tests.specs.Answered.{HasGotFirst, HasOpened, desk_of_one, served_one};

use crate::asserted::same;
use crate::desk::MANY;
use nr_combiner::{Lifts, NodeHandle, OpenedSlots, ServerName, open_slots};
use nr_entry::{ConnId, Job, MOST_JOBS, Setup};
use nr_node::LastPiece;
use nr_oplog::OpenedLog;
use nr_replica::Spares;
use nr_session::Session;
use nr_taps::Mark;
use nr_test_parts::Alone;
use nr_worker::desk_law;
use std::alloc::Global;
use std::hash::RandomState;
use std::marker::Brand;
use std::process::Abort;
use std::random::RandomSource;
use std::sync::Wait;

/// A connection that was answered: the bytes that it got, and what its worker's mark keeps since then.
#[derive(Drop)]
struct Answered<B: ServerName> {
    conn: ConnId,
    mark: Mark<B>,
    bytes: Vec<u8>,
}

// Opens a connection, and keeps what its node had done by then.
fn open_one<B: ServerName, R: Wait + Abort>(rt: &R, worker: &mut NodeHandle<B>) -> (ConnId, Mark<B>)
    ensures opened { HasOpened worker.old (connection_of result.0) result.1.standing }
    ensures heard { worker.new ≡ told_of worker.new.seat.noted worker.old }
{
    let Ok((conn, token)) = worker.open(rt, 0) else {
        panic!(rt; "a connection is opened");
    };
    let mut mark = Mark::new();
    mark.adopt(worker.shared().log(), token);
    (conn, mark)
}

// What these bytes of a new connection ask for, as jobs of one batch.
fn ask<R: Abort>(rt: &R, alloc: Global, conn: ConnId, sent: &[u8]) -> Vec<Job>
    ensures asked { items_of result.items ≡ asked_of (served_one (connection_of conn) sent.now []) }
    ensures few { length result.items ≤ MOST_JOBS }
{
    let mut session = Session::new(alloc, conn);
    let mut jobs = Vec::new(alloc);
    assert!(rt; session.fits(sent.len()), "a u64 counts the bytes");
    let Ok(()) = session.feed(sent, 0, &mut jobs) else {
        panic!(rt; "the bytes are taken");
    };
    assert!(rt; jobs.len() <= MOST_JOBS, "one batch has all jobs");
    jobs
}

// The first bytes for this connection, which are in this piece.
fn first_bytes(rt: &impl Abort, conn: ConnId, handed: LastPiece) -> Vec<u8>
    ensures named { connection_of handed.piece.conn ≡ connection_of conn }
    ensures from { handed.piece.from ≡ 0 }
    ensures bytes { result.items ≡ handed.piece.bytes.items }
{
    assert!(rt; handed.piece.conn == conn, "it is for this connection");
    assert!(rt; handed.piece.from == 0, "it has the first bytes");
    handed.piece.bytes
}

// Takes a turn, and what it hands out last: the first bytes for this connection.
fn take_first<B: ServerName, R: Wait + Abort>(
    rt: &R,
    alloc: Global,
    worker: &mut NodeHandle<B>,
    mark: &mut Mark<B>,
    conn: ConnId,
) -> Vec<u8>
    requires { IfSome mark.old.standing (λ s. s.node ≡ worker.old.node) }
    ensures got { HasGotFirst worker.old (connection_of conn) mark.old.standing mark.new.standing worker.new.seat.noted result.items }
    ensures seat { worker.new.seat ≡ with_heard worker.new.seat.noted worker.old.seat }
{
    let mut pieces = Vec::new(alloc);
    let mut spares = Spares::new(alloc);
    let Some((_, token)) = worker.turn(rt, Lifts::All, MANY, &mut spares, &mut pieces) else {
        panic!(rt; "a turn is taken");
    };
    mark.adopt(worker.shared().log(), token);
    let Some(handed) = pieces.pop() else {
        panic!(rt; "a piece is handed out");
    };
    first_bytes(rt, conn, handed)
}

// Serves a connection that sends these bytes, at a worker that has posted nothing: then one sequence answers it.
fn answer<B: ServerName, R: Wait + Abort>(
    rt: &R,
    alloc: Global,
    worker: &mut NodeHandle<B>,
    sent: &[u8],
) -> Answered<B>
    requires { worker.old.seat.lane.posted ≡ [] }
    ensures { AreAnswered (desk_of_one worker.old.node worker.old.seat.worker worker.new.seat.lane.posted worker.new.seat.noted result.mark.standing
        (connection_of result.conn) sent.now result.bytes.items ∷ []) }
{
    let (conn, mut mark) = open_one(rt, worker);
    let jobs = ask(rt, alloc, conn, sent);
    let Ok(()) = worker.post(jobs) else {
        panic!(rt; "a batch is posted");
    };
    let bytes = take_first(rt, alloc, worker, &mut mark, conn);
    desk_law();
    Answered { conn, mark, bytes }
}

// Serves at the worker of a new node.
fn serve<B: ServerName, R: Wait + Abort>(
    rt: &R,
    alloc: Global,
    keys: RandomState,
    opened: OpenedLog,
    slots: Vec<OpenedSlots>,
    setup: Setup,
)
    requires name { name_of opened ≡ B.log }
    requires shape { (nodes_of opened ≡ B.nodes) × (places_of opened ≡ B.places) × (setup.nodes ≡ B.nodes) }
    requires slots { (length slots.items ≡ B.nodes) × AreNamed B.slots slots.items }
    requires workers { AreOfWorkers setup.workers slots.items }
{
    let Ok(mut alone) = Alone::<B>::new(alloc, keys, opened, slots, setup) else {
        panic!(rt; "a node is built");
    };
    let answered = answer(rt, alloc, &mut alone.worker, b"SET k v\r\nGET k\r\n");
    same(
        rt,
        "both are answered",
        &answered.bytes,
        b"+OK\r\n$1\r\nv\r\n",
    );
}

// Serves at the node of a new log.
fn serve_at_new<R: RandomSource + Wait + Abort>(rt: &R, alloc: Global) {
    let keys = RandomState::new(rt)
        .ok()
        .expect(rt, "there are random bytes");
    let setup = Setup::new(1, 4, 1, 1, MANY).expect(rt, "there may be such a server");
    let opened = OpenedLog::open(alloc, setup.nodes(), setup.places())
        .ok()
        .expect(rt, "a log is opened");
    let slots = open_slots(alloc, setup.nodes(), setup.workers())
        .ok()
        .expect(rt, "slots are opened");
    serve::<Brand, R>(rt, alloc, keys, opened, slots, setup);
}

// What the law of workers says of one connection: its two requests are answered as one Redis answers them.
#[test]
fn one_sequence_answers(rt: HostRuntime) {
    serve_at_new(&rt, rt.alloc());
}

// Reads that the workers of a node run beside its lock, in one thread: what they are replied, what waits for them, and that an update goes first where it came first.
ghost use Rattle.std.specs.Prelude.{◌≤◌, length, IfSome};
ghost use Rattle.nr_entry.specs.Jobs.{items_of};
ghost use Rattle.nr_node.specs.Lending.{AreReadyFor};

use crate::asserted::{holds, same};
use crate::desk::Act::{Asks, Combines, Counts, Gets, HandsIn, IsLost, IsTold, Refuses};
use crate::desk::{Act, Desk, MANY};
use crate::in_turn::{Play, play_at};
use crate::layouts::{NARROW_PAIR, THREE_WORKERS, TWO_NODES};
use nr_blob::int_text;
use nr_combiner::{Lifts, ServerName, Turned};
use nr_entry::{Job, MOST_JOBS};
use nr_node::{LastPiece, Loan, Prepared, Round};
use nr_replica::Spares;
use std::alloc::Global;
use std::mem;
use std::process::Abort;
use std::sync::Wait;

/// What workers do while their node's server is lent.
#[derive(Clone, Copy)]
pub(crate) enum Scene {
    /// Two workers of three read at once, and an update of the third waits for them.
    TwoAtOnce,
    /// An update comes between a read and its turn.
    UpdateBetween,
    /// The node falls.
    Falls,
    /// Another node comes back with a copy.
    OtherComesBack,
    /// Replies pass the limit of their connection.
    AboveTheLimit,
    /// A message waits for the connection that reads.
    BehindAMessage,
    /// As many batches as this are read, one after the other.
    Often(u32),
}

/// SET of a key to 1, and its reply.
const SETS_1: Act = Asks(b"SET k 1\r\n", b"+OK\r\n");

/// Its GET.
const GET: &[u8] = b"GET k\r\n";

// A worker's node lends its server.
fn lends<B: ServerName, R: Wait + Abort>(rt: &R, desk: &Desk<B>) -> Loan<B> {
    desk.station.worker.lend(rt).expect(rt, "it is lent")
}

// It lends none.
fn lends_none<B: ServerName, R: Wait + Abort>(rt: &R, desk: &Desk<B>) {
    holds(rt, "none is lent", desk.station.worker.lend(rt).is_none());
}

// The client sends this, and a loan answers it, which ends then: the jobs, and their replies. Where there are none the worker keeps the jobs for its next batch.
fn answered<B: ServerName, R: Abort>(
    rt: &R,
    alloc: Global,
    desk: &mut Desk<B>,
    loan: Loan<B>,
    sent: &[u8],
    limit: usize,
) -> Option<(Vec<Job>, Prepared<B>)>
    ensures ready { IfSome result (λ both. AreReadyFor (items_of both.0.items) both.1) }
    ensures few { IfSome result (λ both. length both.0.items ≤ MOST_JOBS) }
{
    let sent = desk.client.send(&mut desk.station, sent);
    sent.expect(rt, "memory");
    let jobs = mem::replace(&mut desk.station.jobs, Vec::new(alloc));
    let mut spares = Spares::new(alloc);
    let prepared = loan.answer(alloc, limit, &mut spares, &jobs);
    match prepared {
        Some(prepared) if jobs.len() <= MOST_JOBS => Some((jobs, prepared)),
        _ => {
            desk.station.jobs = jobs;
            None
        }
    }
}

// The worker hands jobs in whose replies are prepared, and takes a turn: what it comes to.
fn hands_in<B: ServerName, R: Wait + Abort>(
    rt: &R,
    alloc: Global,
    desk: &mut Desk<B>,
    jobs: Vec<Job>,
    prepared: Prepared<B>,
) -> (Turned, Vec<LastPiece>)
    requires few { length jobs.items ≤ MOST_JOBS }
    requires ready { AreReadyFor (items_of jobs.items) prepared }
{
    let (mut spares, mut pieces) = (Spares::new(alloc), Vec::new(alloc));
    let worker = &mut desk.station.worker;
    let read = worker.read(rt, jobs, prepared, MANY, &mut spares, &mut pieces);
    let (turned, _token) = read.ok().expect(rt, "it is handed in");
    (turned, pieces)
}

// Just one piece was handed out, of these bytes.
fn is_replied(rt: &impl Abort, pieces: &[LastPiece], wanted: &[u8]) {
    holds(rt, "one piece is handed out", pieces.len() == 1);
    let handed = pieces.first().expect(rt, "there is a piece");
    same(rt, "it has these bytes", &handed.piece.bytes, wanted);
}

// The client sends reads, which a loan answers, and its worker hands them in: these are the replies.
fn reads_by<B: ServerName, R: Wait + Abort>(
    rt: &R,
    alloc: Global,
    desk: &mut Desk<B>,
    loan: Loan<B>,
    sent: &[u8],
    wanted: &[u8],
) {
    let answered = answered(rt, alloc, desk, loan, sent, MANY);
    let (jobs, prepared) = answered.expect(rt, "the replies are prepared");
    let (turned, pieces) = hands_in(rt, alloc, desk, jobs, prepared);
    holds(rt, "a turn is taken", turned.combined == Ok(Round::Done));
    desk.does(rt, IsTold(true));
    is_replied(rt, &pieces, wanted);
}

// The same, by a loan that begins here.
fn reads<B: ServerName, R: Wait + Abort>(
    rt: &R,
    alloc: Global,
    desk: &mut Desk<B>,
    sent: &[u8],
    wanted: &[u8],
) {
    let loan = lends(rt, desk);
    reads_by(rt, alloc, desk, loan, sent, wanted);
}

impl Scene {
    /// Plays it by the workers of a log's nodes, each of which has a client.
    pub(crate) fn play<B: ServerName, R: Wait + Abort>(
        self,
        rt: &R,
        alloc: Global,
        mut desks: Vec<Desk<B>>,
    ) {
        let mut last = desks.pop().expect(rt, "there are two workers");
        let mut first = desks.pop().expect(rt, "there are two workers");
        let (first, last) = (&mut first, &mut last);
        match self {
            Scene::TwoAtOnce => {
                let mut second = desks.pop().expect(rt, "there are three workers");
                two_at_once(rt, alloc, first, &mut second, last);
            }
            Scene::UpdateBetween => update_between(rt, alloc, first, last),
            Scene::Falls => falls(rt, alloc, first, last),
            Scene::OtherComesBack => other_comes_back(rt, alloc, first, last),
            Scene::AboveTheLimit => above_the_limit(rt, alloc, first, last),
            Scene::BehindAMessage => behind_a_message(rt, alloc, first, last),
            Scene::Often(batches) => often(rt, alloc, first, last, batches),
        }
    }
}

// The second reads while the first is inside its reads. An update of the third waits until the first has ended, and meanwhile nothing is lent.
fn two_at_once<B: ServerName, R: Wait + Abort>(
    rt: &R,
    alloc: Global,
    first: &mut Desk<B>,
    second: &mut Desk<B>,
    third: &mut Desk<B>,
) {
    third.does(rt, SETS_1);
    let (of_first, of_second) = (lends(rt, first), lends(rt, second));
    reads_by(rt, alloc, second, of_second, GET, b"$1\r\n1\r\n");
    third.all(
        rt,
        &[
            HandsIn(b"SET k 2\r\n"),
            Combines(Round::NotYet),
            IsTold(false),
        ],
    );
    lends_none(rt, second);
    drop(of_first);
    third.all(rt, &[Combines(Round::Done), IsTold(true), Gets(b"+OK\r\n")]);
    reads(rt, alloc, first, GET, b"$1\r\n2\r\n");
}

// A reply that was prepared before another worker's update isn't taken behind it.
fn update_between<B: ServerName, R: Wait + Abort>(
    rt: &R,
    alloc: Global,
    first: &mut Desk<B>,
    last: &mut Desk<B>,
) {
    last.does(rt, SETS_1);
    let loan = lends(rt, first);
    let answered = answered(rt, alloc, first, loan, GET, MANY);
    let (jobs, prepared) = answered.expect(rt, "the reply is prepared");
    last.does(rt, Asks(b"SET k 2\r\n", b"+OK\r\n"));
    let (turned, pieces) = hands_in(rt, alloc, first, jobs, prepared);
    holds(rt, "a turn is taken", turned.combined == Ok(Round::Done));
    first.does(rt, IsTold(true));
    is_replied(rt, &pieces, b"$1\r\n2\r\n");
}

// An update is refused, as where memory runs out, which had to wait for a loan: the node falls once that has ended, and lends nothing then. What was read is lost with it.
fn falls<B: ServerName, R: Wait + Abort>(
    rt: &R,
    alloc: Global,
    first: &mut Desk<B>,
    last: &mut Desk<B>,
) {
    last.does(rt, SETS_1);
    let loan = lends(rt, first);
    last.all(
        rt,
        &[
            Refuses,
            HandsIn(b"SET k 2\r\n"),
            Combines(Round::NotYet),
            IsTold(false),
        ],
    );
    let answered = answered(rt, alloc, first, loan, GET, MANY);
    let (jobs, prepared) = answered.expect(rt, "the reply is prepared");
    last.all(rt, &[Combines(Round::Down), IsLost]);
    lends_none(rt, first);
    let (turned, pieces) = hands_in(rt, alloc, first, jobs, prepared);
    holds(rt, "it is down", turned.combined == Ok(Round::Down));
    holds(rt, "nothing is handed out", pieces.is_empty());
    first.does(rt, IsLost);
}

// The second node falls, and comes back with a copy of the first one's server while that is lent. Both lend theirs then.
fn other_comes_back<B: ServerName, R: Wait + Abort>(
    rt: &R,
    alloc: Global,
    first: &mut Desk<B>,
    last: &mut Desk<B>,
) {
    last.does(rt, Refuses);
    first.does(rt, SETS_1);
    last.all(rt, &[HandsIn(GET), Combines(Round::Down), IsLost]);
    let loan = lends(rt, first);
    let (node, donor) = (last.station.worker.shared(), first.station.worker.shared());
    holds(rt, "it comes back", node.revive(rt, donor) == Ok(1));
    holds(rt, "it is lent", last.station.worker.lend(rt).is_some());
    reads_by(rt, alloc, first, loan, GET, b"$1\r\n1\r\n");
}

// Two replies of 1,010 bytes pass the limit of 1,024: none is prepared, and the connection is cut in its turn, as ever. One of them is prepared.
fn above_the_limit<B: ServerName, R: Wait + Abort>(
    rt: &R,
    alloc: Global,
    first: &mut Desk<B>,
    last: &mut Desk<B>,
) {
    last.does(rt, Asks(b"SETRANGE k 1000 x\r\n", b":1001\r\n"));
    let loan = lends(rt, last);
    let one = answered(rt, alloc, last, loan, GET, 1024);
    holds(rt, "one reply is prepared", one.is_some());
    let loan = lends(rt, first);
    let two = answered(rt, alloc, first, loan, b"GET k\r\nGET k\r\n", 1024);
    holds(rt, "two aren't", two.is_none());
    first.station.post().expect(rt, "a batch is handed in");
    let turn = first.station.turn(rt, Lifts::Own, MANY);
    let turn = turn.expect(rt, "a turn is taken");
    let handed = turn.pieces.first().expect(rt, "there is a piece");
    holds(rt, "it is the last", handed.is_cut);
    holds(rt, "one reply is whole", handed.piece.bytes.len() == 1010);
}

// The message that waited comes in front of the reply.
fn behind_a_message<B: ServerName, R: Wait + Abort>(
    rt: &R,
    alloc: Global,
    first: &mut Desk<B>,
    last: &mut Desk<B>,
) {
    first.does(
        rt,
        Asks(
            b"SUBSCRIBE news\r\n",
            b"*3\r\n$9\r\nsubscribe\r\n$4\r\nnews\r\n:1\r\n",
        ),
    );
    last.does(rt, Asks(b"PUBLISH news m1\r\n", b":1\r\n"));
    reads(
        rt,
        alloc,
        first,
        b"PING\r\n",
        b"*3\r\n$7\r\nmessage\r\n$4\r\nnews\r\n$2\r\nm1\r\n*2\r\n$4\r\npong\r\n$0\r\n\r\n",
    );
}

// The reply to GET of a count.
fn reply_of(rt: &impl Abort, alloc: Global, count: u32) -> Vec<u8> {
    let mut digits = Vec::new(alloc);
    int_text(i64::from(count), &mut digits).expect(rt, "memory");
    let mut reply = Vec::new(alloc);
    reply.push(b'$').expect(rt, "memory");
    int_text(digits.len() as i64, &mut reply).expect(rt, "memory");
    reply.extend_from_slice(b"\r\n").expect(rt, "memory");
    reply.extend_from_slice(&digits).expect(rt, "memory");
    reply.extend_from_slice(b"\r\n").expect(rt, "memory");
    reply
}

// Before each hundredth batch the other worker counts one further.
fn often<B: ServerName, R: Wait + Abort>(
    rt: &R,
    alloc: Global,
    first: &mut Desk<B>,
    last: &mut Desk<B>,
    batches: u32,
) {
    let mut count = 0u32;
    for batch in 0..batches {
        if batch % 100 == 0 {
            last.does(rt, Counts(1));
            count = count.saturating_add(1);
        }
        reads(rt, alloc, first, b"GET n\r\n", &reply_of(rt, alloc, count));
    }
}

#[test]
fn two_workers_read_at_once(rt: HostRuntime) {
    play_at(
        &rt,
        rt.alloc(),
        THREE_WORKERS,
        Play::ReadsBeside(Scene::TwoAtOnce),
    );
}

#[test]
fn update_between_is_read(rt: HostRuntime) {
    play_at(
        &rt,
        rt.alloc(),
        THREE_WORKERS,
        Play::ReadsBeside(Scene::UpdateBetween),
    );
}

#[test]
fn node_falls_while_it_is_lent(rt: HostRuntime) {
    play_at(
        &rt,
        rt.alloc(),
        THREE_WORKERS,
        Play::ReadsBeside(Scene::Falls),
    );
}

#[test]
fn other_node_comes_back_meanwhile(rt: HostRuntime) {
    play_at(
        &rt,
        rt.alloc(),
        TWO_NODES,
        Play::ReadsBeside(Scene::OtherComesBack),
    );
}

#[test]
fn replies_above_the_limit_are_cut(rt: HostRuntime) {
    play_at(
        &rt,
        rt.alloc(),
        NARROW_PAIR,
        Play::ReadsBeside(Scene::AboveTheLimit),
    );
}

#[test]
fn message_comes_first(rt: HostRuntime) {
    play_at(
        &rt,
        rt.alloc(),
        THREE_WORKERS,
        Play::ReadsBeside(Scene::BehindAMessage),
    );
}

#[test]
fn as_many_batches_are_read(rt: HostRuntime) {
    play_at(
        &rt,
        rt.alloc(),
        THREE_WORKERS,
        Play::ReadsBeside(Scene::Often(100_000)),
    );
}

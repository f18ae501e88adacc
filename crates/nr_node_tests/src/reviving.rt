// A node that fell comes back with a copy of another one's server.
use crate::asserted::holds;
use crate::desk::Act::{
    Asks, Closes, Combines, Counts, Gets, HandsIn, IsLost, IsTold, Opens, OpensNone, Refuses,
};
use crate::desk::{Act, Desk, MANY};
use nr_combiner::{Lifts, RevivalError, ServerName};
use nr_entry::{ConnId, Job, JobKind, Outcome, Refusal, Update};
use nr_node::{OpenError, Round};
use nr_test_parts::Client;
use std::cmp::Ordering;
use std::mem;
use std::process::Abort;
use std::sync::Wait;

/// A SUBSCRIBE, and its reply.
const SUBSCRIBES: Act = Asks(
    b"SUBSCRIBE news\r\n",
    b"*3\r\n$9\r\nsubscribe\r\n$4\r\nnews\r\n:1\r\n",
);

// A further client of a worker.
fn opens<B: ServerName, R: Wait + Abort>(rt: &R, desk: &mut Desk<B>) -> Client<B> {
    let opened = desk.station.open(rt);
    opened.ok().expect(rt, "a connection is opened")
}

// A further client of a worker does these.
fn further<B: ServerName, R: Wait + Abort>(
    rt: &R,
    desk: &mut Desk<B>,
    client: &mut Client<B>,
    acts: &[Act],
) {
    mem::swap(&mut desk.client, client);
    desk.all(rt, acts);
    mem::swap(&mut desk.client, client);
}

// A node tries to come back from another: this comes of it.
fn tries<B: ServerName, R: Wait + Abort>(
    rt: &R,
    desk: &Desk<B>,
    donor: &Desk<B>,
    wanted: Result<u64, RevivalError>,
) {
    let (node, donor) = (desk.station.worker.shared(), donor.station.worker.shared());
    holds(rt, "so it goes", node.revive(rt, donor) == wanted);
}

// How many entries the tap of one client knows, beside another.
fn meets<B: ServerName>(rt: &impl Abort, one: &mut Desk<B>, other: &mut Desk<B>, wanted: Ordering) {
    let met = one.client.meet(&one.station, &mut other.client);
    holds(rt, "the taps compare", met == Some(wanted));
}

// The worker takes a turn, in which it hears how many connections its node had as it came back, and nothing is handed out.
fn hears<B: ServerName, R: Wait + Abort>(rt: &R, desk: &mut Desk<B>, since: u64) {
    let turn = desk.station.turn(rt, Lifts::All, MANY);
    let turn = turn.expect(rt, "a turn is taken");
    holds(
        rt,
        "its node is up",
        turn.turned.combined == Ok(Round::Done),
    );
    holds(rt, "it hears since when", turn.turned.since == since);
    holds(rt, "nothing is handed out", turn.pieces.is_empty());
}

// The next connection of the worker behind one that has no end has this serial, and its next job that number; or there is none.
fn is_unended<B: ServerName, R: Wait + Abort>(
    rt: &R,
    desk: &mut Desk<B>,
    last: Option<u64>,
    wanted: Option<(u64, u64)>,
) {
    let told = desk.station.worker.next_unended(rt, last);
    let found = told.map(|(unended, _)| (unended.serial, unended.next));
    holds(rt, "just that one has no end", found == wanted);
}

// The end of a connection, with this number, is in the next batch of its worker.
fn puts_end<B: ServerName>(rt: &impl Abort, desk: &mut Desk<B>, conn: ConnId, number: u64) {
    let end = Job {
        conn,
        number,
        moment: 0,
        kind: JobKind::Update(Update::Close(None)),
    };
    desk.station.jobs.push(end).ok().expect(rt, "memory");
}

// The same, and the worker hands that in, and its node takes a turn.
fn ends<B: ServerName, R: Wait + Abort>(rt: &R, desk: &mut Desk<B>, conn: ConnId, number: u64) {
    puts_end(rt, desk, conn, number);
    desk.all(rt, &[HandsIn(b""), Combines(Round::Done)]);
}

// What the worker is told of its batch.
fn outcome<B: ServerName>(rt: &impl Abort, desk: &mut Desk<B>) -> Outcome {
    let answer = desk.station.worker.collect();
    answer.ok().expect(rt, "it is answered")
}

// The worker is told that its batch is one that a fall dropped.
fn is_dropped<B: ServerName>(rt: &impl Abort, desk: &mut Desk<B>) {
    let told = outcome(rt, desk);
    holds(rt, "it is dropped", matches!(told, Outcome::Down));
}

// Its batch of one job comes back to the worker, for its number.
fn comes_back<B: ServerName>(rt: &impl Abort, desk: &mut Desk<B>) {
    let told = outcome(rt, desk);
    let is_wrong = match &told {
        Outcome::Refused(Refusal::WrongNumber, jobs) => jobs.len() == 1,
        _ => false,
    };
    holds(rt, "its number is wrong", is_wrong);
}

// One of two nodes falls over what its client writes, and the other goes on.
fn one_falls<B: ServerName, R: Wait + Abort>(
    rt: &R,
    (other, asking): (&mut Desk<B>, &mut Client<B>),
    (fallen, writing): (&mut Desk<B>, &mut Client<B>),
) {
    further(rt, other, asking, &[Asks(b"PUBLISH news a\r\n", b":2\r\n")]);
    fallen.does(rt, Combines(Round::Done));
    let written = [HandsIn(b"SET k v\r\n"), Combines(Round::Down), IsLost];
    fallen.does(rt, Refuses);
    further(rt, fallen, writing, &written);
    holds(rt, "some bytes are taken", fallen.takes(rt, 8));
    let asked = [
        Asks(b"GET k\r\n", b"$1\r\nv\r\n"),
        Asks(b"PUBLISH news b\r\n", b":2\r\n"),
    ];
    further(rt, other, asking, &asked);
    fallen.does(rt, Combines(Round::Down));
    other.does(rt, Combines(Round::Done));
}

/// Both messages, as the subscriber of the node that stays up gets them, and the first, which alone came to the other one.
const BOTH_MESSAGES: &[u8] =
    b"*3\r\n$7\r\nmessage\r\n$4\r\nnews\r\n$1\r\na\r\n*3\r\n$7\r\nmessage\r\n$4\r\nnews\r\n$1\r\nb\r\n";

const FIRST_MESSAGE: &[u8] = b"*3\r\n$7\r\nmessage\r\n$4\r\nnews\r\n$1\r\na\r\n";

const THIRD_MESSAGE: &[u8] = b"*3\r\n$7\r\nmessage\r\n$4\r\nnews\r\n$1\r\nc\r\n";

// The pieces from before the fall, during it and behind it meet in one sequence.
fn pieces_meet<B: ServerName, R: Wait + Abort>(
    rt: &R,
    other: &mut Desk<B>,
    fallen: &mut Desk<B>,
    asking: &mut Client<B>,
) {
    meets(rt, fallen, other, Ordering::Greater);
    other.does(rt, Gets(BOTH_MESSAGES));
    meets(rt, fallen, other, Ordering::Less);
    fallen.all(rt, &[Gets(FIRST_MESSAGE), Gets(b"")]);
    meets(rt, fallen, other, Ordering::Equal);
    further(rt, other, asking, &[Asks(b"PUBLISH news c\r\n", b":2\r\n")]);
    other.does(rt, Gets(THIRD_MESSAGE));
    meets(rt, fallen, other, Ordering::Less);
    fallen.all(rt, &[Combines(Round::Done), Gets(b"")]);
}

// PUBLISH counts those of before until their end is put with the number that is told, and then no more.
fn is_counted_until_its_end<B: ServerName, R: Wait + Abort>(
    rt: &R,
    (other, asking): (&mut Desk<B>, &mut Client<B>),
    (fallen, writing): (&mut Desk<B>, &mut Client<B>),
) {
    is_unended(rt, fallen, None, Some((0, 1)));
    is_unended(rt, fallen, Some(0), Some((1, 1)));
    is_unended(rt, fallen, Some(1), None);
    further(rt, other, asking, &[Asks(b"PUBLISH news d\r\n", b":2\r\n")]);
    let conn = fallen.client.conn();
    ends(rt, fallen, conn, 1);
    fallen.does(rt, IsTold(true));
    further(rt, other, asking, &[Asks(b"PUBLISH news e\r\n", b":1\r\n")]);
    is_unended(rt, fallen, None, Some((1, 1)));
    ends(rt, fallen, writing.conn(), 1);
    fallen.does(rt, IsTold(true));
    is_unended(rt, fallen, None, None);
}

// Behind the closes of those of before as many connections fit as ever, and these are served.
fn others_fit<B: ServerName, R: Wait + Abort>(
    rt: &R,
    (other, asking): (&mut Desk<B>, &mut Client<B>),
    (fallen, writing): (&mut Desk<B>, &mut Client<B>),
) {
    fallen.does(rt, OpensNone(OpenError::TooMany));
    fallen.station.close(rt, writing.conn());
    fallen.all(rt, &[Closes, Opens]);
    let mut reading = opens(rt, fallen);
    fallen.does(rt, OpensNone(OpenError::TooMany));
    further(
        rt,
        fallen,
        &mut reading,
        &[Asks(b"GET k\r\n", b"$1\r\nv\r\n")],
    );
    fallen.does(rt, SUBSCRIBES);
    further(rt, other, asking, &[Asks(b"PUBLISH news c\r\n", b":2\r\n")]);
    fallen.all(rt, &[Combines(Round::Done), Gets(THIRD_MESSAGE)]);
    further(
        rt,
        fallen,
        &mut reading,
        &[Asks(b"SET k w\r\n", b"+OK\r\n")],
    );
    further(rt, other, asking, &[Asks(b"GET k\r\n", b"$1\r\nw\r\n")]);
}

/// Of two nodes, with a subscriber each and one more client, the second falls and comes back.
pub(crate) fn come_back<B: ServerName, R: Wait + Abort>(
    rt: &R,
    mut other: Desk<B>,
    mut fallen: Desk<B>,
) {
    let mut asking = opens(rt, &mut other);
    let mut writing = opens(rt, &mut fallen);
    other.does(rt, SUBSCRIBES);
    fallen.does(rt, SUBSCRIBES);
    let both = (&mut other, &mut asking);
    one_falls(rt, both, (&mut fallen, &mut writing));
    tries(rt, &other, &fallen, Err(RevivalError::NotDown));
    tries(rt, &fallen, &other, Ok(1));
    tries(rt, &fallen, &other, Err(RevivalError::NotDown));
    fallen.does(rt, OpensNone(OpenError::Down));
    pieces_meet(rt, &mut other, &mut fallen, &mut asking);
    hears(rt, &mut fallen, 2);
    let both = (&mut other, &mut asking);
    is_counted_until_its_end(rt, both, (&mut fallen, &mut writing));
    let both = (&mut other, &mut asking);
    others_fit(rt, both, (&mut fallen, &mut writing));
}

// A worker that hasn't heard of the fall hands in what a client sends, alone and behind the end of another connection: none of it is executed.
fn late_ones_are_dropped<B: ServerName, R: Wait + Abort>(
    rt: &R,
    fallen: &mut Desk<B>,
    writing: &mut Client<B>,
) {
    for sent in [
        b"SET k late\r\n".as_slice(),
        b"GET k\r\n",
        b"SET k w\r\nQUIT\r\n",
    ] {
        further(rt, fallen, writing, &[HandsIn(sent), Combines(Round::Done)]);
        is_dropped(rt, fallen);
    }
    let conn = fallen.client.conn();
    puts_end(rt, fallen, conn, 1);
    fallen.all(rt, &[HandsIn(b"PING\r\n"), Combines(Round::Done)]);
    is_dropped(rt, fallen);
    fallen.does(rt, Gets(b""));
    further(rt, fallen, writing, &[Gets(b"")]);
}

/// The second of two nodes falls and comes back, of which its worker hasn't heard. Of what that hands in then ends alone are executed, with the number that is told.
pub(crate) fn drop_late_ones<B: ServerName, R: Wait + Abort>(
    rt: &R,
    mut other: Desk<B>,
    mut fallen: Desk<B>,
) {
    let mut writing = opens(rt, &mut fallen);
    fallen.does(rt, SUBSCRIBES);
    further(
        rt,
        &mut fallen,
        &mut writing,
        &[Asks(b"SET j v\r\n", b"+OK\r\n")],
    );
    fallen.does(rt, Refuses);
    other.does(rt, Asks(b"SET k v\r\n", b"+OK\r\n"));
    fallen.does(rt, Combines(Round::Down));
    tries(rt, &fallen, &other, Ok(2));
    late_ones_are_dropped(rt, &mut fallen, &mut writing);
    other.does(rt, Asks(b"GET k\r\n", b"$1\r\nv\r\n"));
    let conn = fallen.client.conn();
    ends(rt, &mut fallen, conn, 2);
    comes_back(rt, &mut fallen);
    other.does(rt, Asks(b"PUBLISH news a\r\n", b":1\r\n"));
    is_unended(rt, &mut fallen, None, Some((0, 1)));
    ends(rt, &mut fallen, conn, 1);
    fallen.does(rt, IsTold(true));
    other.does(rt, Asks(b"PUBLISH news a\r\n", b":0\r\n"));
}

// So often one counts at a node that is up, and the others, which are down, pass that.
fn go_on_passing<B: ServerName, R: Wait + Abort>(
    rt: &R,
    first: &mut Desk<B>,
    second: &mut Desk<B>,
    third: &mut Desk<B>,
    count: u32,
) {
    for _ in 0..count {
        first.does(rt, Counts(1));
        second.does(rt, Combines(Round::Down));
        third.does(rt, Combines(Round::Down));
    }
}

// A worker whose node came back serves a new client, which reads how far was counted.
fn reads_on<B: ServerName, R: Wait + Abort>(rt: &R, desk: &mut Desk<B>) {
    hears(rt, desk, 1);
    desk.all(rt, &[Opens, Asks(b"GET n\r\n", b"$2\r\n41\r\n")]);
}

/// Two of three nodes fall. Neither comes back from the other, and both pass entries then as before, through ten times the log's circle. The one comes back from the node
/// that is up, and the other from that one.
pub(crate) fn come_back_in_turn<B: ServerName, R: Wait + Abort>(
    rt: &R,
    mut first: Desk<B>,
    mut second: Desk<B>,
    mut third: Desk<B>,
) {
    second.does(rt, Refuses);
    third.does(rt, Refuses);
    go_on_passing(rt, &mut first, &mut second, &mut third, 1);
    tries(rt, &second, &third, Err(RevivalError::DonorDown));
    tries(rt, &third, &second, Err(RevivalError::DonorDown));
    go_on_passing(rt, &mut first, &mut second, &mut third, 40);
    tries(rt, &second, &first, Ok(1));
    tries(rt, &third, &second, Ok(1));
    reads_on(rt, &mut second);
    reads_on(rt, &mut third);
}

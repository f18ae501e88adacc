// Nodes and their workers in turn, in one thread: what their clients get, how many there may be, and what waits for them.
ghost use Rattle.std.specs.Prelude.{◌≡◌, length};
ghost use Rattle.nr_oplog.specs.Opening.{name_of, nodes_of, places_of};
ghost use Rattle.nr_combiner.specs.Opened.{AreNamed, AreOfWorkers};

use crate::aside::Scene;
use crate::asserted::{holds, same};
use crate::beside::serve_beside;
use crate::desk::Act::{
    Asks, Closes, Combines, Counts, Gets, GetsEach, GetsLength, HandsIn, IsAnother, IsHeldUp,
    IsLost, IsTold, Opens, OpensNone, Refuses, Reopens, Sends, SendsEach, SendsMany,
};
use crate::desk::{Act, Desk};
use crate::layouts::{
    Layout, MANY_WORKERS, NARROW, NARROW_PAIR, ONE_EACH, THREE_NODES, TWO_EACH, TWO_NODES,
    TWO_PAIRS, TWO_PLACES, TWO_WORKERS, WIDE,
};
use crate::reviving::{come_back, come_back_in_turn, drop_late_ones};
use nr_blob::int_text;
use nr_combiner::{Lifts, OpenedSlots, ServerName, open_slots};
use nr_entry::Setup;
use nr_node::{OpenError, Round};
use nr_oplog::OpenedLog;
use nr_replica::Spares;
use nr_taps::Refused;
use nr_test_parts::{Client, Offered, Turn, stations};
use std::alloc::Global;
use std::cmp::Ordering;
use std::hash::RandomState;
use std::marker::Brand;
use std::process::Abort;
use std::random::RandomSource;
use std::sync::Wait;

/// What is done at the nodes of a log, each worker of which has a client.
#[derive(Clone, Copy)]
pub(crate) enum Play<'a> {
    /// Each act by the worker of this number and its client: those of node 0 first.
    InTurn(&'a [(usize, Act)]),
    /// Each client counts one further.
    AllCount,
    /// The taps of the clients of two nodes meet.
    TapsMeet,
    /// Taps refuse pieces.
    PiecesAreRefused,
    /// Turns of two workers of one node hand out.
    TurnsHandOut,
    /// A turn hands out for twenty connections at once.
    ManyAtOnce,
    /// One of two nodes falls.
    OneFalls,
    /// One of two nodes falls, and comes back.
    OneComesBack,
    /// The same, and its worker hasn't heard of that.
    LateOnesAreDropped,
    /// Two of three nodes fall, and come back.
    TwoComeBack,
    /// Those connections are told whose queues are cut.
    CutsAreTold,
    /// Turns tell which other workers are to be woken.
    OthersAreTold,
    /// Two workers of one node serve two connections each.
    BothServe,
    /// Reads are run beside the lock.
    ReadsBeside(Scene),
}

// The workers of a log's nodes, each with a client.
fn desks<B: ServerName, R: Wait + Abort>(
    rt: &R,
    alloc: Global,
    keys: RandomState,
    opened: OpenedLog,
    slots: Vec<OpenedSlots>,
    setup: Setup,
) -> Vec<Desk<B>>
    requires name { name_of opened ≡ B.log }
    requires shape { (nodes_of opened ≡ B.nodes) × (places_of opened ≡ B.places) × (setup.nodes ≡ B.nodes) }
    requires slots { (length slots.items ≡ B.nodes) × AreNamed B.slots slots.items }
    requires workers { AreOfWorkers setup.workers slots.items }
{
    let all = stations::<B>(alloc, keys, opened, slots, setup).expect(rt, "nodes are built");
    let mut desks = Vec::new(alloc);
    for station in all {
        desks.push(Desk::new(rt, station)).expect(rt, "memory");
    }
    desks
}

fn perform<B: ServerName, R: Wait + Abort>(
    rt: &R,
    alloc: Global,
    keys: RandomState,
    opened: OpenedLog,
    slots: Vec<OpenedSlots>,
    setup: Setup,
    play: Play<'_>,
)
    requires name { name_of opened ≡ B.log }
    requires shape { (nodes_of opened ≡ B.nodes) × (places_of opened ≡ B.places) × (setup.nodes ≡ B.nodes) }
    requires slots { (length slots.items ≡ B.nodes) × AreNamed B.slots slots.items }
    requires workers { AreOfWorkers setup.workers slots.items }
{
    let mut desks = desks::<B, R>(rt, alloc, keys, opened, slots, setup);
    match play {
        Play::InTurn(acts) => in_turn(rt, &mut desks, acts),
        Play::AllCount => all_count(rt, alloc, desks),
        Play::TapsMeet => taps_meet(rt, desks),
        Play::PiecesAreRefused => refuse_pieces(rt, desks),
        Play::TurnsHandOut => hand_out(rt, desks),
        Play::ManyAtOnce => hand_out_to_many(rt, alloc, desks),
        Play::OneFalls => one_falls(rt, desks),
        Play::OneComesBack => one_comes_back(rt, desks),
        Play::LateOnesAreDropped => late_ones_are_dropped(rt, desks),
        Play::TwoComeBack => two_come_back(rt, desks),
        Play::CutsAreTold => tell_cuts(rt, alloc, desks),
        Play::OthersAreTold => tell_others(rt, desks),
        Play::BothServe => both_serve(rt, alloc, desks),
        Play::ReadsBeside(scene) => scene.play(rt, alloc, desks),
    }
}

/// Plays at the nodes of a new log.
pub(crate) fn play_at<R: RandomSource + Wait + Abort>(
    rt: &R,
    alloc: Global,
    layout: Layout,
    what: Play<'_>,
) {
    let keys = RandomState::new(rt)
        .ok()
        .expect(rt, "there are random bytes");
    let setup = layout.setup().expect(rt, "a server may have that size");
    let opened = OpenedLog::open(alloc, setup.nodes(), setup.places())
        .ok()
        .expect(rt, "a log is opened");
    let slots = open_slots(alloc, setup.nodes(), setup.workers())
        .ok()
        .expect(rt, "slots are opened");
    perform::<Brand, R>(rt, alloc, keys, opened, slots, setup, what);
}

fn in_turn<B: ServerName, R: Wait + Abort>(rt: &R, desks: &mut [Desk<B>], acts: &[(usize, Act)]) {
    for (place, act) in acts {
        let desk = desks.get_mut(*place).expect(rt, "there is such a worker");
        desk.does(rt, *act);
    }
}

// The worker takes a turn at once, where its node's lock is free.
fn tries<B: ServerName>(rt: &impl Abort, alloc: Global, desk: &mut Desk<B>) {
    let (mut spares, mut pieces) = (Spares::new(alloc), Vec::new(alloc));
    let worker = &mut desk.station.worker;
    let turned = worker.try_turn(Lifts::All, 8, &mut spares, &mut pieces);
    holds(rt, "a lock that is free is taken", turned.is_some());
}

// Each client counts, one after the other, and is told how many did; and each worker takes a turn where the lock is free.
fn all_count<B: ServerName, R: Wait + Abort>(rt: &R, alloc: Global, desks: Vec<Desk<B>>) {
    let mut count = 0u32;
    for mut desk in desks {
        count = count.saturating_add(1);
        let mut wanted = Vec::new(alloc);
        wanted.push(b':').expect(rt, "memory");
        int_text(i64::from(count), &mut wanted).expect(rt, "memory");
        wanted.extend_from_slice(b"\r\n").expect(rt, "memory");
        desk.asks(rt, b"INCR n\r\n", &wanted);
        tries(rt, alloc, &mut desk);
    }
    holds(rt, "each of 48 counts", count == 48);
}

// Both workers, with their clients.
fn both<B: ServerName>(rt: &impl Abort, mut desks: Vec<Desk<B>>) -> (Desk<B>, Desk<B>) {
    let second = desks.pop().expect(rt, "there are two workers");
    let first = desks.pop().expect(rt, "there are two workers");
    holds(rt, "there are two workers", desks.is_empty());
    (first, second)
}

// How many entries the tap of one client knows, beside another.
fn meets<B: ServerName>(
    rt: &impl Abort,
    one: &mut Desk<B>,
    other: &mut Desk<B>,
    wanted: Option<Ordering>,
) {
    let met = one.client.meet(&one.station, &mut other.client);
    holds(rt, "the taps compare", met == wanted);
}

// Taps tell which of them knows more entries, whichever node they are at.
fn taps_meet<B: ServerName, R: Wait + Abort>(rt: &R, desks: Vec<Desk<B>>) {
    let (mut first, mut second) = both(rt, desks);
    meets(rt, &mut first, &mut second, None);
    first.does(rt, Asks(b"SET k 1\r\n", b"+OK\r\n"));
    second.does(rt, Asks(b"GET k\r\n", b"$1\r\n1\r\n"));
    meets(rt, &mut first, &mut second, Some(Ordering::Equal));
    second.does(rt, Asks(b"SET k 2\r\n", b"+OK\r\n"));
    meets(rt, &mut first, &mut second, Some(Ordering::Less));
    meets(rt, &mut second, &mut first, Some(Ordering::Greater));
}

// A piece in front of which another was dropped is a gap, and one of another connection is a stranger's: both come back.
fn refuse_pieces<B: ServerName, R: Wait + Abort>(rt: &R, desks: Vec<Desk<B>>) {
    let (mut first, mut second) = both(rt, desks);
    first.does(rt, Sends(b"PING\r\nPING\r\nPING\r\n"));
    let conn = first.client.conn();
    let stranger = second.client.offer(rt, &mut first.station, conn, 7);
    let wanted = Offered::Refused(0, Refused::OtherConnection);
    holds(
        rt,
        "another connection's is refused",
        stranger == Ok(wanted),
    );
    let behind = first.offer(rt, 7);
    let wanted = Offered::Refused(7, Refused::Gap);
    holds(rt, "a gap is refused", behind == Ok(wanted));
    holds(
        rt,
        "nothing was accepted",
        first.client.pending().is_empty(),
    );
}

/// A turn in which all was done that was due, and so many pieces were handed out.
pub(crate) fn turns<B: ServerName, R: Wait + Abort>(
    rt: &R,
    desk: &mut Desk<B>,
    pieces: usize,
) -> Turn<B> {
    let turn = desk
        .station
        .turn(rt, Lifts::All, 8)
        .expect(rt, "a turn is taken");
    let turned = turn.turned;
    holds(rt, "all was done", turned.combined == Ok(Round::Done));
    holds(rt, "all was handed out", turned.collected.is_ok());
    holds(rt, "there are so many pieces", turn.pieces.len() == pieces);
    turn
}

/// In this place stands a piece of just these bytes for a client.
pub(crate) fn is_handed<B: ServerName>(
    rt: &impl Abort,
    turn: &Turn<B>,
    place: usize,
    client: &Client<B>,
    bytes: &[u8],
) {
    let handed = turn.pieces.get(place).expect(rt, "there is a piece");
    holds(
        rt,
        "it is for this client",
        handed.piece.conn == client.conn(),
    );
    same(rt, "it has these bytes", &handed.piece.bytes, bytes);
}

// What waits for the worker's own connections is handed out, that of the one that was opened first first, and at most so many bytes of each.
fn hand_out<B: ServerName, R: Wait + Abort>(rt: &R, desks: Vec<Desk<B>>) {
    let (mut first, mut second) = both(rt, desks);
    let mut other = first
        .station
        .open(rt)
        .ok()
        .expect(rt, "a connection is opened");
    other
        .send(&mut first.station, b"ECHO hello\r\n")
        .expect(rt, "memory");
    first.hands_in(rt, b"PING\r\n");
    second.hands_in(rt, b"PING\r\n");
    let turn = turns(rt, &mut first, 2);
    first.does(rt, IsTold(true));
    second.does(rt, IsTold(true));
    is_handed(rt, &turn, 0, &first.client, b"+PONG\r\n");
    is_handed(rt, &turn, 1, &other, b"$5\r\nhell");
    is_handed(rt, &turns(rt, &mut first, 1), 0, &other, b"o\r\n");
    turns(rt, &mut first, 0);
    is_handed(
        rt,
        &turns(rt, &mut second, 1),
        0,
        &second.client,
        b"+PONG\r\n",
    );
}

// A client of a further connection of the worker, which has sent a PING.
fn with_ping<B: ServerName, R: Wait + Abort>(rt: &R, desk: &mut Desk<B>) -> Client<B> {
    let mut client = desk
        .station
        .open(rt)
        .ok()
        .expect(rt, "a connection is opened");
    client
        .send(&mut desk.station, b"PING\r\n")
        .expect(rt, "memory");
    client
}

// One turn hands out for twenty connections, in the order in which they were opened.
fn hand_out_to_many<B: ServerName, R: Wait + Abort>(rt: &R, alloc: Global, desks: Vec<Desk<B>>) {
    let (mut first, _) = both(rt, desks);
    let mut others = Vec::new(alloc);
    for _ in 0..19 {
        let client = with_ping(rt, &mut first);
        others.push(client).expect(rt, "memory");
    }
    first.hands_in(rt, b"PING\r\n");
    let turn = turns(rt, &mut first, 20);
    is_handed(rt, &turn, 0, &first.client, b"+PONG\r\n");
    for (place, client) in others.iter().enumerate() {
        is_handed(rt, &turn, place.saturating_add(1), client, b"+PONG\r\n");
    }
}

// A node that fell answers so, opens nothing more, and passes what the other puts into the log, which so goes on through ten times its circle.
fn one_falls<B: ServerName, R: Wait + Abort>(rt: &R, desks: Vec<Desk<B>>) {
    let (mut fallen, mut other) = both(rt, desks);
    fallen.does(rt, Refuses);
    other.does(rt, Asks(b"SET k v\r\n", b"+OK\r\n"));
    fallen.all(
        rt,
        &[
            HandsIn(b"GET k\r\n"),
            Combines(Round::Down),
            IsLost,
            Gets(b""),
            OpensNone(OpenError::TooMany),
            Closes,
            OpensNone(OpenError::Down),
        ],
    );
    for _ in 0..40 {
        other.does(rt, Counts(1));
        fallen.does(rt, Combines(Round::Down));
    }
    other.does(rt, Asks(b"GET n\r\n", b"$2\r\n40\r\n"));
}

// The second of two nodes falls and comes back.
fn one_comes_back<B: ServerName, R: Wait + Abort>(rt: &R, desks: Vec<Desk<B>>) {
    let (first, second) = both(rt, desks);
    come_back(rt, first, second);
}

// The same, and its worker hasn't heard of that.
fn late_ones_are_dropped<B: ServerName, R: Wait + Abort>(rt: &R, desks: Vec<Desk<B>>) {
    let (first, second) = both(rt, desks);
    drop_late_ones(rt, first, second);
}

// The second and the third of three nodes fall and come back.
fn two_come_back<B: ServerName, R: Wait + Abort>(rt: &R, mut desks: Vec<Desk<B>>) {
    let third = desks.pop().expect(rt, "there are three workers");
    let (first, second) = both(rt, desks);
    come_back_in_turn(rt, first, second, third);
}

// A turn of the worker tells whether a queue of its connections was cut.
fn tells_cut<B: ServerName, R: Wait + Abort>(rt: &R, desk: &mut Desk<B>, wanted: bool) {
    let turn = desk
        .station
        .turn(rt, Lifts::All, 8)
        .expect(rt, "a turn is taken");
    holds(rt, "a cut is told once", turn.turned.has_cut == wanted);
}

// Of these connections those are told whose queue was cut, since more came than may wait, or since they were closed; and the worker's turn tells that one was cut.
fn tell_cuts<B: ServerName, R: Wait + Abort>(rt: &R, alloc: Global, desks: Vec<Desk<B>>) {
    let (mut first, mut second) = both(rt, desks);
    first.does(rt, Asks(b"SETRANGE k 1048575 x\r\n", b":1048576\r\n"));
    second.does(rt, Sends(b"GET k\r\n"));
    let closed = first
        .station
        .open(rt)
        .ok()
        .expect(rt, "a connection is opened")
        .conn();
    first.station.close(rt, closed);
    let (open, long) = (first.client.conn(), second.client.conn());
    let mut cut = Vec::new(alloc);
    first
        .station
        .worker
        .cut_among(rt, &[closed, open, long], &mut cut)
        .expect(rt, "memory");
    holds(rt, "two are told", cut.len() == 2);
    holds(rt, "the closed one is told", cut.first() == Some(&closed));
    holds(rt, "the long one is told", cut.last() == Some(&long));
    tells_cut(rt, &mut first, false);
    tells_cut(rt, &mut second, true);
    tells_cut(rt, &mut second, false);
}

// A turn of the worker tells these other workers: a bit for each.
fn tells_others<B: ServerName, R: Wait + Abort>(rt: &R, desk: &mut Desk<B>, wanted: u16) {
    let turn = desk
        .station
        .turn(rt, Lifts::All, 8)
        .expect(rt, "a turn is taken");
    holds(rt, "those others are told", turn.turned.others == wanted);
}

// Another worker is told where its batch was executed, where bytes wait for it, and where its batch comes back, as it does from a node that fell.
fn tell_others<B: ServerName, R: Wait + Abort>(rt: &R, desks: Vec<Desk<B>>) {
    let (mut first, mut second) = both(rt, desks);
    tells_others(rt, &mut first, 0);
    second.does(rt, HandsIn(b"PING\r\n"));
    tells_others(rt, &mut first, 0b10);
    second.does(rt, IsTold(true));
    tells_others(rt, &mut first, 0b10);
    second.does(rt, Gets(b"+PONG\r\n"));
    tells_others(rt, &mut first, 0);
    first.all(
        rt,
        &[
            Refuses,
            HandsIn(b"SET k v\r\n"),
            Combines(Round::Down),
            IsLost,
        ],
    );
    second.does(rt, HandsIn(b"PING\r\n"));
    tells_others(rt, &mut first, 0b10);
    second.does(rt, IsLost);
    tells_others(rt, &mut first, 0);
}

// Two workers of one node serve two connections each.
fn both_serve<B: ServerName, R: Wait + Abort>(rt: &R, alloc: Global, desks: Vec<Desk<B>>) {
    let (first, second) = both(rt, desks);
    serve_beside(rt, alloc, first, second);
}

/// SET and GET of a key.
const SET_AND_GET: &[u8] =
    b"*3\r\n$3\r\nSET\r\n$1\r\nk\r\n$1\r\nv\r\n*2\r\n$3\r\nGET\r\n$1\r\nk\r\n";

// A reply is there, whole or byte by byte; and what one node has answered, the other reads.
#[test]
fn read_back(rt: HostRuntime) {
    play_at(
        &rt,
        rt.alloc(),
        TWO_NODES,
        Play::InTurn(&[
            (0, Asks(SET_AND_GET, b"+OK\r\n$1\r\nv\r\n")),
            (0, SendsEach(SET_AND_GET)),
            (0, GetsEach(b"+OK\r\n$1\r\nv\r\n")),
            (0, Asks(b"SET k 0\r\n", b"+OK\r\n")),
            (0, Asks(b"GET k\r\n", b"$1\r\n0\r\n")),
            (1, Asks(b"GET k\r\n", b"$1\r\n0\r\n")),
            (0, Asks(b"SET k 1\r\n", b"+OK\r\n")),
            (0, Asks(b"GET k\r\n", b"$1\r\n1\r\n")),
            (1, Asks(b"GET k\r\n", b"$1\r\n1\r\n")),
            (0, Asks(b"SET k 2\r\n", b"+OK\r\n")),
            (0, Asks(b"GET k\r\n", b"$1\r\n2\r\n")),
            (1, Asks(b"GET k\r\n", b"$1\r\n2\r\n")),
            (0, Asks(b"SET k 3\r\n", b"+OK\r\n")),
            (0, Asks(b"GET k\r\n", b"$1\r\n3\r\n")),
            (1, Asks(b"GET k\r\n", b"$1\r\n3\r\n")),
            (0, Asks(b"SET k 4\r\n", b"+OK\r\n")),
            (0, Asks(b"GET k\r\n", b"$1\r\n4\r\n")),
            (1, Asks(b"GET k\r\n", b"$1\r\n4\r\n")),
            (0, Asks(b"SET k 5\r\n", b"+OK\r\n")),
            (0, Asks(b"GET k\r\n", b"$1\r\n5\r\n")),
            (1, Asks(b"GET k\r\n", b"$1\r\n5\r\n")),
            (0, Asks(b"SET k 6\r\n", b"+OK\r\n")),
            (0, Asks(b"GET k\r\n", b"$1\r\n6\r\n")),
            (1, Asks(b"GET k\r\n", b"$1\r\n6\r\n")),
            (0, Asks(b"SET k 7\r\n", b"+OK\r\n")),
            (0, Asks(b"GET k\r\n", b"$1\r\n7\r\n")),
            (1, Asks(b"GET k\r\n", b"$1\r\n7\r\n")),
            (0, Asks(b"SET k 8\r\n", b"+OK\r\n")),
            (0, Asks(b"GET k\r\n", b"$1\r\n8\r\n")),
            (1, Asks(b"GET k\r\n", b"$1\r\n8\r\n")),
            (0, Asks(b"SET k 9\r\n", b"+OK\r\n")),
            (0, Asks(b"GET k\r\n", b"$1\r\n9\r\n")),
            (1, Asks(b"GET k\r\n", b"$1\r\n9\r\n")),
        ]),
    );
}

// A PING is answered by the node alone, and a message reaches the other node's subscriber once that node has applied it. Who counts another generation changes nothing.
#[test]
fn messages_go_to_other_nodes(rt: HostRuntime) {
    play_at(
        &rt,
        rt.alloc(),
        TWO_NODES,
        Play::InTurn(&[
            (1, Asks(b"*1\r\n$4\r\nPING\r\n", b"+PONG\r\n")),
            (1, IsAnother),
            (
                0,
                Asks(
                    b"SUBSCRIBE news\r\n",
                    b"*3\r\n$9\r\nsubscribe\r\n$4\r\nnews\r\n:1\r\n",
                ),
            ),
            (
                0,
                Asks(
                    b"PSUBSCRIBE n*\r\n",
                    b"*3\r\n$10\r\npsubscribe\r\n$2\r\nn*\r\n:2\r\n",
                ),
            ),
            (1, Asks(b"PUBLISH news hi\r\n", b":2\r\n")),
            (0, Gets(b"")),
            (0, Combines(Round::Done)),
            (
                0,
                Gets(
                    b"*3\r\n$7\r\nmessage\r\n$4\r\nnews\r\n$2\r\nhi\r\n*4\r\n$8\r\npmessage\r\n$2\r\nn*\r\n$4\r\nnews\r\n$2\r\nhi\r\n",
                ),
            ),
        ]),
    );
}

// Two places are taken by entries that the other node hasn't passed: a third entry waits for that, and is lost by nobody.
#[test]
fn full_log_loses_nothing(rt: HostRuntime) {
    play_at(
        &rt,
        rt.alloc(),
        TWO_PLACES,
        Play::InTurn(&[
            (0, Sends(b"SET k 1\r\n")),
            (0, Sends(b"SET k 2\r\n")),
            (0, Gets(b"+OK\r\n+OK\r\n")),
            (0, HandsIn(b"SET k 3\r\nGET k\r\n")),
            (0, Combines(Round::Full)),
            (0, IsTold(false)),
            (0, Combines(Round::Full)),
            (0, IsTold(false)),
            (0, Combines(Round::Full)),
            (0, IsTold(false)),
            (0, Gets(b"")),
            (1, Combines(Round::Done)),
            (0, Combines(Round::Done)),
            (0, IsTold(true)),
            (0, Gets(b"+OK\r\n$1\r\n3\r\n")),
        ]),
    );
}

#[test]
fn taps_compare(rt: HostRuntime) {
    play_at(&rt, rt.alloc(), TWO_NODES, Play::TapsMeet);
}

#[test]
fn pieces_are_refused(rt: HostRuntime) {
    play_at(&rt, rt.alloc(), TWO_NODES, Play::PiecesAreRefused);
}

// Each with a connection: all are served by their own node.
#[test]
fn workers_of_three_nodes(rt: HostRuntime) {
    play_at(&rt, rt.alloc(), MANY_WORKERS, Play::AllCount);
}

// A connection that is closed gives its room to another, once, and what waited for it is dropped; also where 100,000 were opened before.
#[test]
fn closed_gives_room(rt: HostRuntime) {
    play_at(
        &rt,
        rt.alloc(),
        NARROW,
        Play::InTurn(&[
            (0, Reopens(100_000)),
            (0, OpensNone(OpenError::TooMany)),
            (0, Asks(b"PING\r\nPING\r\n", b"+PONG\r\n+PONG\r\n")),
            (0, Sends(b"PING\r\n")),
            (0, Closes),
            (0, Gets(b"")),
            (0, Opens),
            (0, OpensNone(OpenError::TooMany)),
            (0, Asks(b"PING\r\n", b"+PONG\r\n")),
        ]),
    );
}

// What would wait beyond the limit is cut off.
#[test]
fn long_queue_is_cut(rt: HostRuntime) {
    play_at(
        &rt,
        rt.alloc(),
        NARROW,
        Play::InTurn(&[
            (0, Asks(b"SETRANGE k 1000 x\r\n", b":1001\r\n")),
            (0, Sends(b"GET k\r\n")),
            (0, GetsLength(1010, 1010)),
            (0, Sends(b"GET k\r\nGET k\r\n")),
            (0, GetsLength(1, 1023)),
            (0, Gets(b"")),
        ]),
    );
}

#[test]
fn turns_hand_out(rt: HostRuntime) {
    play_at(&rt, rt.alloc(), TWO_WORKERS, Play::TurnsHandOut);
}

#[test]
fn twenty_are_handed_out_at_once(rt: HostRuntime) {
    play_at(&rt, rt.alloc(), WIDE, Play::ManyAtOnce);
}

// A node falls, as where memory is refused for an entry, and the other one goes on.
#[test]
fn one_of_two_nodes_falls(rt: HostRuntime) {
    play_at(&rt, rt.alloc(), ONE_EACH, Play::OneFalls);
}

// A node that fell comes back with the other's server. Its subscriber gets what waited, and counts until its end is put.
#[test]
fn a_fallen_node_comes_back(rt: HostRuntime) {
    play_at(&rt, rt.alloc(), TWO_EACH, Play::OneComesBack);
}

#[test]
fn late_batches_are_dropped(rt: HostRuntime) {
    play_at(&rt, rt.alloc(), TWO_EACH, Play::LateOnesAreDropped);
}

#[test]
fn two_of_three_nodes_come_back(rt: HostRuntime) {
    play_at(&rt, rt.alloc(), THREE_NODES, Play::TwoComeBack);
}

#[test]
fn cut_ones_are_told(rt: HostRuntime) {
    play_at(&rt, rt.alloc(), TWO_WORKERS, Play::CutsAreTold);
}

#[test]
fn others_to_wake_are_told(rt: HostRuntime) {
    play_at(&rt, rt.alloc(), TWO_WORKERS, Play::OthersAreTold);
}

// No call of a worker closes a connection of another worker of its node.
#[test]
fn workers_leave_each_others_connections(rt: HostRuntime) {
    play_at(&rt, rt.alloc(), TWO_PAIRS, Play::BothServe);
}

// A reply of a megabyte and 12 bytes; 400 reads in one batch; an entry of 1,024 jobs, whose replies are `:1` to `:1024`; and a node that has 200 entries and more to apply
// before it reads.
#[test]
fn large_sizes_are_served(rt: HostRuntime) {
    play_at(
        &rt,
        rt.alloc(),
        WIDE,
        Play::InTurn(&[
            (0, Asks(b"SETRANGE k 1048575 x\r\n", b":1048576\r\n")),
            (0, Sends(b"GET k\r\n")),
            (0, GetsLength(1 << 20, 1 << 20)),
            (0, GetsLength(12, 12)),
            (0, SendsMany(b"GET n\r\n", 400)),
            (0, GetsLength(5 * 400, 5 * 400)),
            (0, SendsMany(b"INCR n\r\n", 1_024)),
            (0, GetsLength(6_061, 6_061)),
            (0, Counts(200)),
            (1, Asks(b"GET n\r\n", b"$4\r\n1224\r\n")),
        ]),
    );
}

// As many batches of one worker, one after the other.
#[test]
fn batches_of_one_worker_are_executed(rt: HostRuntime) {
    play_at(
        &rt,
        rt.alloc(),
        NARROW,
        Play::InTurn(&[
            (0, Counts(100_000)),
            (0, Asks(b"GET n\r\n", b"$6\r\n100000\r\n")),
        ]),
    );
}

/// A SUBSCRIBE, and its reply.
const SUBSCRIBES: Act = Asks(
    b"SUBSCRIBE news\r\n",
    b"*3\r\n$9\r\nsubscribe\r\n$4\r\nnews\r\n:1\r\n",
);

// A message has 35 bytes, and a sixteenth of what may wait is 64: behind two of them an entry has to wait, until they are handed out.
#[test]
fn what_waits_holds_an_entry_up(rt: HostRuntime) {
    play_at(
        &rt,
        rt.alloc(),
        NARROW_PAIR,
        Play::InTurn(&[
            (1, SUBSCRIBES),
            (0, Asks(b"PUBLISH news m1\r\n", b":1\r\n")),
            (0, Asks(b"PUBLISH news m2\r\n", b":1\r\n")),
            (0, HandsIn(b"PUBLISH news m3\r\n")),
            (0, IsHeldUp(3)),
            (0, IsTold(false)),
            (
                1,
                Gets(
                    b"*3\r\n$7\r\nmessage\r\n$4\r\nnews\r\n$2\r\nm1\r\n*3\r\n$7\r\nmessage\r\n$4\r\nnews\r\n$2\r\nm2\r\n",
                ),
            ),
            (0, Combines(Round::Done)),
            (0, IsTold(true)),
            (0, Gets(b":1\r\n")),
            (
                1,
                Gets(b"*3\r\n$7\r\nmessage\r\n$4\r\nnews\r\n$2\r\nm3\r\n"),
            ),
        ]),
    );
}

// A worker that hands nothing out holds its node up for 1,000 turns, the one among them in which its connection's second message came, and then until 64 bytes
// more wait. Once it has handed them out all is as at first.
#[test]
fn nothing_is_held_up_for_long(rt: HostRuntime) {
    play_at(
        &rt,
        rt.alloc(),
        NARROW_PAIR,
        Play::InTurn(&[
            (1, SUBSCRIBES),
            (0, Asks(b"PUBLISH news m1\r\n", b":1\r\n")),
            (0, Asks(b"PUBLISH news m2\r\n", b":1\r\n")),
            (0, HandsIn(b"PUBLISH news m3\r\n")),
            (0, IsHeldUp(999)),
            (0, Combines(Round::Done)),
            (0, IsTold(true)),
            (0, Gets(b":1\r\n")),
            (0, Asks(b"PUBLISH news m4\r\n", b":1\r\n")),
            (0, HandsIn(b"PUBLISH news m5\r\n")),
            (0, IsHeldUp(999)),
            (0, Combines(Round::Done)),
            (0, IsTold(true)),
            (0, Gets(b":1\r\n")),
            (
                1,
                Gets(
                    b"*3\r\n$7\r\nmessage\r\n$4\r\nnews\r\n$2\r\nm1\r\n*3\r\n$7\r\nmessage\r\n$4\r\nnews\r\n$2\r\nm2\r\n*3\r\n$7\r\nmessage\r\n$4\r\nnews\r\n$2\r\nm3\r\n*3\r\n$7\r\nmessage\r\n$4\r\nnews\r\n$2\r\nm4\r\n*3\r\n$7\r\nmessage\r\n$4\r\nnews\r\n$2\r\nm5\r\n",
                ),
            ),
            (0, Asks(b"PUBLISH news m6\r\n", b":1\r\n")),
            (0, Asks(b"PUBLISH news m7\r\n", b":1\r\n")),
            (0, HandsIn(b"PUBLISH news m8\r\n")),
            (0, IsHeldUp(1)),
            (0, IsTold(false)),
        ]),
    );
}

// What one entry brings is cut at the limit: 29 of 30 messages wait, with 1,015 bytes. A queue that was cut holds nothing up.
#[test]
fn one_entry_cuts_a_queue(rt: HostRuntime) {
    play_at(
        &rt,
        rt.alloc(),
        NARROW_PAIR,
        Play::InTurn(&[
            (1, SUBSCRIBES),
            (0, SendsMany(b"PUBLISH news m1\r\n", 30)),
            (0, GetsLength(120, 120)),
            (0, Asks(b"PUBLISH news m2\r\n", b":1\r\n")),
            (0, Asks(b"PUBLISH news m3\r\n", b":1\r\n")),
            (1, GetsLength(1_015, 1_015)),
            (1, Gets(b"")),
        ]),
    );
}

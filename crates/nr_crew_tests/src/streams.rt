// Connections in memory, at two nodes.
use crate::asserted::holds;
use crate::line::Line;
use crate::places::{Breaks, Came, Trial, refuse_memory, serve};
use crate::watch::Held;
use nr_crew::ServeError;
use nr_service::Silent;
use nr_worker_service::SharedHints;
use std::alloc::Global;
use std::process::Abort;
use std::random::RandomSource;
use std::rt::Clock;
use std::sync::Wait;
use std::thread::Threads;

/// Two nodes, two workers each, and room for all.
const TRIAL: Trial = Trial {
    nodes: 2,
    workers: 2,
    places: 1_024,
    connections: 256,
    limit: 1_048_576,
    stay: 0,
    held: Held::Nobody,
    breaks: Breaks::Never,
    breaks_at: 0,
    falls: None,
    falls_again: false,
    comes_back: false,
    waits: u64::MAX,
    ends: false,
};

const PING: (&[u8], &[u8]) = (b"PING\r\n", b"+PONG\r\n");

// A text so many times. Tens and ones of a number stand there for `#` and `@`.
fn numbered<R: Abort>(rt: &R, alloc: Global, number: usize, text: &[u8], times: usize) -> Vec<u8> {
    let mut bytes = text.repeat(alloc, times).ok().expect(rt, "memory");
    for byte in &mut bytes {
        if *byte == b'#' {
            *byte = b'0' + (number / 10 % 10) as u8;
        } else if *byte == b'@' {
            *byte = b'0' + (number % 10) as u8;
        }
    }
    bytes
}

// The client of this number, which sends this so many times, and wants that as often.
fn client<R: Abort>(
    rt: &R,
    alloc: Global,
    number: usize,
    (input, wanted): (&[u8], &[u8]),
    times: usize,
) -> Line {
    let input = numbered(rt, alloc, number, input, times);
    let wanted = numbered(rt, alloc, number, wanted, times);
    Line::new(alloc, input, wanted)
}

// Adds so many clients that send a PING, and come once so many went.
fn add_pings<R: Abort>(rt: &R, alloc: Global, count: usize, from: usize, lines: &mut Vec<Line>) {
    for _ in 0..count {
        let mut ping = client(rt, alloc, 0, PING, 1);
        ping.from = from;
        lines.push(ping).ok().expect(rt, "memory");
    }
}

// These went to these lanes, in turn.
fn went_to<R: Abort>(rt: &R, came: &Came, lanes: &[Option<usize>]) {
    holds(rt, "they go in turn", came.dealt.as_slice() == lanes);
}

// So many went, each served as its streams let it, and the server ended well. How many got all.
fn served_well<R: Abort>(rt: &R, came: &Came, gone: usize) -> usize {
    holds(rt, "each turn came in time", !came.gave_up);
    holds(rt, "the server ends well", came.ended == Ok(()));
    holds(rt, "all went", came.gone.len() == gone);
    let mut count = 0usize;
    for line in &came.gone {
        holds(rt, "it is served", line.is_served());
        count = count.saturating_add(usize::from(line.is_finished));
    }
    count
}

// Of two nodes of one worker each: the one takes no turn until the other has answered a PING, and then the other takes none until the one has. A thread that serves
// both can't.
#[test]
fn gate(rt: HostRuntime) {
    for held in [0, 1] {
        let mut lines = Vec::new(rt.alloc());
        add_pings(&rt, rt.alloc(), 2, 0, &mut lines);
        let mut trial = TRIAL;
        trial.workers = 1;
        trial.held = Held::Node(held);
        let came = serve(&rt, rt.alloc(), trial, lines);
        holds(&rt, "both answer", served_well(&rt, &came, 2) == 2);
    }
}

// 64 clients of four workers, each with a key and values of its own, in pieces of one to seven bytes: each gets its own replies.
#[test]
fn bytes_never_cross(rt: HostRuntime) {
    let mut lines = Vec::new(rt.alloc());
    for number in 0..64 {
        let input = b"SET k#@ a#@\r\nGET k#@\r\nSET k#@ b#@\r\nGET k#@\r\n".as_slice();
        let wanted = b"+OK\r\n$3\r\na#@\r\n+OK\r\n$3\r\nb#@\r\n".as_slice();
        let mut line = client(&rt, rt.alloc(), number, (input, wanted), 10);
        line.piece = number % 7 + 1;
        lines.push(line).ok().expect(&rt, "memory");
    }
    let came = serve(&rt, rt.alloc(), TRIAL, lines);
    holds(&rt, "each gets its own", served_well(&rt, &came, 64) == 64);
}

// Each read fails once, and each write, in pieces of one byte and of all: the others are served, also those that come behind.
#[test]
fn others_are_served_on(rt: HostRuntime) {
    let mut lines = Vec::new(rt.alloc());
    for number in 0..96 {
        let input = b"SET k#@ v#@\r\nGET k#@\r\n".as_slice();
        let wanted = b"+OK\r\n$3\r\nv#@\r\n".as_slice();
        let mut line = client(&rt, rt.alloc(), number, (input, wanted), 1);
        if number < 48 {
            line.piece = 1;
        }
        let calls = number / 2 % 24;
        if number % 2 == 0 {
            line.reads = calls;
        } else {
            line.writes = calls;
        }
        lines.push(line).ok().expect(&rt, "memory");
    }
    add_pings(&rt, rt.alloc(), 4, 96, &mut lines);
    let came = serve(&rt, rt.alloc(), TRIAL, lines);
    let finished = served_well(&rt, &came, 100);
    // By bytes 23 reads and 14 writes are made, and else two reads, and one write or two.
    holds(
        &rt,
        "all others are served",
        finished == 59 || finished == 60,
    );
}

// A node that nobody asks goes on passing what the other one puts into a log of two places.
#[test]
fn an_idle_node_holds_nobody_up(rt: HostRuntime) {
    let mut lines = Vec::new(rt.alloc());
    let set = (b"SET k v\r\n".as_slice(), b"+OK\r\n".as_slice());
    let mut line = client(&rt, rt.alloc(), 0, set, 1_000);
    line.piece = 9;
    lines.push(line).ok().expect(&rt, "memory");
    let mut trial = TRIAL;
    trial.workers = 1;
    trial.places = 2;
    let came = serve(&rt, rt.alloc(), trial, lines);
    holds(&rt, "all are set", served_well(&rt, &came, 1) == 1);
}

// One of two nodes is held up until the other has put 5,000 entries into the log: then it passes them all, and reads behind them.
#[test]
fn far_behind(rt: HostRuntime) {
    let mut lines = Vec::new(rt.alloc());
    let set = (b"SET k v\r\n".as_slice(), b"+OK\r\n".as_slice());
    let mut writes = client(&rt, rt.alloc(), 0, set, 5_000);
    writes.piece = 9;
    lines.push(writes).ok().expect(&rt, "memory");
    let get = (b"GET k\r\n".as_slice(), b"$1\r\nv\r\n".as_slice());
    let reads = client(&rt, rt.alloc(), 0, get, 1);
    lines.push(reads).ok().expect(&rt, "memory");
    let mut trial = TRIAL;
    trial.workers = 1;
    trial.places = 8_192;
    trial.held = Held::Node(1);
    let came = serve(&rt, rt.alloc(), trial, lines);
    holds(&rt, "all are answered", served_well(&rt, &came, 2) == 2);
}

const SUBSCRIBES: (&[u8], &[u8]) = (
    b"SUBSCRIBE c\r\n",
    b"*3\r\n$9\r\nsubscribe\r\n$1\r\nc\r\n:1\r\n*3\r\n$7\r\nmessage\r\n$1\r\nc\r\n$1\r\nm\r\n",
);

/// Once all others went, one sets a key at the worker of the subscribers, and behind that one publishes at another.
const PUBLISHES: [(usize, &[u8], &[u8]); 2] = [
    (980, b"SET k v\r\n", b"+OK\r\n"),
    (981, b"PUBLISH c m\r\n", b":70\r\n"),
];

// Of five nodes with three workers each one worker has 70 subscribers, and all get what is published at another node.
#[test]
fn many_at_one_worker(rt: HostRuntime) {
    let mut lines = Vec::new(rt.alloc());
    for number in 0..1_050 {
        let is_subscriber = number % 15 == 0;
        let row = if is_subscriber { SUBSCRIBES } else { PING };
        let mut line = client(&rt, rt.alloc(), 0, row, 1);
        line.waits = is_subscriber;
        lines.push(line).ok().expect(&rt, "memory");
    }
    for row in PUBLISHES {
        lines
            .push(comes(&rt, rt.alloc(), row))
            .ok()
            .expect(&rt, "memory");
    }
    let mut trial = TRIAL;
    trial.nodes = 5;
    trial.workers = 3;
    let came = serve(&rt, rt.alloc(), trial, lines);
    holds(
        &rt,
        "all are answered",
        served_well(&rt, &came, 1_052) == 1_052,
    );
}

// Connections go to the nodes in turn, and to the workers of each.
#[test]
fn dealt_in_turn(rt: HostRuntime) {
    let mut lines = Vec::new(rt.alloc());
    add_pings(&rt, rt.alloc(), 8, 0, &mut lines);
    let came = serve(&rt, rt.alloc(), TRIAL, lines);
    holds(&rt, "all are answered", served_well(&rt, &came, 8) == 8);
    went_to(&rt, &came, &[0, 2, 1, 3, 0, 2, 1, 3].map(Some));
}

// As many connections as two nodes have workers, so many each, go to these lanes, one after the other, and each is served there: in its time no other takes a turn.
fn serves_at<R>(rt: &R, alloc: Global, workers: usize, lanes: &[Option<usize>])
where
    R: RandomSource + Threads + Wait + Abort + Clock + Sync,
{
    let count = lanes.len();
    let mut lines = Vec::new(alloc);
    for number in 0..count {
        add_pings(rt, alloc, 1, number, &mut lines);
    }
    let mut trial = TRIAL;
    trial.workers = workers;
    trial.held = Held::Others;
    let came = serve(rt, alloc, trial, lines);
    holds(
        rt,
        "all are answered",
        served_well(rt, &came, count) == count,
    );
    went_to(rt, &came, lanes);
}

#[test]
fn served_where_they_are_dealt(rt: HostRuntime) {
    serves_at(&rt, rt.alloc(), 2, &[0, 2, 1, 3].map(Some));
    serves_at(&rt, rt.alloc(), 4, &[0, 4, 1, 5, 2, 6, 3, 7].map(Some));
}

// Where each node takes one connection, the first two go to a node each; once the second went the third goes to its node, and the fourth is turned away.
#[test]
fn dealt_where_there_is_room(rt: HostRuntime) {
    let mut lines = Vec::new(rt.alloc());
    for number in 0..4 {
        let mut ping = client(&rt, rt.alloc(), 0, PING, 1);
        ping.from = number / 2;
        ping.stays = number % 2 == 0;
        lines.push(ping).ok().expect(&rt, "memory");
    }
    let mut trial = TRIAL;
    trial.connections = 1;
    trial.stay = 2;
    let came = serve(&rt, rt.alloc(), trial, lines);
    holds(
        &rt,
        "the second is answered",
        served_well(&rt, &came, 1) == 1,
    );
    went_to(&rt, &came, &[Some(0), Some(2), Some(3), None]);
}

// The client that comes once so many went, sends this, and wants that.
fn comes<R: Abort>(rt: &R, alloc: Global, (from, input, wanted): (usize, &[u8], &[u8])) -> Line {
    let mut line = client(rt, alloc, 0, (input, wanted), 1);
    line.from = from;
    line
}

/// A key gets a deadline; behind that one quits at the other node, and one reads once; and then each node is asked for it.
const WITH_A_DEADLINE: [(usize, &[u8], &[u8]); 5] = [
    (0, b"SET k v PX 1000\r\n", b"+OK\r\n"),
    (1, b"QUIT\r\n", b"+OK\r\n"),
    (1, b"PING\r\n", b"+PONG\r\n"),
    (3, b"PTTL k\r\n", b":1000\r\n"),
    (3, b"PTTL k\r\n", b":1000\r\n"),
];

// The clock stands still: no client that goes, by its end, by QUIT or since its second read fails, takes time from a key, at either node.
#[test]
fn who_goes_takes_no_time(rt: HostRuntime) {
    let mut lines = Vec::new(rt.alloc());
    for (number, row) in WITH_A_DEADLINE.into_iter().enumerate() {
        let mut line = comes(&rt, rt.alloc(), row);
        if number == 2 {
            line.reads = 1;
        }
        lines.push(line).ok().expect(&rt, "memory");
    }
    let mut trial = TRIAL;
    trial.workers = 1;
    let came = serve(&rt, rt.alloc(), trial, lines);
    holds(
        &rt,
        "all others are served",
        served_well(&rt, &came, 5) == 4,
    );
}

/// Where 1,024 bytes wait for a connection at most: of two that take none 1,025 wait for one and 1,024 for the other, and a reply of 1,025 is for one that takes them.
const AT_THE_LIMIT: [(usize, &[u8], &[u8]); 4] = [
    (
        0,
        b"SETRANGE b 1009 x\r\nSETRANGE c 1010 x\r\nSETRANGE d 1015 x\r\n",
        b":1010\r\n:1011\r\n:1016\r\n",
    ),
    (1, b"GET a\r\nGET c\r\n", b""),
    (1, b"GET a\r\nGET b\r\n", b""),
    (1, b"GET d\r\n", b""),
];

// For whom more waits than may is let go of, at once; and who is to get a reply of more gets the end. Where as much waits as may one stays, and gets a reply of so much.
#[test]
fn no_more_waits_than_may(rt: HostRuntime) {
    let mut lines = Vec::new(rt.alloc());
    for (number, row) in AT_THE_LIMIT.into_iter().enumerate() {
        let mut line = comes(&rt, rt.alloc(), row);
        line.piece = 7;
        line.is_lost = number == 1;
        line.is_deaf = number == 1 || number == 2;
        line.stays = number >= 2;
        lines.push(line).ok().expect(&rt, "memory");
    }
    let nil = (b"GET a\r\n".as_slice(), b"$-1\r\n".as_slice());
    let mut line = client(&rt, rt.alloc(), 0, nil, 200);
    line.from = 1;
    lines.push(line).ok().expect(&rt, "memory");
    // One comes to the node of each.
    add_pings(&rt, rt.alloc(), 2, 4, &mut lines);
    let mut trial = TRIAL;
    trial.workers = 1;
    trial.limit = 1_024;
    trial.stay = 1;
    let came = serve(&rt, rt.alloc(), trial, lines);
    holds(&rt, "one is lost", served_well(&rt, &came, 6) == 5);
}

// Of two workers one ends as its door breaks, with a client at each that stays: both end, and it is told why.
fn ends_all<R>(rt: &R, alloc: Global, lane: usize, breaks: Breaks, why: ServeError)
where
    R: RandomSource + Threads + Wait + Abort + Clock + Sync,
{
    let mut lines = Vec::new(alloc);
    for _ in 0..2 {
        let mut line = client(rt, alloc, 0, PING, 1);
        line.stays = true;
        lines.push(line).ok().expect(rt, "memory");
    }
    let mut trial = TRIAL;
    trial.workers = 1;
    trial.breaks = breaks;
    trial.breaks_at = lane;
    let came = serve(rt, alloc, trial, lines);
    holds(rt, "it is told why", came.ended == Err(why));
    holds(rt, "both end", came.workers == 2 && !came.gave_up);
}

#[test]
fn a_worker_that_ends_ends_all(rt: HostRuntime) {
    let refused = refuse_memory(rt.alloc());
    let memory = refused.err().expect(&rt, "a block of 2^62 bytes");
    let memory = ServeError::Memory(memory);
    for lane in 0..2 {
        ends_all(&rt, rt.alloc(), lane, Breaks::Wait, ServeError::Device);
        ends_all(&rt, rt.alloc(), lane, Breaks::Memory, memory);
    }
}

/// One that says nothing is at each node, at that which falls and at the other; behind them one is answered at the first, and then a key is set at the other, which all
/// ask that come later. The second stays: whoever goes at its node puts an entry into the log.
const BESIDE_A_FALL: [(usize, &[u8], &[u8]); 6] = [
    (0, b"", b""),
    (0, b"", b""),
    (0, b"PING\r\n", b"+PONG\r\n"),
    (1, b"SET k v\r\n", b"+OK\r\n"),
    (3, b"GET k\r\n", b"$1\r\nv\r\n"),
    (3, b"GET k\r\n", b"$1\r\nv\r\n"),
];

// Of two nodes the first falls: its client gets the end, and whoever comes then is served by the other.
#[test]
fn a_fall_holds_nobody_up(rt: HostRuntime) {
    let mut lines = Vec::new(rt.alloc());
    for (number, row) in BESIDE_A_FALL.into_iter().enumerate() {
        let mut line = comes(&rt, rt.alloc(), row);
        line.stays = number < 2;
        lines.push(line).ok().expect(&rt, "memory");
    }
    let mut trial = TRIAL;
    trial.workers = 1;
    trial.falls = Some(0);
    trial.stay = 1;
    let came = serve(&rt, rt.alloc(), trial, lines);
    holds(&rt, "all are served", served_well(&rt, &came, 5) == 5);
    went_to(&rt, &came, &[0, 1, 0, 1, 1, 1].map(Some));
}

/// One that says nothing is at each of five nodes; a key is set at the first, and once that one and the one at the last node went, four come.
const BESIDE_A_FALL_OF_FIVE: [(usize, &[u8], &[u8]); 10] = [
    (0, b"", b""),
    (0, b"", b""),
    (0, b"", b""),
    (0, b"", b""),
    (0, b"", b""),
    (0, b"SET k v\r\n", b"+OK\r\n"),
    (2, b"GET k\r\n", b"$1\r\nv\r\n"),
    (2, b"GET k\r\n", b"$1\r\nv\r\n"),
    (2, b"GET k\r\n", b"$1\r\nv\r\n"),
    (2, b"GET k\r\n", b"$1\r\nv\r\n"),
];

// Of five nodes the last falls: who would be dealt to it goes to the first.
#[test]
fn a_fall_of_the_last_of_five_is_heard(rt: HostRuntime) {
    let mut lines = Vec::new(rt.alloc());
    for (number, row) in BESIDE_A_FALL_OF_FIVE.into_iter().enumerate() {
        let mut line = comes(&rt, rt.alloc(), row);
        line.stays = number < 5;
        lines.push(line).ok().expect(&rt, "memory");
    }
    let mut trial = TRIAL;
    trial.nodes = 5;
    trial.workers = 1;
    trial.falls = Some(4);
    trial.stay = 4;
    let came = serve(&rt, rt.alloc(), trial, lines);
    holds(&rt, "all are served", served_well(&rt, &came, 6) == 6);
    let lanes = [0, 1, 2, 3, 4, 0, 1, 2, 3, 0];
    went_to(&rt, &came, &lanes.map(Some));
}

/// One that says nothing is at the node that falls; the next sets a key at the other, which is full with it; and one reads that key once the first went.
const BEHIND_A_REVIVAL: [(usize, &[u8], &[u8]); 3] = [
    (0, b"", b""),
    (0, b"SET k v\r\n", b"+OK\r\n"),
    (1, b"GET k\r\n", b"$1\r\nv\r\n"),
];

// Of two nodes with room for one each the first falls: whoever comes then is turned away, until it is back, and then it takes him.
#[test]
fn a_node_that_came_back_takes_others(rt: HostRuntime) {
    let mut lines = Vec::new(rt.alloc());
    for (number, row) in BEHIND_A_REVIVAL.into_iter().enumerate() {
        let mut line = comes(&rt, rt.alloc(), row);
        line.stays = number < 2;
        lines.push(line).ok().expect(&rt, "memory");
    }
    let mut trial = TRIAL;
    trial.workers = 1;
    trial.connections = 1;
    trial.falls = Some(0);
    trial.comes_back = true;
    trial.stay = 1;
    let came = serve(&rt, rt.alloc(), trial, lines);
    holds(&rt, "all are served", served_well(&rt, &came, 2) == 2);
    let parted = came.dealt.split_at_checked(2);
    let (first, later) = parted.expect(&rt, "two were dealt");
    holds(
        &rt,
        "the others are dealt",
        first == [0, 1].map(Some).as_slice(),
    );
    let last = later.split_last().expect(&rt, "more came");
    let is_away = !last.1.is_empty() && last.1.iter().all(|lane| lane.is_none());
    holds(
        &rt,
        "it is turned away, and taken",
        is_away && *last.0 == Some(0),
    );
}

// Where no connection can come any more all workers end.
#[test]
fn ends_where_none_can_come(rt: HostRuntime) {
    for (nodes, workers) in [(2, 2), (5, 1)] {
        let mut lines = Vec::new(rt.alloc());
        add_pings(&rt, rt.alloc(), 1, usize::MAX, &mut lines);
        let mut trial = TRIAL;
        trial.nodes = nodes;
        trial.workers = workers;
        trial.waits = 10_000;
        let came = serve(&rt, rt.alloc(), trial, lines);
        holds(&rt, "it is told", came.ended == Err(ServeError::Device));
        let all = nodes.saturating_mul(workers);
        holds(&rt, "all workers end", came.workers == all && !came.gave_up);
    }
}

// A node that has fallen takes no connection, and the others do; once all have, none does.
#[test]
fn a_fallen_node_takes_none(rt: HostRuntime) {
    let crew = SharedHints::new(rt.alloc(), Silent, 8, 1, 2);
    let crew = crew.ok().expect(&rt, "memory");
    for node in 0..8 {
        holds(&rt, "one is up", !crew.are_down() && !crew.is_down(node));
        holds(&rt, "a node takes one", crew.admit(node));
        crew.fall(node, 0);
        holds(
            &rt,
            "it has fallen",
            crew.is_down(node) && !crew.admit(node),
        );
    }
    holds(&rt, "all have", crew.are_down());
}

/// What a subscriber gets first, and each message behind that.
const SUBSCRIBED: &[u8] = b"*3\r\n$9\r\nsubscribe\r\n$4\r\nnews\r\n:1\r\n";

const MESSAGE: &[u8] = b"*3\r\n$7\r\nmessage\r\n$4\r\nnews\r\n$1\r\nm\r\n";

// How many messages a subscriber got, behind the reply to its SUBSCRIBE, and nothing else; or by how many subscribers those of a publisher were got, which has 200
// replies.
fn messages_of<R: Abort>(rt: &R, alloc: Global, line: &Line) -> (usize, usize) {
    let output = line.output();
    if let Some(messages) = output.strip_prefix(SUBSCRIBED) {
        let count = messages.len() / MESSAGE.len();
        let whole = MESSAGE.repeat(alloc, count).ok().expect(rt, "memory");
        holds(rt, "messages alone come", messages == whole.as_slice());
        return (count, 0);
    }
    holds(rt, "each PUBLISH is answered", output.len() == 800);
    let mut count = 0usize;
    for reply in output.chunks(4) {
        let digit = reply.get(1).copied().unwrap_or(b'0');
        count = count.saturating_add(usize::from(digit.saturating_sub(b'0')));
    }
    (0, count)
}

// Six subscribers and twelve publishers, of whom none ends.
fn talkers<R: Abort>(rt: &R, alloc: Global, lines: &mut Vec<Line>) {
    for number in 0..18 {
        let (input, times) = if number % 3 == 0 {
            (b"SUBSCRIBE news\r\n".as_slice(), 1)
        } else {
            (b"PUBLISH news m\r\n".as_slice(), 200)
        };
        let mut line = client(rt, alloc, 0, (input, b""), times);
        line.stays = true;
        lines.push(line).ok().expect(rt, "memory");
    }
}

// They got as many messages as the replies count.
fn owes_nothing<R: Abort>(rt: &R, alloc: Global, came: &Came) {
    holds(rt, "the server ends well", came.ended == Ok(()));
    holds(rt, "all are left", came.left.len() == 18);
    let mut got = 0usize;
    let mut told = 0usize;
    for line in &came.left {
        let (messages, receivers) = messages_of(rt, alloc, line);
        got = got.saturating_add(messages);
        told = told.saturating_add(receivers);
    }
    holds(rt, "each message came", got == told);
}

// At three nodes of two workers: once all that they send was read, the server is told to end in order. By then each PUBLISH was answered, and each message came that the
// replies count, across all nodes.
#[test]
fn an_end_in_order_owes_nothing(rt: HostRuntime) {
    for _ in 0..3 {
        let mut lines = Vec::new(rt.alloc());
        talkers(&rt, rt.alloc(), &mut lines);
        let mut trial = TRIAL;
        trial.nodes = 3;
        trial.ends = true;
        let came = serve(&rt, rt.alloc(), trial, lines);
        holds(&rt, "nobody went", came.gone.is_empty());
        owes_nothing(&rt, rt.alloc(), &came);
    }
}

// The same while the first of the nodes, which serves none of them, falls and comes back time and again.
#[test]
fn an_end_in_order_beside_falls_owes_nothing(rt: HostRuntime) {
    for _ in 0..3 {
        let mut lines = Vec::new(rt.alloc());
        lines
            .push(comes(&rt, rt.alloc(), (0, b"SET k v\r\n", b"")))
            .ok()
            .expect(&rt, "memory");
        talkers(&rt, rt.alloc(), &mut lines);
        let mut trial = TRIAL;
        trial.nodes = 3;
        trial.ends = true;
        trial.falls = Some(0);
        trial.falls_again = true;
        let came = serve(&rt, rt.alloc(), trial, lines);
        owes_nothing(&rt, rt.alloc(), &came);
    }
}

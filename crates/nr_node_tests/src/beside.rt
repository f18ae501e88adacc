// Two workers of one node, each with two connections: whatever one of them does at the node, the other's connections stay open and are answered.
use crate::asserted::holds;
use crate::desk::Act::{IsTold, Opens, OpensNone};
use crate::desk::Desk;
use crate::in_turn::{is_handed, turns};
use nr_blob::int_text;
use nr_combiner::{Lifts, ServerName};
use nr_entry::ConnId;
use nr_node::{OpenError, Round};
use nr_replica::Spares;
use nr_test_parts::Client;
use std::alloc::Global;
use std::process::Abort;
use std::sync::Wait;

/// How often each worker takes the first turn of a round.
const ROUNDS: u32 = 10;

/// A worker with two clients, the first of which counts.
#[derive(Drop)]
struct Pair<B: ServerName> {
    desk: Desk<B>,
    other: Client<B>,
    counts: &'static [u8],
}

// The reply to an INCR that came to this.
fn reply_of(rt: &impl Abort, alloc: Global, count: u32) -> Vec<u8> {
    let mut reply = Vec::new(alloc);
    reply.push(b':').expect(rt, "memory");
    int_text(i64::from(count), &mut reply).expect(rt, "memory");
    reply.extend_from_slice(b"\r\n").expect(rt, "memory");
    reply
}

impl<B: ServerName> Pair<B> {
    // A worker with its client, and one more.
    fn new<R: Wait + Abort>(rt: &R, mut desk: Desk<B>, counts: &'static [u8]) -> Pair<B> {
        let opened = desk.station.open(rt);
        let other = opened.ok().expect(rt, "a connection is opened");
        Pair {
            desk,
            other,
            counts,
        }
    }

    // Both clients ask, and the worker hands that in.
    fn asks<R: Abort>(&mut self, rt: &R) {
        let sent = self.other.send(&mut self.desk.station, b"PING\r\n");
        holds(rt, "it is sent", sent.is_ok());
        self.desk.hands_in(rt, self.counts);
    }

    // The worker takes a turn, and hands out what both asked for: the one counted up to this.
    fn gets<R: Wait + Abort>(&mut self, rt: &R, alloc: Global, count: u32) {
        let turn = turns(rt, &mut self.desk, 2);
        self.desk.does(rt, IsTold(true));
        let counted = reply_of(rt, alloc, count);
        is_handed(rt, &turn, 0, &self.desk.client, &counted);
        is_handed(rt, &turn, 1, &self.other, b"+PONG\r\n");
    }

    // The worker opens a connection more, and closes it.
    fn opens_and_closes<R: Wait + Abort>(&mut self, rt: &R) {
        let opened = self.desk.station.open(rt);
        let conn = opened.ok().expect(rt, "a connection is opened").conn();
        self.desk.station.close(rt, conn);
    }

    // The worker asks in each way for what waits, which is nothing, and for an end that is to be put; and its node takes a turn for nobody.
    fn looks<R: Wait + Abort>(&mut self, rt: &R, alloc: Global) {
        let (mut spares, mut pieces) = (Spares::new(alloc), Vec::new(alloc));
        let worker = &mut self.desk.station.worker;
        let tried = worker.try_turn(Lifts::Own, 8, &mut spares, &mut pieces);
        holds(rt, "a lock that is free is taken", tried.is_some());
        let told = worker.collect_pieces(rt, 8, &mut spares, &mut pieces);
        holds(rt, "it is told what waits", told.is_some());
        holds(rt, "nothing waits", pieces.is_empty());
        let unended = worker.next_unended(rt, None);
        holds(rt, "no end is to be put", unended.is_none());
        let combined = self.desk.station.combine(rt);
        holds(rt, "a turn is taken", combined == Ok(Round::Done));
    }

    // None of these connections was cut or closed.
    fn are_open<R: Wait + Abort>(&self, rt: &R, alloc: Global, conns: &[ConnId]) {
        let mut cut = Vec::new(alloc);
        let asked = self.desk.station.worker.cut_among(rt, conns, &mut cut);
        holds(rt, "it is told", asked.is_ok());
        holds(rt, "all are open", cut.is_empty());
    }
}

// Both workers hand in, take their turns in this order, and do whatever else a worker does.
fn serve_once<B: ServerName, R: Wait + Abort>(
    rt: &R,
    alloc: Global,
    (first, second): (&mut Pair<B>, &mut Pair<B>),
    count: u32,
) {
    first.asks(rt);
    second.asks(rt);
    first.gets(rt, alloc, count);
    second.gets(rt, alloc, count);
    first.opens_and_closes(rt);
    second.opens_and_closes(rt);
    first.looks(rt, alloc);
    second.looks(rt, alloc);
}

/// Two workers of one node, of which five connections are open at most, serve two connections each. These four are open in the end, and one more is opened.
pub(crate) fn serve_beside<B: ServerName, R: Wait + Abort>(
    rt: &R,
    alloc: Global,
    first: Desk<B>,
    second: Desk<B>,
) {
    let mut first = Pair::new(rt, first, b"INCR a\r\n");
    let mut second = Pair::new(rt, second, b"INCR b\r\n");
    for round in 0..ROUNDS {
        let count = round.saturating_mul(2);
        let both = (&mut first, &mut second);
        serve_once(rt, alloc, both, count.saturating_add(1));
        let both = (&mut second, &mut first);
        serve_once(rt, alloc, both, count.saturating_add(2));
    }
    let (of_first, of_second) = (first.desk.client.conn(), second.desk.client.conn());
    let all = [of_first, first.other.conn(), of_second, second.other.conn()];
    first.are_open(rt, alloc, &all);
    second.are_open(rt, alloc, &all);
    first.desk.does(rt, Opens);
    second.desk.does(rt, OpensNone(OpenError::TooMany));
}

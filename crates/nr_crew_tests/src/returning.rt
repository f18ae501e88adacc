// The workers of two nodes of two workers each, of which the first node falls and comes back: its second worker hears late of that.
use crate::asserted::holds;
use crate::sizes::{PING, SET, SUBSCRIBE, Server, asks, opens, opens_and_asks, sends, works};
use nr_combiner::{Node, ServerName};
use nr_entry::ConnId;
use nr_service::{Backend, ConnectionState};
use std::alloc::Global;
use std::process::Abort;
use std::sync::{Arc, Wait};

/// The nodes of a server, which can be made to fall, and come back.
pub(crate) trait Falling {
    /// A node refuses the next entry that it applies.
    fn refuse<R: Wait + Abort>(&self, rt: &R, node: usize);

    /// A node comes back from another one: how many keys it has then.
    fn revive<R: Wait + Abort>(&self, rt: &R, node: usize, donor: usize) -> Option<u64>;
}

/// Those behind their locks, in order.
#[derive(Drop)]
pub(crate) struct Nodes<B: ServerName> {
    pub(crate) all: Vec<Arc<Node<B>, Global>>,
}

impl<B: ServerName> Nodes<B> {
    fn node<R: Abort>(&self, rt: &R, node: usize) -> &Node<B> {
        self.all.get(node).expect(rt, "a node")
    }
}

impl<B: ServerName> Falling for Nodes<B> {
    fn refuse<R: Wait + Abort>(&self, rt: &R, node: usize) {
        self.node(rt, node).refuse(rt);
    }

    fn revive<R: Wait + Abort>(&self, rt: &R, node: usize, donor: usize) -> Option<u64> {
        self.node(rt, node).revive(rt, self.node(rt, donor)).ok()
    }
}

/// A PUBLISH, and its reply where one is subscribed, and where nobody is.
const HEARD_BY_ONE: (&[u8], &[u8]) = (b"PUBLISH c m\r\n", b":1\r\n");

const HEARD_BY_NONE: (&[u8], &[u8]) = (b"PUBLISH c m\r\n", b":0\r\n");

// Node 0 refuses the next entry, which comes from a connection of node 1, and its first worker finds that.
fn falls<R: Wait + Abort, A: Backend, N: Falling>(
    rt: &R,
    server: &mut Server<'_, A>,
    nodes: &N,
    conn: ConnId,
) {
    nodes.refuse(rt, 0);
    asks(rt, server.desk(rt, 1, 0), conn, SET);
    works(rt, server.desk(rt, 0, 0));
    holds(rt, "it is down", server.crew.is_down(0));
}

// Node 0 comes back with what the other one stores.
fn rises<R: Wait + Abort, A: Backend, N: Falling>(rt: &R, server: &Server<'_, A>, nodes: &N) {
    holds(rt, "it comes back", nodes.revive(rt, 0, 1) == Some(1));
    server.crew.rise(0);
    holds(rt, "its workers haven't heard", !server.crew.admit(0));
}

// No connection is opened at the second worker of node 0, for which room was taken before.
fn opens_none<R: Abort, A: Backend>(rt: &R, server: &mut Server<'_, A>) {
    holds(rt, "none is dealt to it", !server.crew.admit(0));
    let opened = server.desk(rt, 0, 1).open(0);
    holds(rt, "none is opened", matches!(opened, Ok(None)));
}

// A connection that was dealt to the first worker of node 0 before that fell, and came there late.
fn comes_late<R: Abort, A: Backend>(rt: &R, server: &mut Server<'_, A>) -> ConnId {
    let desk = server.desk(rt, 0, 0);
    let conn = opens(rt, desk);
    asks(rt, desk, conn, PING);
    conn
}

// Room for so many that come late.
fn are_dealt<R: Abort, A: Backend>(rt: &R, server: &Server<'_, A>, count: u32) {
    for _ in 0..count {
        holds(rt, "there is room", server.crew.admit(0));
    }
}

// A worker works until nothing is left to be done there.
fn works_off<R: Abort, A: Backend>(rt: &R, desk: &mut A) {
    for _ in 0..4 {
        works(rt, desk);
        if !desk.is_busy() {
            return;
        }
    }
    panic!(rt; "all is done");
}

// A connection of a worker of node 0 is taken for down, and goes; then the worker works.
fn goes<R: Abort, A: Backend>(rt: &R, server: &mut Server<'_, A>, worker: usize, conn: ConnId) {
    let desk = server.desk(rt, 0, worker);
    works(rt, desk);
    holds(
        rt,
        "it is down",
        desk.standing(conn) == ConnectionState::Down,
    );
    holds(rt, "nothing waits", desk.pending(conn).is_empty());
    holds(rt, "it is closed", desk.close(conn, 0).is_ok());
    works_off(rt, desk);
}

// The second worker of node 0 has a subscriber, and its node falls and comes back so often before it does anything. No other comes then, and what its client sends, if it
// sends something, isn't executed; once that went another is served, and nobody counts as subscribed.
fn hears_late<R: Wait + Abort, A: Backend, N: Falling>(
    rt: &R,
    server: &mut Server<'_, A>,
    nodes: &N,
    conn: ConnId,
    times: u32,
) {
    let subscriber = opens_and_asks(rt, server, (0, 1), SUBSCRIBE);
    are_dealt(rt, server, times.saturating_add(1));
    for _ in 0..times {
        let first = comes_late(rt, server);
        falls(rt, server, nodes, conn);
        rises(rt, server, nodes);
        goes(rt, server, 0, first);
    }
    asks(rt, server.desk(rt, 1, 0), conn, HEARD_BY_ONE);
    opens_none(rt, server);
    if times > 1 {
        sends(rt, server.desk(rt, 0, 1), subscriber, PING.0);
    }
    goes(rt, server, 1, subscriber);
    asks(rt, server.desk(rt, 1, 0), conn, HEARD_BY_NONE);
    serves_others(rt, server);
}

// Both workers of node 0 serve others.
fn serves_others<R: Abort, A: Backend>(rt: &R, server: &mut Server<'_, A>) {
    for worker in 0..2 {
        let conn = opens_and_asks(rt, server, (0, worker), PING);
        let desk = server.desk(rt, 0, worker);
        holds(rt, "it is closed", desk.close(conn, 0).is_ok());
        works(rt, desk);
    }
}

// Node 0 falls again over the very entry in which its second worker puts the end of a subscriber: at the other node nobody counts then, and it comes back once more.
fn falls_over_an_end<R: Wait + Abort, A: Backend, N: Falling>(
    rt: &R,
    server: &mut Server<'_, A>,
    nodes: &N,
    conn: ConnId,
) {
    let subscriber = opens_and_asks(rt, server, (0, 1), SUBSCRIBE);
    falls(rt, server, nodes, conn);
    goes(rt, server, 1, subscriber);
    rises(rt, server, nodes);
    works(rt, server.desk(rt, 0, 0));
    asks(rt, server.desk(rt, 1, 0), conn, HEARD_BY_ONE);
    works(rt, server.desk(rt, 0, 0));
    nodes.refuse(rt, 0);
    works(rt, server.desk(rt, 0, 1));
    holds(rt, "it is down", server.crew.is_down(0));
    asks(rt, server.desk(rt, 1, 0), conn, HEARD_BY_NONE);
    rises(rt, server, nodes);
    for worker in 0..2 {
        works(rt, server.desk(rt, 0, worker));
    }
    asks(rt, server.desk(rt, 1, 0), conn, HEARD_BY_NONE);
    serves_others(rt, server);
}

/// Node 0 falls and comes back time and again.
pub(crate) fn come_back<R: Wait + Abort, A: Backend, N: Falling>(
    rt: &R,
    server: &mut Server<'_, A>,
    nodes: &N,
) {
    let conn = server.opens(rt, 1, 0);
    for times in 1..4 {
        hears_late(rt, server, nodes, conn, times);
    }
    falls_over_an_end(rt, server, nodes, conn);
}

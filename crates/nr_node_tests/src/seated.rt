// What a worker keeps of its connections: their sessions, and what was handed out for them.
use crate::asserted::{holds, same};
use nr_blob::Memory;
use nr_entry::{ConnId, Job};
use nr_node::LastPiece;
use nr_replica::{CutReason, Piece, Spares};
use nr_worker::{Closed, OpenConnection, OpenConnections};
use std::alloc::Global;
use std::process::Abort;

const CONN: ConnId = ConnId { node: 1, serial: 7 };

// Bytes that were handed out for the connection, behind so many.
fn handed(rt: &impl Abort, alloc: Global, from: u64, bytes: &[u8], is_cut: bool) -> LastPiece {
    let mut all = Vec::new(alloc);
    all.extend_from_slice(bytes).expect(rt, "memory");
    LastPiece {
        piece: Piece {
            conn: CONN,
            from,
            bytes: all,
        },
        is_cut,
    }
}

// Puts these in, for which at most eight bytes wait.
fn put(rt: &impl Abort, alloc: Global, seats: &mut OpenConnections, piece: LastPiece) {
    let mut pieces = Vec::new(alloc);
    pieces.push(piece).expect(rt, "memory");
    seats.put_each(&mut pieces, 8);
}

// Feeds bytes to the connection, which takes them.
fn feed(rt: &impl Abort, seats: &mut OpenConnections, bytes: &[u8], jobs: &mut Vec<Job>) {
    if !seats.takes(CONN.serial) {
        panic!(rt; "the connection takes bytes");
    }
    let fed = seats.feed(CONN.serial, 1, bytes, jobs);
    holds(rt, "they are fed", fed.is_ok());
}

// Lets go of so many bytes that wait.
fn write(rt: &impl Abort, alloc: Global, seats: &mut OpenConnections, count: usize) {
    if count > seats.pending(CONN.serial).len() {
        panic!(rt; "so many bytes wait");
    }
    let mut spares = Spares::new(alloc);
    seats.written(CONN.serial, count, &mut spares);
}

// A connection sends a request in two parts, gets its reply in two, and is cut at a reply above its limit.
#[test]
fn a_seat_from_first_to_last(rt: HostRuntime) {
    let alloc = rt.alloc();
    let mut seats = OpenConnections::new(alloc);
    let mut jobs = Vec::new(alloc);
    holds(&rt, "it is opened", seats.open(CONN).is_ok());
    feed(&rt, &mut seats, b"PI", &mut jobs);
    holds(&rt, "half a request asks for nothing", jobs.is_empty());
    feed(&rt, &mut seats, b"NG\r\n", &mut jobs);
    holds(&rt, "the whole asks for one job", jobs.len() == 1);
    put(&rt, alloc, &mut seats, handed(&rt, alloc, 0, b"+PO", false));
    put(
        &rt,
        alloc,
        &mut seats,
        handed(&rt, alloc, 3, b"NG\r\n", false),
    );
    same(
        &rt,
        "the reply waits",
        seats.pending(CONN.serial),
        b"+PONG\r\n",
    );
    holds(&rt, "it is told", seats.told(0) == Some(CONN.serial));
    write(&rt, alloc, &mut seats, 5);
    same(&rt, "its end waits", seats.pending(CONN.serial), b"\r\n");
    put(
        &rt,
        alloc,
        &mut seats,
        handed(&rt, alloc, 7, b"1234567", false),
    );
    same(&rt, "no more is taken", seats.pending(CONN.serial), b"\r\n");
    holds(&rt, "it is cut", !seats.takes(CONN.serial));
    let closed = seats.close(CONN.serial, 2);
    holds(
        &rt,
        "its close has a job",
        matches!(closed, Closed::Last(_)),
    );
    holds(&rt, "it is gone", !seats.is_open(CONN.serial));
}

// Want of memory, by a block of 2^62 bytes.
fn want_of_memory(alloc: Global) -> Result<Vec<u8>, Memory> {
    Ok(Vec::with_capacity(alloc, 1 << 62)?)
}

// A seat for which at most eight bytes wait, behind a piece of so many bytes from so many on.
fn behind_a_piece(
    rt: &impl Abort,
    alloc: Global,
    from: u64,
    bytes: &[u8],
    is_cut: bool,
) -> OpenConnection {
    let mut seat = OpenConnection::new(alloc, CONN);
    seat.take_in(handed(rt, alloc, from, bytes, is_cut), 8);
    seat
}

// Each way in which a seat is cut leaves its reason, and the first of them stays.
#[test]
fn a_cut_keeps_its_first_reason(rt: HostRuntime) {
    let alloc = rt.alloc();
    let memory = want_of_memory(alloc)
        .err()
        .expect(&rt, "no block has so many bytes");
    let mut refused = OpenConnection::new(alloc, CONN);
    refused.cut(CutReason::Refused(memory));
    refused.cut(CutReason::Full);
    let mut last = behind_a_piece(&rt, alloc, 0, b"12345678", true);
    last.cut(CutReason::Fallen);
    let rows = [
        (behind_a_piece(&rt, alloc, 0, b"12345678", false), None),
        (
            behind_a_piece(&rt, alloc, 0, b"123456789", false),
            Some(CutReason::Full),
        ),
        (
            behind_a_piece(&rt, alloc, 1, b"1", false),
            Some(CutReason::Full),
        ),
        (
            behind_a_piece(&rt, alloc, 1, b"1", true),
            Some(CutReason::Full),
        ),
        (last, Some(CutReason::Closed)),
        (refused, Some(CutReason::Refused(memory))),
    ];
    for (seat, why) in &rows {
        assert!(&rt; seat.why_cut() == *why);
    }
}

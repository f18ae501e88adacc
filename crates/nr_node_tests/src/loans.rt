// What no contract says of loans: that a server is lent, and that reads are answered from it.
use crate::asserted::holds;
use nr_blob::Memory;
use nr_entry::{ConnId, Job, JobKind, Read};
use nr_replica::{Lent, Replica, Spares};
use nr_resp::Reply;
use std::alloc::Global;
use std::hash::RandomState;
use std::test::Fail;

fn conn(serial: u64) -> ConnId {
    ConnId { node: 0, serial }
}

// A read of a connection that asks for no key.
fn local(serial: u64) -> Job {
    Job {
        conn: conn(serial),
        number: 0,
        moment: 0,
        kind: JobKind::Read(Read::Local(Reply::Simple("PONG"))),
    }
}

// How many runs are answered of reads of these connections, one behind the other, with so many bytes for each at most.
fn runs(alloc: Global, lent: &Lent, limit: usize, serials: &[u64]) -> Result<usize, Memory> {
    let mut jobs = Vec::new(alloc);
    for serial in serials {
        jobs.push(local(*serial))?;
    }
    let mut spares = Spares::new(alloc);
    let Some(replies) = lent.answer(alloc, limit, &mut spares, &jobs) else {
        return Ok(0);
    };
    Ok(replies.len())
}

// A server is lent as often as it is asked for, and is lent until the last loan ends.
#[test]
fn lends(rt: HostRuntime) -> Result<(), Fail> {
    let alloc = rt.alloc();
    let mut replica = Replica::new(alloc, RandomState::new(&rt)?, 0, 1).expect(&rt, "memory");
    holds(&rt, "none is out", !replica.is_lent());
    let first = replica.lend();
    let second = replica.lend();
    holds(&rt, "two are given", first.is_some() && second.is_some());
    holds(&rt, "two are out", replica.is_lent());
    drop(first);
    holds(&rt, "one is out", replica.is_lent());
    drop(second);
    holds(&rt, "none is out any more", !replica.is_lent());
    Ok(())
}

// Reads are answered by runs of one connection, and none is where a run passes the limit.
#[test]
fn answers(rt: HostRuntime) -> Result<(), Fail> {
    let alloc = rt.alloc();
    let mut replica = Replica::new(alloc, RandomState::new(&rt)?, 0, 1).expect(&rt, "memory");
    let Some(lent) = replica.lend() else {
        panic!(&rt; "a loan is given");
    };
    let serials = [4, 4, 7, 4];
    let three = runs(alloc, &lent, 14, &serials).expect(&rt, "memory");
    holds(&rt, "three runs", three == 3);
    let none = runs(alloc, &lent, 13, &serials).expect(&rt, "memory");
    holds(&rt, "one passes the limit", none == 0);
    Ok(())
}

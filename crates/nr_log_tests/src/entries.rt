// Entries of one job, and what a test does at an end of a log.
ghost use Rattle.std.specs.Prelude.{◌≡◌, ◌+◌, ◌<◌, IfOk, None};
ghost use Rattle.nr_log_end.specs.Reserves.{IfTaken, IfFull, IfLost};
ghost use Rattle.nr_log_tests.specs.Ready.{IsReady, IsFresh, IsOfNode};

use nr_blob::Memory;
use nr_entry::{ConnId, Entry, Job, JobKind, Shares, Unshared, Update};
use nr_log_end::{LogEnd, Reserve};
use nr_oplog::{End, LogName};
use std::alloc::Global;

// Shares of an entry whose one job has this number.
pub(crate) fn shares(
    alloc: Global,
    node: usize,
    nodes: usize,
    number: u64,
) -> Result<Shares, Memory>
    requires { 0 < nodes }
    ensures { IfOk result (IsOfNode node nodes number) }
{
    let mut jobs = Vec::with_capacity(alloc, 1)?;
    jobs.push(close(node, number))?;
    match Shares::of(alloc, Unshared::Whole(Entry::new(node, jobs)), nodes) {
        Ok(shares) => Ok(shares),
        Err((_, refused)) => Err(refused),
    }
}

fn close(node: usize, number: u64) -> Job
    ensures kind { result.kind ≡ JobKind.Update (Update.Close None) }
    ensures node { result.conn.node ≡ node }
    ensures number { result.number ≡ number }
{
    Job {
        conn: ConnId { node, serial: 0 },
        number,
        moment: 0,
        kind: JobKind::Update(Update::Close(None)),
    }
}

// Tries once to append an entry whose job has this number.
pub(crate) fn append<B: LogName>(
    end: &mut End<B>,
    node: usize,
    nodes: usize,
    number: u64,
    shares: Shares,
) -> Reserve
    requires ready { IsReady node nodes number end.old.standing }
    requires shares { IsOfNode node nodes number shares }
    ensures taken { IfTaken result (λ at. IsReady node nodes (number + 1) end.new.standing) }
    ensures full { IfFull result (λ back. (back ≡ shares) × IsReady node nodes number end.new.standing) }
    ensures lost { IfLost result (λ back. (back ≡ shares) × IsReady node nodes number end.new.standing) }
{
    match end.reserve(shares) {
        Reserve::Taken(at) => {
            fill_all(end, at, node, nodes, number);
            Reserve::Taken(at)
        }
        Reserve::Full(back) => Reserve::Full(back),
        Reserve::Lost(back) => Reserve::Lost(back),
    }
}

// Fills each node's cell.
fn fill_all<L: LogEnd>(end: &mut L, at: u64, node: usize, nodes: usize, number: u64)
    requires { IsFresh node nodes number at (L.standing end.old) }
    ensures { IsReady node nodes (number + 1) (L.standing end.new) }
{
    for other in 0..nodes {
        end.fill(at, other);
    }
}

// The number of the next entry's job. The entry is passed.
pub(crate) fn take<L: LogEnd>(end: &mut L, node: usize, nodes: usize, next: u64) -> Option<u64>
    requires { IsReady node nodes next (L.standing end.old) }
    ensures { IsReady node nodes next (L.standing end.new) }
{
    let entry = end.fetch()?;
    end.pass();
    Some(entry.jobs[0].number)
}

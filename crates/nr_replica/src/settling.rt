// Jobs that were executed are owed no more to their workers' batches.
ghost use Rattle.std.specs.Prelude.{ℕ, ◌≡◌, ◌==◌, ◌∷◌, [], cond};
ghost use Rattle.nr_entry.specs.Jobs.{connection_of, items_of};
ghost use Rattle.nr_replica.specs.Members as specs;
ghost use Rattle.nr_replica.specs.Replicas.{owed_from, owing_less};

use crate::members::NodeMembers;
use nr_entry::{ConnId, Entry, Job};

/// Takes these jobs off what is owed. Linear in them.
pub(crate) fn settle(jobs: &[Job], members: &NodeMembers, owed: &mut [Option<usize>])
    ensures { (n : ℕ) → owed.new ≡ owed_from 0 (specs.members_seen n members.now) (items_of jobs.now) owed.old }
{
    for job in jobs {
        settle_one(job, members, owed);
    }
}

/// The same for the jobs of an entry that is counted, if it is one of the node.
pub(crate) fn settle_counted(
    counted: bool,
    entry: &Entry,
    node: usize,
    members: &NodeMembers,
    owed: &mut [Option<usize>],
)
    ensures { (n : ℕ) → owed.new
        ≡ cond counted (cond (entry.now.node == node) (owed_from 0 (specs.members_seen n members.now) (items_of entry.now.jobs.items) owed.old) owed.old) owed.old }
{
    if counted {
        settle_own(entry, node, members, owed);
    }
}

// The same for an entry's jobs, if it is one of the node.
fn settle_own(entry: &Entry, node: usize, members: &NodeMembers, owed: &mut [Option<usize>])
    ensures { (n : ℕ) → owed.new ≡ cond (entry.now.node == node) (owed_from 0 (specs.members_seen n members.now) (items_of entry.now.jobs.items) owed.old) owed.old }
{
    if entry.node == node {
        settle(&entry.jobs, members, owed);
    }
}

// A job fewer for the worker of its connection.
fn settle_one(job: &Job, members: &NodeMembers, owed: &mut [Option<usize>])
    ensures { (n : ℕ) → owed.new ≡ owed_from 0 (specs.members_seen n members.now) (items_of (job.now ∷ [])) owed.old }
{
    let worker = worker_of(job.conn, members);
    if worker < owed.len() {
        owed[worker] = one_less(owed[worker]);
    }
}

// The worker that serves a connection.
fn worker_of(conn: ConnId, members: &NodeMembers) -> usize
    ensures { (n : ℕ) → result ≡ specs.worker_of (specs.members_seen n members.now) (connection_of conn) }
{
    let serial = conn.serial as usize;
    if serial < members.len() {
        members.worker(serial)
    } else {
        0
    }
}

fn one_less(owed: Option<usize>) -> Option<usize>
    ensures { result ≡ owing_less 1 owed }
{
    match owed {
        Some(count) => Some(count.saturating_sub(1)),
        None => None,
    }
}

// A node falls: what it has lifted is dropped, and the accounts go back by that.
ghost use Rattle.std.specs.Prelude.{◌≡◌, ◌<◌, ◌++◌, [], None, Some, length};
ghost use Rattle.nr_model.specs.Asked.{own_jobs, first_number};
ghost use Rattle.nr_entry.specs.Jobs.{connection_of, items_of};
ghost use Rattle.nr_entry.specs.Shares.{entry_of};
ghost use Rattle.nr_job_numbers.specs.Stored.{changed, gone_back};
ghost use Rattle.nr_job_numbers.specs.Book.{HasGoneBack};
ghost use Rattle.nr_node.specs.Level.{connection_at};
ghost use Rattle.nr_node.specs.Next.{jobs_next, jobs_shared, HasFirst};

use crate::next::Next;
use nr_entry::{ConnId, Job, Shares, Unshared};
use nr_job_numbers::JobNumbers;
use nr_replica::Replica;

/// What the node has lifted and not reserved is dropped: the next entry, and what waits. The account of each connection that has a job there goes back to the
/// first of these. It takes no memory. It is linear in the accounts, times the jobs of the next entry, of which there are at most 1,024, and the runs of jobs
/// that wait.
pub(crate) fn drop_lifted(replica: &mut Replica, accounts: &mut JobNumbers, next: &mut Option<Next>)
    requires { HasFirst next.old }
    ensures waiting { replica.new ≡ record replica.old { waiting = [] } }
    ensures next { next.new ≡ None }
    ensures back { HasGoneBack (items_of (jobs_next next.old) ++ items_of replica.old.waiting) accounts.old accounts.new }
{
    go_back(replica, next, accounts);
    replica.drop_waiting();
    *next = None;
}

// The account of each connection that has a job in the next entry, or among those that wait, goes back to the first of these.
fn go_back(replica: &Replica, next: &Option<Next>, accounts: &mut JobNumbers)
    requires { HasFirst next.now }
    ensures { HasGoneBack (items_of (jobs_next next.now) ++ items_of replica.now.waiting) accounts.old accounts.new }
{
    let mut last = None;
    while let Some(serial) = accounts.next_after(last) {
        go_back_one(replica, next, accounts, serial);
        last = Some(serial);
    }
}

// The account of this serial goes back so.
fn go_back_one(replica: &Replica, next: &Option<Next>, accounts: &mut JobNumbers, serial: u64)
    requires { HasFirst next.now }
    ensures { accounts.new ≡ record accounts.old { held = changed (gone_back (items_of (jobs_next next.now) ++ items_of replica.now.waiting) (connection_at accounts.old.node serial)) serial accounts.old.held } }
{
    let conn = ConnId {
        node: accounts.node(),
        serial,
    };
    let Some(number) = first_lifted(replica, next, conn) else {
        return;
    };
    accounts.go_back(serial, number);
}

// The number of the first job of a connection in the next entry, else among those that wait.
fn first_lifted(replica: &Replica, next: &Option<Next>, conn: ConnId) -> Option<u64>
    requires { HasFirst next.now }
    ensures { result ≡ first_number (own_jobs (connection_of conn) (items_of (jobs_next next.now) ++ items_of replica.now.waiting)) }
{
    let Some(number) = first_next(next, conn) else {
        return replica.first_waiting(conn);
    };
    Some(number)
}

// The number of the first job of a connection in the next entry.
fn first_next(next: &Option<Next>, conn: ConnId) -> Option<u64>
    requires { HasFirst next.now }
    ensures { result ≡ first_number (own_jobs (connection_of conn) (items_of (jobs_next next.now))) }
{
    match next {
        Some(Next::Unshared(entry)) => first_unshared(entry, conn),
        Some(Next::Shared(shares)) => first_shared(shares, conn),
        None => None,
    }
}

fn first_unshared(entry: &Unshared, conn: ConnId) -> Option<u64>
    ensures { result ≡ first_number (own_jobs (connection_of conn) (items_of (entry_of entry.now).jobs.items)) }
{
    match entry {
        Unshared::Whole(entry) => first_of(&entry.jobs, conn),
        Unshared::One(share) => first_of(&share.jobs, conn),
    }
}

fn first_shared(shares: &Shares, conn: ConnId) -> Option<u64>
    requires { 0 < length shares.now }
    ensures { result ≡ first_number (own_jobs (connection_of conn) (items_of (jobs_shared shares.now))) }
{
    match shares.get(0) {
        Some(share) => first_of(&share.jobs, conn),
        None => None,
    }
}

// The number of the first job of a connection among these. Linear in them.
fn first_of(jobs: &[Job], conn: ConnId) -> Option<u64>
    ensures { result ≡ first_number (own_jobs (connection_of conn) (items_of jobs.now)) }
{
    for job in jobs {
        if job.conn == conn {
            return Some(job.number);
        }
    }
    None
}

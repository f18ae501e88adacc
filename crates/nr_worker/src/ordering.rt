// Jobs in another order: those of connections of which no update waits go before the others.
ghost use Rattle.std.specs.Prelude.{◌≡◌, ◌≤◌, ◌+◌, ◌++◌, ◌&&◌, [], not, nat_lt, length};
ghost use Rattle.std.specs.Vec.{vec_len, vec_capacity};
ghost use Rattle.std.specs.VecDeque.{deque_len};
ghost use Rattle.nr_model.specs.Asked.{own_jobs};
ghost use Rattle.nr_model.specs.Items.{Connection};
ghost use Rattle.nr_entry.specs.Jobs.{items_of};
ghost use Rattle.nr_worker.specs.Ordering.{is_free};

use nr_entry::Job;
use std::alloc::Global;
use std::collections::VecDeque;
use std::mem;

/// The most connections of which updates wait beside which reads are looked for.
const MOST_WRITERS: usize = 32;

/// Puts the jobs of connections of which no update waits in front of the others, at most so many, where there are at least so many. Those of each connection stay in their order. How
/// many stand in front then; none where updates of more than 32 connections wait, or where memory runs out: nothing changes then. Linear in the jobs, for each of them in the
/// connections of which updates wait.
pub(crate) fn put_reads_first(
    alloc: Global,
    jobs: &mut Vec<Job>,
    least: usize,
    most: usize,
) -> usize
    ensures own { (c : Connection) → own_jobs c (items_of jobs.new.items) ≡ own_jobs c (items_of jobs.old.items) }
    ensures few { result ≤ most }
{
    if reads_in(jobs) < least {
        return 0;
    }
    let Some(writers) = writers_of(alloc, jobs) else {
        return 0;
    };
    if free_in(jobs, &writers) < least {
        return 0;
    }
    if writers.is_empty() {
        return jobs.len().min(most);
    }
    put_free_first(alloc, jobs, &writers, most)
}

// How many reads there are.
fn reads_in(jobs: &[Job]) -> usize {
    jobs.iter().filter(|job| !job.is_update()).count()
}

// Of which connections updates are there, by their serials; none where they are too many, or where memory runs out.
fn writers_of(alloc: Global, jobs: &[Job]) -> Option<Vec<u64>> {
    let mut writers = Vec::new(alloc);
    for job in jobs {
        let serial = job.conn.serial;
        if job.is_update() && writers.last() != Some(&serial) && !writers.contains(&serial) {
            if writers.len() == MOST_WRITERS {
                return None;
            }
            writers.push(serial).ok()?;
        }
    }
    Some(writers)
}

// How many jobs there are of other connections than these.
fn free_in(jobs: &[Job], writers: &[u64]) -> usize {
    jobs.iter().filter(|job| is_free(job, writers)).count()
}

// Whether a job is of another connection than these.
fn is_free(job: &Job, writers: &[u64]) -> bool
    ensures { result ≡ is_free writers.now job.now.conn.serial }
{
    !writers.contains(&job.conn.serial)
}

// Whether a job goes in front, where so many do.
fn goes_first(job: &Job, writers: &[u64], count: usize, most: usize) -> bool
    ensures { result ≡ (nat_lt count most && is_free writers.now job.now.conn.serial) }
{
    count < most && is_free(job, writers)
}

// Parts jobs: those of other connections than these, at most so many, and the others.
fn part(
    left: &mut VecDeque<Job>,
    writers: &[u64],
    most: usize,
    first: &mut Vec<Job>,
    others: &mut Vec<Job>,
)
    requires none { (first.old.items ≡ []) × (others.old.items ≡ []) }
    requires first { deque_len left.old ≤ vec_capacity first.old }
    requires others { deque_len left.old ≤ vec_capacity others.old }
    ensures own { (c : Connection) → own_jobs c (items_of first.new.items) ++ own_jobs c (items_of others.new.items) ≡ own_jobs c (items_of left.old.items) }
    ensures few { vec_len first.new ≤ most }
    ensures room { vec_len first.new + vec_len others.new ≤ vec_capacity first.new }
{
    while let Some(job) = left.pop_front() {
        if goes_first(&job, writers, first.len(), most) {
            first.push_reserved(job);
        } else {
            others.push_reserved(job);
        }
    }
}

// Puts these behind the others, which have room for them.
fn join(first: &mut Vec<Job>, others: &mut Vec<Job>)
    requires { vec_len first.old + vec_len others.old ≤ vec_capacity first.old }
    ensures { first.new.items ≡ first.old.items ++ others.old.items }
{
    let _there_is_room = first.append(others);
}

// Puts the jobs of other connections than these in front, at most so many. How many; none where memory runs out.
fn put_free_first(alloc: Global, jobs: &mut Vec<Job>, writers: &[u64], most: usize) -> usize
    ensures own { (c : Connection) → own_jobs c (items_of jobs.new.items) ≡ own_jobs c (items_of jobs.old.items) }
    ensures few { result ≤ most }
{
    let Ok(mut first) = Vec::with_capacity(alloc, jobs.len()) else {
        return 0;
    };
    let Ok(mut others) = Vec::with_capacity(alloc, jobs.len()) else {
        return 0;
    };
    let mut left = VecDeque::from_vec(mem::replace(jobs, Vec::new(alloc)));
    part(&mut left, writers, most, &mut first, &mut others);
    let count = first.len();
    join(&mut first, &mut others);
    *jobs = first;
    count
}

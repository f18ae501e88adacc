// The jobs of a batch, one after the other.
ghost use Rattle.std.specs.Prelude.{◌≡◌, ◌≤◌, ◌<◌, ℕ, true, false, cond, not, nat_lt, [], length, take};
ghost use Rattle.nr_entry.specs.Jobs.{connection_of, item_of, items_of};
ghost use Rattle.nr_job_numbers.specs.Stored as specs;
ghost use Rattle.nr_job_numbers.specs.Stored.{Held, taken_one, taken_all, takes_one, takes_all, is_stranger, closed_one, closed_all};
ghost use Rattle.nr_job_numbers.specs.Stored.{noted_one, reopened_one, reopened_all};

use crate::stored::BySerial;
use nr_entry::Job;

/// Takes all of these jobs, or none where one of them isn't its connection's next one. Logarithmic in the connections for each of them.
pub(crate) fn take_all(held: &mut BySerial, node: usize, worker: usize, jobs: &[Job]) -> bool
    ensures takes { result ≡ takes_all node worker held.old (items_of jobs.now) }
    ensures taken { held.new ≡ cond result (taken_all held.old (items_of jobs.now)) held.old }
{
    let count = take_front(held, node, worker, jobs);
    if count < jobs.len() {
        give_back(held, &jobs[..count]);
        return false;
    }
    true
}

// Takes jobs up to the first that isn't its connection's next one, and answers how many.
fn take_front(held: &mut BySerial, node: usize, worker: usize, jobs: &[Job]) -> usize
    ensures within { result ≤ length jobs.now }
    ensures front { takes_all node worker held.old (items_of (take result jobs.now)) ≡ true }
    ensures taken { held.new ≡ taken_all held.old (items_of (take result jobs.now)) }
    ensures stopped { result < length jobs.now → takes_all node worker held.old (items_of jobs.now) ≡ false }
{
    for (index, job) in jobs.iter().enumerate() {
        if !take_one(held, node, worker, job) {
            return index;
        }
    }
    jobs.len()
}

fn take_one(held: &mut BySerial, node: usize, worker: usize, job: &Job) -> bool
    ensures takes { result ≡ takes_one node worker held.old (item_of job.now) }
    ensures taken { held.new ≡ cond result (taken_one held.old (item_of job.now)) held.old }
{
    job.conn.node == node && held.take(job.conn.serial, worker, job)
}

/// What was held before these jobs were taken.
pub(crate) fn give_back(held: &mut BySerial, jobs: &[Job])
    ensures { (node worker : ℕ) (before : Held) → takes_all node worker before (items_of jobs.now) ≡ true → held.old ≡ taken_all before (items_of jobs.now)
        → held.new ≡ before }
{
    for index in (0..jobs.len()).rev() {
        held.give_back(jobs[index].conn.serial);
    }
}

/// Whether one of these jobs is of a connection that this worker doesn't serve, or whose end was taken before it. Logarithmic in the connections
/// for each of them. Ends are noted in the accounts on the way, and then the accounts are as before.
pub(crate) fn has_stranger(held: &mut BySerial, node: usize, worker: usize, jobs: &[Job]) -> bool
    ensures found { result ≡ specs.has_stranger node worker held.old [] (items_of jobs.now) }
    ensures unchanged { held.new ≡ held.old }
{
    let count = note_ends(held, node, worker, jobs);
    reopen_all(held, &jobs[..count]);
    count < jobs.len()
}

// Notes the ends among the jobs before the first of a stranger, and answers how many these jobs are. Logarithmic in the connections for each of them.
fn note_ends(held: &mut BySerial, node: usize, worker: usize, jobs: &[Job]) -> usize
    ensures within { result ≤ length jobs.now }
    ensures found { specs.has_stranger node worker held.old [] (items_of jobs.now) ≡ nat_lt result (length jobs.now) }
    ensures noted { reopened_all held.new (items_of (take result jobs.now)) ≡ held.old }
{
    for (index, job) in jobs.iter().enumerate() {
        if !note_one(held, node, worker, job) {
            return index;
        }
    }
    jobs.len()
}

fn note_one(held: &mut BySerial, node: usize, worker: usize, job: &Job) -> bool
    ensures known { is_stranger node worker held.old (connection_of job.now.conn) ≡ not result }
    ensures noted { held.new ≡ cond result (noted_one held.old (item_of job.now)) held.old }
{
    job.conn.node == node && held.note(job.conn.serial, worker, job)
}

// The connections whose ends are among these jobs go on again, the last of them first. Logarithmic in the connections for each end.
fn reopen_all(held: &mut BySerial, jobs: &[Job])
    ensures { held.new ≡ reopened_all held.old (items_of jobs.now) }
{
    for index in (0..jobs.len()).rev() {
        reopen_one(held, &jobs[index]);
    }
}

fn reopen_one(held: &mut BySerial, job: &Job)
    ensures { held.new ≡ reopened_one held.old (item_of job.now) }
{
    if job.kind.is_end() {
        held.reopen(job.conn.serial);
    }
}

/// The account of each connection whose end is among these jobs goes, where that is the last one that was taken of it.
pub(crate) fn close_all(held: &mut BySerial, node: usize, jobs: &[Job])
    ensures { held.new ≡ closed_all node held.old (items_of jobs.now) }
{
    for job in jobs {
        close_one(held, node, job);
    }
}

fn close_one(held: &mut BySerial, node: usize, job: &Job)
    ensures { held.new ≡ closed_one node held.old (item_of job.now) }
{
    if job.kind.is_end() && job.conn.node == node && held.ends_with(job.conn.serial, job) {
        held.remove(job.conn.serial);
    }
}

// Which jobs of runs lead, and how they are lent and taken back.
ghost use Rattle.std.specs.Prelude.{◌≡◌, ◌≤◌, ◌<◌, ◌+◌, ◌++◌, ◌||◌, ◌&&◌, ℕ, nat_lt, cond, [], length, take, vec_len, vec_capacity, IfOk, OnOk, OnErr, IsTrue};
ghost use Rattle.std.specs.List.{filter};
ghost use Rattle.nr_model.specs.Asked.{own_jobs, first_number};
ghost use Rattle.nr_model.specs.Items.{same_connection};
ghost use Rattle.nr_model.specs.Entries.{leading, left_after};
ghost use Rattle.nr_entry.specs.Jobs.{connection_of, items_of};
ghost use Rattle.nr_entry.specs.Choice.{is_blocked, leads_among, leading_marks};
ghost use Rattle.nr_entry.specs.Runs.{any_begins, jobs_in, lent_in, gaps_in, gaps_where, owners_in, first_of, owners_of};
ghost use Rattle.nr_entry.specs.Runs.{others_of, marks_of, front, has_other, has_jobs, holds, sum_of, IsWithin};
ghost use Rattle.nr_entry.specs.Waiting.{belong, filled, has_some};

use crate::blocked::Blocked;
use crate::conn::ConnId;
use crate::job::Job;
use crate::rooms::Rooms;
use crate::run::Run;
use nr_blob::Memory;
use std::alloc::Global;
use std::collections::VecDeque;

/// Lends the jobs that lead among the updates, or among the reads: the first so many of them. It takes n log n steps for n runs, and a
/// step for each job that is lent: n steps where no run begins with such a job. Beside the room for the jobs it takes memory only where
/// there are three runs or more, or more than the counts have room for.
pub(crate) fn lend_leading(
    alloc: Global,
    runs: &mut [Run],
    counts: &mut Vec<usize>,
    updates: bool,
    most: usize,
) -> Result<Vec<Job>, Memory>
    requires { lent_in runs.old ≡ 0 }
    ensures taken { IfOk result (λ taken. items_of taken.items ≡ take most (leading (leads_among updates) [] (items_of (jobs_in runs.old)))) }
    ensures left { OnOk result (items_of (jobs_in runs.new) ≡ left_after (leads_among updates) most [] (items_of (jobs_in runs.old))) }
    ensures whole { IfOk result (λ taken. filled (gaps_where (length taken.items) runs.new) taken.items (jobs_in runs.new) ≡ jobs_in runs.old) }
    ensures count { IfOk result (λ taken. length (jobs_in runs.new) + length taken.items ≡ length (jobs_in runs.old)) }
    ensures lent { IfOk result (λ taken. lent_in runs.new ≡ length taken.items) }
    ensures owners { IfOk result (λ taken. IsTrue (belong (owners_in runs.new) (items_of taken.items))) }
    ensures err { OnErr result (runs.new ≡ runs.old) }
{
    if !any_begins(runs, updates) {
        return Ok(Vec::new(alloc));
    }
    let total = choose(alloc, runs, updates, most, counts)?;
    let mut taken = Vec::with_capacity(alloc, total)?;
    lend(runs, counts, &mut taken);
    Ok(taken)
}

/// The number of the first job of a connection, where there is one. Linear in the runs.
pub(crate) fn first_number(runs: &[Run], conn: ConnId) -> Option<u64>
    ensures { result ≡ first_number (own_jobs (connection_of conn) (items_of (jobs_in runs.now))) }
{
    for run in runs {
        if let Some(number) = number_in(run, conn) {
            return Some(number);
        }
    }
    None
}

// The number of the first job of a run, where the run is of a connection and has one.
fn number_in(run: &Run, conn: ConnId) -> Option<u64>
    ensures { result ≡ first_number (own_jobs (connection_of conn) (items_of run.now.jobs.items)) }
{
    if run.conn == conn {
        match run.jobs.front() {
            Some(job) => Some(job.number),
            None => None,
        }
    } else {
        None
    }
}

// Whether a run begins with a job of a kind. Where none does, none leads.
fn any_begins(runs: &[Run], updates: bool) -> bool
    ensures { result ≡ any_begins updates runs.now }
{
    runs.iter().any(|run| run.is_kind_at(0, updates))
}

// Chooses the jobs that lead among the updates, or among the reads: the first so many of them. Of each run its first ones are chosen: how
// many comes into the buffer, and the result is how many these are together.
fn choose(
    alloc: Global,
    runs: &[Run],
    updates: bool,
    most: usize,
    counts: &mut Vec<usize>,
) -> Result<usize, Memory>
    ensures marks { OnOk result (marks_of counts.new.items runs.now ≡ leading_marks (leads_among updates) most [] (items_of (jobs_in runs.now))) }
    ensures within { OnOk result (IsWithin counts.new.items runs.now) }
    ensures total { IfOk result (λ total. total ≡ sum_of counts.new.items) }
{
    counts.clear();
    counts.reserve(runs.len())?;
    let mut blocked = Blocked::new(alloc);
    let mut room = most;
    for index in 0..runs.len() {
        let run = &runs[index];
        let count = count_leading(run, &blocked, updates, room);
        let is_followed = index + 1 < runs.len();
        block(
            &mut blocked,
            run.conn,
            is_followed & is_cut(run, count, room),
        )?;
        room -= count;
        counts.push(count)?;
    }
    Ok(most - room)
}

// How many jobs of a run lead, where jobs of the other kind wait for these connections.
fn count_leading(run: &Run, blocked: &Blocked, updates: bool, room: usize) -> usize
    ensures { result ≡ cond (holds blocked.now run.now.conn) 0 (front updates room (items_of run.now.jobs.items)) }
{
    if blocked.contains(&run.conn) {
        0
    } else {
        run.front(updates, room)
    }
}

// Whether a job of a run stands behind so many, though there is room for it.
fn is_cut(run: &Run, count: usize, room: usize) -> bool
    ensures { result ≡ (nat_lt count room && nat_lt count (length run.now.jobs.items)) }
{
    count < room && count < run.jobs.len()
}

// Blocks a connection where something is true.
fn block(blocked: &mut Blocked, conn: ConnId, is_cut: bool) -> Result<(), Memory>
    ensures { OnOk result ((q : ConnId) → holds blocked.new q ≡ (holds blocked.old q || (same_connection (connection_of conn) (connection_of q) && is_cut))) }
{
    if is_cut {
        blocked.insert(conn)?;
    }
    Ok(())
}

// Lends the first so many jobs of each run. It takes no memory.
fn lend(runs: &mut [Run], counts: &[usize], taken: &mut Vec<Job>)
    requires within { IsWithin counts.now runs.old }
    requires lent { lent_in runs.old ≡ 0 }
    requires room { vec_len taken.old + (sum_of counts.now) ≤ vec_capacity taken.old }
    ensures taken { taken.new.items ≡ taken.old.items ++ first_of counts.now runs.old }
    ensures left { jobs_in runs.new ≡ others_of counts.now runs.old }
    ensures gaps { gaps_in runs.new ≡ marks_of counts.now runs.old }
    ensures lent { lent_in runs.new ≡ sum_of counts.now }
    ensures owners { owners_in runs.new ≡ owners_of counts.now runs.old }
{
    for index in 0..runs.len() {
        runs[index].lend(counts[index], taken);
    }
}

/// Takes back all jobs that are lent. It takes no memory.
pub(crate) fn take_back(runs: &mut [Run], back: Vec<Job>)
    requires { IsTrue (belong (owners_in runs.old) (items_of back.items)) }
    ensures jobs { jobs_in runs.new ≡ filled (gaps_in runs.old) back.items (jobs_in runs.old) }
    ensures count { length (jobs_in runs.new) ≡ length (jobs_in runs.old) + lent_in runs.old }
    ensures lent { lent_in runs.new ≡ 0 }
{
    let mut back = VecDeque::from_vec(back);
    for index in 0..runs.len() {
        runs[index].take_back(&mut back);
    }
}

/// Forgets the jobs that are lent, and the runs of which no job is here. Their rooms are kept.
pub(crate) fn settle(runs: &mut Vec<Run>, rooms: &mut Rooms)
    ensures jobs { jobs_in runs.new.items ≡ jobs_in runs.old.items }
    ensures lent { lent_in runs.new.items ≡ 0 }
{
    forget(runs, rooms);
    drop_empty(runs);
}

fn drop_empty(runs: &mut Vec<Run>)
    ensures { runs.new.items ≡ filter has_jobs runs.old.items }
{
    runs.retain(|run| !run.jobs.is_empty());
}

fn forget(runs: &mut [Run], rooms: &mut Rooms)
    ensures jobs { jobs_in runs.new ≡ jobs_in runs.old }
    ensures lent { lent_in runs.new ≡ 0 }
{
    for index in 0..runs.len() {
        runs[index].settle(rooms);
    }
}

/// Whether a job leads among the updates, or among the reads.
pub(crate) fn any_leads(runs: &[Run], updates: bool) -> bool
    ensures { result ≡ has_some (leading (leads_among updates) [] (items_of (jobs_in runs.now))) }
{
    let mut found = false;
    for index in 0..runs.len() {
        let run = &runs[index];
        found = found || leads(&runs[..index], run, updates);
    }
    found
}

// Whether the first job of a run leads behind these.
fn leads(before: &[Run], run: &Run, updates: bool) -> bool
    ensures { result ≡ has_some (leading (leads_among updates) (items_of (jobs_in before.now)) (items_of run.now.jobs.items)) }
{
    run.is_kind_at(0, updates) && !is_behind(before, run.conn, updates)
}

// Whether a job of the other kind waits for a connection.
fn is_behind(before: &[Run], conn: ConnId, updates: bool) -> bool
    ensures { result ≡ is_blocked updates (connection_of conn) (items_of (jobs_in before.now)) }
{
    let mut found = false;
    for run in before {
        found = found || blocks(run, conn, updates);
    }
    found
}

// Whether a job of the other kind waits for a connection in this run.
fn blocks(run: &Run, conn: ConnId, updates: bool) -> bool
    ensures { result ≡ (same_connection (connection_of run.now.conn) (connection_of conn) && has_other updates (items_of run.now.jobs.items)) }
{
    run.conn == conn && run.has_other(updates)
}

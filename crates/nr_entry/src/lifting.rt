// Jobs put into runs, and taken out of them again where memory runs out.
ghost use Rattle.std.specs.Prelude.{◌≡◌, ◌≤◌, ◌+◌, ◌++◌, ◌∷◌, [], length, IfOk, IfErr, OnOk, OnErr};
ghost use Rattle.std.specs.VecDeque.{deque_len, deque_capacity};
ghost use Rattle.nr_entry.specs.Runs.{jobs_in, lent_in};

use crate::job::Job;
use crate::rooms::Rooms;
use crate::run::Run;
use nr_blob::Memory;
use std::alloc::Global;
use std::collections::VecDeque;

/// Puts these behind the others. Where memory runs out nothing changes, and all come back.
pub(crate) fn add_all(
    alloc: Global,
    runs: &mut Vec<Run>,
    rooms: &mut Rooms,
    jobs: Vec<Job>,
) -> Result<(), (Vec<Job>, Memory)>
    requires { lent_in runs.old.items ≡ 0 }
    ensures ok { OnOk result (jobs_in runs.new.items ≡ jobs_in runs.old.items ++ jobs.items) }
    ensures lent { lent_in runs.new.items ≡ 0 }
    ensures back { IfErr result (λ back. back.0.items ≡ jobs.items) }
    ensures err { OnErr result (runs.new.items ≡ runs.old.items) }
{
    let mut left = VecDeque::from_vec(jobs);
    let mut added = Vec::new(alloc);
    if let Err(refused) = split(alloc, &mut left, &mut added, rooms) {
        return Err((restored(added, left), refused));
    }
    match runs.append(&mut added) {
        Ok(()) => Ok(()),
        Err(failed) => Err((restored(added, left), failed.into())),
    }
}

// Moves jobs into runs, as many as memory allows.
fn split(
    alloc: Global,
    left: &mut VecDeque<Job>,
    added: &mut Vec<Run>,
    rooms: &mut Rooms,
) -> Result<(), Memory>
    requires none { added.old.items ≡ [] }
    ensures all { jobs_in added.new.items ++ left.new.items ≡ left.old.items }
    ensures done { OnOk result (left.new.items ≡ []) }
    ensures lent { lent_in added.new.items ≡ 0 }
    ensures room { deque_capacity left.new ≡ deque_capacity left.old }
{
    while let Some(job) = left.pop_front() {
        if let Err((job, refused)) = add(alloc, added, rooms, job) {
            left.push_front_reserved(job);
            return Err(refused);
        }
    }
    Ok(())
}

// One job more behind the others, which comes back where there is no memory.
fn add(alloc: Global, runs: &mut Vec<Run>, rooms: &mut Rooms, job: Job) -> Result<(), (Job, Memory)>
    requires { lent_in runs.old.items ≡ 0 }
    ensures ok { OnOk result (jobs_in runs.new.items ≡ jobs_in runs.old.items ++ job ∷ []) }
    ensures back { IfErr result (λ back. back.0 ≡ job) }
    ensures err { OnErr result (jobs_in runs.new.items ≡ jobs_in runs.old.items) }
    ensures lent { lent_in runs.new.items ≡ 0 }
{
    let count = runs.len();
    if count > 0 && runs[count - 1].conn == job.conn {
        if let Err(back) = runs[count - 1].push(job) {
            return Err(back);
        }
        return Ok(());
    }
    if let Err(failed) = runs.reserve(1) {
        return Err((job, failed.into()));
    }
    match Run::new(rooms.take(alloc), job) {
        Ok(run) => {
            runs.push_reserved(run);
            Ok(())
        }
        Err(back) => Err(back),
    }
}

// The jobs of all runs in front of these, which have room for them.
fn restored(added: Vec<Run>, mut left: VecDeque<Job>) -> Vec<Job>
    requires { length (jobs_in added.items) + (length left.items) ≤ deque_capacity left }
    ensures { result.items ≡ jobs_in added.items ++ left.items }
{
    restore(added, &mut left);
    Vec::from(left)
}

// Moves the jobs of all runs in front of these, which have room for them.
fn restore(mut added: Vec<Run>, left: &mut VecDeque<Job>)
    requires { length (jobs_in added.items) + (length left.old.items) ≤ deque_capacity left.old }
    ensures { left.new.items ≡ jobs_in added.items ++ left.old.items }
{
    while let Some(run) = added.pop() {
        unload(run, left);
    }
}

// Moves the jobs of a run in front of these, which have room for them.
fn unload(run: Run, left: &mut VecDeque<Job>)
    requires { length run.jobs.items + (length left.old.items) ≤ deque_capacity left.old }
    ensures jobs { left.new.items ≡ run.jobs.items ++ left.old.items }
    ensures room { deque_capacity left.new ≡ deque_capacity left.old }
{
    let mut jobs = run.jobs;
    while let Some(job) = jobs.pop_back() {
        left.push_front_reserved(job);
    }
}

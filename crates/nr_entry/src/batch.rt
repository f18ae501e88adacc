// What workers hand to a replica, and what they get back.
ghost use Rattle.std.specs.Prelude.{◌≡◌, ◌≤◌, take, drop, length, IfOk, OnOk, OnErr, IsOk};
ghost use Rattle.std.specs.Vec.{vec_capacity};

use crate::job::Job;
use nr_blob::Memory;
use std::alloc::Global;
use std::mem;

/// Jobs that a worker hands to its node's replica.
#[derive(Debug, Drop)]
pub struct Batch {
    pub node: usize,
    pub worker: usize,
    /// Its number among the worker's batches. It grows.
    pub number: u64,
    pub jobs: Vec<Job>,
}

/// Why a batch was handed back, with none of its jobs executed.
#[derive(Clone, Copy, Debug, PartialEq, Eq)]
pub enum Refusal {
    /// It names another node, or has a job of a connection that this worker doesn't serve, or whose end was taken before.
    Stranger,
    /// A job's number isn't its connection's next one, or the batch's isn't above that of the worker's last batch.
    WrongNumber,
    /// There was no memory to take the jobs in.
    Memory(Memory),
}

impl From<Memory> for Refusal {
    ghost use Rattle.std.specs.Prelude.{◌≡◌};
    ghost use Rattle.nr_entry.specs.declared.batch.Refusal.TheVariants as refusals;

    ghost from_gives = { λ memory refusal. refusal ≡ refusals.Memory memory };

    fn from(memory: Memory) -> Refusal {
        Refusal::Memory(memory)
    }
}

/// What became of a batch.
#[derive(Debug, Drop)]
pub enum Outcome {
    /// Each of its jobs was executed.
    Executed,
    /// The replica is down: nothing more is executed, and nothing answered.
    Down,
    /// It was handed back. These are its jobs, none of them executed.
    Refused(Refusal, Vec<Job>),
}

/// The answer to a batch.
#[derive(Debug, Drop)]
pub struct Answer {
    pub node: usize,
    pub worker: usize,
    /// The number of the batch.
    pub batch: u64,
    pub outcome: Outcome,
}

/// Takes the first jobs, at most so many, in the memory in which they lie. Linear in those that are left.
///
/// # Errors
///
/// `Memory` where memory runs out for those that are left: then nothing changes. It doesn't where none is left.
pub fn take_front(alloc: Global, jobs: &mut Vec<Job>, most: usize) -> Result<Vec<Job>, Memory>
    ensures front { IfOk result (λ front. front.items ≡ take most jobs.old.items) }
    ensures behind { OnOk result (jobs.new.items ≡ drop most jobs.old.items) }
    ensures same { OnErr result (jobs.new.items ≡ jobs.old.items) }
    ensures all { length jobs.old.items ≤ most → IsOk result }
{
    let behind = split_behind(alloc, jobs, most)?;
    Ok(mem::replace(jobs, behind))
}

/// Takes those behind the first so many jobs away. Linear in them.
///
/// # Errors
///
/// `Memory` where memory runs out for them: then nothing changes. It doesn't where there are none.
pub fn split_behind(alloc: Global, jobs: &mut Vec<Job>, count: usize) -> Result<Vec<Job>, Memory>
    ensures front { OnOk result (jobs.new.items ≡ take count jobs.old.items) }
    ensures behind { IfOk result (λ behind. behind.items ≡ drop count jobs.old.items) }
    ensures same { OnErr result (jobs.new.items ≡ jobs.old.items) }
    ensures room { vec_capacity jobs.new ≡ vec_capacity jobs.old }
    ensures all { length jobs.old.items ≤ count → IsOk result }
{
    if jobs.len() <= count {
        return Ok(Vec::new(alloc));
    }
    let behind = jobs.split_off(count)?;
    Ok(behind)
}

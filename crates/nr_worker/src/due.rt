// The jobs that wait to be handed in.
ghost use Rattle.std.specs.Prelude.{◌≡◌, ◌<◌, ◌≤◌, ◌==◌, ◌+◌, ◌++◌, ◌∷◌, [], true, length, take, drop, IsOk, IfOk, IfSome, OnOk, OnErr};
ghost use Rattle.std.specs.Vec.{vec_len, vec_capacity};
ghost use Rattle.nr_model.specs.Asked.{own_jobs};
ghost use Rattle.nr_model.specs.Items.{Connection};
ghost use Rattle.nr_model.specs.Keyspace.{last_moment};
ghost use Rattle.nr_entry.specs.Jobs.{item_of, items_of};
ghost use Rattle.nr_worker.specs.Placed.{seat_at, takes_here, FeedsSeat, StopsSeat};
ghost use Rattle.nr_worker.specs.Due.{emptied, fresh_due, with_room};

use crate::open_connections::OpenConnections;
use crate::ordering::put_reads_first;
use nr_blob::Memory;
use nr_entry::{Job, split_behind, take_front};
use nr_replica::CutReason;
use std::alloc::Global;
use std::marker::Model;
use std::mem;

/// The jobs that wait to be handed in, in order. That a connection is closed takes no memory: its last job waits behind the others in room that was taken as the
/// connection was opened, until there is room for it among them.
#[derive(Drop)]
pub(crate) struct DueJobs {
    jobs: Vec<Job>,
    // Last jobs for which there was no room among the others yet, behind them.
    lasts: Vec<Job>,
    // For how many more of these room is kept.
    room: usize,
}

impl Model for DueJobs {
    ghost use Rattle.std.specs.Prelude.{◌≤◌, ◌+◌, ◌++◌};
    ghost use Rattle.std.specs.Vec.{vec_len, vec_capacity};
    ghost use Rattle.nr_worker.specs.Due.{DueState, coded_due};

    ghost Value = { DueState };

    ghost coded = { coded_due };

    ghost view = { λ d. record { jobs = d.jobs.items ++ d.lasts.items; late = vec_len d.lasts; room = d.room } };

    ghost invariant = { λ d. vec_len d.lasts + d.room ≤ vec_capacity d.lasts };
}

impl DueJobs {
    /// None. It takes no memory.
    pub(crate) fn new(alloc: Global) -> DueJobs
        ensures { result ≡ fresh_due }
    {
        DueJobs {
            jobs: Vec::new(alloc),
            lasts: Vec::new(alloc),
            room: 0,
        }
    }

    /// Keeps room for the last job of one more connection. Constant over many.
    ///
    /// # Errors
    ///
    /// `Memory` where there is none: then nothing changes.
    pub(crate) fn make_room(&mut self) -> Result<(), Memory>
        ensures made { OnOk result (self.new ≡ with_room self.old) }
        ensures same { OnErr result (self.new ≡ self.old) }
    {
        let room = self.room + 1;
        self.lasts.reserve(room)?;
        self.room = room;
        Ok(())
    }

    /// Lets go of the room for the last job of one connection.
    pub(crate) fn give_room(&mut self)
        requires { 0 < self.old.room }
        ensures { self.old ≡ with_room self.new }
    {
        self.room -= 1;
    }

    /// Puts a connection's last job behind the others, in the room that was kept for it.
    pub(crate) fn push_last(&mut self, job: Job)
        requires { 0 < self.old.room }
        ensures jobs { self.new.jobs ≡ self.old.jobs ++ job ∷ [] }
        ensures late { self.new.late ≡ self.old.late + 1 }
        ensures room { self.new.room + 1 ≡ self.old.room }
    {
        self.room -= 1;
        self.lasts.push_reserved(job);
    }

    /// Puts a job behind the others, those that are late among them. Constant over many, and linear in the late ones.
    ///
    /// # Errors
    ///
    /// `Memory` where there is none: then the same jobs wait.
    pub(crate) fn push(&mut self, job: Job) -> Result<(), Memory>
        ensures pushed { OnOk result (items_of self.new.jobs ≡ items_of self.old.jobs ++ item_of job ∷ []) }
        ensures late { OnOk result (self.new.late ≡ 0) }
        ensures same { OnErr result (self.new.jobs ≡ self.old.jobs) }
        ensures room { self.new.room ≡ self.old.room }
    {
        gather(&mut self.jobs, &mut self.lasts)?;
        self.jobs.push(job)?;
        Ok(())
    }

    /// Feeds a connection at its seat, as [`OpenConnections::feed`] does: its jobs wait behind the others, those that are late among them. Logarithmic, and linear in the bytes
    /// and in the late ones.
    ///
    /// # Errors
    ///
    /// Those of [`OpenConnections::feed`]; and `Memory` where there is none for the late ones: then no bytes are fed, and the connection is cut.
    pub(crate) fn feed(
        &mut self,
        seats: &mut OpenConnections,
        serial: u64,
        moment: u64,
        bytes: &[u8],
    ) -> Result<(), Memory>
        requires taken { takes_here (seat_at serial seats.old) ≡ true }
        requires in_time { moment ≤ last_moment }
        ensures fed { OnOk result (FeedsSeat serial moment bytes.now seats.old seats.new (items_of self.old.jobs) (items_of self.new.jobs)) }
        ensures stopped { OnErr result (StopsSeat serial moment bytes.now seats.old seats.new (items_of self.old.jobs) (items_of self.new.jobs)) }
        ensures late { OnOk result (self.new.late ≡ 0) }
        ensures room { self.new.room ≡ self.old.room }
        ensures count { length seats.new ≡ length seats.old }
    {
        if let Err(memory) = gather(&mut self.jobs, &mut self.lasts) {
            seats.cut(serial, CutReason::Refused(memory));
            return Err(memory);
        }
        seats.feed(serial, moment, bytes, &mut self.jobs)
    }

    /// Takes the first jobs, at most so many. The late ones aren't late any more, where some of them are among the first. Linear in those that are left and in the late
    /// ones, and nothing is copied where there are none.
    ///
    /// # Errors
    ///
    /// `Memory` where memory runs out: then nothing changes. It doesn't where at most so many wait, none of them late.
    pub(crate) fn take_front(&mut self, alloc: Global, most: usize) -> Result<Vec<Job>, Memory>
        ensures front { IfOk result (λ front. front.items ≡ take most self.old.jobs) }
        ensures behind { OnOk result (self.new.jobs ≡ drop most self.old.jobs) }
        ensures few { IfOk result (λ front. length front.items ≤ most) }
        ensures room { self.new.room ≡ self.old.room }
        ensures same { OnErr result (self.new ≡ self.old) }
        ensures all { self.old.late ≡ 0 → length self.old.jobs ≤ most → IsOk result }
    {
        if self.jobs.len() > most {
            return take_front(alloc, &mut self.jobs, most);
        }
        take_both(alloc, &mut self.jobs, &mut self.lasts, most)
    }

    /// How many reads stand in front of all updates, at most so many. A hint. Linear in them.
    pub(crate) fn reads_in_front(&self, most: usize) -> usize
        ensures { result ≤ most }
    {
        let few = self.jobs.len().min(most);
        match self.jobs[..few].iter().position(|job| job.is_update()) {
            Some(place) => place.min(few),
            None => few,
        }
    }

    /// Puts the jobs of connections of which no update waits in front of the others, as [`put_reads_first`] says. The late ones stay behind all.
    pub(crate) fn put_reads_first(&mut self, alloc: Global, least: usize, most: usize) -> usize
        ensures own { (c : Connection) → own_jobs c (items_of self.new.jobs) ≡ own_jobs c (items_of self.old.jobs) }
        ensures few { result ≤ most }
        ensures late { self.new.late ≡ self.old.late }
        ensures room { self.new.room ≡ self.old.room }
    {
        put_reads_first(alloc, &mut self.jobs, least, most)
    }

    /// The first so many jobs, where so many wait that aren't late.
    pub(crate) fn front(&self, count: usize) -> Option<&[Job]>
        ensures front { IfSome result (λ front. front.now ≡ take count self.now.jobs) }
        ensures there { IfSome result (λ _. count ≤ length self.now.jobs) }
    {
        self.jobs.get(..count)
    }

    /// No jobs wait any more; the room stays. Linear in them.
    pub(crate) fn clear(&mut self)
        ensures { self.new ≡ emptied self.old }
    {
        self.jobs.clear();
        self.lasts.clear();
    }

    /// Whether no jobs wait.
    pub(crate) fn is_empty(&self) -> bool
        ensures { result ≡ (length self.now.jobs == 0) }
    {
        self.jobs.is_empty() && self.lasts.is_empty()
    }
}

// Moves the late ones behind the others. Where memory runs out nothing changes. Linear in them.
fn gather(jobs: &mut Vec<Job>, lasts: &mut Vec<Job>) -> Result<(), Memory>
    ensures all { OnOk result (jobs.new.items ≡ jobs.old.items ++ lasts.old.items) }
    ensures none { OnOk result (lasts.new.items ≡ []) }
    ensures same { OnErr result ((jobs.new.items ≡ jobs.old.items) × (lasts.new.items ≡ lasts.old.items)) }
    ensures room { vec_capacity lasts.new ≡ vec_capacity lasts.old }
    ensures fits { vec_len jobs.old + vec_len lasts.old ≤ vec_capacity jobs.old → IsOk result }
{
    jobs.append(lasts)?;
    Ok(())
}

// The same where there is room for them.
fn join(jobs: &mut Vec<Job>, lasts: &mut Vec<Job>)
    requires { vec_len jobs.old + vec_len lasts.old ≤ vec_capacity jobs.old }
    ensures all { jobs.new.items ≡ jobs.old.items ++ lasts.old.items }
    ensures none { lasts.new.items ≡ [] }
    ensures room { vec_capacity lasts.new ≡ vec_capacity lasts.old }
{
    let _there_is_room = gather(jobs, lasts);
}

// Takes the first of the jobs and of the late ones, which are behind them, at most so many. The others aren't late any more. Where memory runs out nothing changes.
fn take_both(
    alloc: Global,
    jobs: &mut Vec<Job>,
    lasts: &mut Vec<Job>,
    most: usize,
) -> Result<Vec<Job>, Memory>
    requires { vec_len jobs.old ≤ most }
    ensures front { IfOk result (λ front. front.items ≡ take most (jobs.old.items ++ lasts.old.items)) }
    ensures behind { OnOk result (jobs.new.items ≡ drop most (jobs.old.items ++ lasts.old.items)) }
    ensures none { OnOk result (lasts.new.items ≡ []) }
    ensures same { OnErr result ((jobs.new.items ≡ jobs.old.items) × (lasts.new.items ≡ lasts.old.items)) }
    ensures room { vec_capacity lasts.new ≡ vec_capacity lasts.old }
    ensures all { vec_len lasts.old ≡ 0 → IsOk result }
{
    let more = most - jobs.len();
    jobs.reserve(lasts.len())?;
    let behind = split_behind(alloc, lasts, more)?;
    join(jobs, lasts);
    Ok(mem::replace(jobs, behind))
}

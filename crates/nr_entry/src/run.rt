// Jobs of one connection that were lifted one after the other.
ghost use Rattle.std.specs.Prelude.{◌≡◌, ◌≤◌, ◌+◌, ◌++◌, ◌∷◌, [], length, take, drop, vec_len, vec_capacity, IfOk, IfErr, IsTrue};
ghost use Rattle.std.specs.VecDeque.{deque_len, deque_capacity};
ghost use Rattle.nr_entry.specs.Jobs.{connection_of, items_of};
ghost use Rattle.nr_entry.specs.Waiting.{are_from};

use crate::conn::ConnId;
use crate::job::Job;
use crate::rooms::Rooms;
use nr_blob::Memory;
use std::collections::VecDeque;
use std::mem;

/// Jobs of one connection that were lifted one after the other. Of those that are lent, the first ones, only their number is here.
#[derive(Drop)]
pub(crate) struct Run {
    pub(crate) conn: ConnId,
    pub(crate) jobs: VecDeque<Job>,
    pub(crate) lent: usize,
    pub(crate) ghost own: { IsTrue (are_from (connection_of conn) (items_of jobs.items)) },
    pub(crate) ghost room: { deque_len jobs + lent ≤ deque_capacity jobs },
}

impl Run {
    ghost use Rattle.nr_entry.specs.Runs.{front, is_kind_at, has_other};

    /// A run of one job in a room, which comes back where there is no memory.
    pub(crate) fn new(room: VecDeque<Job>, job: Job) -> Result<Run, (Job, Memory)>
        requires { room.items ≡ [] }
        ensures run { IfOk result (λ run. (run.jobs.items ≡ job ∷ []) × (run.lent ≡ 0)) }
        ensures back { IfErr result (λ back. back.0 ≡ job) }
    {
        let conn = job.conn;
        let mut jobs = room;
        if let Err(failed) = jobs.push_back(job) {
            return Err(Memory::giving_back(failed));
        }
        Ok(Run {
            conn,
            jobs,
            lent: 0,
        })
    }

    /// One job more of the same connection, which comes back where there is no memory.
    pub(crate) fn push(&mut self, job: Job) -> Result<(), (Job, Memory)>
        requires conn { job.conn ≡ self.old.conn }
        requires lent { self.old.lent ≡ 0 }
        ensures ok { IfOk result (λ _. self.new.jobs.items ≡ self.old.jobs.items ++ job ∷ []) }
        ensures back { IfErr result (λ back. (back.0 ≡ job) × (self.new.jobs.items ≡ self.old.jobs.items)) }
        ensures lent { self.new.lent ≡ 0 }
    {
        match self.jobs.push_back(job) {
            Ok(()) => Ok(()),
            Err(failed) => Err(Memory::giving_back(failed)),
        }
    }

    /// How many jobs of a kind stand in front, at most so many of them. It looks at these alone.
    pub(crate) fn front(&self, updates: bool, most: usize) -> usize
        ensures { result ≡ front updates most (items_of self.now.jobs.items) }
    {
        let mut count = 0;
        while count < most && self.is_kind_at(count, updates) {
            count += 1;
        }
        count
    }

    /// Whether there is a job of a kind at a place.
    pub(crate) fn is_kind_at(&self, index: usize, updates: bool) -> bool
        ensures { result ≡ is_kind_at updates index (items_of self.now.jobs.items) }
    {
        if index < self.jobs.len() {
            self.jobs[index].is_update() == updates
        } else {
            false
        }
    }

    /// Whether there is a job of the other kind.
    pub(crate) fn has_other(&self, updates: bool) -> bool
        ensures { result ≡ has_other updates (items_of self.now.jobs.items) }
    {
        let len = self.jobs.len();
        self.front(updates, len) < len
    }

    /// Lends the first so many jobs.
    pub(crate) fn lend(&mut self, count: usize, into: &mut Vec<Job>)
        requires count { count ≤ length self.old.jobs.items }
        requires lent { self.old.lent ≡ 0 }
        requires room { vec_len into.old + count ≤ vec_capacity into.old }
        ensures into { into.new.items ≡ into.old.items ++ take count self.old.jobs.items }
        ensures left { self.new.jobs.items ≡ drop count self.old.jobs.items }
        ensures lent { self.new.lent ≡ count }
        ensures conn { self.new.conn ≡ self.old.conn }
        ensures len { vec_len into.new ≡ vec_len into.old + count }
        ensures capacity { vec_capacity into.new ≡ vec_capacity into.old }
    {
        move_front(&mut self.jobs, count, into);
        self.lent = count;
    }

    /// Takes back what it lent, the first ones of these.
    pub(crate) fn take_back(&mut self, back: &mut VecDeque<Job>)
        requires count { self.old.lent ≤ length back.old.items }
        requires own { IsTrue (are_from (connection_of self.old.conn) (items_of (take self.old.lent back.old.items))) }
        ensures jobs { self.new.jobs.items ≡ take self.old.lent back.old.items ++ self.old.jobs.items }
        ensures back { back.new.items ≡ drop self.old.lent back.old.items }
        ensures lent { self.new.lent ≡ 0 }
    {
        let lent = self.lent;
        take_front(&mut self.jobs, lent, back);
        self.lent = 0;
    }

    /// Forgets what it lent. Where no job is here its room is kept for another run.
    pub(crate) fn settle(&mut self, rooms: &mut Rooms)
        ensures jobs { self.new.jobs.items ≡ self.old.jobs.items }
        ensures lent { self.new.lent ≡ 0 }
    {
        self.lent = 0;
        if self.jobs.is_empty() {
            let none = VecDeque::new(*self.jobs.allocator());
            rooms.keep(mem::replace(&mut self.jobs, none));
        }
    }
}

// Moves the first so many jobs out. There is room for them.
fn move_front(jobs: &mut VecDeque<Job>, count: usize, into: &mut Vec<Job>)
    requires count { count ≤ length jobs.old.items }
    requires room { vec_len into.old + count ≤ vec_capacity into.old }
    ensures into { into.new.items ≡ into.old.items ++ take count jobs.old.items }
    ensures left { jobs.new.items ≡ drop count jobs.old.items }
    ensures left_len { deque_len jobs.new + count ≡ deque_len jobs.old }
    ensures left_capacity { deque_capacity jobs.new ≡ deque_capacity jobs.old }
    ensures len { vec_len into.new ≡ vec_len into.old + count }
    ensures capacity { vec_capacity into.new ≡ vec_capacity into.old }
{
    for _ in 0..count {
        if let Some(job) = jobs.pop_front() {
            into.push_reserved(job);
        }
    }
}

// Moves the first so many of these to the front of the jobs, which have room for them.
fn take_front(jobs: &mut VecDeque<Job>, count: usize, back: &mut VecDeque<Job>)
    requires count { count ≤ length back.old.items }
    requires room { deque_len jobs.old + count ≤ deque_capacity jobs.old }
    ensures jobs { jobs.new.items ≡ take count back.old.items ++ jobs.old.items }
    ensures back { back.new.items ≡ drop count back.old.items }
    ensures len { deque_len jobs.new ≡ deque_len jobs.old + count }
    ensures capacity { deque_capacity jobs.new ≡ deque_capacity jobs.old }
{
    let here = jobs.len();
    for _ in 0..count {
        if let Some(job) = back.pop_front() {
            jobs.push_back_reserved(job);
        }
    }
    jobs.rotate_left(here);
}

// The account of one connection.
ghost use Rattle.std.specs.Prelude.{◌≡◌, cond, Some};
ghost use Rattle.nr_entry.specs.Jobs.{item_of};
ghost use Rattle.nr_job_numbers.specs.Stored.{is_unended};
ghost use Rattle.nr_job_numbers.specs.Account.{is_of, noted, reopened, takes, taken, untaken, ends_with, back_to};

use nr_entry::Job;

/// The account of a connection.
#[derive(Clone, Copy, Debug)]
pub struct Account {
    /// The worker that serves it.
    pub worker: u8,
    /// The number of its next job.
    pub next: u64,
    /// Whether its end was taken: no job comes behind it.
    pub is_ended: bool,
}

/// A connection of which a job was taken, but not its end.
#[derive(Clone, Copy, Debug, PartialEq, Eq)]
pub struct Unended {
    pub serial: u64,
    /// The number of its next job.
    pub next: u64,
}

impl Account {
    /// Whether this worker serves the connection, and its end wasn't taken.
    fn is_of(&self, worker: usize) -> bool
        ensures { result ≡ is_of worker self.now }
    {
        self.worker as usize == worker && !self.is_ended
    }

    /// Whether this worker serves the connection, and a job of it was taken, but not its end.
    pub(crate) fn is_unended(&self, worker: usize) -> bool
        ensures { result ≡ is_unended worker (Some self.now) }
    {
        self.is_of(worker) && self.next > 0
    }

    /// Takes its next job, if it is that.
    pub(crate) fn take(&mut self, worker: usize, job: &Job) -> bool
        ensures takes { result ≡ takes worker (item_of job.now) self.old }
        ensures taken { self.new ≡ cond result (taken (item_of job.now) self.old) self.old }
    {
        if job.number != self.next || self.next == u64::MAX || !self.note(worker, job) {
            return false;
        }
        self.next += 1;
        true
    }

    /// Notes whether a job is its end, if this worker serves the connection and its end wasn't taken.
    pub(crate) fn note(&mut self, worker: usize, job: &Job) -> bool
        ensures known { result ≡ is_of worker self.old }
        ensures noted { self.new ≡ cond result (noted (item_of job.now) self.old) self.old }
    {
        if !self.is_of(worker) {
            return false;
        }
        self.is_ended = job.kind.is_end();
        true
    }

    /// The job that was taken last wasn't.
    pub(crate) fn give_back(&mut self)
        ensures { self.new ≡ untaken self.old }
    {
        self.next = self.next.saturating_sub(1);
        self.reopen();
    }

    /// Its end wasn't taken.
    pub(crate) fn reopen(&mut self)
        ensures { self.new ≡ reopened self.old }
    {
        self.is_ended = false;
    }

    /// The job of this number is its next one, and its end wasn't taken.
    pub(crate) fn go_back(&mut self, number: u64)
        ensures { self.new ≡ back_to number self.old }
    {
        self.next = number;
        self.reopen();
    }

    /// Whether its end was taken, and a job is that: the last one that was taken.
    pub(crate) fn ends_with(&self, job: &Job) -> bool
        ensures { result ≡ ends_with (item_of job.now) self.now }
    {
        self.is_ended && job.kind.is_end() && job.number < self.next && self.next - job.number == 1
    }
}

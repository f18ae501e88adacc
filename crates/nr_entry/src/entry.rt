// An entry of the operation log: updates of one node, at one moment.
ghost use Rattle.std.specs.Prelude.{◌≡◌, ◌<◌, ◌≤◌, IsTrue, length};
ghost use Rattle.nr_model.specs.Entries.{entry_moment, most_entry_jobs};
ghost use Rattle.nr_entry.specs.Entry.{are_updates, are_of};
ghost use Rattle.nr_entry.specs.Jobs.{items_of};

use crate::job::Job;

/// How many jobs an entry has at most.
pub const MOST_JOBS: usize = 1024;

/// Updates that are executed one after the other, at one moment.
#[derive(Debug, Drop)]
pub struct Entry {
    /// The node whose connections' jobs these are.
    pub node: usize,
    /// The greatest of the jobs' moments, in milliseconds.
    pub moment: u64,
    /// 1 to [`MOST_JOBS`] updates.
    pub jobs: Vec<Job>,
    pub ghost some: { 0 < length jobs.items },
    pub ghost most: { length jobs.items ≤ most_entry_jobs },
    pub ghost updates: { IsTrue (are_updates (items_of jobs.items)) },
    pub ghost own: { IsTrue (are_of node (items_of jobs.items)) },
    pub ghost latest: { moment ≡ entry_moment (items_of jobs.items) },
}

impl Entry {
    /// An entry of these jobs, at the greatest of their moments.
    pub fn new(node: usize, jobs: Vec<Job>) -> Entry
        requires some { 0 < length jobs.items }
        requires most { length jobs.items ≤ most_entry_jobs }
        requires updates { IsTrue (are_updates (items_of jobs.items)) }
        requires own { IsTrue (are_of node (items_of jobs.items)) }
        ensures node { result.node ≡ node }
        ensures jobs { result.jobs.items ≡ jobs.items }
    {
        let mut moment = 0;
        for job in &jobs {
            moment = moment.max(job.moment);
        }
        Entry { node, moment, jobs }
    }
}

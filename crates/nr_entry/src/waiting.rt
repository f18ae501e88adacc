// The jobs that wait at a node, in the order lifted.
ghost use Rattle.std.specs.Prelude.{◌≡◌, ◌≤◌, ◌++◌, ℕ, IfOk, IfErr, OnOk, OnErr, IsTrue, not, [], length};
ghost use Rattle.nr_model.specs.Entries.{entry_jobs, left_by_entry, read_jobs, left_by_reads, most_entry_jobs};
ghost use Rattle.nr_model.specs.Asked.{own_jobs, first_number};
ghost use Rattle.nr_entry.specs.Jobs.{connection_of, items_of};
ghost use Rattle.nr_entry.specs.Entry.{are_updates, are_of};
ghost use Rattle.nr_entry.specs.Waiting.{belong, filled, has_some};

use crate::conn::ConnId;
use crate::entry::MOST_JOBS;
use crate::job::Job;
use crate::lifting::add_all;
use crate::rooms::Rooms;
use crate::run::Run;
use crate::runs::{any_leads, first_number, lend_leading, settle, take_back};
use nr_blob::Memory;
use std::alloc::Global;
use std::marker::Model;

/// The jobs that wait at a node, in the order lifted. Contracts see the jobs that are here and, while some are lent, where these belong.
#[derive(Drop)]
pub struct Waiting {
    alloc: Global,
    runs: Vec<Run>,
    // How many jobs wait, with those that are lent, and how many are lent.
    count: usize,
    lent: usize,
    // How many jobs are taken of each run: filled anew by each call, and kept so that it takes no memory.
    counts: Vec<usize>,
    // Room for the jobs of runs that come.
    rooms: Rooms,
}

impl Model for Waiting {
    ghost use Rattle.std.specs.Prelude.{◌≡◌, ◌+◌, length};
    ghost use Rattle.std.specs.Coded.{codes};
    ghost use Rattle.nr_entry.specs.contracts.job.Job as of_job;
    ghost use Rattle.nr_entry.specs.Waiting.{Held};
    ghost use Rattle.nr_entry.specs.Runs.{jobs_in, lent_in, gaps_where, owners_in};

    ghost Value = { Held };

    ghost coded = { Prim.hlevel (codes, of_job.the_row.coded) };

    ghost view = { λ w. record { jobs = jobs_in w.runs.items; gaps = gaps_where w.lent w.runs.items; lent = owners_in w.runs.items } };

    ghost invariant = { λ w. (w.count ≡ length (jobs_in w.runs.items) + w.lent) × (lent_in w.runs.items ≡ w.lent) };
}

impl Waiting {
    /// No job waits. It takes no memory.
    pub fn new(alloc: Global) -> Waiting
        ensures { result ≡ record { jobs = []; gaps = []; lent = [] } }
    {
        Waiting {
            alloc,
            runs: Vec::new(alloc),
            count: 0,
            lent: 0,
            counts: Vec::new(alloc),
            rooms: Rooms::new(alloc),
        }
    }

    /// Puts all of these behind the others. Where memory runs out nothing changes, and all come back in order. Linear in these.
    pub fn extend(&mut self, jobs: Vec<Job>) -> Result<(), (Vec<Job>, Memory)>
        requires { self.old.gaps ≡ [] }
        ensures ok { OnOk result (self.new ≡ record { jobs = self.old.jobs ++ jobs.items; gaps = []; lent = [] }) }
        ensures back { IfErr result (λ back. back.0.items ≡ jobs.items) }
        ensures err { OnErr result (self.new ≡ self.old) }
    {
        let added = jobs.len();
        if let Some(refused) = Memory::at_last(self.count.saturating_add(added) as u64) {
            return Err((jobs, refused));
        }
        match add_all(self.alloc, &mut self.runs, &mut self.rooms, jobs) {
            Ok(()) => {
                self.count += added;
                Ok(())
            }
            Err(back) => Err(back),
        }
    }

    /// Lends the jobs of the next entry: the first [`MOST_JOBS`] updates before which no read of their connection waits. They are taken
    /// out for good, or given back. It takes a step for each of them, and n log n steps for n runs of jobs of one connection that wait,
    /// however long these are: n steps where no run begins with an update. Beside the room for the jobs it takes memory only where three
    /// runs or more wait, or more than in any call before.
    pub fn lend_updates(&mut self) -> Result<Vec<Job>, Memory>
        requires { self.old.gaps ≡ [] }
        ensures taken { IfOk result (λ taken. items_of taken.items ≡ entry_jobs (items_of self.old.jobs)) }
        ensures left { OnOk result (items_of self.new.jobs ≡ left_by_entry (items_of self.old.jobs)) }
        ensures whole { IfOk result (λ taken. filled self.new.gaps taken.items self.new.jobs ≡ self.old.jobs) }
        ensures lent { IfOk result (λ taken. IsTrue (belong self.new.lent (items_of taken.items))) }
        ensures err { OnErr result (self.new ≡ self.old) }
        ensures updates { IfOk result (λ taken. IsTrue (are_updates (items_of taken.items))) }
        ensures most { IfOk result (λ taken. length taken.items ≤ most_entry_jobs) }
        ensures own { (node : ℕ) → IsTrue (are_of node (items_of self.old.jobs)) → IfOk result (λ taken. IsTrue (are_of node (items_of taken.items))) }
    {
        let taken = lend_leading(
            self.alloc,
            &mut self.runs,
            &mut self.counts,
            true,
            MOST_JOBS,
        )?;
        self.lent = taken.len();
        Ok(taken)
    }

    /// The jobs that are lent wait no more. It takes no memory, and is linear in the runs.
    pub fn take_lent(&mut self)
        ensures { self.new ≡ record { jobs = self.old.jobs; gaps = []; lent = [] } }
    {
        settle(&mut self.runs, &mut self.rooms);
        self.count -= self.lent;
        self.lent = 0;
    }

    /// The jobs that were lent go on waiting, where they were. It takes no memory, and is linear in these and in the runs.
    pub fn give_back(&mut self, jobs: Vec<Job>)
        requires { IsTrue (belong self.old.lent (items_of jobs.items)) }
        ensures { self.new ≡ record { jobs = filled self.old.gaps jobs.items self.old.jobs; gaps = []; lent = [] } }
    {
        take_back(&mut self.runs, jobs);
        self.lent = 0;
    }

    /// Takes the reads before which no update of their connection waits. It takes as many steps and as much memory as `lend_updates`, where
    /// reads stand for updates.
    pub fn take_reads(&mut self) -> Result<Vec<Job>, Memory>
        requires { self.old.gaps ≡ [] }
        ensures taken { IfOk result (λ taken. items_of taken.items ≡ read_jobs (items_of self.old.jobs)) }
        ensures left { OnOk result (items_of self.new.jobs ≡ left_by_reads (items_of self.old.jobs)) }
        ensures whole { OnOk result ((self.new.gaps ≡ []) × (self.new.lent ≡ [])) }
        ensures err { OnErr result (self.new ≡ self.old) }
    {
        let taken = lend_leading(
            self.alloc,
            &mut self.runs,
            &mut self.counts,
            false,
            self.count,
        )?;
        settle(&mut self.runs, &mut self.rooms);
        self.count -= taken.len();
        Ok(taken)
    }

    /// Whether an update leads: whether the next entry has a job. It looks at the first job of each run, and for a run that begins with an
    /// update at the runs before it.
    pub fn leads_update(&self) -> bool
        requires { self.now.gaps ≡ [] }
        ensures { result ≡ has_some (entry_jobs (items_of self.now.jobs)) }
    {
        any_leads(&self.runs, true)
    }

    /// Whether a read leads. It looks at the first job of each run, and for a run that begins with a read at the runs before it.
    pub fn leads_read(&self) -> bool
        requires { self.now.gaps ≡ [] }
        ensures { result ≡ has_some (read_jobs (items_of self.now.jobs)) }
    {
        any_leads(&self.runs, false)
    }

    /// The number of the first job of a connection that is here, where there is one. Linear in the runs.
    pub fn first_of(&self, conn: ConnId) -> Option<u64>
        ensures { result ≡ first_number (own_jobs (connection_of conn) (items_of self.now.jobs)) }
    {
        first_number(&self.runs, conn)
    }

    /// Whether no job is here. Jobs may be lent.
    pub fn is_empty(&self) -> bool
        ensures { result ≡ not (has_some (items_of self.now.jobs)) }
    {
        self.count == self.lent
    }

    /// Drops all jobs. Those that are lent have no place here any more.
    pub fn clear(&mut self)
        ensures { self.new ≡ record { jobs = []; gaps = []; lent = [] } }
    {
        self.runs.clear();
        self.count = 0;
        self.lent = 0;
    }
}

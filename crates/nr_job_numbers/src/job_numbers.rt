// The accounts of a node.
ghost use Rattle.std.specs.Prelude.{◌≡◌, ◌<◌, ◌++◌, ℕ, length, replicate, option_map, true, false, Some, None, IsSome, IfSome, IfNone, IfOk, IfErr, OnOk, OnErr};
ghost use Rattle.std.specs.FinMap as finmap;
ghost use Rattle.nr_model.specs.Entries.{Jobs};
ghost use Rattle.nr_entry.specs.Jobs.{items_of};
ghost use Rattle.nr_job_numbers.specs.Account.{fresh_account, back_to};
ghost use Rattle.nr_job_numbers.specs.Stored.{changed, is_unended, ComesAfter};
ghost use Rattle.nr_job_numbers.specs.declared.account.Account.{Account};
ghost use Rattle.nr_job_numbers.specs.Book.{Book, HasTaken, refusal_of, with_batch, without_ended, last_of, is_above};

use crate::account::{Account, Unended};
use crate::stored::BySerial;
use crate::taking::{close_all, give_back, has_stranger, take_all};
use nr_blob::Memory;
use nr_entry::{Batch, Job, Refusal};
use std::alloc::Global;
use std::marker::Model;

/// The accounts of the connections that a node serves, and of the batches that it took of its workers.
#[derive(Drop)]
pub struct JobNumbers {
    node: usize,
    held: BySerial,
    // For each worker the number of the last batch that was taken.
    last: Vec<Option<u64>>,
}

impl Model for JobNumbers {
    ghost use Rattle.nr_job_numbers.specs.Book.{Book, coded_book};

    ghost Value = { Book };

    ghost coded = { coded_book };

    ghost view = { λ a. record { node = a.node; held = a.held; last = a.last.items } };
}

impl JobNumbers {
    /// No connection, and no batch of so many workers.
    pub fn new(alloc: Global, node: usize, workers: usize) -> Result<JobNumbers, Memory>
        ensures accounts { IfOk result (λ accounts. accounts ≡ record { node = node; held = finmap.empty; last = replicate workers None }) }
    {
        let mut last = Vec::with_capacity(alloc, workers)?;
        last.resize(workers, None)?;
        Ok(JobNumbers {
            node,
            held: BySerial::new(alloc),
            last,
        })
    }

    /// Opens the account of a connection, which this worker serves. Logarithmic. Where memory runs out nothing changes.
    pub fn open(&mut self, serial: u64, worker: u8) -> Result<(), Memory>
        ensures opened { OnOk result (self.new ≡ record self.old { held = finmap.insert self.old.held serial (fresh_account worker) }) }
        ensures unchanged { OnErr result (self.new ≡ self.old) }
    {
        let account = Account {
            worker,
            next: 0,
            is_ended: false,
        };
        self.held.insert(serial, account)
    }

    /// Drops the account of a connection. Logarithmic.
    pub fn forget(&mut self, serial: u64)
        ensures { self.new ≡ record self.old { held = finmap.remove self.old.held serial } }
    {
        self.held.remove(serial);
    }

    /// Takes a batch, with all of its jobs, and says the number of the worker's batch before it. It is refused, and nothing changes, where it
    /// names another node or a worker that there isn't, or has a job of a connection that its worker doesn't serve or whose end was taken
    /// before; else where a job's number isn't its connection's next one, or its own isn't above that of the worker's last batch.
    /// Logarithmic in the connections for each job, also where it is refused.
    pub fn take(&mut self, batch: &Batch) -> Result<Option<u64>, Refusal>
        ensures taken { OnOk result (self.new ≡ with_batch batch.now self.old) }
        ensures due { OnOk result (refusal_of self.old batch.now ≡ None) }
        ensures before { IfOk result (λ before. before ≡ last_of self.old batch.now.worker) }
        ensures worker { OnOk result (batch.now.worker < length self.old.last) }
        ensures refused { IfErr result (λ why. refusal_of self.old batch.now ≡ Some why) }
        ensures unchanged { OnErr result (self.new ≡ self.old) }
        ensures numbered { (jobs : Jobs) → HasTaken self.old jobs → OnOk result (HasTaken self.new (jobs ++ items_of batch.now.jobs.items)) }
    {
        if batch.node != self.node || batch.worker >= self.last.len() {
            return Err(Refusal::Stranger);
        }
        let before = self.last[batch.worker];
        if is_above(batch.number, before)
            && take_all(&mut self.held, self.node, batch.worker, &batch.jobs)
        {
            self.last[batch.worker] = Some(batch.number);
            return Ok(before);
        }
        if has_stranger(&mut self.held, self.node, batch.worker, &batch.jobs) {
            return Err(Refusal::Stranger);
        }
        Err(Refusal::WrongNumber)
    }

    /// The batch that was taken last wasn't: so where its jobs found no room. `before` is the number of the worker's batch before it.
    /// Logarithmic in the connections for each job.
    pub fn give_back(&mut self, batch: &Batch, before: Option<u64>)
        requires { batch.now.worker < length self.old.last }
        ensures { (book : Book) → refusal_of book batch.now ≡ None → self.old ≡ with_batch batch.now book → before ≡ last_of book batch.now.worker
            → self.new ≡ book }
    {
        give_back(&mut self.held, &batch.jobs);
        self.last[batch.worker] = before;
    }

    /// The node whose connections have the accounts.
    pub fn node(&self) -> usize
        ensures { result ≡ self.now.node }
    {
        self.node
    }

    /// How many workers the node has.
    pub fn workers(&self) -> usize
        ensures { result ≡ length self.now.last }
    {
        self.last.len()
    }

    /// The first serial that has an account, after one where that is given. Logarithmic.
    pub fn next_after(&self, last: Option<u64>) -> Option<u64>
        ensures found { IfSome result (λ next. ComesAfter last next × IsSome (finmap.get self.now.held next)) }
        ensures between { IfSome result (λ next. (other : ℕ) → ComesAfter last other → other < next → finmap.get self.now.held other ≡ None) }
        ensures none { IfNone result ((other : ℕ) → ComesAfter last other → finmap.get self.now.held other ≡ None) }
    {
        self.held.next_after(last)
    }

    /// The first connection after one, by serial, that this worker serves, and of which a job was taken, but not its end. Logarithmic for each account between.
    pub fn next_unended(&self, worker: usize, last: Option<u64>) -> Option<Unended>
        ensures found { IfSome result (λ one. ComesAfter last one.serial × (is_unended worker (finmap.get self.now.held one.serial) ≡ true)) }
        ensures next { IfSome result (λ one. option_map (λ (account : Account). account.next) (finmap.get self.now.held one.serial) ≡ Some one.next) }
        ensures between { IfSome result (λ one. (other : ℕ) → ComesAfter last other → other < one.serial → is_unended worker (finmap.get self.now.held other) ≡ false) }
        ensures none { IfNone result ((other : ℕ) → ComesAfter last other → is_unended worker (finmap.get self.now.held other) ≡ false) }
    {
        self.held.next_unended(worker, last)
    }

    /// A connection's jobs from this number on were dropped: its account goes back to that, and its end wasn't taken. Logarithmic; it takes no memory.
    pub fn go_back(&mut self, serial: u64, number: u64)
        ensures { self.new ≡ record self.old { held = changed (back_to number) serial self.old.held } }
    {
        self.held.go_back(serial, number);
    }

    /// These jobs were executed: the account of each of the node's connections whose end is among them goes, where that is the last job that was taken of it.
    /// Linear in them, and logarithmic in the connections for each end of the node.
    pub fn close(&mut self, jobs: &[Job])
        ensures { self.new ≡ without_ended (items_of jobs.now) self.old }
    {
        close_all(&mut self.held, self.node, jobs);
    }
}

fn is_above(number: u64, last: Option<u64>) -> bool
    ensures { result ≡ is_above number last }
{
    match last {
        Some(last) => last < number,
        None => true,
    }
}

// The accounts of a node's connections, by serial.
ghost use Rattle.std.specs.Prelude.{◌≡◌, ◌<◌, ℕ, None, Some, option_map, true, false, cond, not, IsSome, IfSome, IfNone, OnOk, OnErr};
ghost use Rattle.std.specs.Option.{option_copied};
ghost use Rattle.std.specs.FinMap as finmap;
ghost use Rattle.nr_entry.specs.Jobs.{item_of};
ghost use Rattle.nr_job_numbers.specs.Account.{noted, reopened, taken, untaken, back_to};
ghost use Rattle.nr_job_numbers.specs.Stored.{changed, takes_by, is_strange, is_unended, ends_by, start_after, ComesAfter};
ghost use Rattle.nr_job_numbers.specs.declared.account.Account.{Account};

use crate::account::{Account, Unended};
use nr_blob::Memory;
use nr_entry::Job;
use std::alloc::Global;
use std::collections::BTreeMap;
use std::marker::Model;
use std::ops::Bound;

/// The accounts of connections. They are seen as a finite map.
#[derive(Drop)]
pub(crate) struct BySerial {
    accounts: BTreeMap<u64, Account>,
}

impl Model for BySerial {
    ghost use Rattle.std.specs.FinMap as finmap;
    ghost use Rattle.std.specs.BTreeMap.{IsOrdered};
    ghost use Rattle.std.specs.Ordering.{nat_cmp};
    ghost use Rattle.nr_job_numbers.specs.Stored.{Held, coded_held};

    ghost Value = { Held };

    ghost coded = { coded_held };

    ghost view = { λ b. finmap.from_sorted b.accounts.entries };

    ghost invariant = { λ b. IsOrdered nat_cmp b.accounts };
}

impl BySerial {
    pub(crate) fn new(alloc: Global) -> BySerial
        ensures { result ≡ finmap.empty }
    {
        BySerial {
            accounts: BTreeMap::new(alloc),
        }
    }

    fn get(&self, serial: u64) -> Option<&Account>
        ensures { option_copied result ≡ finmap.get self.now serial }
    {
        self.accounts.get(&serial)
    }

    /// Puts an account in, in the place of the one that was there.
    pub(crate) fn insert(&mut self, serial: u64, account: Account) -> Result<(), Memory>
        ensures ok { OnOk result (self.new ≡ finmap.insert self.old serial account) }
        ensures err { OnErr result (self.new ≡ self.old) }
    {
        self.accounts.insert(serial, account)?;
        Ok(())
    }

    pub(crate) fn remove(&mut self, serial: u64)
        ensures { self.new ≡ finmap.remove self.old serial }
    {
        self.accounts.remove(&serial);
    }

    /// Takes a connection's next job, if it is that.
    pub(crate) fn take(&mut self, serial: u64, worker: usize, job: &Job) -> bool
        ensures takes { result ≡ takes_by worker (item_of job.now) (finmap.get self.old serial) }
        ensures taken { self.new ≡ cond result (changed (taken (item_of job.now)) serial self.old) self.old }
    {
        let Some(account) = self.accounts.get_mut(&serial) else {
            return false;
        };
        account.take(worker, job)
    }

    /// The connection's job that was taken last wasn't.
    pub(crate) fn give_back(&mut self, serial: u64)
        ensures { self.new ≡ changed untaken serial self.old }
    {
        let Some(account) = self.accounts.get_mut(&serial) else {
            return;
        };
        account.give_back();
    }

    /// Notes whether a job is its connection's end, if this worker serves the connection and its end wasn't taken.
    pub(crate) fn note(&mut self, serial: u64, worker: usize, job: &Job) -> bool
        ensures known { is_strange worker (finmap.get self.old serial) ≡ not result }
        ensures noted { self.new ≡ cond result (changed (noted (item_of job.now)) serial self.old) self.old }
    {
        let Some(account) = self.accounts.get_mut(&serial) else {
            return false;
        };
        account.note(worker, job)
    }

    /// The connection's end wasn't taken.
    pub(crate) fn reopen(&mut self, serial: u64)
        ensures { self.new ≡ changed reopened serial self.old }
    {
        let Some(account) = self.accounts.get_mut(&serial) else {
            return;
        };
        account.reopen();
    }

    /// Whether a job is the connection's end, and the last one that was taken of it.
    pub(crate) fn ends_with(&self, serial: u64, job: &Job) -> bool
        ensures { result ≡ ends_by (item_of job.now) (finmap.get self.now serial) }
    {
        match self.get(serial) {
            Some(account) => account.ends_with(job),
            None => false,
        }
    }

    /// The first serial that has an account, after one where that is given. Logarithmic.
    pub(crate) fn next_after(&self, last: Option<u64>) -> Option<u64>
        ensures found { IfSome result (λ next. ComesAfter last next × IsSome (finmap.get self.now next)) }
        ensures between { IfSome result (λ next. (other : ℕ) → ComesAfter last other → other < next → finmap.get self.now other ≡ None) }
        ensures none { IfNone result ((other : ℕ) → ComesAfter last other → finmap.get self.now other ≡ None) }
    {
        let start = start_after(last);
        match self.accounts.range((start, Bound::Unbounded)).next() {
            Some((serial, _)) => Some(*serial),
            None => None,
        }
    }

    /// The number of the connection's next job, where this worker serves it, and a job of it was taken, but not its end.
    pub(crate) fn unended(&self, serial: u64, worker: usize) -> Option<u64>
        ensures some { IfSome result (λ next. (is_unended worker (finmap.get self.now serial) ≡ true) × (option_map (λ (account : Account). account.next) (finmap.get self.now serial) ≡ Some next)) }
        ensures none { IfNone result (is_unended worker (finmap.get self.now serial) ≡ false) }
    {
        let account = self.get(serial)?;
        account.is_unended(worker).then_some(account.next)
    }

    /// The first connection after one, by serial, that this worker serves, and of which a job was taken, but not its end. Logarithmic for each account between.
    pub(crate) fn next_unended(&self, worker: usize, last: Option<u64>) -> Option<Unended>
        ensures found { IfSome result (λ one. ComesAfter last one.serial × (is_unended worker (finmap.get self.now one.serial) ≡ true)) }
        ensures next { IfSome result (λ one. option_map (λ (account : Account). account.next) (finmap.get self.now one.serial) ≡ Some one.next) }
        ensures between { IfSome result (λ one. (other : ℕ) → ComesAfter last other → other < one.serial → is_unended worker (finmap.get self.now other) ≡ false) }
        ensures none { IfNone result ((other : ℕ) → ComesAfter last other → is_unended worker (finmap.get self.now other) ≡ false) }
    {
        let mut last = last;
        while let Some(serial) = self.next_after(last) {
            if let Some(next) = self.unended(serial, worker) {
                return Some(Unended { serial, next });
            }
            last = Some(serial);
        }
        None
    }

    /// The connection's next job is that of this number, and its end wasn't taken.
    pub(crate) fn go_back(&mut self, serial: u64, number: u64)
        ensures { self.new ≡ changed (back_to number) serial self.old }
    {
        let Some(account) = self.accounts.get_mut(&serial) else {
            return;
        };
        account.go_back(number);
    }
}

// Where the serials after one begin.
fn start_after(last: Option<u64>) -> Bound<u64>
    ensures { result ≡ start_after last }
{
    match last {
        Some(last) => Bound::Excluded(last),
        None => Bound::Unbounded,
    }
}

// The machine: it applies the updates of entries, looks for reads, and emits. It knows commands by `change` and `look` alone.
ghost use Rattle.std.specs.Prelude.{◌≡◌, ℕ, true, false, take, OnOk, OnErr, IfOk, IsErr};
ghost use Rattle.nr_model.specs.Entries.{entry_items};
ghost use Rattle.nr_model.specs.Sequential.{for_node};
ghost use Rattle.nr_model.specs.Items.{is_update};
ghost use Rattle.nr_model.specs.Servers.{fresh, stepped, emitted_in, after_all, emitted_all};
ghost use Rattle.nr_entry.specs.Jobs.{connection_of, items_of};
ghost use Rattle.nr_entry.specs.Kinds.{deed_of, read_deed};
ghost use Rattle.nr_emission.specs.Emitted.{all_after};
ghost use Rattle.nr_machine.specs.Placed.{item_at};

use crate::state::State;
use nr_blob::Memory;
use nr_emission::Sink;
use nr_entry::{ConnId, Entry, Job, JobKind, Read};
use nr_keyspace::Keyspace;
use std::alloc::Global;
use std::cmp;
use std::hash::RandomState;
use std::marker::Model;

/// One sequential Redis: its keys, and what it remembers of connections. Once memory ran out in an update it has failed, and refuses
/// everything from then on, each time by that refusal.
#[derive(Drop)]
pub struct Machine {
    state: State,
    failed: Option<Memory>,
}

impl Model for Machine {
    ghost use Rattle.std.specs.Prelude.{is_some};
    ghost use Rattle.nr_machine.specs.Machines.{MachineState, coded_machine};

    ghost Value = { MachineState };

    ghost coded = { coded_machine };

    ghost view = { λ m. record { state = m.state; failed = is_some m.failed } };
}

impl Machine {
    /// No key, no connection, and no moment. Strangers choose the keys, so the hasher takes a seed of its own.
    pub fn new(alloc: Global, keys: RandomState) -> Result<Machine, Memory>
        ensures { IfOk result (λ machine. machine ≡ record { state = fresh; failed = false }) }
    {
        Ok(Machine {
            state: State::new(alloc, keys)?,
            failed: None,
        })
    }

    /// The same machine once more. Linear in what is stored and remembered.
    pub fn copy(&self) -> Result<Machine, Memory>
        ensures { IfOk result (λ machine. machine ≡ self.now) }
    {
        Ok(Machine {
            state: self.state.copy()?,
            failed: self.failed,
        })
    }

    /// What is stored, with what is gone and not swept.
    pub fn keyspace(&self) -> &Keyspace
        ensures { result.now ≡ self.now.state.keyspace }
    {
        &self.state.keyspace
    }

    /// An entry's updates, one after the other, at the entry's moment or that of the updates so far, whichever is later.
    /// What they emit for the connections of the node goes into the sink, and nothing for others. Where memory runs out
    /// the machine has failed, and the sink has what the updates before emitted.
    pub fn apply<S: Sink>(&mut self, entry: &Entry, node: usize, out: &mut S) -> Result<(), Memory>
        ensures applied { OnOk result (self.new ≡ record { state = after_all self.old.state (entry_items (items_of entry.now.jobs.items)); failed = false }) }
        ensures emitted { OnOk result (out.new
            ≡ all_after S.after out.old (for_node node (emitted_all self.old.state (entry_items (items_of entry.now.jobs.items))))) }
        ensures partly { OnErr result ((n : ℕ) × (out.new
            ≡ all_after S.after out.old (take n (for_node node (emitted_all self.old.state (entry_items (items_of entry.now.jobs.items))))))) }
        ensures failed { OnErr result (self.new.failed ≡ true) }
        ensures repeats { self.old.failed ≡ true → IsErr result }
    {
        if let Some(refused) = self.failed {
            return Err(refused);
        }
        match self.apply_each(entry, node, out) {
            Ok(()) => Ok(()),
            Err(refused) => {
                self.failed = Some(refused);
                Err(refused)
            }
        }
    }

    // An entry's updates, one after the other.
    fn apply_each<S: Sink>(&mut self, entry: &Entry, node: usize, out: &mut S) -> Result<(), Memory>
        ensures applied { OnOk result (self.new ≡ record { state = after_all self.old.state (entry_items (items_of entry.now.jobs.items)); failed = self.old.failed }) }
        ensures emitted { OnOk result (out.new
            ≡ all_after S.after out.old (for_node node (emitted_all self.old.state (entry_items (items_of entry.now.jobs.items))))) }
        ensures partly { OnErr result ((n : ℕ) × (out.new
            ≡ all_after S.after out.old (take n (for_node node (emitted_all self.old.state (entry_items (items_of entry.now.jobs.items))))))) }
    {
        for job in &entry.jobs {
            self.apply_job(job, entry.moment, node, out)?;
        }
        Ok(())
    }

    // An update at its entry's moment.
    fn apply_job<S: Sink>(
        &mut self,
        job: &Job,
        moment: u64,
        node: usize,
        out: &mut S,
    ) -> Result<(), Memory>
        requires { is_update (deed_of job.now.kind) ≡ true }
        ensures applied { OnOk result (self.new ≡ record { state = stepped self.old.state (item_at job.now moment); failed = self.old.failed }) }
        ensures emitted { OnOk result (out.new ≡ all_after S.after out.old (for_node node (emitted_in self.old.state (item_at job.now moment)))) }
        ensures partly { OnErr result ((n : ℕ) × (out.new
            ≡ all_after S.after out.old (take n (for_node node (emitted_in self.old.state (item_at job.now moment)))))) }
        ensures failed { OnErr result (self.new.failed ≡ self.old.failed) }
    {
        let now = cmp::max(moment, self.state.logged);
        match &job.kind {
            JobKind::Update(update) => {
                self.state.update(now, node, job.conn, update, out)?;
                self.state.logged = now;
                Ok(())
            }
            JobKind::Read(_) => unreachable!(),
        }
    }

    /// A read of a connection, at a moment or that of the updates so far, whichever is later: a command that only looks, or a reply
    /// that needs no state. What it emits goes into the sink. Where memory runs out that is as it was.
    pub fn look<'k, S: Sink>(
        &'k self,
        now: u64,
        conn: ConnId,
        read: &'k Read,
        out: &mut S,
    ) -> Result<(), Memory>
        ensures emitted { (number : ℕ) → OnOk result (out.new
            ≡ all_after S.after out.old (emitted_in self.now.state (record { connection = connection_of conn; number = number; moment = now; deed = read_deed read.now }))) }
        ensures unchanged { OnErr result (out.new ≡ out.old) }
        ensures repeats { self.now.failed ≡ true → IsErr result }
    {
        if let Some(refused) = self.failed {
            return Err(refused);
        }
        let now = cmp::max(now, self.state.logged);
        self.state.read(now, conn, read, out)?;
        Ok(())
    }
}

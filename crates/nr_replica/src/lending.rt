// A replica's server, which may be lent: whoever has a share of it reads from it.
ghost use Rattle.std.specs.Prelude.{◌≡◌, false, Some, None, is_none, IfOk, IfSome, OnOk};
ghost use Rattle.std.specs.Arc.{arc_value};
ghost use Rattle.std.specs.Option.{option_copied};
ghost use Rattle.nr_model.specs.Sequential.{for_node};
ghost use Rattle.nr_model.specs.Servers.{after_all, emitted_all};
ghost use Rattle.nr_model.specs.Entries.{entry_items};
ghost use Rattle.nr_emission.specs.Emitted.{all_after, written_after};
ghost use Rattle.nr_entry.specs.Jobs.{items_of};
ghost use Rattle.nr_replica.specs.Lent.{AreRepliesTo};
ghost use Rattle.nr_replica.specs.Replicas.{server_in};

use crate::answering::{Replies, answer_all, are_reads};
use crate::spares::Spares;
use nr_blob::Memory;
use nr_emission::Staging;
use nr_entry::{Entry, Job};
use nr_machine::Machine;
use std::alloc::Global;
use std::marker::Model;
use std::sync::Arc;

/// A replica's server, lent: whoever has it may read from it, on any thread. While it is there the replica is to apply nothing. Contracts see the server.
#[derive(Drop)]
pub struct Lent {
    pub(crate) machine: Arc<Machine, Global>,
}

impl Model for Lent {
    ghost use Rattle.std.specs.Prelude.{◌≡◌, false};
    ghost use Rattle.std.specs.Arc.{arc_value};
    ghost use Rattle.nr_model.specs.Servers.{Server};
    ghost use Rattle.nr_machine.specs.Codes.{coded_server};

    ghost Value = { Server };

    ghost coded = { coded_server };

    ghost view = { λ l. (arc_value l.machine).state };

    ghost invariant = { λ l. (arc_value l.machine).failed ≡ false };
}

impl Lent {
    /// Runs these jobs, where all are reads: replies for each run of jobs of one connection, in order. `None` where one is no read, where the replies to a run pass the
    /// limit, or where memory runs out. It costs what the looks cost. Nothing is copied.
    pub fn answer<'k>(
        &'k self,
        alloc: Global,
        limit: usize,
        spares: &mut Spares,
        jobs: &'k [Job],
    ) -> Option<Vec<Replies>>
        ensures { IfSome result (λ replies. AreRepliesTo self.now (items_of jobs.now) replies.items) }
    {
        if !are_reads(jobs) {
            return None;
        }
        let machine: &'k Machine = &self.machine;
        answer_all(machine, alloc, limit, spares, jobs)
    }
}

/// A replica's server, where it has one, as one of its owners: the others are loans. Contracts see the machine.
#[derive(Drop)]
pub(crate) struct Lender {
    machine: Option<Arc<Machine, Global>>,
}

impl Model for Lender {
    ghost use Rattle.std.specs.Prelude.{Option, option_map};
    ghost use Rattle.std.specs.Arc.{arc_value};
    ghost use Rattle.std.specs.Coded.{coded_option};
    ghost use Rattle.nr_machine.specs.Machines.{MachineState, coded_machine};

    ghost Value = { Option MachineState };

    ghost coded = { coded_option coded_machine };

    ghost view = { λ l. option_map arc_value l.machine };
}

impl Lender {
    /// One that has this machine.
    pub(crate) fn new(alloc: Global, machine: Machine) -> Result<Lender, Memory>
        ensures { IfOk result (λ lender. lender ≡ Some machine) }
    {
        Ok(Lender::of(Arc::new(alloc, machine)?))
    }

    /// One that has a machine of which there is no loan yet.
    pub(crate) fn of(machine: Arc<Machine, Global>) -> Lender
        ensures { result ≡ Some (arc_value machine) }
    {
        Lender {
            machine: Some(machine),
        }
    }

    /// One that has none.
    pub(crate) fn none() -> Lender
        ensures { result ≡ None }
    {
        Lender { machine: None }
    }

    /// Whether it has none.
    pub(crate) fn is_none(&self) -> bool
        ensures { result ≡ is_none self.now }
    {
        self.machine.is_none()
    }

    /// The machine, to be read from.
    pub(crate) fn get(&self) -> Option<&Machine>
        ensures { option_copied result ≡ self.now }
    {
        match &self.machine {
            Some(machine) => Some(machine),
            None => None,
        }
    }

    /// A loan of the machine: constant. `None` where it has none, or its owners can't be counted.
    pub(crate) fn lend(&self) -> Option<Arc<Machine, Global>>
        ensures { IfSome result (λ machine. Some (arc_value machine) ≡ self.now) }
    {
        let Some(machine) = &self.machine else {
            return None;
        };
        let Ok(lent) = Arc::try_clone(machine) else {
            return None;
        };
        Some(lent)
    }

    /// Whether there is a loan. A hint: it may end at any time.
    pub(crate) fn is_lent(&self) -> bool {
        match &self.machine {
            Some(machine) => Arc::strong_count(machine) > 1,
            None => false,
        }
    }

    /// Applies an entry, and holds back what it emits for the node. Where the machine is lent a copy of it takes its place, linear in what is stored and
    /// remembered, and whoever has a loan keeps the one that was: so ask whether it is lent before.
    pub(crate) fn apply(
        &mut self,
        alloc: Global,
        entry: &Entry,
        node: usize,
        staging: &mut Staging,
    ) -> Result<(), Memory>
        requires { is_none self.old ≡ false }
        ensures applied { OnOk result (self.new ≡ Some (record { state = after_all (server_in self.old) (entry_items (items_of entry.now.jobs.items)); failed = false })) }
        ensures emitted { OnOk result (staging.new
            ≡ all_after written_after staging.old (for_node node (emitted_all (server_in self.old) (entry_items (items_of entry.now.jobs.items))))) }
    {
        let Some(machine) = &mut self.machine else {
            unreachable!()
        };
        apply_to(alloc, entry, node, machine, staging)
    }
}

// Applies an entry, where there is no loan, and else to a copy, which takes its place.
fn apply_to(
    alloc: Global,
    entry: &Entry,
    node: usize,
    machine: &mut Arc<Machine, Global>,
    staging: &mut Staging,
) -> Result<(), Memory>
    ensures applied { OnOk result (arc_value machine.new ≡ record { state = after_all (arc_value machine.old).state (entry_items (items_of entry.now.jobs.items)); failed = false }) }
    ensures emitted { OnOk result (staging.new
        ≡ all_after written_after staging.old (for_node node (emitted_all (arc_value machine.old).state (entry_items (items_of entry.now.jobs.items))))) }
{
    let Some(own) = Arc::get_mut(machine) else {
        let moved = apply_to_copy(entry, node, machine, staging)?;
        *machine = Arc::new(alloc, moved)?;
        return Ok(());
    };
    own.apply(entry, node, staging)
}

// A copy of a machine, with an entry applied.
fn apply_to_copy(
    entry: &Entry,
    node: usize,
    machine: &Machine,
    staging: &mut Staging,
) -> Result<Machine, Memory>
    ensures applied { IfOk result (λ moved. moved ≡ record { state = after_all machine.now.state (entry_items (items_of entry.now.jobs.items)); failed = false }) }
    ensures emitted { OnOk result (staging.new
        ≡ all_after written_after staging.old (for_node node (emitted_all machine.now.state (entry_items (items_of entry.now.jobs.items))))) }
{
    let mut copied = machine.copy()?;
    copied.apply(entry, node, staging)?;
    Ok(copied)
}

// A machine whose connections are subscribed to one channel, and what is asked of it.
ghost use Rattle.std.specs.Prelude.{◌≡◌, ℕ, true, false, IfOk, OnOk, OnErr};
ghost use Rattle.nr_model.specs.Entries.{entry_items};
ghost use Rattle.nr_model.specs.Sequential.{for_node};
ghost use Rattle.nr_model.specs.Servers.{emitted_in, after_all, emitted_all};
ghost use Rattle.nr_entry.specs.Jobs.{items_of};
ghost use Rattle.nr_entry.specs.Kinds.{read_deed};
ghost use Rattle.nr_emission.specs.Emitted.{all_after};

use crate::jobs::{getting, publishing, setting, subscribing};
use nr_blob::Memory;
use nr_emission::{Nowhere, Sink};
use nr_entry::{ConnId, Entry, Read};
use nr_machine::Machine;
use std::alloc::Global;
use std::hash::RandomState;

/// A machine with connections of node 0 on one channel and a text at one key, a PUBLISH of one more connection, and a GET.
pub struct Subscribed {
    pub machine: Machine,
    pub publishing: Entry,
    pub getting: Read,
}

impl Drop for Subscribed {
    fn drop(self) {
        let Subscribed {
            machine: _machine,
            publishing: _publishing,
            getting: _getting,
        } = self;
    }
}

impl Subscribed {
    /// One with so many connections.
    pub fn new(alloc: Global, keys: RandomState, connections: u64) -> Result<Subscribed, Memory>
        ensures { IfOk result (λ made. made.machine.failed ≡ false) }
    {
        let mut machine = Machine::new(alloc, keys)?;
        for serial in 0..connections {
            let entry = subscribing(alloc, serial)?;
            machine.apply(&entry, 0, &mut Nowhere)?;
        }
        let entry = setting(alloc, connections)?;
        machine.apply(&entry, 0, &mut Nowhere)?;
        Ok(Subscribed {
            machine,
            publishing: publishing(alloc, connections)?,
            getting: getting(alloc)?,
        })
    }

    /// The PUBLISH: what it emits goes into this sink.
    pub fn publish<S: Sink>(&mut self, out: &mut S) -> Result<(), Memory>
        ensures applied { OnOk result (self.new.machine ≡ record { state = after_all self.old.machine.state (entry_items (items_of self.old.publishing.jobs.items)); failed = false }) }
        ensures emitted { OnOk result (out.new
            ≡ all_after S.after out.old (for_node 0 (emitted_all self.old.machine.state (entry_items (items_of self.old.publishing.jobs.items))))) }
        ensures failed { OnErr result (self.new.machine.failed ≡ true) }
        ensures same { (self.new.publishing ≡ self.old.publishing) × (self.new.getting ≡ self.old.getting) }
    {
        self.machine.apply(&self.publishing, 0, out)
    }

    /// The GET by one of the connections: its reply goes into this sink.
    pub fn reply<S: Sink>(&self, serial: u64, out: &mut S) -> Result<(), Memory>
        ensures emitted { (number : ℕ) → OnOk result (out.new
            ≡ all_after S.after out.old (emitted_in self.now.machine.state (record { connection = record { node = 0; serial = serial }; number = number; moment = 0; deed = read_deed self.now.getting }))) }
        ensures unchanged { OnErr result (out.new ≡ out.old) }
    {
        let conn = ConnId { node: 0, serial };
        self.machine.look(0, conn, &self.getting, out)
    }
}

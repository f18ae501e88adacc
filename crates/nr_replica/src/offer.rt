// A copy of a replica's server, with which another replica comes back.
ghost use Rattle.std.specs.Prelude.{◌≡◌, false, IfOk};

use nr_blob::Memory;
use nr_keyspace::Db;
use nr_machine::Machine;
use std::alloc::Global;
use std::marker::Model;
use std::sync::Arc;

/// A copy of a replica's server, with which another replica comes back.
#[derive(Drop)]
pub struct Offer {
    // As a replica keeps it, so that to come back with it takes no memory.
    pub(crate) machine: Arc<Machine, Global>,
}

impl Model for Offer {
    ghost use Rattle.std.specs.Prelude.{◌≡◌, false};
    ghost use Rattle.std.specs.Arc.{arc_value};
    ghost use Rattle.nr_model.specs.Servers.{Server};
    ghost use Rattle.nr_machine.specs.Codes.{coded_server};

    ghost Value = { Server };

    ghost coded = { coded_server };

    ghost view = { λ o. (arc_value o.machine).state };

    ghost invariant = { λ o. (arc_value o.machine).failed ≡ false };
}

impl Offer {
    /// A copy of a machine.
    pub(crate) fn of(alloc: Global, machine: &Machine) -> Result<Offer, Memory>
        requires { machine.now.failed ≡ false }
        ensures { IfOk result (λ offer. offer ≡ machine.now.state) }
    {
        Ok(Offer {
            machine: Arc::new(alloc, machine.copy()?)?,
        })
    }

    /// How many keys it has, in all databases: what an operator is told. It looks at each deadline that has passed and whose key was not yet taken out.
    pub fn keys(&self) -> u64 {
        let mut keys: u64 = 0;
        for database in Db::all() {
            let more = self.machine.keyspace().len(0, database) as u64;
            keys = keys.saturating_add(more);
        }
        keys
    }
}

/// Why there is no copy.
#[derive(Clone, Copy, Debug, PartialEq, Eq)]
pub enum OfferError {
    /// The replica is down.
    Down,
    /// There was no memory left for the copy.
    Memory(Memory),
}

// A list of what was emitted, for whoever looks at it afterwards.
ghost use Rattle.std.specs.Prelude.{◌≡◌, map};

use crate::sink::Sink;
use nr_blob::Memory;
use nr_entry::ConnId;
use nr_resp::Shown;
use std::alloc::Global;
use std::marker::Model;
use std::sync::Arc;

/// The bytes of a reply or a message, and the connection that they are for.
#[derive(Debug, Drop)]
pub struct Emission {
    pub conn: ConnId,
    pub bytes: Vec<u8>,
}

impl Model for Emission {
    ghost use Rattle.nr_entry.specs.Jobs.{connection_of};
    ghost use Rattle.nr_emission.specs.Emitted.{Written};

    ghost Value = { Written };

    ghost view = { λ emission. record { connection = connection_of emission.conn; bytes = emission.bytes.items } };
}

/// What was emitted, in order.
#[derive(Debug, Drop)]
pub struct Emissions {
    list: Vec<Emission>,
}

impl Model for Emissions {
    ghost use Rattle.std.specs.Prelude.{List};
    ghost use Rattle.nr_emission.specs.Emitted.{Written};

    ghost Value = { List Written };

    ghost view = { λ emissions. emissions.list.items };
}

impl Emissions {
    ghost use Rattle.std.specs.Prelude.{[]};

    pub fn new(alloc: Global) -> Emissions
        ensures { result ≡ [] }
    {
        Emissions {
            list: Vec::new(alloc),
        }
    }

    /// What was emitted, in order.
    pub fn list(&self) -> &[Emission]
        ensures { result.now ≡ self.now }
    {
        &self.list
    }
}

impl Sink for Emissions {
    ghost use Rattle.nr_emission.specs.Emitted.{written_after};

    ghost after = { written_after };

    fn put(&mut self, conn: ConnId, shown: Shown<'_>) -> Result<(), Memory> {
        let mut bytes = Vec::new(*self.list.allocator());
        shown.write(&mut bytes)?;
        self.list.push(Emission { conn, bytes })?;
        Ok(())
    }

    fn share(&mut self, conn: ConnId, message: &Arc<Vec<u8>>) -> Result<(), Memory> {
        let bytes = Vec::from_slice(*self.list.allocator(), message)?;
        self.list.push(Emission { conn, bytes })?;
        Ok(())
    }
}

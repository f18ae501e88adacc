// The server of a row: a world of so many nodes, to which connections are dealt out in turn.
use crate::clients::Clients;
use crate::failure::Failure;
use crate::rows::Action;
use nr_blob::Memory;
use nr_entry::{ConnId, Setup};
use nr_world::{StepOutcome, World};
use std::alloc::Global;
use std::hash::RandomState;

/// A world whose connections have names.
#[derive(Drop)]
pub(crate) struct Server {
    world: World,
    clients: Clients,
}

/// The servers on which rows are played: of one node, of two and of four, with small and with larger logs.
pub(crate) fn setups() -> [Setup; 3] {
    [
        Setup::new(1, 1_024, 1, 1_024, 1_073_741_824).unwrap(),
        Setup::new(2, 2, 2, 1_024, 1_073_741_824).unwrap(),
        Setup::new(4, 16, 1, 1_024, 1_073_741_824).unwrap(),
    ]
}

impl Server {
    /// No key and no connection.
    pub(crate) fn new(alloc: Global, keys: RandomState, setup: Setup) -> Result<Server, Memory> {
        Ok(Server {
            world: World::new(alloc, keys, setup)?,
            clients: Clients::new(alloc),
        })
    }

    // Opens a connection of this name: the next node's turn, and there the next worker's.
    fn open(&mut self, alloc: Global, name: u64) -> Result<ConnId, Failure> {
        let setup = self.world.setup();
        let number = self.clients.count();
        let node = number % setup.nodes();
        let worker = number / setup.nodes() % setup.workers();
        match self.world.open(node, worker)? {
            StepOutcome::Opened(conn) => {
                self.clients.add(alloc, name, conn)?;
                Ok(conn)
            }
            StepOutcome::Done | StepOutcome::Idle(_) => Err(Failure::Full),
        }
    }

    // The connection of this name, which is opened where it hasn't been.
    fn conn(&mut self, alloc: Global, name: u64) -> Result<ConnId, Failure> {
        match self.clients.conn_of(name) {
            Some(conn) => Ok(conn),
            None => self.open(alloc, name),
        }
    }

    // Has all that waits executed and handed out, and gives it to the connections.
    fn settle(&mut self) -> Result<(), Failure> {
        for part in self.world.settle()? {
            self.clients.receive(&part)?;
        }
        Ok(())
    }

    /// Has a connection act, and gives to each what it is handed by the time when nothing waits.
    pub(crate) fn act(
        &mut self,
        alloc: Global,
        name: u64,
        moment: u64,
        action: &Action,
    ) -> Result<(), Failure> {
        let conn = self.conn(alloc, name)?;
        match action {
            Action::Send(bytes) => self.world.feed(conn, moment, bytes)?,
            Action::Close => self.world.close(conn, moment)?,
        };
        self.settle()
    }

    /// Whether the connection of this name takes no more bytes.
    pub(crate) fn has_ended(&self, name: u64) -> bool {
        match self.clients.conn_of(name) {
            Some(conn) => self.world.has_ended(conn),
            None => false,
        }
    }

    /// Takes what the connection of this name was handed since it was last taken.
    pub(crate) fn take_received(&mut self, alloc: Global, name: u64) -> Vec<u8> {
        self.clients.take_received(alloc, name)
    }

    /// Takes all that connections were handed since it was last taken, each with its name.
    pub(crate) fn take_all(&mut self, alloc: Global) -> Result<Vec<(u64, Vec<u8>)>, Memory> {
        self.clients.take_all(alloc)
    }
}

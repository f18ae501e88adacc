// The connections of a row, by the numbers that the row gives them, with what each was handed.
use nr_blob::Memory;
use nr_entry::ConnId;
use nr_world::HandedBytes;
use std::alloc::Global;
use std::mem;

// A connection: its name in the row, the one that the server opened, and what it was handed and nobody has taken.
#[derive(Drop)]
struct Client {
    name: u64,
    conn: ConnId,
    received: Vec<u8>,
}

/// Connections by the names that a row gives them, in the order in which they were opened.
#[derive(Drop)]
pub(crate) struct Clients {
    list: Vec<Client>,
}

impl Clients {
    pub(crate) fn new(alloc: Global) -> Clients {
        Clients {
            list: Vec::new(alloc),
        }
    }

    /// How many there are.
    pub(crate) fn count(&self) -> usize {
        self.list.len()
    }

    /// The connection of this name.
    pub(crate) fn conn_of(&self, name: u64) -> Option<ConnId> {
        let client = self.list.iter().find(|client| client.name == name)?;
        Some(client.conn)
    }

    pub(crate) fn add(&mut self, alloc: Global, name: u64, conn: ConnId) -> Result<(), Memory> {
        self.list.push(Client {
            name,
            conn,
            received: Vec::new(alloc),
        })?;
        Ok(())
    }

    /// Gives a part that was handed out to its connection.
    pub(crate) fn receive(&mut self, part: &HandedBytes) -> Result<(), Memory> {
        for client in self.list.iter_mut() {
            if client.conn == part.conn {
                client.received.extend_from_slice(&part.bytes)?;
            }
        }
        Ok(())
    }

    /// Takes what the connection of this name received.
    pub(crate) fn take_received(&mut self, alloc: Global, name: u64) -> Vec<u8> {
        for client in self.list.iter_mut() {
            if client.name == name {
                return mem::replace(&mut client.received, Vec::new(alloc));
            }
        }
        Vec::new(alloc)
    }

    /// Takes all that they received, each with its connection's name.
    pub(crate) fn take_all(&mut self, alloc: Global) -> Result<Vec<(u64, Vec<u8>)>, Memory> {
        let mut taken = Vec::new(alloc);
        for client in self.list.iter_mut() {
            if !client.received.is_empty() {
                let received = mem::replace(&mut client.received, Vec::new(alloc));
                taken.push((client.name, received))?;
            }
        }
        Ok(taken)
    }
}

// Why a replica is down.
use nr_blob::Memory;

/// Why a replica is down.
#[derive(Clone, Copy, Debug, PartialEq, Eq)]
pub enum Fall {
    /// Memory was refused while it applied an entry.
    Memory(Memory),
    /// The entry was to be refused, as [`Replica::refuse`](crate::Replica::refuse) says.
    Refused,
}

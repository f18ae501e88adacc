// Why nothing more comes to wait for a connection.
use nr_blob::Memory;

/// Why nothing more comes to wait for a connection.
#[derive(Clone, Copy, Debug, PartialEq, Eq)]
pub enum CutReason {
    /// More would have waited for it than its queue holds.
    Full,
    /// Memory was refused for what came for it.
    Refused(Memory),
    /// Its node had fallen, and came back.
    Fallen,
    /// Its node hands nothing more out for it: its queue was cut there, or it was closed.
    Closed,
}

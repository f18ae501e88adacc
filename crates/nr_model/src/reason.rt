// Why a step of a server changes nothing, as the definitions and the bodies of steps both name it.

/// Why a step changed nothing, in the order in which reasons are looked for.
#[derive(Clone, Copy, Debug, PartialEq, Eq)]
pub enum Reason {
    /// There is no such node, worker or connection.
    NoSuch,
    /// The connection has ended.
    Ended,
    /// As many connections of the node are open as can be.
    TooMany,
    /// The node is down.
    Down,
    /// What was begun before isn't done yet.
    Busy,
    /// There was nothing to do.
    Nothing,
    /// The log has no place left.
    Full,
    /// What it waits for hasn't happened yet.
    NotYet,
    /// Memory was refused for what it needs.
    NoMemory,
}

// Rows: what is sent to a server, and what it hands out.

/// What a connection does.
#[derive(Drop)]
pub(crate) enum Action {
    /// It sends bytes.
    Send(Vec<u8>),
    /// It closes.
    Close,
}

/// What is to be true of a connection once nothing waits.
#[derive(Drop)]
pub(crate) enum Fact {
    /// It was handed these bytes.
    Handed(Vec<u8>),
    /// It takes no more bytes.
    Ended,
}

/// A fact about a connection, and the line that says it.
#[derive(Drop)]
pub(crate) struct Claim {
    pub line: usize,
    pub name: u64,
    pub fact: Fact,
}

/// An input of a connection at a moment, the line that says it, and what is claimed of what comes of it.
#[derive(Drop)]
pub(crate) struct Input {
    pub line: usize,
    pub name: u64,
    pub moment: u64,
    pub action: Action,
    pub claims: Vec<Claim>,
}

/// What happens to a server that is empty at first.
#[derive(Drop)]
pub(crate) struct Row {
    pub inputs: Vec<Input>,
}

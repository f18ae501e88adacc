// What a node tells of a turn, of pieces that it hands out without one, and of connections.
use crate::answering::{Collected, Turned};
use nr_entry::ConnId;
use nr_job_numbers::Unended;
use nr_oplog::{LogName, Token};
use nr_slots::Note;

/// What a node tells of a turn, once it is over.
#[derive(Drop)]
pub struct Told<B: LogName> {
    pub turned: Turned,
    /// How the node stands: the pieces that were handed out are of its record.
    pub token: Token<B>,
    /// What its combiner has done at the slots of its workers.
    pub note: Note,
}

/// What a node tells of a connection that it opened.
#[derive(Drop)]
pub struct ToldOpened<B: LogName> {
    pub conn: ConnId,
    /// How the node stands, with the connection.
    pub token: Token<B>,
    /// What its combiner has done at the slots of its workers.
    pub note: Note,
}

/// What a node tells of a connection that it had as it came back last, of which a job was taken, but not its end.
#[derive(Drop)]
pub struct ToldUnended<B: LogName> {
    pub unended: Unended,
    /// How the node stands.
    pub token: Token<B>,
    /// What its combiner has done at the slots of its workers.
    pub note: Note,
}

/// What a node tells of pieces that it handed out without a turn.
#[derive(Drop)]
pub struct ToldPieces<B: LogName> {
    pub collected: Collected,
    /// How the node stands: the pieces are of its record.
    pub token: Token<B>,
    /// What its combiner has done at the slots of its workers.
    pub note: Note,
}

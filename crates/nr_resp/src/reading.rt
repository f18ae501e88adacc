// From a request to its command: called for each request by its session. Words are moved, and nothing is taken from memory.
ghost use Rattle.nr_resp.specs.Check.{Checks};

use crate::command::Cmd;
use crate::frame::Frame;
use crate::table::{arity_ok, lookup};
use nr_model::command::Command;

/// Why a request is no command. It hands the request back.
#[derive(Debug, Drop)]
pub enum CmdError {
    /// No command has its name.
    Unknown(Frame),
    /// The command takes more words, or fewer.
    Arity(Command, Frame),
}

/// The command of a request: its name is looked up, and then its words are counted.
pub fn check(frame: Frame) -> Result<Cmd, CmdError>
    ensures { Checks frame.words.items result }
{
    let Some(name) = frame.words.first() else {
        return Err(CmdError::Unknown(frame));
    };
    let Some(command) = lookup(name.bytes()) else {
        return Err(CmdError::Unknown(frame));
    };
    if !arity_ok(command, frame.words.len()) {
        return Err(CmdError::Arity(command, frame));
    }
    Ok(Cmd {
        command,
        words: frame.words,
    })
}

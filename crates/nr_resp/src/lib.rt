//! RESP2: requests are read from bytes in any pieces, and by the one table of commands, its names and counts of words; and replies are written.
#![tactic(auto)]

pub use command::{Cmd, arguments};
pub use conditions::Conditions;
pub use failure::Failure;
pub use frame::Frame;
pub use reader::{FeedError, Reader};
pub use reading::{CmdError, check};
pub use reply::Reply;
pub use shown::{Item, Shown, number_bulk};
pub use table::{arity_ok, lookup, name};

mod command;
mod conditions;
mod failure;
mod frame;
mod reader;
mod reading;
mod reply;
mod shown;
mod table;

/// What commands read from the words behind their name.
pub mod words;

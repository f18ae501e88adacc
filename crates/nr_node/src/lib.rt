//! A node over the running operation log: its replica, its end of the log, and the accounts of its batches, as one value for a lock.
#![tactic(auto)]

pub use answers::{Looked, OpenError, Round, TakeError};
pub use collecting::LastPiece;
pub use lending::{Loan, Prepared};
pub use node_core::Core;
pub use reviving::{NodeOffer, ReviveError};

mod advancing;
mod answers;
mod collecting;
mod falling;
mod lending;
mod next;
mod node_core;
mod own_entries;
mod reading;
mod reserving;
mod reviving;

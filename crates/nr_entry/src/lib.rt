//! How large a server is, jobs of connections, the entries of the operation log that they are put into, and what workers hand to a replica.
#![tactic(auto)]

pub use batch::{Answer, Batch, Outcome, Refusal, split_behind, take_front};
pub use conn::ConnId;
pub use entry::{Entry, MOST_JOBS};
pub use job::{Job, JobKind, Queueable, Queued, Read, SessionUpdate, Transaction, Update};
pub use moment::{LAST_MOMENT, capped};
pub use setup::{BuildError, Setup};
pub use shares::{Shares, Unshared};
pub use waiting::Waiting;

mod batch;
mod blocked;
mod conn;
mod entry;
mod job;
mod lifting;
mod moment;
mod rooms;
mod run;
mod runs;
mod setup;
mod shares;
mod waiting;

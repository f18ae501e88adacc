//! A worker on a thread of its own: what it keeps of each of its connections, from its session to the bytes that weren't written yet; and what it knows of the bytes that it
//! handed out, and of the jobs that its connections' bytes asked for.
#![tactic(auto)]

pub use collecting::Settled;
pub use law::desk_law;
pub use open_connection::OpenConnection;
pub use open_connections::{Closed, OpenConnections};
pub use opening::SeatError;
pub use worker::Worker;

mod closing;
mod collecting;
mod due;
mod feeding;
mod law;
mod open_connection;
mod open_connections;
mod opening;
mod ordering;
mod posting;
mod reading;
mod returning;
mod stopping;
mod worker;
mod working;
mod writing;

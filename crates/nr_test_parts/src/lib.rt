//! What tests and figures hold of servers: workers of nodes with their clients, a server in one value, a machine. Each of these types is let go by a `drop` of its
//! own, so that a crate which holds them proves nothing again of what is in them; and what contracts say of that stays below.
#![tactic(auto)]

pub use alone::Alone;
pub use client::{Client, Offered};
pub use error::HeldError;
pub use letting_go::let_go;
pub use single::Single;
pub use station::{Station, Turn, stations};
pub use subscribed::Subscribed;

mod alone;
mod client;
mod error;
mod jobs;
mod letting_go;
mod single;
mod station;
mod subscribed;

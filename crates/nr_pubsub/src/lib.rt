//! Who is subscribed to what: the channels and patterns of each connection, and the connections of each of these.
#![tactic(auto)]

pub use holding::Holding;
pub use subs::Subs;

mod holders;
mod holding;
mod index;
mod indices;
mod subs;

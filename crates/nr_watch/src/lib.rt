//! Which connection watches which keys, and whether one of them was touched (Redis, transactions: WATCH).
#![tactic(auto)]

pub use watches::Watches;

mod names;
mod watch;
mod watched;
mod watches;

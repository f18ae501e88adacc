//! Commands on the keyspace: each goes to its body, in the crate of its kind.
#![tactic(auto)]

pub use exec::{change, look};

mod exec;

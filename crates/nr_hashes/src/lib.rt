//! Hashes, as keys hold them: fields with their values, in byte order.
#![tactic(auto)]

pub use hash::Hash;
pub use pairs::{Fields, Pairs, Values};

mod form;
mod hash;
mod pairs;

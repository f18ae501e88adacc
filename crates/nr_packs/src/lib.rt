//! Pairs of fields and values, packed.
#![tactic(auto)]

pub use listed::Listed;
pub use packed::{Packed, first_pair};
pub use table::Table;

mod block;
mod grow;
mod heads;
mod listed;
mod packed;
mod parts;
mod put;
mod slots;
mod table;

//! Items in an order that their owner keeps: bytes with a number, each at its place, in a balanced tree of small blocks.
#![tactic(auto)]

pub use ticks::Ticks;
pub use tree::{Cut, Test, Tree};

mod block;
mod lens;
mod room;
mod ticks;
mod tree;

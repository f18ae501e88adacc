//! Sorted sets, as keys hold them: members with scores in order, in one block, or in a balanced tree of small blocks with a map beside it where they are many.
#![tactic(auto)]

pub use nr_ordered::Ticks;
pub use zset::Zset;

mod block;
mod digits;
mod form;
mod index;
mod order;
mod zset;

//! Scores and bounds of sorted sets, read from the words of a request. Bounds lend what they are read from: no memory is taken.
#![tactic(auto)]

pub use bound::{Bound, ByteBound, ScoreBound, read_byte_bound, read_score_bound};
pub use bounds::Bounds;
pub use score::{as_score, read_score};

mod bound;
mod bounds;
mod score;

//! Taps: what was handed out for connections and isn't written yet; marks: what a worker's node had done then; and the one sequence behind all of it.
#![tactic(auto)]

pub use buffer::WriteBuffer;
pub use law::sequence_law;
pub use mark::{Mark, meet_marks};
pub use meeting::meet;
pub use tap::{Refused, Tap};

mod buffer;
mod law;
mod mark;
mod meeting;
mod tap;

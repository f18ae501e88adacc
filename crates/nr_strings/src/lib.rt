//! Strings, as keys hold them: bytes that grow in place.
#![tactic(auto)]

pub use joins::BitOperation;
pub use string::{MAX_LEN, Str};

mod bytes;
mod counts;
mod edits;
mod joins;
mod padding;
mod string;

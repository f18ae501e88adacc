//! What only proofs read: all bytes that went one way, and lists of what was noted.
#![tactic(auto)]

pub use noted::Noted;
pub use transcript::Transcript;

mod noted;
mod transcript;

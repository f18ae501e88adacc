//! One sequential Redis: its state, and what it emits.
#![tactic(auto)]

pub use machine::Machine;

mod answering;
mod databases;
mod machine;
mod running;
mod state;
mod watching;

//! A server of several nodes in one value: every step of it, and the theorem over every list of steps.
#![tactic(auto)]

pub use step::{Answered, HandedBytes, Happened, Step, StepOutcome};
pub use step_runs::{RanSteps, run};
pub use world::World;

mod batch_steps;
mod connection_states;
mod connection_steps;
mod dropped_jobs;
mod entry_steps;
mod fallen_sessions;
mod log;
mod node;
mod pending_jobs;
mod replica_steps;
mod session_feeds;
mod sessions;
mod settled_rounds;
mod step;
mod step_runs;
mod waiting_bytes;
mod worker;
mod world;

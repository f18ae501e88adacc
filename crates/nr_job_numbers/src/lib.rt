//! The accounts of the batches that a node takes in from its workers: the number of each connection's next job, and whether its end was taken.
//!
//! A connection's jobs are numbered 0, 1, 2 and so on, and taken in in this order. Its account goes once its end was executed. Where jobs that were taken are
//! dropped, the account goes back to the first of them.
#![tactic(auto)]

pub use account::{Account, Unended};
pub use job_numbers::JobNumbers;

mod account;
mod job_numbers;
mod stored;
mod taking;

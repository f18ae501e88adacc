//! The definitions: what RESP2, the Redis commands and one sequential Redis are. Everything else is proved against them.
//!
//! No code runs here. Its functions are worked rows and laws of the definitions: each states its own in its contract, and nobody calls it.
#![tactic(auto)]

pub mod command;
pub mod fault;
mod machines;
mod nodes;
mod numbers;
mod patterns;
pub mod reason;
pub mod refused;
mod replies;
mod requests;
mod rows;

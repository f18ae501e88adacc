//! The server of several nodes, as what answers the connections of a service: what it hands out is kept until it was written.
#![tactic(auto)]

pub use law::story_law;
pub use world_backend::WorldBackend;

mod law;
mod moving;
mod tap;
mod taps;
mod world_backend;

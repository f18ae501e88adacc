//! A worker among those of its server, as what answers a service.
#![tactic(auto)]

pub use serving::WorkerBackend;
pub use shared_hints::SharedHints;

mod serving;
mod shared_hints;
mod turns;
mod wake_list;

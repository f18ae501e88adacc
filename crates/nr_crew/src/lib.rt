//! The workers of a server, each on a thread of its own, beside the thread that deals connections out to them.
#![tactic(auto)]

pub use lane::{Lane, WorkerEnd};
pub use nodes::{Served, StartError, WorkerPorts, lanes_of, serve_nodes, share_nodes};
pub use running::{RanWorkers, ServeError, run_workers};
pub use serving::ClientLimits;

mod dealing;
mod gate;
mod lane;
mod nodes;
mod running;
mod serving;

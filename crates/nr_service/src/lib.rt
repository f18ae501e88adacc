//! One thread serves connections: it accepts, reads what is there, feeds it, has the work done, writes, and waits. What it does is proved over
//! what it stands between: the streams of its connections and where they come from, what answers them, the clock, and the gate.
#![tactic(auto)]

pub use backend::{Backend, ConnectionState};
pub use client::{Client, Ending};
pub use dealing::{Accepts, Ends, Revival, Rings, Silent};
pub use ended::Ended;
pub use gate::{Gate, Go, Open};
pub use moments::{MachineClock, Moments};
pub use places::{lane_at, node_at, worker_at};
pub use poller::{NoArrivals, Poller, Ready};
pub use service::{Service, read_buffer};
pub use stream::{Received, Sent, Stream};

mod accepting;
mod backend;
mod client;
mod dealing;
mod ended;
mod gate;
mod leaving;
mod moments;
mod places;
mod poller;
mod reading;
mod service;
mod stream;
mod turn_flags;
mod visits;
mod writing;

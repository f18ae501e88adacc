//! Where a machine puts what it emits, and what the commands on subscriptions and messages emit.
#![tactic(auto)]

pub use emissions::{Emission, Emissions};
pub use inspecting::pubsub;
pub use publishing::publish;
pub use sink::{Nowhere, Sink};
pub use staging::Staging;
pub use subscribing::{subscribe, unsubscribe};

mod counts;
mod emissions;
mod inspecting;
mod publishing;
mod sink;
mod staging;
mod subscribing;

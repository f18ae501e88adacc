//! A node with its combiner behind a lock, as its workers share it.
#![tactic(auto)]

pub use answering::{AskError, Collected, Lifts, Turned};
pub use building::build;
pub use combiner::{ClosedQueue, Combiner};
pub use name::ServerName;
pub use node::Node;
pub use node_handle::NodeHandle;
pub use opened::{OpenedSlots, open_slots};
pub use reviving::RevivalError;
pub use turn_results::{Told, ToldOpened, ToldPieces, ToldUnended};

mod answering;
mod aside;
mod building;
mod combiner;
mod counts;
mod looking;
mod name;
mod node;
mod node_handle;
mod opened;
mod reviving;
mod turn_results;

//! A node's replica of the server: it takes in jobs, applies entries, runs reads, and keeps what waits for its node's connections.
#![tactic(auto)]

pub use answering::Replies;
pub use cut::CutReason;
pub use fall::Fall;
pub use lending::Lent;
pub use offer::{Offer, OfferError};
pub use outbox::{Piece, share_of};
pub use replica::Replica;
pub use spares::Spares;

mod answering;
mod backlog;
mod cut;
mod delivering;
mod fall;
mod lending;
mod members;
mod offer;
mod outbox;
mod reading;
mod ready;
mod replica;
mod settling;
mod spares;
mod steps;

//! Sessions: what the bytes of a connection ask of the server, as jobs numbered without gap. A world has one for each connection.
#![tactic(auto)]

pub use session::{Session, SessionError};

mod jobs;
mod mode;
mod session;
mod texts;

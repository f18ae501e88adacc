//! Connections by TCP and through Unix sockets, served in lanes, each by a thread: sockets that never wait, and what tells which of them are ready. One
//! thread listens and deals connections out. They come to a lane through its inbox, and its bell ends its wait. Once an input ends nothing more is
//! taken or read.
#![tactic(auto)]

pub use addresses::unix_path;
pub use inboxes::{Inboxes, PollHandle, open_lanes};
pub use limits::most_descriptors;
pub use listener::{Listener, Terms};
pub use listening::{ListenError, Listening, Unheard};
pub use peer::Peer;
pub use socket::Socket;
pub use socket_poller::{SocketPoller, SocketPollerError};

mod addresses;
mod ear;
mod farewells;
mod inbox;
mod inboxes;
mod input;
mod keepalive;
mod limits;
mod lingering;
mod listener;
mod listening;
mod peer;
mod readiness;
mod socket;
mod socket_file;
mod socket_poller;
mod thread_waker;
mod waiting;

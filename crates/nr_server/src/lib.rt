//! The server by TCP, from the text of its settings to the threads that serve its connections; one connection on any stream, from its first byte to
//! its end; and why the program failed.
#![tactic(auto)]

pub use fault::Fault;
pub use line::{Ran, run_on};
pub use notice::Notice;
pub use refusal::SystemRefusal;
pub use run::{Done, ServedConnection, serve_stream};
pub use script::play_on;
pub use serve::{Remains, listen_on, serve_by_tcp, serve_on};
pub use settings::{settings_on, with_words};

mod attempts;
mod bytes;
mod fault;
mod joined;
mod line;
mod notice;
mod parting;
mod reception;
mod refusal;
mod run;
mod script;
mod serve;
mod settings;

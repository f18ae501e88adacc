//! Scripts: lines read into the steps that they say, a server that takes them, and what is printed, on any writer.
#![tactic(auto)]

pub use line::{Line, LineError, read_line};
pub use parts::Lines;
pub use player::{PlayError, Player};
pub use playing::{ScriptError, script_on};
pub use written::{write_done, write_handed, write_idle, write_ok, write_opened, write_settled};

mod laws;
mod line;
mod numbers;
mod opened;
mod parts;
mod player;
mod playing;
mod text;
mod written;

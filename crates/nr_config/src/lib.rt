//! What a user asks of the program: the words of the command line, and the settings file. It touches memory alone.
#![tactic(auto)]

pub use command_line::{Lasts, Task, WordsError, words};
pub use error::ConfigError;
pub use given::Given;
pub use keys::Kind;
pub use place::TextPlace;
pub use settings::Settings;

mod addresses;
mod command_line;
mod error;
mod given;
mod keys;
mod place;
mod reading;
mod settings;

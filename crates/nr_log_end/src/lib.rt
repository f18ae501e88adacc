//! What a replica asks of its end of the operation log, whatever the log is made of.
#![tactic(auto)]

pub use log_end::LogEnd;
pub use reserve::Reserve;
pub use standing::{Load, LogEvent, Standing};

mod log_end;
mod reserve;
mod standing;

// Why a settings file is refused.
use crate::keys::Kind;
use crate::place::TextPlace;
use thiserror::Error;

/// Why a settings file is refused. The text is the line that a user reads, and where there is a reason, that on a line behind it.
#[derive(Debug, Drop, Error)]
pub enum ConfigError {
    /// The text isn't TOML from this place on, as where a key is given twice.
    #[error("settings: not toml\n  {0}")]
    NotToml(TextPlace),
    /// No setting has this name.
    #[error("settings: unknown key {0}")]
    UnknownKey(String),
    /// The value of the setting of this name isn't what it has to be.
    #[error("settings: bad value {0}\n  {1}")]
    BadValue(String, Kind),
    /// Memory was refused, which says nothing of the file.
    #[error("out of memory")]
    Memory,
}

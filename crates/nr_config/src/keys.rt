// The keys of a settings file, and the values that they may have.
ghost use Rattle.std.specs.Prelude.{◌≡◌, Some, ◌≤◌, IsTrue, OnOk, IfErr, IfOk, true, string_bytes};
ghost use Rattle.toml.specs.View.{view};
ghost use Rattle.nr_config.specs.Keys.{kind_of, whole_number, truth, fits, is_allowed, is_within};
ghost use Rattle.nr_config.specs.Faults.{Blames};

use crate::addresses::gives_addresses;
use crate::error::ConfigError;
use std::alloc::Global;
use std::fmt;
use toml::Value;

/// What the value of a setting has to be.
#[derive(Clone, Copy, Debug, PartialEq, Eq)]
pub enum Kind {
    /// A text that isn't empty, an address and a port, or a list of 1 to 16 such texts.
    Addresses,
    /// A whole number within the range.
    Number { least: usize, most: usize },
    /// True or false.
    Switch,
}

impl fmt::Display for Kind {
    ghost use Rattle.nr_config.specs.Keys.{kind_text};

    ghost output = { λ kind. Some (kind_text kind) };

    fn fmt<W: fmt::Write>(&self, f: &mut fmt::Formatter<W>) -> fmt::Result {
        match self {
            Kind::Addresses => f.write_str("an address and a port, or a list of them"),
            Kind::Number { least, most } => write!(f, "from {least} to {most}"),
            Kind::Switch => f.write_str("true or false"),
        }
    }
}

fn number(least: usize, most: usize) -> Option<Kind>
    ensures { result ≡ Some (Kind.Number least most) }
{
    Some(Kind::Number { least, most })
}

/// What the value of the setting of this name has to be, where there is one.
pub fn kind_of(name: &str) -> Option<Kind>
    ensures { result ≡ kind_of name.now }
{
    match name {
        "connections" => number(1, 1_024),
        "listen" => Some(Kind::Addresses),
        "nodes" => number(1, 8),
        "places" => number(2, 65_536),
        "queue_limit" => number(1_024, 1_073_741_824),
        "revive" => Some(Kind::Switch),
        "shutdown_seconds" => number(0, 3_600),
        "tcp_keepalive" => number(0, 86_400),
        "timeout" => number(0, 2_147_483),
        "workers" => number(1, 16),
        _ => None,
    }
}

/// The whole number that the value is.
pub fn whole_number(value: &Value) -> Option<usize>
    ensures { result ≡ whole_number (view value.now) }
{
    match value.as_integer() {
        Some(number) if number >= 0 => Some(number as usize),
        _ => None,
    }
}

/// Which of true and false the value is.
pub fn truth(value: &Value) -> Option<bool>
    ensures { result ≡ truth (view value.now) }
{
    value.as_bool()
}

/// Whether a setting of this kind may be at this number.
pub fn is_within(number: usize, kind: Kind) -> bool
    ensures { result ≡ is_within number kind }
{
    match kind {
        Kind::Addresses | Kind::Switch => false,
        Kind::Number { least, most } => least <= number && number <= most,
    }
}

fn fits(kind: Kind, value: &Value) -> bool
    ensures { result ≡ fits kind (view value.now) }
{
    match kind {
        Kind::Addresses => gives_addresses(value),
        Kind::Number { .. } => match whole_number(value) {
            Some(number) => is_within(number, kind),
            None => false,
        },
        Kind::Switch => truth(value).is_some(),
    }
}

/// The name, in memory of its own.
pub fn copy(alloc: Global, name: &str) -> Result<String, ConfigError>
    ensures value { IfOk result (λ copied. string_bytes copied ≡ name.now) }
    ensures memory { IfErr result (λ error. error ≡ ConfigError.Memory) }
{
    String::from_str(alloc, name).map_err(|_| ConfigError::Memory)
}

/// Refuses a key with a value that no settings file may have.
pub fn check(alloc: Global, key: &str, value: &Value) -> Result<(), ConfigError>
    ensures allowed { OnOk result (is_allowed key.now (view value.now) ≡ true) }
    ensures refused { IfErr result (Blames key.now (view value.now)) }
{
    match kind_of(key) {
        None => Err(ConfigError::UnknownKey(copy(alloc, key)?)),
        Some(kind) if fits(kind, value) => Ok(()),
        Some(kind) => Err(ConfigError::BadValue(copy(alloc, key)?, kind)),
    }
}

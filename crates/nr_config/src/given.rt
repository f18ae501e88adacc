// Words of the command line that stand in the place of settings in the file.
ghost use Rattle.std.specs.Prelude.{◌≡◌, ◌≤◌, IsNone, IfSome, IfOk, IfErr, OnOk, Some, length, map, option_map, string_bytes};
ghost use Rattle.nr_config.specs.Given.{given_or, IsRefusedFor, IsWordFor, IsGivenOr, IsTaken, Replaces, BlamesWord, BlamesGiven, BlamesFirstWord};
ghost use Rattle.nr_config.specs.Keys.{kind_of, IsInRange};

use crate::error::ConfigError;
use crate::keys::{Kind, copy, is_within, kind_of};
use crate::settings::Settings;
use std::alloc::Global;

/// What words say of settings, each as it was written.
#[derive(Debug, Drop, PartialEq, Eq)]
pub struct Given {
    pub listen: Option<String>,
    pub nodes: Option<String>,
    pub workers: Option<String>,
    pub connections: Option<String>,
}

// The number of this kind that a word spells.
fn number_in(kind: Kind, word: &str) -> Option<usize>
    ensures some { IfSome result (IsWordFor (Some kind) word.now) }
    ensures none { IsNone result → IsRefusedFor (Some kind) word.now }
{
    match word.parse::<usize>() {
        Ok(number) if is_within(number, kind) => Some(number),
        _ => None,
    }
}

// The number that a word gives the setting of this name.
fn read_number(alloc: Global, key: &str, word: &str) -> Result<usize, ConfigError>
    ensures given { IfOk result (IsWordFor (kind_of key.now) word.now) }
    ensures refused { IfErr result (BlamesWord key.now word.now) }
{
    let Some(kind) = kind_of(key) else {
        return Err(ConfigError::UnknownKey(copy(alloc, key)?));
    };
    match number_in(kind, word) {
        Some(number) => Ok(number),
        None => Err(ConfigError::BadValue(copy(alloc, key)?, kind)),
    }
}

// The number of a setting: what a word gives it, where there is one.
fn number_or(
    alloc: Global,
    key: &str,
    word: &Option<String>,
    number: usize,
) -> Result<usize, ConfigError>
    ensures given { IfOk result (IsGivenOr number (kind_of key.now) (option_map string_bytes word.now)) }
    ensures taken { OnOk result (IsTaken (kind_of key.now) (option_map string_bytes word.now)) }
    ensures range { IsInRange key.now number → IfOk result (IsInRange key.now) }
    ensures refused { IfErr result (BlamesGiven key.now (option_map string_bytes word.now)) }
{
    match word {
        Some(word) => read_number(alloc, key, word.as_str()),
        None => Ok(number),
    }
}

// The addresses to listen at: the one that a word gives, where there is a word, in the place of all. Their memory serves for it, so that none is asked for.
fn listen_or(word: Option<String>, mut addresses: Vec<String>) -> Vec<String>
    requires { (1 ≤ length addresses.items) × (length addresses.items ≤ 16) }
    ensures given { map string_bytes result.items ≡ given_or (map string_bytes addresses.items) (option_map string_bytes word) }
    ensures range { (1 ≤ length result.items) × (length result.items ≤ 16) }
{
    if let Some(word) = word {
        addresses.clear();
        addresses.push_reserved(word);
    }
    addresses
}

impl Settings {
    /// These settings, but where words are given, what these say: an address stands in the place of all addresses.
    ///
    /// # Errors
    ///
    /// `BadValue` where a word is no number in the range of its setting: of several the first setting in byte order. `Memory` may come at any words.
    pub fn replaced(self, alloc: Global, given: Given) -> Result<Settings, ConfigError>
        ensures set { IfOk result (Replaces self given) }
        ensures refused { IfErr result (BlamesFirstWord given) }
    {
        let connections = number_or(alloc, "connections", &given.connections, self.connections)?;
        let nodes = number_or(alloc, "nodes", &given.nodes, self.nodes)?;
        let workers = number_or(alloc, "workers", &given.workers, self.workers)?;
        Ok(Settings {
            listen: listen_or(given.listen, self.listen),
            nodes,
            places: self.places,
            workers,
            connections,
            queue_limit: self.queue_limit,
            tcp_keepalive: self.tcp_keepalive,
            timeout: self.timeout,
            shutdown_seconds: self.shutdown_seconds,
            revive: self.revive,
        })
    }
}

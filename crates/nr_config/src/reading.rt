// A settings file, read.
ghost use Rattle.std.specs.Prelude.{◌≡◌, ◌≤◌, ◌∷◌, [], None, Some, IfOk, IfErr, OnOk, codes, length, option_map};
ghost use Rattle.toml.specs.Data.{Members, get_member};
ghost use Rattle.toml.specs.Errors.{IsWithin};
ghost use Rattle.toml.specs.View.{view, table_view};
ghost use Rattle.toml.specs.Parse.{parse_document};
ghost use Rattle.nr_config.specs.Keys.{HasNoFault, IsInRange, addresses_or, bytes_of, number_or, truth_or};
ghost use Rattle.nr_config.specs.Faults.{BlamesFirst, IsMadeOf, Refuses, Sets};

use crate::addresses::{addresses_in, only};
use crate::error::ConfigError;
use crate::keys::{check, truth, whole_number};
use crate::place::TextPlace;
use crate::settings::Settings;
use std::alloc::{AllocError, Global};
use toml::de::Error;
use toml::{Table, Value};

// What is told of a text that the library refuses.
fn refusal(text: &str, error: &Error) -> ConfigError
    requires { IsWithin text.now error.now }
    ensures { IsMadeOf text.now error.now result }
{
    match error.span() {
        Some(span) => ConfigError::NotToml(TextPlace::behind(&text.as_bytes()[..span.start])),
        None => ConfigError::Memory,
    }
}

fn read_table(alloc: Global, text: &str) -> Result<Table, ConfigError>
    ensures table { IfOk result (λ table. parse_document text.now ≡ Some (table_view table)) }
    ensures refused { IfErr result (Refuses text.now) }
{
    match toml::table_from_str(alloc, text) {
        Ok(table) => Ok(table),
        Err(error) => Err(refusal(text, &error)),
    }
}

// Refuses the first key, in byte order, with a value that no settings file may have.
fn check_all(alloc: Global, table: &Table) -> Result<(), ConfigError>
    ensures allowed { OnOk result (HasNoFault (table_view table.now)) }
    ensures refused { IfErr result (BlamesFirst (table_view table.now)) }
{
    for (key, value) in table {
        check(alloc, key.as_str(), value)?;
    }
    Ok(())
}

fn value_at<'a>(table: &'a Table, name: &str) -> Option<&'a Value>
    ensures { option_map (λ value. view value.now) result ≡ get_member name.now (table_view table.now) }
{
    table.get(name)
}

fn number_at(table: &Table, name: &str, default: usize) -> usize
    ensures value { result ≡ number_or default (get_member name.now (table_view table.now)) }
    ensures range { HasNoFault (table_view table.now) → IsInRange name.now default → IsInRange name.now result }
{
    match value_at(table, name) {
        Some(value) => whole_number(value).unwrap_or(default),
        None => default,
    }
}

fn truth_at(table: &Table, name: &str, default: bool) -> bool
    ensures { result ≡ truth_or default (get_member name.now (table_view table.now)) }
{
    match value_at(table, name) {
        Some(value) => truth(value).unwrap_or(default),
        None => default,
    }
}

// The addresses of a setting, each in memory of its own.
fn addresses_at(
    alloc: Global,
    table: &Table,
    name: &str,
    default: &str,
) -> Result<Vec<String>, AllocError>
    ensures { IfOk result (λ addresses. bytes_of addresses ≡ addresses_or (default.now ∷ []) (get_member name.now (table_view table.now))) }
{
    match value_at(table, name) {
        Some(value) => match addresses_in(alloc, value)? {
            Some(addresses) => Ok(addresses),
            None => only(alloc, default),
        },
        None => only(alloc, default),
    }
}

fn listen_at(alloc: Global, table: &Table) -> Result<Vec<String>, ConfigError>
    ensures value { IfOk result (λ addresses. bytes_of addresses ≡ addresses_or (codes "127.0.0.1:6379" ∷ []) (get_member (codes "listen") (table_view table.now))) }
    ensures range { IfOk result (λ addresses. (1 ≤ length addresses.items) × (length addresses.items ≤ 16)) }
    ensures memory { IfErr result (λ error. error ≡ ConfigError.Memory) }
{
    addresses_at(alloc, table, "listen", "127.0.0.1:6379").map_err(|_| ConfigError::Memory)
}

impl Settings {
    /// Reads a settings file. A setting that it doesn't have is at its default.
    ///
    /// # Errors
    ///
    /// `NotToml` where the text isn't TOML, with the place from which it isn't. Else the first key in byte order answers that is unknown, or has a value that its setting
    /// may not have. `Memory` may come at any text.
    pub fn from_text(alloc: Global, text: &str) -> Result<Settings, ConfigError>
        ensures settings { IfOk result (λ settings. (file : Members) × (parse_document text.now ≡ Some file) × HasNoFault file × Sets file settings) }
        ensures refused { IfErr result (Refuses text.now) }
    {
        let table = read_table(alloc, text)?;
        check_all(alloc, &table)?;
        Ok(Settings {
            listen: listen_at(alloc, &table)?,
            nodes: number_at(&table, "nodes", 2),
            places: number_at(&table, "places", 1_024),
            workers: number_at(&table, "workers", 2),
            connections: number_at(&table, "connections", 256),
            queue_limit: number_at(&table, "queue_limit", 67_108_864),
            tcp_keepalive: number_at(&table, "tcp_keepalive", 300),
            timeout: number_at(&table, "timeout", 0),
            shutdown_seconds: number_at(&table, "shutdown_seconds", 5),
            revive: truth_at(&table, "revive", true),
        })
    }
}

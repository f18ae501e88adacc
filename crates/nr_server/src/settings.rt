// The settings: of the file, from its bytes, and with words of the command line in their place.
ghost use Rattle.std.specs.Prelude.{◌≡◌, IfOk, IfErr};
ghost use Rattle.std.specs.Str.{IsUtf8};
ghost use Rattle.nr_server.specs.Files.{AreSet, IsNoText, IsToldOf, IsOf, TellsOfWords};
ghost use Rattle.nr_config.specs.Given.{Replaces};

use crate::fault::Fault;
use nr_config::{ConfigError, Given, Settings, TextPlace};
use std::alloc::Global;
use std::str;

// What the program tells of a fault in a settings file.
fn fault_of(error: ConfigError) -> Fault
    ensures { IsOf error result }
{
    match error {
        ConfigError::NotToml(place) => Fault::NotToml(place),
        ConfigError::UnknownKey(key) => Fault::UnknownKey(key),
        ConfigError::BadValue(key, kind) => Fault::BadValue(key, kind),
        ConfigError::Memory => Fault::Memory,
    }
}

// The bytes as a text, or the place at which they are none.
fn text_of(bytes: &[u8]) -> Result<&str, Fault>
    ensures text { IfOk result (λ text. (text.now ≡ bytes.now) × IsUtf8 bytes.now) }
    ensures refused { IfErr result (λ fault. IsNoText bytes.now fault) }
{
    match str::from_utf8(bytes) {
        Ok(text) => Ok(text),
        Err(error) => Err(Fault::NotToml(TextPlace::behind(&bytes[..error.valid_up_to()]))),
    }
}

/// The settings that a file of these bytes gives.
///
/// # Errors
///
/// `NotToml` where they aren't UTF-8 or no TOML, with the place from which they aren't; `UnknownKey` or `BadValue` for the first key in byte order at fault, `Memory` where memory
/// runs out.
pub fn settings_on(alloc: Global, bytes: &[u8]) -> Result<Settings, Fault>
    ensures set { IfOk result (AreSet bytes.now) }
    ensures refused { IfErr result (IsToldOf bytes.now) }
{
    let text = text_of(bytes)?;
    match Settings::from_text(alloc, text) {
        Ok(settings) => Ok(settings),
        Err(error) => Err(fault_of(error)),
    }
}

/// These settings, but where words of the command line are given, what these say.
///
/// # Errors
///
/// `BadValue` where a word is no number in the range of its setting: of several the first setting in byte order. `Memory` where memory runs out.
pub fn with_words(alloc: Global, settings: Settings, given: Given) -> Result<Settings, Fault>
    ensures set { IfOk result (Replaces settings given) }
    ensures refused { IfErr result (TellsOfWords given) }
{
    match settings.replaced(alloc, given) {
        Ok(settings) => Ok(settings),
        Err(error) => Err(fault_of(error)),
    }
}

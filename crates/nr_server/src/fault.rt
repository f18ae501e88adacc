// Why the program failed, with the lines that it prints and its exit status.
ghost use Rattle.std.specs.Prelude.{◌≡◌};
ghost use Rattle.nr_server.specs.Faults.{status_of};

use crate::refusal::SystemRefusal;
use nr_blob::Memory;
use nr_config::{Kind, TextPlace};
use nr_crew::StartError;
use nr_script::ScriptError;
use std::alloc::AllocError;
use std::fmt;

/// Why the program failed.
#[derive(Debug, Drop, PartialEq, Eq)]
pub enum Fault {
    /// The input could not be read.
    Read,
    /// The output could not be written.
    Write,
    /// There was no memory left.
    Memory,
    /// The line of a script with this number, from 1, says no step that can be taken.
    BadStep(u64),
    /// The script of this name could not be read.
    Script(String, SystemRefusal),
    /// The settings file of this name could not be read.
    Settings(String, SystemRefusal),
    /// The settings aren't TOML from this place on.
    NotToml(TextPlace),
    /// No setting has this name.
    UnknownKey(String),
    /// The value of the setting of this name isn't what it has to be.
    BadValue(String, Kind),
    /// The server could not listen at this address.
    CannotListen(String, SystemRefusal),
    /// No connection can come any more.
    Listener,
    /// The system gave no thread.
    NoThread,
}

impl Fault {
    /// The program's exit status.
    pub fn status(&self) -> u8
        ensures { result ≡ status_of self.now }
    {
        1
    }
}

// What the program says of it: a line, and where there is a reason, that on a line of its own, two spaces in.
impl fmt::Display for Fault {
    ghost use Rattle.std.specs.Prelude.{Some};
    ghost use Rattle.nr_server.specs.Faults.{text_of};

    ghost output = { λ fault. Some (text_of fault) };

    fn fmt<W: fmt::Write>(&self, f: &mut fmt::Formatter<W>) -> fmt::Result {
        match self {
            Fault::Read => f.write_str("noderedis: read failed"),
            Fault::Write => f.write_str("noderedis: write failed"),
            Fault::Memory => f.write_str("noderedis: out of memory"),
            Fault::BadStep(line) => write!(f, "noderedis: line {line}: bad step"),
            Fault::Script(file, why) => {
                write!(f, "noderedis: cannot read the script\n  {file}: {why}")
            }
            Fault::Settings(file, why) => {
                write!(f, "noderedis: cannot read the settings\n  {file}: {why}")
            }
            Fault::NotToml(place) => write!(f, "noderedis: settings: not toml\n  {place}"),
            Fault::UnknownKey(key) => write!(f, "noderedis: settings: unknown key {key}"),
            Fault::BadValue(key, kind) => {
                write!(f, "noderedis: settings: bad value {key}\n  {kind}")
            }
            Fault::CannotListen(address, why) => {
                write!(f, "noderedis: cannot listen on {address}\n  {why}")
            }
            Fault::Listener => f.write_str("noderedis: listener failed"),
            Fault::NoThread => f.write_str("noderedis: no thread"),
        }
    }
}

impl From<Memory> for Fault {
    ghost use Rattle.std.specs.Prelude.{◌≡◌};
    ghost use Rattle.nr_server.specs.declared.fault.Fault.TheVariants.{Memory as OfMemory};

    ghost from_gives = { λ _ fault. fault ≡ OfMemory };

    fn from(_: Memory) -> Fault {
        Fault::Memory
    }
}

impl From<AllocError> for Fault {
    ghost use Rattle.std.specs.Prelude.{◌≡◌};
    ghost use Rattle.nr_server.specs.declared.fault.Fault.TheVariants.{Memory as OfMemory};

    ghost from_gives = { λ _ fault. fault ≡ OfMemory };

    fn from(_: AllocError) -> Fault {
        Fault::Memory
    }
}

impl From<StartError> for Fault {
    ghost use Rattle.nr_server.specs.Faults.{IsOfStart};

    ghost from_gives = { IsOfStart };

    fn from(error: StartError) -> Fault {
        match error {
            StartError::Memory(_) => Fault::Memory,
            // (what settings come to has a place for each worker, and a size in its ranges)
            StartError::BadShape | StartError::FewPlaces => Fault::Listener,
        }
    }
}

impl From<ScriptError> for Fault {
    ghost use Rattle.nr_server.specs.Faults.{IsOfScript};

    ghost from_gives = { IsOfScript };

    fn from(error: ScriptError) -> Fault {
        match error {
            ScriptError::BadStep(line) => Fault::BadStep(line),
            ScriptError::Write => Fault::Write,
            ScriptError::Memory => Fault::Memory,
        }
    }
}

// Why the system refused something, in a user's words.
ghost use Rattle.std.specs.Prelude.{◌≡◌};
ghost use Rattle.std.specs.IoError.{error_kind, raw_os_error};
ghost use Rattle.nr_server.specs.Refusals.{refusal_of, by_number};

use std::fmt;
use std::io::{Error, ErrorKind};

/// Why the system refused something, as far as it says.
#[derive(Clone, Copy, Debug, PartialEq, Eq)]
pub enum SystemRefusal {
    /// Someone listens at the address.
    AddressInUse,
    /// The address is none of this machine.
    NoSuchAddress,
    /// The text is no address.
    NoAddress,
    /// The name in the address is known to nobody who was asked.
    NoSuchName,
    NoSuchFile,
    PermissionDenied,
    /// What should be a file is a directory.
    Directory,
    /// The system gives this number.
    Number(i32),
    /// The system gives no number.
    Unknown,
}

// By the system's number, where it gives one.
fn by_number(number: Option<i32>, otherwise: SystemRefusal) -> SystemRefusal
    ensures { result ≡ by_number number otherwise }
{
    match number {
        Some(number) => SystemRefusal::Number(number),
        None => otherwise,
    }
}

impl SystemRefusal {
    /// Why this failed.
    pub fn of(error: &Error) -> SystemRefusal
        ensures { result ≡ refusal_of (error_kind error.now) (raw_os_error error.now) }
    {
        match error.kind() {
            ErrorKind::AddrInUse => SystemRefusal::AddressInUse,
            ErrorKind::AddrNotAvailable => SystemRefusal::NoSuchAddress,
            ErrorKind::NotFound => SystemRefusal::NoSuchFile,
            ErrorKind::PermissionDenied => SystemRefusal::PermissionDenied,
            ErrorKind::IsADirectory => SystemRefusal::Directory,
            ErrorKind::InvalidInput => by_number(error.raw_os_error(), SystemRefusal::NoAddress),
            ErrorKind::Uncategorized => by_number(error.raw_os_error(), SystemRefusal::NoSuchName),
            _ => by_number(error.raw_os_error(), SystemRefusal::Unknown),
        }
    }
}

impl fmt::Display for SystemRefusal {
    ghost use Rattle.std.specs.Prelude.{Some};
    ghost use Rattle.nr_server.specs.Refusals.{refusal_text};

    ghost output = { λ refusal. Some (refusal_text refusal) };

    fn fmt<W: fmt::Write>(&self, f: &mut fmt::Formatter<W>) -> fmt::Result {
        match self {
            SystemRefusal::AddressInUse => f.write_str("address in use"),
            SystemRefusal::NoSuchAddress => f.write_str("no such address"),
            SystemRefusal::NoAddress => f.write_str("not an address and a port"),
            SystemRefusal::NoSuchName => f.write_str("no such name"),
            SystemRefusal::NoSuchFile => f.write_str("no such file"),
            SystemRefusal::PermissionDenied => f.write_str("permission denied"),
            SystemRefusal::Directory => f.write_str("is a directory"),
            SystemRefusal::Number(number) => write!(f, "error {number} of the system"),
            SystemRefusal::Unknown => f.write_str("the system doesn't say why"),
        }
    }
}

// Where a server listens, and how that is said.
ghost use Rattle.std.specs.Prelude.{◌≡◌, IfOk, string_bytes};
ghost use Rattle.std.specs.Option.{option_copied};
ghost use Rattle.nr_sockets.specs.Addresses.{unix_path, with_port};

use std::alloc::{AllocError, Global};

/// The path of a Unix socket, where this address is one: it is spelled `unix:PATH`.
pub fn unix_path(address: &str) -> Option<&str>
    ensures { option_copied result ≡ unix_path address.now }
{
    address.strip_prefix("unix:")
}

/// An address and a port, as they were spelled, but with this port where they end in `:0`.
///
/// # Errors
///
/// `AllocError` where memory is refused.
pub(crate) fn with_port(alloc: Global, address: &str, port: u16) -> Result<String, AllocError>
    ensures { IfOk result (λ text. string_bytes text ≡ with_port address.now port) }
{
    match address.strip_suffix(":0") {
        Some(host) => format!(in alloc; "{host}:{port}"),
        None => String::from_str(alloc, address),
    }
}

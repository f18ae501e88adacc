// A socket that listens, by TCP or at a path.
ghost use Rattle.std.specs.Prelude.{◌≡◌, IfOk, string_bytes};
ghost use Rattle.nr_sockets.specs.Addresses.{IsSaid};

use crate::addresses::{unix_path, with_port};
use crate::peer::Peer;
use crate::socket_file::{SocketFile, listen_at};
use mio::net::{TcpListener, UnixListener};
use mio::{Interest, Registry, Token};
use std::alloc::Global;
use std::fs::Files;
use std::io::{self, Error, ErrorKind};
use std::net::{Net, ToSocketAddrs};

/// How many connections are tried in one call: one that went before it was taken is followed by the next.
const MOST_TRIES: usize = 64;

// What listens. A Unix socket's file stays when the socket is closed.
#[derive(Drop)]
enum Source {
    Tcp(TcpListener),
    Unix(UnixListener, SocketFile),
}

/// A socket that listens.
#[derive(Drop)]
pub(crate) struct Ear {
    source: Source,
    // Whether connections may wait to be taken, and whether no more can come.
    is_acceptable: bool,
    has_failed: bool,
}

// What came of a try to take a connection.
enum Taken {
    Peer(Peer),
    /// None waits.
    Nothing,
    /// The system is short of descriptors or of memory.
    Short,
    /// It can't be taken now.
    Later,
    /// It was gone: the next may be taken now.
    Gone,
    /// No connection will come.
    Failed,
}

// Of Linux: ENOMEM, ENFILE, EMFILE and ENOBUFS.
fn is_short(error: &Error) -> bool {
    matches!(error.raw_os_error(), Some(12 | 23 | 24 | 105))
}

// Whether an error says of the socket itself that it can't listen. Behind all others it is as before. Of Linux: EBADF, EFAULT, EINVAL, ENOTSOCK
// and EOPNOTSUPP.
fn is_lasting(error: &Error) -> bool {
    matches!(error.raw_os_error(), Some(9 | 14 | 22 | 88 | 95))
}

fn untaken(error: &Error) -> Taken {
    match error.kind() {
        ErrorKind::WouldBlock => Taken::Nothing,
        ErrorKind::Interrupted | ErrorKind::ConnectionAborted => Taken::Gone,
        _ if is_short(error) => Taken::Short,
        _ if is_lasting(error) => Taken::Failed,
        _ => Taken::Later,
    }
}

fn bind<N: Net>(net: &N, address: &str) -> io::Result<TcpListener> {
    let mut failed = Error::from(ErrorKind::InvalidInput);
    for address in address.to_socket_addrs(net)? {
        match TcpListener::bind(net, address) {
            Ok(listener) => return Ok(listener),
            Err(error) => failed = error,
        }
    }
    Err(failed)
}

// Listens at an address, and says where that is.
fn open<R: Files + Net>(alloc: Global, rt: &R, address: &str) -> io::Result<(Source, String)>
    ensures { IfOk result (λ opened. IsSaid address.now (string_bytes opened.1)) }
{
    match unix_path(address) {
        Some(path) => {
            let text = String::from_str(alloc, address)?;
            let (listener, file) = listen_at(alloc, rt, path)?;
            Ok((Source::Unix(listener, file), text))
        }
        None => {
            let listener = bind(rt, address)?;
            let text = with_port(alloc, address, listener.local_addr()?.port())?;
            Ok((Source::Tcp(listener), text))
        }
    }
}

impl Source {
    // Has the system tell of connections that wait to be taken.
    fn watch(&mut self, registry: &Registry, token: Token) -> io::Result<()> {
        match self {
            Source::Tcp(listener) => registry.register(listener, token, Interest::READABLE),
            Source::Unix(listener, _) => registry.register(listener, token, Interest::READABLE),
        }
    }

    fn accept(&self) -> io::Result<Peer> {
        match self {
            Source::Tcp(listener) => Ok(Peer::Tcp(listener.accept()?.0)),
            Source::Unix(listener, _) => Ok(Peer::Unix(listener.accept()?.0)),
        }
    }
}

impl Ear {
    /// Listens at an address, has the system tell of its connections under this token, and says where it listens.
    ///
    /// # Errors
    ///
    /// Those of the system where it can't be listened there, or memory is refused.
    pub(crate) fn open<R: Files + Net>(
        alloc: Global,
        rt: &R,
        registry: &Registry,
        token: Token,
        address: &str,
    ) -> io::Result<(Ear, String)>
        ensures { IfOk result (λ opened. IsSaid address.now (string_bytes opened.1)) }
    {
        let (mut source, text) = open(alloc, rt, address)?;
        source.watch(registry, token)?;
        let ear = Ear {
            source,
            is_acceptable: true,
            has_failed: false,
        };
        Ok((ear, text))
    }

    /// Connections may wait to be taken.
    pub(crate) fn hears(&mut self) {
        self.is_acceptable = true;
    }

    /// Whether connections can still come.
    pub(crate) fn can_hear(&self) -> bool {
        !self.has_failed
    }

    // Tries to take a connection.
    fn take(&mut self) -> Taken {
        match self.source.accept() {
            Ok(peer) => Taken::Peer(peer),
            Err(error) => untaken(&error),
        }
    }

    /// Takes the next connection that waits. Where the system is short of something, which is counted, it is tried again behind the next wait: it
    /// tells nothing of that.
    pub(crate) fn next(&mut self, short: &mut u64) -> Option<Peer> {
        if !self.is_acceptable || self.has_failed {
            return None;
        }
        for _ in 0..MOST_TRIES {
            match self.take() {
                Taken::Peer(peer) => return Some(peer),
                Taken::Nothing => {
                    self.is_acceptable = false;
                    return None;
                }
                Taken::Short => {
                    *short = short.saturating_add(1);
                    return None;
                }
                Taken::Later => return None,
                Taken::Gone => {}
                Taken::Failed => {
                    self.has_failed = true;
                    return None;
                }
            }
        }
        None
    }

    /// Removes the file of a Unix socket.
    pub(crate) fn leave<F: Files>(&self, files: &F) {
        if let Source::Unix(_, file) = &self.source {
            file.remove(files);
        }
    }
}

// A connection's stream, as the system gives it.
use mio::event::Source;
use mio::net::{TcpStream, UnixStream};
use mio::{Interest, Registry, Token};
use std::io::{self, Read, Write};
use std::net::Shutdown;

/// A connection's stream: by TCP, or through a Unix socket.
#[derive(Drop)]
pub enum Peer {
    Tcp(TcpStream),
    Unix(UnixStream),
}

impl Peer {
    /// What is written goes out at once, also where it is little. Through a Unix socket it always does.
    pub(crate) fn set_nodelay(&self) -> io::Result<()> {
        match self {
            Peer::Tcp(stream) => stream.set_nodelay(true),
            Peer::Unix(_) => Ok(()),
        }
    }

    /// Nothing more is written: behind what was written the other side gets the end.
    pub(crate) fn end(&self) -> io::Result<()> {
        match self {
            Peer::Tcp(stream) => stream.shutdown(Shutdown::Write),
            Peer::Unix(stream) => stream.shutdown(Shutdown::Write),
        }
    }
}

impl Read for Peer {
    fn read(&mut self, buffer: &mut [u8]) -> io::Result<usize> {
        match self {
            Peer::Tcp(stream) => stream.read(buffer),
            Peer::Unix(stream) => stream.read(buffer),
        }
    }
}

impl Write for Peer {
    fn write(&mut self, bytes: &[u8]) -> io::Result<usize> {
        match self {
            Peer::Tcp(stream) => stream.write(bytes),
            Peer::Unix(stream) => stream.write(bytes),
        }
    }

    fn flush(&mut self) -> io::Result<()> {
        Ok(())
    }
}

impl Source for Peer {
    fn register(
        &mut self,
        registry: &Registry,
        token: Token,
        interests: Interest,
    ) -> io::Result<()> {
        match self {
            Peer::Tcp(stream) => stream.register(registry, token, interests),
            Peer::Unix(stream) => stream.register(registry, token, interests),
        }
    }

    fn reregister(
        &mut self,
        registry: &Registry,
        token: Token,
        interests: Interest,
    ) -> io::Result<()> {
        match self {
            Peer::Tcp(stream) => stream.reregister(registry, token, interests),
            Peer::Unix(stream) => stream.reregister(registry, token, interests),
        }
    }

    fn deregister(&mut self, registry: &Registry) -> io::Result<()> {
        match self {
            Peer::Tcp(stream) => stream.deregister(registry),
            Peer::Unix(stream) => stream.deregister(registry),
        }
    }
}

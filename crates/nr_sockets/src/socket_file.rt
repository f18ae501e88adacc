// The file of a Unix socket that listens.
use mio::net::{UnixListener, UnixStream};
use std::alloc::Global;
use std::fs::{self, Files, Metadata};
use std::io::{self, ErrorKind};
use std::net::Net;
use std::os::unix::fs::{FileTypeExt, MetadataExt};

/// The file by which a Unix socket is found: its path, and which file that is. No other has its numbers as long as the socket is open.
#[derive(Drop)]
pub(crate) struct SocketFile {
    path: String,
    device: u64,
    number: u64,
}

// Whether a socket stands at this path to which nobody listens any more. Where a connection would have to wait, somebody does.
fn is_stale<R: Files + Net>(rt: &R, path: &str) -> bool {
    match fs::symlink_metadata(rt, path) {
        Ok(file) if file.file_type().is_socket() => matches!(
            UnixStream::connect(rt, path),
            Err(error) if error.kind() == ErrorKind::ConnectionRefused
        ),
        _ => false,
    }
}

// Listens at a path. A socket that somebody left there is removed, and nothing else is.
fn bind<R: Files + Net>(rt: &R, path: &str) -> io::Result<UnixListener> {
    match UnixListener::bind(rt, path) {
        Err(error) if error.kind() == ErrorKind::AddrInUse && is_stale(rt, path) => {
            fs::remove_file(rt, path)?;
            UnixListener::bind(rt, path)
        }
        bound => bound,
    }
}

/// Listens at a path, and tells of the file there.
///
/// # Errors
///
/// `AddrInUse` where somebody listens there, or a file stands there that is no socket; `InvalidInput` for a path that is empty, holds a zero
/// byte or has more than 107 bytes; and else those of the system.
pub(crate) fn listen_at<R: Files + Net>(
    alloc: Global,
    rt: &R,
    path: &str,
) -> io::Result<(UnixListener, SocketFile)> {
    if path.is_empty() {
        return Err(io::Error::from(ErrorKind::InvalidInput));
    }
    let owned = String::from_str(alloc, path)?;
    let listener = bind(rt, path)?;
    let file = fs::symlink_metadata(rt, path)?;
    Ok((
        listener,
        SocketFile {
            path: owned,
            device: file.dev(),
            number: file.ino(),
        },
    ))
}

impl SocketFile {
    fn is(&self, file: &Metadata) -> bool {
        file.dev() == self.device && file.ino() == self.number
    }

    /// Removes it, where it still stands there.
    pub(crate) fn remove<F: Files>(&self, files: &F) {
        let path = self.path.as_str();
        if let Ok(file) = fs::symlink_metadata(files, path)
            && self.is(&file)
        {
            let _ = fs::remove_file(files, path);
        }
    }
}

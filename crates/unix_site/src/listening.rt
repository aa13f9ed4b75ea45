//! A socket at a path.
use std::net::Net;
use std::os::fd::OwnedFd;
use std::os::unix::fs::{FileTypeExt, MetadataExt};
use std::os::unix::net::{UnixListener, UnixStream};
use std::rt::Files;
use std::time::Duration;
use std::{fs, io};

/// How long an accept waits for a connection, in seconds.
const ACCEPT_SECONDS: u64 = 1;

/// Which file: its number on its device.
#[derive(Clone, Copy, PartialEq, Eq)]
struct FileNumber {
    device: u64,
    inode: u64,
}

/// A listener, and the socket file that it made.
#[derive(Drop)]
pub(crate) struct Listening {
    listener: UnixListener,
    file: FileNumber,
}

fn file_at(system: &impl Files, path: &str) -> io::Result<FileNumber> {
    let found = fs::symlink_metadata(system, path)?;
    Ok(FileNumber {
        device: found.dev(),
        inode: found.ino(),
    })
}

/// Whether the file at the path is a socket that nobody serves. One that is served meets a connection that ends at
/// once.
fn is_stale<R: Files + Net>(system: &R, path: &str) -> bool {
    let Ok(found) = fs::symlink_metadata(system, path) else {
        return false;
    };
    if !found.file_type().is_socket() {
        return false;
    }
    match UnixStream::connect(system, path) {
        Ok(_) => false,
        Err(error) => error.kind() == io::ErrorKind::ConnectionRefused,
    }
}

/// Binds the path. The socket file of a daemon that is gone is replaced, and every other file there is an error.
fn bound<R: Files + Net>(system: &R, path: &str) -> io::Result<UnixListener> {
    match UnixListener::bind(system, path) {
        Err(error) if error.kind() == io::ErrorKind::AddrInUse && is_stale(system, path) => {
            fs::remove_file(system, path)?;
            UnixListener::bind(system, path)
        }
        other => other,
    }
}

/// The listener, whose accepts give up after a while. The time is the socket's, and std sets it at a stream alone.
fn timed(listener: UnixListener) -> io::Result<UnixListener> {
    let stream = UnixStream::from(OwnedFd::from(listener));
    stream.set_read_timeout(Some(Duration::from_secs(ACCEPT_SECONDS)))?;
    Ok(UnixListener::from(OwnedFd::from(stream)))
}

impl Listening {
    /// Listens at the path. It fails where the path can't be bound: another file is there, or a socket that is served,
    /// or the system refuses it.
    pub fn at<R: Files + Net>(system: &R, path: &str) -> io::Result<Listening> {
        let listener = timed(bound(system, path)?)?;
        let file = file_at(system, path)?;
        Ok(Listening { listener, file })
    }

    /// A copy of the listener.
    pub fn listener(&self) -> io::Result<UnixListener> {
        self.listener.try_clone()
    }

    /// Removes the socket file, unless another file stands at its path by now.
    pub fn remove(&self, system: &impl Files) -> io::Result<()> {
        let address = self.listener.local_addr()?;
        let Some(path) = address.as_pathname() else {
            return Ok(());
        };
        if file_at(system, path.as_str())? == self.file {
            fs::remove_file(system, path)?;
        }
        Ok(())
    }
}

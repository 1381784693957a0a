//! The files that Unix sockets have.
ghost use Rattle.std.specs.Prelude.{◌≡◌, IfOk};

use crate::listening::UnixListen;
use std::alloc::Global;
use std::fs::{DirBuilder, Permissions};
use std::io::{Error, ErrorKind};
use std::net::Net;
use std::os::unix::fs::{DirBuilderExt, FileTypeExt, MetadataExt, PermissionsExt};
use std::os::unix::net::{UnixListener, UnixStream};
use std::rt::Files;
use std::{fs, io};

// How many names are tried for the folder in which a socket is made. Only folders that ended servers left are passed
// over.
const NAMES: u32 = 100;

/// A file of a Unix socket that this process made, and its socket. Only the file's owner may connect, from the moment
/// on at which the file is there.
#[derive(Debug, Drop)]
pub struct SocketFile {
    path: String,
    // While it is open, the system gives the file's inode to no other file.
    socket: UnixListener,
    device: u64,
    inode: u64,
}

impl SocketFile {
    /// Makes the file at this path, which is at most 99 bytes long, and listens there. A file of a socket that no
    /// server holds any more is replaced. With another one at the path it fails, and leaves that as it is: with
    /// `AddrInUse` where a server listens there, and with `AlreadyExists` where it is no socket. Each other `Err` is
    /// the system's, or want of memory. Of two servers that replace one file in the same moment the later has it.
    pub fn bind<R: Files + Net>(rt: &R, alloc: Global, path: &str) -> io::Result<SocketFile> {
        check_free(rt, path)?;
        let place = String::from_str(alloc, path)?;
        let folder = make_folder(rt, alloc, path)?;
        let made = bind_in(rt, alloc, folder.as_str(), place);
        let _ = fs::remove_dir(rt, folder.as_str());
        made
    }

    /// A listener over the socket. All of them share it.
    pub fn listen(&self, rt: &impl Net, alloc: Global) -> io::Result<UnixListen>
        ensures { IfOk result (λ listen. listen.faults ≡ 0) }
    {
        UnixListen::new(rt, alloc, self.socket.try_clone()?)
    }

    /// Removes the file, unless another one stands at its path now or none.
    pub fn remove(&self, rt: &impl Files) -> io::Result<()> {
        match fs::symlink_metadata(rt, self.path.as_str()) {
            Ok(found) if found.dev() == self.device && found.ino() == self.inode => {
                fs::remove_file(rt, self.path.as_str())
            }
            Ok(_) => Ok(()),
            Err(error) if error.kind() == ErrorKind::NotFound => Ok(()),
            Err(error) => Err(error),
        }
    }
}

// Whether a socket's file may be put at the path: nothing stands there, or the file of a socket that no server holds.
fn check_free<R: Files + Net>(rt: &R, path: &str) -> io::Result<()> {
    match fs::symlink_metadata(rt, path) {
        Ok(found) if found.file_type().is_socket() => check_left(rt, path),
        Ok(_) => {
            let message = "a file that is no socket stands there";
            Err(Error::new(ErrorKind::AlreadyExists, message))
        }
        Err(error) if error.kind() == ErrorKind::NotFound => Ok(()),
        Err(error) => Err(error),
    }
}

// Whether the socket whose file this is has gone: then nobody answers.
fn check_left(net: &impl Net, path: &str) -> io::Result<()> {
    match UnixStream::connect(net, path) {
        Ok(_) => Err(Error::new(ErrorKind::AddrInUse, "a server listens there")),
        Err(error) if error.kind() == ErrorKind::ConnectionRefused => Ok(()),
        Err(error) => Err(error),
    }
}

// Makes a folder beside the path that only its owner may enter.
fn make_folder(files: &impl Files, alloc: Global, path: &str) -> io::Result<String> {
    let mut builder = DirBuilder::new();
    builder.mode(0o700);
    for number in 0..NAMES {
        let folder = format!(in alloc; "{path}.new{number}")?;
        match builder.create(files, folder.as_str()) {
            Ok(()) => return Ok(folder),
            Err(error) if error.kind() == ErrorKind::AlreadyExists => {}
            Err(error) => return Err(error),
        }
    }
    Err(Error::from(ErrorKind::AlreadyExists))
}

// Makes the socket in this folder and moves its file into place. After an `Err` the folder is empty again.
fn bind_in<R: Files + Net>(
    rt: &R,
    alloc: Global,
    folder: &str,
    path: String,
) -> io::Result<SocketFile> {
    let first = format!(in alloc; "{folder}/s")?;
    let made = bind_and_move(rt, first.as_str(), path);
    if made.is_err() {
        let _ = fs::remove_file(rt, first.as_str());
    }
    made
}

fn bind_and_move<R: Files + Net>(rt: &R, first: &str, path: String) -> io::Result<SocketFile> {
    let socket = UnixListener::bind(rt, first)?;
    fs::set_permissions(rt, first, Permissions::from_mode(0o600))?;
    let own = fs::symlink_metadata(rt, first)?;
    fs::rename(rt, first, path.as_str())?;
    Ok(SocketFile {
        path,
        socket,
        device: own.dev(),
        inode: own.ino(),
    })
}

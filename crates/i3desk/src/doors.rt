//! The sockets of the server, and the doors on them.
ghost use Rattle.std.specs.Prelude.{◌≡◌, length, IfOk};

use std::alloc::{AllocError, Global};
use std::net::Net;
use std::rt::Files;
use wm_criteria::RegexBuild;
use wm_sockets::{SocketFile, UnixListen};

/// How many doors there are for clients that speak i3-ipc.
const IPC: usize = 8;

/// How many doors there are in all.
const ALL: usize = 24;

/// The sockets at which the server listens, where it could make them.
#[derive(Drop)]
pub struct Sockets {
    ipc: Option<SocketFile>,
    clients: Option<SocketFile>,
}

impl Sockets {
    /// Makes both sockets in the program's folder, where that is wanted. For one that cannot be made it says why on standard
    /// error.
    pub fn open<R: Files + Net>(rt: &HostRuntime, system: &R, wanted: bool) -> Sockets {
        if !wanted {
            return Sockets {
                ipc: None,
                clients: None,
            };
        }
        Sockets {
            ipc: socket(rt, system, "i3desk.ipc"),
            clients: socket(rt, system, "i3desk.clients"),
        }
    }

    /// All doors, those for clients that speak i3-ipc first. At one without a socket every accepting fails.
    pub fn doors(&self, net: &impl Net, alloc: Global) -> Result<Vec<UnixListen>, AllocError>
        ensures { IfOk result (λ doors. length doors.items ≡ 24) }
    {
        let mut doors = Vec::with_capacity(alloc, ALL)?;
        for number in 0..ALL {
            let socket = if number < IPC {
                &self.ipc
            } else {
                &self.clients
            };
            doors.push(listen(net, alloc, socket))?;
        }
        Ok(doors)
    }

    /// Removes the sockets' files.
    pub fn remove(self, files: &impl Files) {
        let Sockets { ipc, clients } = self;
        for socket in [ipc, clients] {
            if let Some(socket) = socket {
                let _ = socket.remove(files);
            }
        }
    }
}

/// A socket at this path.
fn socket<R: Files + Net>(rt: &HostRuntime, system: &R, path: &str) -> Option<SocketFile> {
    match SocketFile::bind(system, rt.alloc(), path) {
        Ok(socket) => Some(socket),
        Err(error) => {
            let _ = eprintln!(rt; "cannot listen at {path}: {error}");
            None
        }
    }
}

/// A door on the socket.
fn listen(net: &impl Net, alloc: Global, socket: &Option<SocketFile>) -> UnixListen {
    match socket {
        Some(socket) => match socket.listen(net, alloc) {
            Ok(listen) => listen,
            Err(_) => UnixListen::without_socket(),
        },
        None => UnixListen::without_socket(),
    }
}

/// What builds the patterns of each door's clients.
pub fn builds(alloc: Global) -> Result<Vec<RegexBuild>, AllocError>
    ensures { IfOk result (λ builds. length builds.items ≡ 24) }
{
    let mut builds = Vec::with_capacity(alloc, ALL)?;
    for _ in 0..ALL {
        builds.push(RegexBuild::new())?;
    }
    Ok(builds)
}

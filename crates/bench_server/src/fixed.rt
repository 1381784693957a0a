//! A server that answers each message with a fixed reply: what a socket alone costs.
use crate::fault::Fault;
use crate::wire::Wire;
use std::alloc::Global;
use std::net::Net;
use std::os::unix::net::UnixListener;
use std::rt::Files;
use std::thread::{self, Threads};

/// Serves so many connections at this path, each in a thread of its own, until each is closed. A reply has the type of its
/// message and so many bytes.
pub fn serve<R: Threads + Files + Net + Sync>(
    rt: &R,
    alloc: Global,
    path: &str,
    bytes: u32,
    connections: u32,
) -> Result<(), Fault> {
    let listener = UnixListener::bind(rt, path)?;
    let mut reply = Vec::new(alloc);
    reply.resize(bytes as usize, b'x')?;
    let served = thread::map_indices(
        rt,
        alloc,
        connections as usize,
        &|_| { serve_next(alloc, &listener, &reply) },
    )?;
    for end in served {
        end?;
    }
    Ok(())
}

/// Serves the connection that comes next.
fn serve_next(alloc: Global, listener: &UnixListener, reply: &[u8]) -> Result<(), Fault> {
    let (stream, _) = listener.accept()?;
    let mut wire = Wire::new(alloc, stream)?;
    for _ in 0..u64::MAX {
        match wire.receive() {
            Ok(kind) => wire.send(kind, reply)?,
            Err(Fault::Refused) => return Ok(()),
            Err(fault) => return Err(fault),
        }
    }
    Ok(())
}

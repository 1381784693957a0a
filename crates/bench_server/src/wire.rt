//! Frames of i3-ipc on a Unix socket.
use crate::fault::Fault;
use std::alloc::Global;
use std::io::{BufReader, Read, Write};
use std::net::Net;
use std::os::unix::net::UnixStream;

/// How many bytes a frame has before its payload.
const HEAD: usize = 14;

/// How long a payload is taken to be at most, in bytes.
const LONGEST: usize = 64 << 20;

/// One end of a connection on which frames go both ways.
#[derive(Drop)]
pub struct Wire {
    stream: BufReader<UnixStream>,
    out: Vec<u8>,
    payload: Vec<u8>,
}

impl Wire {
    /// The end of a connection that is made already.
    pub fn new(alloc: Global, stream: UnixStream) -> Result<Wire, Fault> {
        Ok(Wire {
            stream: BufReader::new(alloc, stream)?,
            out: Vec::new(alloc),
            payload: Vec::new(alloc),
        })
    }

    /// Connects to the server at this path.
    pub fn connect(net: &impl Net, alloc: Global, path: &str) -> Result<Wire, Fault> {
        Wire::new(alloc, UnixStream::connect(net, path)?)
    }

    /// Sends a frame.
    pub fn send(&mut self, kind: u32, payload: &[u8]) -> Result<(), Fault> {
        let Ok(len) = u32::try_from(payload.len()) else {
            return Err(Fault::Wrong);
        };
        self.out.clear();
        self.out.extend_from_slice(b"i3-ipc")?;
        self.out.extend_from_slice(&len.to_le_bytes())?;
        self.out.extend_from_slice(&kind.to_le_bytes())?;
        self.out.extend_from_slice(payload)?;
        self.stream.get_mut().write_all(&self.out)?;
        Ok(())
    }

    /// Receives a frame, keeps its payload, and gives its type.
    pub fn receive(&mut self) -> Result<u32, Fault> {
        let mut head = [0; HEAD];
        self.stream.read_exact(&mut head)?;
        let (len, kind) = read_head(&head)?;
        self.payload.clear();
        self.payload.resize(len, 0)?;
        self.stream.read_exact(&mut self.payload)?;
        Ok(kind)
    }

    /// The payload of the frame that was received last.
    pub fn payload(&self) -> &[u8] {
        &self.payload
    }

    /// Sends a message and receives its reply, which has the same type.
    pub fn ask(&mut self, kind: u32, payload: &[u8]) -> Result<(), Fault> {
        self.send(kind, payload)?;
        self.expect(kind)
    }

    /// Receives a frame of this type.
    pub fn expect(&mut self, kind: u32) -> Result<(), Fault> {
        if self.receive()? == kind {
            Ok(())
        } else {
            Err(Fault::Wrong)
        }
    }
}

/// The length of the payload and the type that a frame's first bytes name.
fn read_head(head: &[u8; HEAD]) -> Result<(usize, u32), Fault> {
    let [b'i', b'3', b'-', b'i', b'p', b'c', a, b, c, d, e, f, g, h] = *head else {
        return Err(Fault::Wrong);
    };
    let len = u32::from_le_bytes([a, b, c, d]) as usize;
    if len > LONGEST {
        return Err(Fault::Wrong);
    }
    Ok((len, u32::from_le_bytes([e, f, g, h])))
}

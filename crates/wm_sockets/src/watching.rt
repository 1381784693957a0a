//! Waiting for a socket's bytes by the system's readiness, which keeps time more exactly than a receiving does.
use mio::unix::SourceFd;
use mio::{Events, Interest, Poll, Token};
use std::alloc::Global;
use std::io;
use std::net::Net;
use std::os::fd::AsRawFd;
use std::os::unix::net::UnixStream;
use std::time::Duration;

/// How long a wait for bytes takes before a link is quiet, and whoever serves it looks for something to send.
const WATCH_WAIT_MS: u64 = 8;

/// Waits for the bytes of one socket.
#[derive(Drop)]
pub(crate) struct Watch {
    poll: Poll,
    events: Events,
}

impl Watch {
    /// A watch over no socket. An `Err` is the system's, or want of memory.
    pub fn new(rt: &impl Net, alloc: Global) -> io::Result<Watch> {
        let poll = Poll::new(rt)?;
        let events = Events::with_capacity(alloc, 1)?;
        Ok(Watch { poll, events })
    }

    /// Watches this socket from now on, until it is closed. An `Err` is the system's.
    pub fn begin(&self, stream: &UnixStream) -> io::Result<()> {
        let number = stream.as_raw_fd();
        self.poll
            .registry()
            .register(&mut SourceFd(&number), Token(0), Interest::READABLE)
    }

    /// Waits for bytes of a socket in which none were left. It says no where none came within a few milliseconds. Where
    /// the system cannot wait it says yes, since a receiving waits too.
    pub fn wait(&mut self) -> bool {
        let limit = Duration::from_millis(WATCH_WAIT_MS);
        match self.poll.poll(&mut self.events, Some(limit)) {
            Ok(()) => !self.events.is_empty(),
            Err(_) => true,
        }
    }
}

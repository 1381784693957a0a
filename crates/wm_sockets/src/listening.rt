//! A listener over a Unix socket.
ghost use Rattle.std.specs.Prelude.{◌≡◌, ◌↔◌, ◌≤◌, None, Some, IfOk, IfSome, IsNone, IsSome};
ghost use Rattle.wm_ports.specs.Listening.{IsAccepted, IsGivenBack, IsTallied};
ghost use Rattle.wm_ports.specs.declared.listens.Accepted.TheVariants as accepted;
ghost use Rattle.wm_sockets.specs.Tallies.{IfLink, after_accepting};

use crate::linking::{UnixLink, is_time_out};
use crate::watching::Watch;
use std::alloc::Global;
use std::io;
use std::io::ErrorKind;
use std::net::Net;
use std::os::fd::OwnedFd;
use std::os::unix::net::{UnixListener, UnixStream};
use std::time::Duration;
use wm_ports::{Accepted, Listen};

/// How long an accepting waits for a peer before it is quiet. Whoever accepts looks that often whether it is to stop,
/// so it is long enough that many who accept cost next to nothing, and short enough that a stop is seen at once. A peer
/// that comes ends the wait.
const ACCEPT_WAIT_MS: u64 = 500;

/// A listener over a Unix socket, or one that has none and fails at each accepting. Several may share one socket, which
/// is closed where the last of them is dropped; each peer comes to one of them.
#[derive(Drop)]
pub struct UnixListen {
    socket: Option<UnixListener>,
    /// What waits for the bytes of the next link, where no link has it.
    watch: Option<Watch>,
    pub(crate) faults: u64,
}

impl UnixListen {
    /// A listener over this socket, with no faults so far, whose acceptings wait only so long. An `Err` is the
    /// system's, and the socket is closed.
    pub fn new(rt: &impl Net, alloc: Global, socket: UnixListener) -> io::Result<UnixListen>
        ensures socket { IfOk result (λ listen. listen.socket ≡ Some socket) }
        ensures faults { IfOk result (λ listen. listen.faults ≡ 0) }
    {
        limit_wait(&socket)?;
        Ok(UnixListen {
            socket: Some(socket),
            watch: Watch::new(rt, alloc).ok(),
            faults: 0,
        })
    }

    /// A listener with no socket, and no faults so far.
    pub fn without_socket() -> UnixListen
        ensures socket { IsNone result.socket }
        ensures faults { result.faults ≡ 0 }
    {
        UnixListen {
            socket: None,
            watch: None,
            faults: 0,
        }
    }

    /// Another listener over the same socket, with no faults so far. An `Err` is the system's.
    pub fn try_clone(&self, rt: &impl Net, alloc: Global) -> io::Result<UnixListen>
        ensures socket { IfOk result (λ listen. IsSome listen.socket ↔ IsSome self.now.socket) }
        ensures faults { IfOk result (λ listen. listen.faults ≡ 0) }
    {
        match &self.socket {
            Some(socket) => UnixListen::new(rt, alloc, socket.try_clone()?),
            None => Ok(UnixListen::without_socket()),
        }
    }
}

impl Listen<UnixLink> for UnixListen {
    ghost faults = { λ s. s.faults };

    /// Waits half a second at most for a peer, and gives the link to it. With no socket it fails.
    fn accept(&mut self) -> Accepted<UnixLink>
        ensures told { IsAccepted None None result }
        ensures counted { IsTallied result self.old.faults self.new.faults }
        ensures grown { self.old.faults ≤ self.new.faults }
        ensures none { IsNone self.old.socket → result ≡ accepted.Failed }
        ensures link { IfLink result (λ link. link.faults ≡ 0) }
        ensures socket { self.new.socket ≡ self.old.socket }
        ensures tally { self.new.faults ≡ after_accepting result self.old.faults }
    {
        if let Some(socket) = &self.socket {
            match next_link(socket) {
                Ok(Some(link)) => return Accepted::Link(link.watched(self.watch.take())),
                Ok(None) => return Accepted::Quiet,
                Err(_) => {}
            }
        }
        self.faults = self.faults.saturating_add(1);
        Accepted::Failed
    }

    /// Closes the link. What waited for its bytes waits for those of the next one.
    fn give_back(&mut self, link: UnixLink)
        ensures told { IsGivenBack None None link }
        ensures grown { self.old.faults ≤ self.new.faults }
        ensures same { self.new ≡ record self.old { watch = self.new.watch } }
    {
        let UnixLink { stream, watch, .. } = link;
        drop(stream);
        if watch.is_some() {
            self.watch = watch;
        }
    }
}

// Bounds how long an accepting waits. The time-out is the open socket's own, and not the descriptor's: it is set over
// another descriptor of it, as a stream's is, and holds for all.
fn limit_wait(socket: &UnixListener) -> io::Result<()> {
    let same = UnixStream::from(OwnedFd::from(socket.try_clone()?));
    same.set_read_timeout(Some(Duration::from_millis(ACCEPT_WAIT_MS)))
}

// The link to the peer that comes next, or none where none came in time, or went before it was served. A stream whose
// calls could not be bounded is closed, and that is an error: it could hold up whoever serves it for ever, and the
// next one would fare no better.
fn next_link(socket: &UnixListener) -> io::Result<Option<UnixLink>>
    ensures { IfOk result (λ found. IfSome found (λ link. link.faults ≡ 0)) }
{
    match socket.accept() {
        Ok((stream, _)) => Ok(Some(UnixLink::new(stream)?)),
        Err(error) if is_passing(error.kind()) => Ok(None),
        Err(error) => Err(error),
    }
}

// Whether the next accepting may well succeed, and this one cost a wait or a peer: the time-out passed, a signal came,
// or the peer went again.
fn is_passing(kind: ErrorKind) -> bool {
    is_time_out(kind) || matches!(kind, ErrorKind::Interrupted | ErrorKind::ConnectionAborted)
}

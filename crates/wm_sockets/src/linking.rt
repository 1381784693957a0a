//! A link over a Unix stream socket.
ghost use Rattle.std.specs.Prelude.{◌≡◌, ◌≢◌, ◌<◌, ◌≤◌, length, IfErr, IfOk, IfSome};
ghost use Rattle.wm_ports.specs.Linking.{IsBlamed, IsCounted, IsReceived, IsSent, IsWithin};
ghost use Rattle.wm_ports.specs.declared.links.Received.TheVariants as received;
ghost use Rattle.wm_ports.specs.declared.links.SendFault.TheVariants as faults;
ghost use Rattle.wm_sockets.specs.Tallies.{after_receiving, one_more};

use crate::watching::Watch;
use std::io;
use std::io::{ErrorKind, Read, Write};
use std::os::unix::net::UnixStream;
use std::time::Duration;
use wm_ports::{Link, Received, SendFault};

/// How long a receiving waits for bytes where nothing watches the socket. The system rounds that up to its ticks and adds
/// one, so with ticks of 4 ms it is quiet within 8 ms as a rule, and 12 at most.
const RECEIVE_WAIT_MS: u64 = 3;

/// How long a sending waits for a peer that does not read. A peer that stopped for so long is given up, so that it holds
/// nobody up for ever.
const SEND_WAIT_MS: u64 = 10_000;

/// A link over a Unix stream socket, which is closed where the link is dropped. A call that a signal interrupts is tried
/// again.
#[derive(Drop)]
pub struct UnixLink {
    pub(crate) stream: UnixStream,
    pub(crate) watch: Option<Watch>,
    /// The last receiving waited, and nothing came.
    quiet: bool,
    pub(crate) faults: u64,
}

impl UnixLink {
    /// A link over this socket, with no faults so far, whose calls wait only so long. An `Err` is the system's, and the
    /// socket is closed.
    pub fn new(stream: UnixStream) -> io::Result<UnixLink>
        ensures { IfOk result (λ link. link.faults ≡ 0) }
    {
        stream.set_read_timeout(Some(Duration::from_millis(RECEIVE_WAIT_MS)))?;
        stream.set_write_timeout(Some(Duration::from_millis(SEND_WAIT_MS)))?;
        Ok(UnixLink {
            stream,
            watch: None,
            quiet: false,
            faults: 0,
        })
    }

    /// The link, with a watch that waits for its bytes from now on. Where the system cannot watch its socket, the link
    /// waits in its receivings.
    pub(crate) fn watched(self, watch: Option<Watch>) -> UnixLink
        ensures { result.faults ≡ self.faults }
    {
        let watch = watch.filter(|watch| watch.begin(&self.stream).is_ok());
        UnixLink { watch, ..self }
    }

    /// Whether a receiving is worth while. Behind a quiet one it is where something came meanwhile; without a watch, and
    /// while the peer speaks, it always is, since it waits itself.
    fn is_worth_receiving(&mut self) -> bool
        ensures { self.new ≡ record self.old { watch = self.new.watch } }
    {
        match &mut self.watch {
            Some(watch) if self.quiet => watch.wait(),
            _ => true,
        }
    }
}

impl Link for UnixLink {
    ghost faults = { λ s. s.faults };

    /// Receives what is there. It is quiet where nothing came within a few milliseconds, and at the end where the peer
    /// closed its side. It fails where the peer went with bytes unread.
    fn receive(&mut self, room: &mut [u8]) -> Received
        requires { 0 < length room.old }
        ensures within { IsWithin result room.new }
        ensures told { IsReceived None None result room.new }
        ensures counted { IsCounted result self.old.faults self.new.faults }
        ensures grown { self.old.faults ≤ self.new.faults }
        ensures memory { result ≢ received.NoMemory }
        ensures tally { self.new.faults ≡ after_receiving result self.old.faults }
    {
        if !self.is_worth_receiving() {
            return Received::Quiet;
        }
        let read = received(&mut self.stream, room);
        self.quiet = matches!(&read, Err(error) if is_time_out(error.kind()));
        match read {
            Ok(0) => Received::End,
            Ok(n) => Received::Got(n),
            Err(error) if is_time_out(error.kind()) => Received::Quiet,
            Err(_) => {
                self.faults = self.faults.saturating_add(1);
                Received::Failed
            }
        }
    }

    /// Sends what the peer has room for. It fails where the peer is gone, and where it read nothing for ten seconds.
    fn send(&mut self, bytes: &[u8]) -> Result<usize, SendFault>
        requires { 0 < length bytes.now }
        ensures some { IfOk result (λ n. 0 < n) }
        ensures within { IfOk result (λ n. n ≤ length bytes.now) }
        ensures told { IsSent None None result bytes.now }
        ensures blamed { IfErr result (λ e. IsBlamed e self.old.faults self.new.faults) }
        ensures grown { self.old.faults ≤ self.new.faults }
        ensures fault { IfErr result (λ e. e ≡ faults.Failed) }
        ensures ok { IfOk result (λ _. self.new.faults ≡ self.old.faults) }
        ensures err { IfErr result (λ _. self.new.faults ≡ one_more self.old.faults) }
    {
        match sent(&mut self.stream, bytes) {
            Some(n) if n != 0 => Ok(n),
            _ => {
                self.faults = self.faults.saturating_add(1);
                Err(SendFault::Failed)
            }
        }
    }
}

/// Whether an error says that a time-out passed.
pub(crate) fn is_time_out(kind: ErrorKind) -> bool {
    matches!(kind, ErrorKind::WouldBlock | ErrorKind::TimedOut)
}

// One receiving, tried again where a signal interrupts it.
fn received(stream: &mut UnixStream, room: &mut [u8]) -> io::Result<usize>
    ensures { IfOk result (λ n. n ≤ length room.new) }
{
    for _ in 0..u64::MAX {
        match stream.read(room) {
            Err(error) if error.kind() == ErrorKind::Interrupted => {}
            other => return other,
        }
    }
    Err(io::Error::from(ErrorKind::Interrupted))
}

// One sending, tried again where a signal interrupts it. `None` is an error.
fn sent(stream: &mut UnixStream, bytes: &[u8]) -> Option<usize>
    ensures { IfSome result (λ n. n ≤ length bytes.now) }
{
    for _ in 0..u64::MAX {
        match stream.write(bytes) {
            Ok(n) => return Some(n),
            Err(error) if error.kind() == ErrorKind::Interrupted => {}
            Err(_) => return None,
        }
    }
    None
}

//! The links of a rehearsal.
use wm_habits::ActorLink;
use wm_ports::{Link, MemLink, Received, SendFault};

/// A link of a rehearsal: a caller's messages in memory, or a modelled client.
#[derive(Drop)]
pub enum RehearsedLink {
    Caller(MemLink),
    Client(ActorLink),
}

impl Link for RehearsedLink {
    ghost use Rattle.wm_serve.specs.Rehearsed.{faults_of, told_of};

    ghost faults = { faults_of };

    ghost told = { told_of };

    fn receive(&mut self, room: &mut [u8]) -> Received {
        match self {
            RehearsedLink::Caller(link) => link.receive(room),
            RehearsedLink::Client(link) => link.receive(room),
        }
    }

    fn send(&mut self, bytes: &[u8]) -> Result<usize, SendFault> {
        match self {
            RehearsedLink::Caller(link) => link.send(bytes),
            RehearsedLink::Client(link) => link.send(bytes),
        }
    }
}

//! What a session receives from its link.
ghost use Rattle.std.specs.Prelude.{◌≡◌, ◌≤◌, ◌<◌, false, true, ℕ, List, [], None, IfOk, OnOk, length, take, vec_len};
ghost use Rattle.wm_criteria.specs.Building.{Log};
ghost use Rattle.wm_core.specs.Passes.{Pass};
ghost use Rattle.wm_frames.specs.Decoding.{Stands};
ghost use Rattle.wm_session.specs.Served.{Stage, stage};
ghost use Rattle.wm_session.specs.Endings.{end_of_frames, end_of_rest};
ghost use Rattle.wm_session.specs.Serving.{Between, GoesOn, HasHeard, IsFed};
ghost use Rattle.wm_frames.specs.declared.message.Message.{Message};
ghost use Rattle.wm_talk.specs.declared.talk.Talk.{Talk};

use crate::ending::SessionEnd;
use std::alloc::{AllocError, Global};
use wm_base::NoMemory;
use wm_frames::{Decoder, FrameFault};
use wm_ports::{Link, Received};

/// How many bytes one receiving has room for: 64 KiB.
const ROOM: usize = 65536;

/// What a session hears by: the decoder of the bytes received, and room for the next ones.
#[derive(Drop)]
pub struct Hearer {
    pub decoder: Decoder,
    room: Vec<u8>,
}

impl Hearer {
    /// Nothing was received.
    pub fn new(alloc: Global) -> Result<Hearer, NoMemory>
        ensures stands { IfOk result (λ hearer. Stands [] [] hearer.decoder) }
        ensures heard { IfOk result (λ hearer. HasHeard hearer.decoder) }
        ensures queue { IfOk result (λ hearer. hearer.decoder.queue ≡ []) }
        ensures fault { IfOk result (λ hearer. hearer.decoder.fault ≡ None) }
        ensures room { IfOk result (λ hearer. 0 < vec_len hearer.room) }
    {
        let room = zeros(alloc)?;
        Ok(Hearer {
            decoder: Decoder::new(alloc),
            room,
        })
    }

    /// Receives the next bytes, where some are there, and queues the messages that are whole now. It answers the fault of
    /// the bytes, where there is one, and ends the session where the link ended.
    pub fn receive<L: Link>(&mut self, link: &mut L) -> Result<Option<FrameFault>, SessionEnd>
        requires queue { self.old.decoder.queue ≡ [] }
        requires whole { self.old.decoder.fault ≡ None }
        requires heard { HasHeard self.old.decoder }
        requires room { 0 < vec_len self.old.room }
        ensures heard { OnOk result (HasHeard self.new.decoder) }
        ensures room { 0 < vec_len self.new.room }
        ensures fault { IfOk result (λ fault. self.new.decoder.fault ≡ fault) }
        ensures hears { (first : Stage) → (pass : Pass) → (log : Log) → (talk : Talk) →
            Between first (stage pass (L.told link.old) (L.faults link.old) log) talk self.old.decoder false →
            GoesOn first (stage pass (L.told link.new) (L.faults link.new) log)
            (λ _. Between first (stage pass (L.told link.new) (L.faults link.new) log) talk self.new.decoder true) result }
    {
        match link.receive(&mut self.room) {
            Received::Got(count) => feed(&mut self.decoder, &self.room[..count]),
            Received::Quiet => Ok(None),
            Received::End => Err(self.end()),
            Received::Failed => Err(SessionEnd::LinkFault),
            Received::NoMemory => Err(SessionEnd::NoMemory),
        }
    }

    /// The end of a session whose link has ended.
    fn end(&self) -> SessionEnd
        ensures { result ≡ end_of_rest (length self.now.decoder.rest) }
    {
        match self.decoder.rest() {
            0 => SessionEnd::Closed,
            bytes => SessionEnd::Truncated { bytes },
        }
    }
}

/// Queues the messages that are whole with these bytes. It answers the fault of the bytes, where there is one.
fn feed(decoder: &mut Decoder, piece: &[u8]) -> Result<Option<FrameFault>, SessionEnd>
    requires { HasHeard decoder.old }
    ensures heard { OnOk result (HasHeard decoder.new) }
    ensures stands { (fed : List ℕ) → (given : List Message) → Stands fed given decoder.old →
        IsFed decoder.old decoder.new fed given piece.now result }
    ensures fault { IfOk result (λ fault. decoder.new.fault ≡ fault) }
{
    match decoder.feed(piece) {
        Ok(()) => Ok(None),
        Err(FrameFault::Magic { at }) => Ok(Some(FrameFault::Magic { at })),
        Err(FrameFault::TooLong { at, len }) => Ok(Some(FrameFault::TooLong { at, len })),
        Err(FrameFault::NoMemory) => Err(SessionEnd::NoMemory),
    }
}

/// Room for one receiving.
fn zeros(alloc: Global) -> Result<Vec<u8>, AllocError>
    ensures { IfOk result (λ v. vec_len v ≡ 65536) }
{
    vec![in alloc; 0; ROOM]
}

/// The end of a session whose bytes have this fault.
pub fn broken(fault: FrameFault) -> SessionEnd
    ensures { result ≡ end_of_frames fault }
{
    match fault {
        FrameFault::Magic { at } => SessionEnd::Magic { at },
        FrameFault::TooLong { at, len } => SessionEnd::TooLong { at, len },
        FrameFault::NoMemory => SessionEnd::NoMemory,
    }
}

//! What a client's session receives from its link.
ghost use Rattle.std.specs.Prelude.{◌≡◌, ◌<◌, ℕ, [], IfOk, false, true, length, vec_len};
ghost use Rattle.wm_core.specs.Passes.{Pass};
ghost use Rattle.wm_clients.specs.Endings.{end_of_rest};
ghost use Rattle.wm_clients.specs.Served.{Stage, stage};
ghost use Rattle.wm_clients.specs.Serving.{Between, GoesOn, IsFed, IsPart};
ghost use Rattle.wm_clients.specs.Telling.{IsChecked};
ghost use Rattle.wm_clients.specs.declared.sent.Sent as greatest;

use crate::ending::ClientEnd;
use crate::stepping::LONGEST;
use std::alloc::{AllocError, Global};
use wm_base::NoMemory;
use wm_cut::Cutter;
use wm_ports::{Link, Received};

/// How many bytes one receiving has room for: 64 KiB.
const ROOM: usize = 65536;

/// What a session hears by: what cuts the bytes received into lines, and room for the next ones.
#[derive(Drop)]
pub struct Hearer {
    pub cutter: Cutter,
    room: Vec<u8>,
}

impl Hearer {
    /// Nothing was received.
    pub fn new(alloc: Global) -> Result<Hearer, NoMemory>
        ensures pending { IfOk result (λ hearer. hearer.cutter ≡ []) }
        ensures room { IfOk result (λ hearer. 0 < vec_len hearer.room) }
    {
        let room = zeros(alloc)?;
        Ok(Hearer {
            cutter: Cutter::new(alloc),
            room,
        })
    }

    /// Receives the next bytes, where some are there. It ends the session where the link ended.
    pub fn receive<L: Link>(&mut self, link: &mut L) -> Result<(), ClientEnd>
        requires part { IsPart self.old.cutter }
        requires room { 0 < vec_len self.old.room }
        ensures room { 0 < vec_len self.new.room }
        ensures hears { (first : Stage) → (pass : Pass) → (sent : greatest.Sent) → (count : ℕ) →
            Between first (stage pass (L.told link.old) (L.faults link.old)) sent count self.old.cutter false →
            GoesOn first (stage pass (L.told link.new) (L.faults link.new))
            (λ _. Between first (stage pass (L.told link.new) (L.faults link.new)) sent count self.new.cutter true) result }
    {
        match link.receive(&mut self.room) {
            Received::Got(count) => feed(&mut self.cutter, &self.room[..count]),
            Received::Quiet => Ok(()),
            Received::End => Err(self.end()),
            Received::Failed => Err(ClientEnd::LinkFault),
            Received::NoMemory => Err(ClientEnd::NoMemory),
        }
    }

    /// The end of a session whose link has ended.
    fn end(&self) -> ClientEnd
        ensures { result ≡ end_of_rest (length self.now.cutter) }
    {
        match self.cutter.rest() {
            0 => ClientEnd::Closed,
            _ => ClientEnd::Truncated,
        }
    }
}

/// Adds these bytes to those that are pending.
fn feed(cutter: &mut Cutter, piece: &[u8]) -> Result<(), ClientEnd>
    ensures { IsFed cutter.old cutter.new piece.now result }
{
    cutter.feed(piece)?;
    Ok(())
}

/// Room for one receiving.
fn zeros(alloc: Global) -> Result<Vec<u8>, AllocError>
    ensures { IfOk result (λ v. vec_len v ≡ 65536) }
{
    vec![in alloc; 0; ROOM]
}

/// Ends the session where the bytes behind the last line feed are too long already to be the line of this number.
pub fn check_rest(cutter: &Cutter, number: u64) -> Result<(), ClientEnd>
    ensures { IsChecked cutter.now number result }
{
    if cutter.rest() > LONGEST {
        return Err(ClientEnd::BadLine { line: number });
    }
    Ok(())
}

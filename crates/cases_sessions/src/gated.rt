//! A link whose calls others can count, and which waits at one of its calls.
ghost use Rattle.std.specs.Prelude.{◌≡◌, ◌<◌, ◌≤◌, length, IfErr, IfOk};
ghost use Rattle.wm_ports.specs.LinkMemory.{link_told};
ghost use Rattle.wm_ports.specs.Linking.{IsBlamed, IsCounted, IsReceived, IsSent, IsWithin};

use crate::gates::comes;
use std::sync::atomic::{AtomicU64, Ordering};
use wm_ports::{Link, MemLink, Received, SendFault};

/// Which call of a link waits, counted from 1, and which count of the other side it waits for.
#[derive(Clone, Copy)]
pub struct Gate {
    pub at: u64,
    pub until: u64,
}

/// A link in memory that counts the calls that began, and waits at one of them for the count of the other side.
#[derive(Drop)]
pub struct GatedLink<'a> {
    link: MemLink,
    gate: Gate,
    calls: u64,
    mine: &'a AtomicU64,
    other: &'a AtomicU64,
    late: bool,
}

impl<'a> GatedLink<'a> {
    /// A link that counts its calls in `mine`, and waits for `other` at the gate.
    pub fn new(
        link: MemLink,
        gate: Gate,
        mine: &'a AtomicU64,
        other: &'a AtomicU64,
    ) -> GatedLink<'a> {
        GatedLink {
            link,
            gate,
            calls: 0,
            mine,
            other,
            late: false,
        }
    }

    /// The bytes sent.
    pub fn sent(&self) -> &[u8] {
        self.link.sent()
    }

    /// Whether it went on without what it waited for.
    pub fn is_late(&self) -> bool {
        self.late
    }

    /// Counts a call that begins, and waits where it is the one at the gate.
    fn begin(&mut self)
        ensures { self.new.link ≡ self.old.link }
    {
        self.calls = self.calls.saturating_add(1);
        self.mine.store(self.calls, Ordering::SeqCst);
        if self.calls == self.gate.at {
            self.late = !comes(self.other, self.gate.until);
        }
    }
}

impl Link for GatedLink<'_> {
    ghost faults = { λ s. s.link.faults };

    ghost told = { λ s. link_told s.link };

    /// Receives as the link in memory does.
    fn receive(&mut self, room: &mut [u8]) -> Received
        requires { 0 < length room.old }
        ensures within { IsWithin result room.new }
        ensures told { IsReceived (link_told self.old.link) (link_told self.new.link) result room.new }
        ensures counted { IsCounted result self.old.link.faults self.new.link.faults }
        ensures grown { self.old.link.faults ≤ self.new.link.faults }
    {
        self.begin();
        self.link.receive(room)
    }

    /// Sends as the link in memory does.
    fn send(&mut self, bytes: &[u8]) -> Result<usize, SendFault>
        requires { 0 < length bytes.now }
        ensures some { IfOk result (λ n. 0 < n) }
        ensures within { IfOk result (λ n. n ≤ length bytes.now) }
        ensures told { IsSent (link_told self.old.link) (link_told self.new.link) result bytes.now }
        ensures blamed { IfErr result (λ e. IsBlamed e self.old.link.faults self.new.link.faults) }
        ensures grown { self.old.link.faults ≤ self.new.link.faults }
    {
        self.begin();
        self.link.send(bytes)
    }
}

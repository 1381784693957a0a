//! A link in memory, which fails and is quiet at the calls that it is told.
ghost use Rattle.std.specs.Prelude.{◌≡◌, ◌+◌, ◌-◌, ◌<◌, ◌≤◌, ◌↔◌, ◌⊎◌, ◌++◌, min, length, take, drop, [], IsTrue, IsErr, IfErr, IfOk, OnErr};
ghost use Rattle.wm_ports.specs.LinkMemory.{after_failed_send, after_receiving, after_send, answer_of, filled, link_told};
ghost use Rattle.wm_ports.specs.Linking.{IsBlamed, IsCounted, IsReceived, IsSent, IsWithin};
ghost use Rattle.wm_ports.specs.Memory.{is_listed, next};
ghost use Rattle.wm_ports.specs.declared.links.SendFault.TheVariants as faults;

use crate::links::{Link, Received, SendFault};
use std::alloc::{AllocError, Global};
use std::marker::Model;
use wm_base::NoMemory;

/// Bytes in memory to be received, and room for those that are sent. Receivings and sendings are numbered together
/// from 1.
#[derive(Debug, Drop)]
pub struct MemLink {
    bytes: Vec<u8>,
    at: usize,
    sent: Vec<u8>,
    room: usize,
    fails: Vec<u64>,
    quiet: Vec<u64>,
    calls: u64,
    turns: u64,
    faults: u64,
}

impl Model for MemLink {
    ghost use Rattle.std.specs.Prelude.{◌≤◌, length, drop, vec_len, vec_capacity};
    ghost use Rattle.wm_ports.specs.LinkMemory.{LinkState};

    ghost Value = { LinkState };

    ghost view = { λ s. record {
      left = drop s.at s.bytes.items;
      sent = s.sent.items;
      room = s.room;
      fails = s.fails.items;
      quiet = s.quiet.items;
      calls = s.calls;
      turns = s.turns;
      faults = s.faults;
    } };

    ghost invariant = { λ s.
        (s.at ≤ length s.bytes.items) × (vec_len s.sent ≤ s.room) × (s.room ≤ vec_capacity s.sent) };
}

impl MemLink {
    /// A link that gives these bytes, with room for so many that are sent, which it takes at once. The calls that
    /// `fails` lists will fail; the other receivings that `quiet` lists will be quiet.
    pub fn new(
        alloc: Global,
        bytes: Vec<u8>,
        room: usize,
        fails: Vec<u64>,
        quiet: Vec<u64>,
    ) -> Result<MemLink, NoMemory>
        ensures left { IfOk result (λ s. s.left ≡ bytes.items) }
        ensures sent { IfOk result (λ s. s.sent ≡ []) }
        ensures room { IfOk result (λ s. s.room ≡ room) }
        ensures fails { IfOk result (λ s. s.fails ≡ fails.items) }
        ensures quiet { IfOk result (λ s. s.quiet ≡ quiet.items) }
        ensures calls { IfOk result (λ s. s.calls ≡ 0) }
        ensures turns { IfOk result (λ s. s.turns ≡ 0) }
        ensures faults { IfOk result (λ s. s.faults ≡ 0) }
    {
        let sent = Vec::with_capacity(alloc, room)?;
        Ok(MemLink {
            bytes,
            at: 0,
            sent,
            room,
            fails,
            quiet,
            calls: 0,
            turns: 0,
            faults: 0,
        })
    }

    /// The bytes sent.
    pub fn sent(&self) -> &[u8]
        ensures { result.now ≡ self.now.sent }
    {
        self.sent.as_slice()
    }
}

impl Clone for MemLink {
    ghost is_clone = { λ link copy. copy ≡ link };

    /// A copy, with as much room.
    fn clone(&self) -> Result<MemLink, AllocError> {
        let alloc = *self.bytes.allocator();
        let bytes = Vec::from_slice(alloc, self.bytes.as_slice())?;
        let mut sent = Vec::with_capacity(alloc, self.room)?;
        sent.extend_from_slice(self.sent.as_slice())?;
        let fails = Vec::from_slice(alloc, self.fails.as_slice())?;
        let quiet = Vec::from_slice(alloc, self.quiet.as_slice())?;
        Ok(MemLink {
            bytes,
            sent,
            fails,
            quiet,
            at: self.at,
            room: self.room,
            calls: self.calls,
            turns: self.turns,
            faults: self.faults,
        })
    }
}

impl Link for MemLink {
    ghost faults = { λ s. s.faults };

    ghost told = { link_told };

    /// Receives the next bytes, as many as there is room for. It fails and is quiet exactly at the calls listed.
    fn receive(&mut self, room: &mut [u8]) -> Received
        requires { 0 < length room.old }
        ensures within { IsWithin result room.new }
        ensures told { IsReceived (link_told self.old) (link_told self.new) result room.new }
        ensures counted { IsCounted result self.old.faults self.new.faults }
        ensures grown { self.old.faults ≤ self.new.faults }
        ensures answer { result ≡ answer_of self.old (length room.old) }
        ensures after { self.new ≡ after_receiving self.old result }
        ensures filled { room.new ≡ filled self.old.left result room.old }
    {
        self.calls = self.calls.saturating_add(1);
        if self.fails.contains(&self.calls) {
            self.faults = self.faults.saturating_add(1);
            return Received::Failed;
        }
        if self.quiet.contains(&self.calls) {
            self.turns = self.turns.saturating_add(1);
            return Received::Quiet;
        }
        let n = room.len().min(self.bytes.len() - self.at);
        if n == 0 {
            return Received::End;
        }
        room[..n].copy_from_slice(&self.bytes[self.at..self.at + n]);
        self.at += n;
        self.turns = self.turns.saturating_add(1);
        Received::Got(n)
    }

    /// Sends as many of the bytes as there is room for. It fails exactly at the calls listed and with no room left.
    fn send(&mut self, bytes: &[u8]) -> Result<usize, SendFault>
        requires { 0 < length bytes.now }
        ensures some { IfOk result (λ n. 0 < n) }
        ensures within { IfOk result (λ n. n ≤ length bytes.now) }
        ensures told { IsSent (link_told self.old) (link_told self.new) result bytes.now }
        ensures blamed { IfErr result (λ e. IsBlamed e self.old.faults self.new.faults) }
        ensures grown { self.old.faults ≤ self.new.faults }
        ensures fails { IsErr result ↔
            ((self.old.room ≤ length self.old.sent)
            ⊎ IsTrue (is_listed self.old.fails (next self.old.calls))) }
        ensures fault { IfErr result (λ e. e ≡ faults.Failed) }
        ensures count { IfOk result (λ n. n ≡ min (length bytes.now) (self.old.room - length self.old.sent)) }
        ensures ok { IfOk result (λ n. self.new ≡ after_send self.old (take n bytes.now)) }
        ensures err { OnErr result (self.new ≡ after_failed_send self.old) }
    {
        self.calls = self.calls.saturating_add(1);
        let left = self.room - self.sent.len();
        if left == 0 || self.fails.contains(&self.calls) {
            self.faults = self.faults.saturating_add(1);
            return Err(SendFault::Failed);
        }
        let n = bytes.len().min(left);
        match self.sent.extend_from_slice(&bytes[..n]) {
            Ok(()) => Ok(n),
            Err(_) => unreachable!(),
        }
    }
}

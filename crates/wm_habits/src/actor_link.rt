//! A link over a modelled client.
ghost use Rattle.std.specs.Prelude.{◌≡◌, ◌<◌, ◌≤◌, length, None, IfErr, IfOk, OnErr, OnOk};
ghost use Rattle.wm_habits.specs.Speaking.{after_receiving, beginning, given, hears};
ghost use Rattle.wm_ports.specs.LinkMemory.{filled};
ghost use Rattle.wm_ports.specs.Linking.{IsBlamed, IsCounted, IsReceived, IsSent, IsWithin};
ghost use Rattle.wm_ports.specs.declared.links.SendFault.TheVariants as faults;

use crate::actor::Actor;
use crate::filling::{fill, pass_front};
use crate::saying::push_line;
use std::marker::Model;
use wm_base::NoMemory;
use wm_cut::Cutter;
use wm_ports::{Link, Received, SendFault};

/// A client that is sent bytes and says bytes. Lines that were sent are answered once there is room for the answers;
/// contracts see them answered at once.
#[derive(Debug, Drop)]
pub struct ActorLink {
    actor: Actor,
    cutter: Cutter,
    say: Vec<u8>,
}

impl Model for ActorLink {
    ghost use Rattle.wm_habits.specs.Speaking.{answering, Speaking};

    ghost Value = { Speaking };

    ghost view = { λ l. answering l.actor l.cutter l.say.items };
}

impl ActorLink {
    /// A link over the client, which begins with this line.
    pub fn new(actor: Actor, first: &str) -> Result<ActorLink, NoMemory>
        ensures { IfOk result (λ link. link ≡ beginning actor first.now) }
    {
        let alloc = actor.allocator();
        let mut say = Vec::new(alloc);
        push_line(&mut say, first)?;
        Ok(ActorLink {
            actor,
            cutter: Cutter::new(alloc),
            say,
        })
    }
}

impl Link for ActorLink {
    ghost faults = { λ _. 0 };

    /// Receives what the client has to say, as many bytes as there is room for. It is quiet exactly where that is nothing,
    /// and it has no end.
    fn receive(&mut self, room: &mut [u8]) -> Received
        requires { 0 < length room.old }
        ensures within { IsWithin result room.new }
        ensures told { IsReceived None None result room.new }
        ensures counted { IsCounted result 0 0 }
        ensures grown { 0 ≤ 0 }
        ensures answer { (result ≡ Received.NoMemory → ⊥) → result ≡ given self.old.say (length room.old) }
        ensures after { self.new ≡ after_receiving self.old result }
        ensures filled { room.new ≡ filled self.old.say result room.old }
    {
        let (actor, cutter) = (&mut self.actor, &mut self.cutter);
        if fill(actor, cutter, &mut self.say, room.len()).is_err() {
            return Received::NoMemory;
        }
        let n = room.len().min(self.say.len());
        if n == 0 {
            return Received::Quiet;
        }
        room[..n].copy_from_slice(&self.say[..n]);
        pass_front(&mut self.say, n);
        Received::Got(n)
    }

    /// Sends all of the bytes. After want of memory the client is as before.
    fn send(&mut self, bytes: &[u8]) -> Result<usize, SendFault>
        requires { 0 < length bytes.now }
        ensures some { IfOk result (λ n. 0 < n) }
        ensures within { IfOk result (λ n. n ≤ length bytes.now) }
        ensures told { IsSent None None result bytes.now }
        ensures blamed { IfErr result (λ e. IsBlamed e 0 0) }
        ensures grown { 0 ≤ 0 }
        ensures count { IfOk result (λ n. n ≡ length bytes.now) }
        ensures fault { IfErr result (λ e. e ≡ faults.NoMemory) }
        ensures ok { OnOk result (self.new ≡ hears self.old bytes.now) }
        ensures err { OnErr result (self.new ≡ self.old) }
    {
        match self.cutter.feed(bytes) {
            Ok(()) => Ok(bytes.len()),
            Err(NoMemory) => Err(SendFault::NoMemory),
        }
    }
}

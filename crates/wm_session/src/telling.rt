//! What a session tells its link: replies, and the events after them.
ghost use Rattle.std.specs.Prelude.{◌≡◌, ◌⊎◌, suc, ◌∷◌, [], ℕ, List, None, false, true};
ghost use Rattle.wm_criteria.specs.Building.{Log};
ghost use Rattle.wm_frames.specs.Frame.{IsShort};
ghost use Rattle.wm_session.specs.Served.{Stage, stage};
ghost use Rattle.wm_session.specs.Serving.{free_spot, Going, GoesOn, Spot};
ghost use Rattle.wm_session.specs.Telling.{Replies, Sends, Tells, wire};
ghost use Rattle.wm_talk.specs.Frames.{frames};
ghost use Rattle.wm_frames.specs.Decoding.{fault_of};
ghost use Rattle.wm_frames.specs.Reading.{ending};
ghost use Rattle.wm_talk.specs.Talking.{above_of, NEW};

use crate::calling::make_call;
use crate::ending::SessionEnd;
use std::alloc::Global;
use std::sync::Wait;
use wm_core::{Door, Query, View};
use wm_criteria::Build;
use wm_frames::Message;
use wm_ports::{Link, send_all};
use wm_talk::{Got, Talk, call_of, push_frames};

/// What a session tells by: what its client is subscribed to, and the bytes that are to be sent.
#[derive(Drop)]
pub struct Teller {
    alloc: Global,
    pub talk: Talk,
    bytes: Vec<u8>,
}

impl Teller {
    /// Nothing is subscribed.
    pub fn new(alloc: Global) -> Teller
        ensures { result.talk ≡ NEW }
    {
        Teller {
            alloc,
            talk: Talk::new(),
            bytes: Vec::new(alloc),
        }
    }

    /// Sends the frames of the messages, in one piece where the link takes it whole.
    fn send<L: Link>(&mut self, messages: &[Message], link: &mut L) -> Result<(), SessionEnd>
        ensures sends { Sends (wire (L.told link.old) (L.faults link.old)) (wire (L.told link.new) (L.faults link.new)) (frames messages.now) result }
        ensures talk { self.new.talk ≡ self.old.talk }
    {
        self.bytes.clear();
        push_frames(messages, &mut self.bytes)?;
        send_all(link, &self.bytes)?;
        Ok(())
    }

    /// Sends the reply to a message, by what its call gave.
    fn reply<L: Link>(
        &mut self,
        message: &Message,
        got: &Got,
        link: &mut L,
    ) -> Result<(), SessionEnd>
        ensures { Replies message.now got.now self.old.talk self.new.talk (wire (L.told link.old) (L.faults link.old)) (wire (L.told link.new) (L.faults link.new)) result }
    {
        let messages = self.talk.reply(self.alloc, message, got)?;
        self.send(&messages, link)
    }

    /// Sends the events of a reading that the client is to be told.
    fn tell<L: Link>(&mut self, view: &View, link: &mut L) -> Result<(), SessionEnd>
        ensures { Tells view.now self.old.talk self.new.talk (wire (L.told link.old) (L.faults link.old)) (wire (L.told link.new) (L.faults link.new)) result }
    {
        if let View::Lagged { oldest } = view {
            return Err(SessionEnd::Lagged { oldest: *oldest });
        }
        let messages = self.talk.events(self.alloc, view)?;
        self.send(&messages, link)
    }

    /// Reads events, where something is subscribed, and sends those that the client is to be told.
    fn read_events<R: Wait, D: Door, L: Link>(
        &mut self,
        rt: &R,
        door: &D,
        pass: &mut D::Pass,
        link: &mut L,
    ) -> Result<(), SessionEnd>
        requires ready { D.is_of door.now pass.old × ((D.carried pass.old).turn ≡ false) }
        ensures door { D.is_of door.now pass.new }
        ensures turn { (D.carried pass.new).turn ≡ false }
        ensures reads { (first : Stage) → (log : Log) → (s : Spot) → s.talk ≡ self.old.talk → s.due ≡ above_of self.old.talk → s.behind ≡ None → (s.turns ≡ s.stops) ⊎ (s.turns ≡ suc s.stops) →
            Going true first (stage (D.carried pass.old) (L.told link.old) (L.faults link.old) log) s →
            GoesOn first (stage (D.carried pass.new) (L.told link.new) (L.faults link.new) log)
            (λ _. Going true first (stage (D.carried pass.new) (L.told link.new) (L.faults link.new) log) (record s { talk = self.new.talk; due = None })) result }
    {
        let Some(above) = self.talk.above() else {
            return Ok(());
        };
        let view = door.look(rt, pass, &Query::Events { above })?;
        let told = self.tell(&view, link);
        drop(view);
        told
    }

    /// Makes the call of a message, and sends its reply, and then the events.
    pub fn answer<R: Wait, D: Door, B: Build, L: Link>(
        &mut self,
        rt: &R,
        door: &D,
        pass: &mut D::Pass,
        build: &mut B,
        message: &Message,
        link: &mut L,
    ) -> Result<(), SessionEnd>
        requires ready { D.is_of door.now pass.old × ((D.carried pass.old).turn ≡ false) }
        requires short { IsShort message.now }
        ensures door { D.is_of door.now pass.new }
        ensures turn { (D.carried pass.new).turn ≡ false }
        ensures answers { (first : Stage) → (received : List ℕ) → (ahead : List Message) → (turns stops : ℕ) → (turns ≡ stops) ⊎ (turns ≡ suc stops) →
            Going true first (stage (D.carried pass.old) (L.told link.old) (L.faults link.old) (B.log build.old)) (free_spot self.old.talk received (message.now ∷ ahead) turns stops) →
            GoesOn first (stage (D.carried pass.new) (L.told link.new) (L.faults link.new) (B.log build.new))
            (λ _. Going true first (stage (D.carried pass.new) (L.told link.new) (L.faults link.new) (B.log build.new)) (free_spot self.new.talk received ahead turns stops)) result }
    {
        let call = call_of(self.alloc, message)?;
        let got = make_call(self.alloc, rt, door, pass, build, call)?;
        let sent = self.reply(message, &got, link);
        drop(got);
        sent?;
        self.read_events(rt, door, pass, link)
    }

    /// Asks whether the desk is to stop, and sends the events up to then. It ends the session where the desk is to stop.
    pub fn ask_stop<R: Wait, D: Door, L: Link>(
        &mut self,
        rt: &R,
        door: &D,
        pass: &mut D::Pass,
        link: &mut L,
    ) -> Result<(), SessionEnd>
        requires ready { D.is_of door.now pass.old × ((D.carried pass.old).turn ≡ false) }
        ensures door { D.is_of door.now pass.new }
        ensures turn { (D.carried pass.new).turn ≡ false }
        ensures asks { (first : Stage) → (log : Log) → (received : List ℕ) → (stops : ℕ) → fault_of (ending received) ≡ None →
            Going true first (stage (D.carried pass.old) (L.told link.old) (L.faults link.old) log) (free_spot self.old.talk received [] (suc stops) stops) →
            GoesOn first (stage (D.carried pass.new) (L.told link.new) (L.faults link.new) log)
            (λ _. Going true first (stage (D.carried pass.new) (L.told link.new) (L.faults link.new) log) (free_spot self.new.talk received [] (suc stops) (suc stops))) result }
    {
        let stopped = door.stopped(rt, pass);
        self.read_events(rt, door, pass, link)?;
        if stopped {
            return Err(SessionEnd::Stopped);
        }
        Ok(())
    }
}

//! What is subscribed by a client, and up to which event it was told.
ghost use Rattle.std.specs.Prelude.{◌≡◌, ◌++◌, Some, IfOk, OnErr, OnOk};
ghost use Rattle.std.specs.Option.{option_map};
ghost use Rattle.wm_json.specs.Replies.{success_text};
ghost use Rattle.wm_talk.specs.Names.{names_in, value_of};
ghost use Rattle.wm_talk.specs.Talking.{above_of, after_events, after_reply, events_by, NEW, subscribe};
ghost use Rattle.wm_talk.specs.Told.{first_tick, is_there, replied, told, with_kind};

use crate::got::Got;
use crate::kinds::SUBSCRIBE;
use crate::names::{Names, names_of};
use crate::replies::{payload, success_payload};
use crate::since::Since;
use crate::telling::{last_number, messages_of, push_first_tick, with_kind};
use std::alloc::Global;
use wm_base::NoMemory;
use wm_core::View;
use wm_frames::Message;

/// What is subscribed by a client, and up to which event it was told.
#[derive(Clone, Copy, Debug, PartialEq, Eq)]
pub struct Talk {
    pub(crate) since: Since,
    pub(crate) above: u64,
}

impl Talk {
    /// Nothing is subscribed. It takes no memory.
    pub fn new() -> Talk
        ensures { result ≡ NEW }
    {
        Talk {
            since: Since::never(),
            above: 0,
        }
    }

    /// The number for the next reading of events: that of the last event at the reading before, or at the one by which
    /// something was subscribed first. `None` exactly where nothing is subscribed. It takes no memory.
    pub fn above(&self) -> Option<u64>
        ensures { result ≡ above_of self.now }
    {
        match self.since.some_since() {
            Some(_) => Some(self.above),
            None => None,
        }
    }

    /// The reply to a message by what its call gave, where it has one, and behind it the first tick event where the message
    /// is the first to subscribe ticks. Where memory runs out nothing of the talk has changed.
    pub fn reply(&mut self, alloc: Global, m: &Message, got: &Got) -> Result<Vec<Message>, NoMemory>
        ensures value { IfOk result (λ messages. messages.items ≡ replied self.old m.now got.now) }
        ensures after { OnOk result (self.new ≡ after_reply m.now got.now self.old) }
        ensures unchanged { OnErr result (self.new ≡ self.old) }
    {
        if m.kind == SUBSCRIBE {
            return self.reply_subscribe(alloc, m.payload.items(), events_by(got));
        }
        let payload = payload(alloc, m, got)?;
        with_kind(alloc, m.kind, payload)
    }

    /// The messages of those events of a reading that the client is to be told. Where memory runs out nothing of the talk
    /// has changed.
    pub fn events(&mut self, alloc: Global, v: &View) -> Result<Vec<Message>, NoMemory>
        ensures value { IfOk result (λ messages. messages.items ≡ told self.old v.now) }
        ensures after { OnOk result (self.new ≡ after_events v.now self.old) }
        ensures unchanged { OnErr result (self.new ≡ self.old) }
    {
        let View::Events(events) = v else {
            return Ok(Vec::new(alloc));
        };
        let messages = messages_of(alloc, &self.since, events.items())?;
        self.above = last_number(self.above, events.items());
        Ok(messages)
    }

    /// The reply to a message that subscribes names, when so many events had come, and the first tick event.
    fn reply_subscribe(
        &mut self,
        alloc: Global,
        payload: &[u8],
        last: u64,
    ) -> Result<Vec<Message>, NoMemory>
        ensures value { IfOk result (λ messages. messages.items ≡ with_kind 2 (Some (success_text (is_there (value_of payload.now))))
            ++ first_tick self.old.since.tick (subscribe (option_map names_in (value_of payload.now)) last self.old).since.tick) }
        ensures after { OnOk result (self.new ≡ subscribe (option_map names_in (value_of payload.now)) last self.old) }
        ensures unchanged { OnErr result (self.new ≡ self.old) }
    {
        let names = names_of(alloc, payload)?;
        let next = self.subscribed(names, last);
        let done = success_payload(alloc, names.is_some())?;
        let mut messages = with_kind(alloc, SUBSCRIBE, done)?;
        push_first_tick(alloc, self.since.tick, next.since.tick, &mut messages)?;
        *self = next;
        Ok(messages)
    }

    /// The names that are asked for are subscribed too, when so many events had come.
    pub(crate) fn subscribed(&self, names: Option<Names>, last: u64) -> Talk
        ensures { result ≡ subscribe names last self.now }
    {
        match names {
            Some(names) => Talk {
                since: self.since.subscribed(&names, last),
                above: self.above().unwrap_or(last),
            },
            None => *self,
        }
    }
}

/// How many events had come by what was seen; 0 where it does not tell.
fn events_by(got: &Got) -> u64
    ensures { result ≡ events_by got.now }
{
    match got {
        Got::View(View::State(state)) => state.last_event,
        _ => 0,
    }
}

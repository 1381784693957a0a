//! The messages that a client is told.
ghost use Rattle.std.specs.Prelude.{◌≡◌, ◌<◌, ◌^◌, ◌++◌, ◌∷◌, [], IfOk, OnOk};
ghost use Rattle.std.specs.Option.{option_map};
ghost use Rattle.wm_json.specs.Events.{event_text};
ghost use Rattle.wm_talk.specs.Talking.{last_number};
ghost use Rattle.wm_talk.specs.Told.{event_message, FIRST_TICK, first_tick, messages_of, with_kind};

use crate::since::Since;
use std::alloc::Global;
use wm_base::{List, NoMemory, Str};
use wm_frames::Message;
use wm_json::{EventBody, EventView, compact, event_value};

/// The highest bit, which the types of the messages of events have.
const EVENT: u32 = 1 << 31;

/// The kind of ticks.
const TICK: u32 = 7;

/// The reply of this type, where there is one.
pub fn with_kind(
    alloc: Global,
    kind: u32,
    payload: Option<Vec<u8>>,
) -> Result<Vec<Message>, NoMemory>
    ensures { IfOk result (λ messages. messages.items ≡ with_kind kind (option_map (λ bytes. bytes.items) payload)) }
{
    let mut messages = Vec::new(alloc);
    let Some(payload) = payload else {
        return Ok(messages);
    };
    let payload = List::of(payload);
    messages.push(Message { kind, payload })?;
    Ok(messages)
}

/// Adds the first tick event, where ticks were not subscribed before and are after.
pub fn push_first_tick(
    alloc: Global,
    before: Option<u64>,
    after: Option<u64>,
    messages: &mut Vec<Message>,
) -> Result<(), NoMemory>
    ensures { OnOk result (messages.new.items ≡ messages.old.items ++ first_tick before after) }
{
    match (before, after) {
        (None, Some(_)) => {
            let message = first_tick_message(alloc)?;
            Ok(messages.push(message)?)
        }
        _ => Ok(()),
    }
}

/// The message of the first tick event.
fn first_tick_message(alloc: Global) -> Result<Message, NoMemory>
    ensures { IfOk result (λ message. message ≡ event_message FIRST_TICK) }
{
    let payload = Str::of(String::new(alloc));
    let body = EventBody::Tick {
        first: true,
        payload,
    };
    let event = EventView {
        number: 0,
        kind: TICK,
        body,
    };
    let message = event_message(alloc, &event);
    drop(event);
    message
}

/// The messages of those of the events that are due.
pub fn messages_of(
    alloc: Global,
    since: &Since,
    events: &[EventView],
) -> Result<Vec<Message>, NoMemory>
    ensures { IfOk result (λ messages. messages.items ≡ messages_of since.now events.now) }
{
    let mut messages = Vec::new(alloc);
    let mut rest = events;
    while let [event, after @ ..] = rest {
        push_due(alloc, since, event, &mut messages)?;
        rest = after;
    }
    Ok(messages)
}

/// Adds the message of an event, where it is due.
fn push_due(
    alloc: Global,
    since: &Since,
    event: &EventView,
    messages: &mut Vec<Message>,
) -> Result<(), NoMemory>
    ensures { OnOk result (messages.new.items ≡ messages.old.items ++ messages_of since.now (event.now ∷ [])) }
{
    if !since.is_due(event) {
        return Ok(());
    }
    let message = event_message(alloc, event)?;
    Ok(messages.push(message)?)
}

/// The message of an event.
fn event_message(alloc: Global, event: &EventView) -> Result<Message, NoMemory>
    requires { event.now.kind < 2 ^ 31 }
    ensures { IfOk result (λ message. message ≡ event_message event.now) }
{
    let payload = List::of(event_json(alloc, event)?);
    Ok(Message {
        kind: event.kind + EVENT,
        payload,
    })
}

/// The JSON of an event.
fn event_json(alloc: Global, event: &EventView) -> Result<Vec<u8>, NoMemory>
    ensures { IfOk result (λ bytes. bytes.items ≡ event_text event.now) }
{
    let value = event_value(alloc, event)?;
    compact(alloc, &value)
}

/// The number of the last of these events, the one before where there is none.
pub fn last_number(before: u64, events: &[EventView]) -> u64
    ensures { result ≡ last_number before events.now }
{
    let mut number = before;
    let mut rest = events;
    while let [event, after @ ..] = rest {
        number = event.number;
        rest = after;
    }
    number
}

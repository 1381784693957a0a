//! Cases of the events that are kept: some are told, and what is above a number is asked.
ghost use Rattle.std.specs.Prelude.{◌≡◌, ◌+◌, ◌<◌, ◌^◌, true};

use crate::replies::push_value;
use crate::views::body_of;
use case_data::{Fault, Words, number_of};
use std::alloc::Global;
use std::mem;
use wm_json::{EventBody, EventView, event_value};
use wm_kept::{Above, Kept};

/// How many events are written one by one at most.
const FEW: usize = 3;

/// Operations with `, ` between them where no event was told at first.
pub fn tell_kept(words: &mut Words<'_>, out: &mut String) -> Result<(), Fault> {
    let mut kept = Kept::new(words.alloc)?;
    let answer = operate_all(&mut kept, words, out);
    drop(kept);
    answer
}

fn operate_all(kept: &mut Kept, words: &mut Words<'_>, out: &mut String) -> Result<(), Fault> {
    for part in words.rest().split(", ") {
        operate(kept, &mut Words::of(words.alloc, part), out)?;
    }
    Ok(())
}

/// One operation: `tell N` for N events, `event BODY`, `copy`, `above N`, `above most` or `last`.
fn operate(kept: &mut Kept, words: &mut Words<'_>, out: &mut String) -> Result<(), Fault> {
    match words.word() {
        "tell" => tell(kept, words.alloc, words.number()?),
        "event" => tell_one(kept, words),
        "copy" => copy(kept, words.alloc),
        "above" => ask(kept, words, out),
        "last" => push_last(kept, out),
        _ => Err(Fault::BadLine),
    }
}

/// Tells so many events at once, 100,000 at most.
fn tell(kept: &mut Kept, alloc: Global, count: u32) -> Result<(), Fault> {
    let mut bodies = Vec::new(alloc);
    for _ in 0..count.min(100_000) {
        bodies.push(EventBody::Output)?;
    }
    if has_room(kept, bodies.len()) {
        kept.push_all(bodies);
    } else {
        drop(bodies);
    }
    Ok(())
}

/// Whether as many more events can be numbered.
fn has_room(kept: &Kept, more: usize) -> bool
    ensures { result ≡ true → kept.now.last + more < 2 ^ 64 }
{
    kept.last().checked_add(more as u64).is_some()
}

fn push_last(kept: &Kept, out: &mut String) -> Result<(), Fault> {
    let last = kept.last();
    Ok(write!(out, "  the last is {last}\n")?)
}

fn tell_one(kept: &mut Kept, words: &mut Words<'_>) -> Result<(), Fault> {
    let body = body_of(words)?;
    if has_room(kept, 1) {
        kept.push(body);
    } else {
        drop(body);
    }
    Ok(())
}

/// Goes on with a copy.
fn copy(kept: &mut Kept, alloc: Global) -> Result<(), Fault> {
    let copy = kept.copy(alloc)?;
    drop(mem::replace(kept, copy));
    Ok(())
}

fn ask(kept: &Kept, words: &mut Words<'_>, out: &mut String) -> Result<(), Fault> {
    let number = match words.word() {
        "most" => u64::MAX,
        word => u64::from(number_of(word)?),
    };
    let above = kept.above(words.alloc, number)?;
    let told = push_above(words.alloc, &above, out);
    drop(above);
    told
}

fn push_above(alloc: Global, above: &Above, out: &mut String) -> Result<(), Fault> {
    match above {
        Above::Lagged { oldest } => Ok(write!(out, "  lags behind {oldest}\n")?),
        Above::Events(events) => push_events(alloc, events.items(), out),
    }
}

/// Each of a few events, or how many there are, the first and the last.
fn push_events(alloc: Global, events: &[EventView], out: &mut String) -> Result<(), Fault> {
    match events {
        [] => Ok(out.push_str("  no events\n")?),
        [first, .., last] if events.len() > FEW => push_ends(first, last, events.len(), out),
        _ => push_each(alloc, events, out),
    }
}

fn push_ends(
    first: &EventView,
    last: &EventView,
    count: usize,
    out: &mut String,
) -> Result<(), Fault> {
    let (from, to) = (first.number, last.number);
    Ok(write!(out, "  {count} events from {from} to {to}\n")?)
}

fn push_each(alloc: Global, events: &[EventView], out: &mut String) -> Result<(), Fault> {
    for event in events {
        push_event(alloc, event, out)?;
    }
    Ok(())
}

/// The number and the kind of an event, and its JSON.
fn push_event(alloc: Global, event: &EventView, out: &mut String) -> Result<(), Fault> {
    let (number, kind) = (event.number, event.kind);
    write!(out, "  {number} of kind {kind}\n")?;
    let value = event_value(alloc, event)?;
    push_value(alloc, &value, out)
}

//! The events that the tree that was kept and the tree tell of.
ghost use Rattle.cases_tree.specs.Desk.{Holds};
ghost use Rattle.std.specs.Prelude.{IfSome};
ghost use Rattle.wm_tree.specs.Sound.{IsSound};

use crate::desk::Desk;
use crate::placed::UNKNOWN;
use case_data::{Fault, Words};
use std::alloc::Global;
use std::str;
use wm_arrange::{Arrangement, arrange};
use wm_changes::changes;
use wm_json::{EventBody, EventView, compact, event_value, kind_of};
use wm_tree::Tree;

/// Appends how many events there are, and a line for each: the number of its type, and its JSON.
pub fn events(desk: &Desk, words: &Words<'_>, out: &mut String) -> Result<(), Fault>
    requires { Holds desk.now }
{
    if desk.sound && desk.kept_sound {
        push_since(words.alloc, &desk.kept, &desk.tree, out)
    } else {
        Ok(writeln!(out, "{UNKNOWN}")?)
    }
}

/// The events since a tree was kept.
fn push_since(
    alloc: Global,
    kept: &Option<Tree>,
    after: &Tree,
    out: &mut String,
) -> Result<(), Fault>
    requires kept { IfSome kept.now IsSound }
    requires after { IsSound after.now }
{
    match kept {
        Some(before) => push_between(alloc, before, after, out),
        None => Err(Fault::BadLine),
    }
}

fn push_between(alloc: Global, before: &Tree, after: &Tree, out: &mut String) -> Result<(), Fault>
    requires before { IsSound before.now }
    requires after { IsSound after.now }
{
    let a = arrange(alloc, before)?;
    let b = arrange(alloc, after)?;
    push_changes(alloc, (before, &a), (after, &b), out)
}

fn push_changes(
    alloc: Global,
    before: (&Tree, &Arrangement),
    after: (&Tree, &Arrangement),
    out: &mut String,
) -> Result<(), Fault>
    requires before { IsSound before.0.now }
    requires after { IsSound after.0.now }
{
    match changes(alloc, before.0, before.1, after.0, after.1) {
        Ok(events) => {
            let answer = push_events(alloc, &events, out);
            drop(events);
            answer
        }
        Err(error) => Err(Fault::from(error)),
    }
}

fn push_events(alloc: Global, events: &[EventBody], out: &mut String) -> Result<(), Fault> {
    writeln!(out, "events {}", events.len())?;
    for body in events {
        push_event(alloc, body.copy(alloc)?, out)?;
    }
    Ok(())
}

fn push_event(alloc: Global, body: EventBody, out: &mut String) -> Result<(), Fault> {
    let event = EventView {
        number: 1,
        kind: kind_of(&body),
        body,
    };
    let answer = push_line(alloc, &event, out);
    drop(event);
    answer
}

fn push_line(alloc: Global, event: &EventView, out: &mut String) -> Result<(), Fault> {
    let bytes = event_bytes(alloc, event)?;
    match str::from_utf8(&bytes) {
        Ok(text) => Ok(writeln!(out, "{} {text}", event.kind)?),
        Err(_) => Err(Fault::BadLine),
    }
}

fn event_bytes(alloc: Global, event: &EventView) -> Result<Vec<u8>, Fault> {
    let value = event_value(alloc, event)?;
    Ok(compact(alloc, &value)?)
}

//! What is told of a desk: answers, and what is seen of it.
use crate::nodes::push_node;
use case_data::Fault;
use std::alloc::{AllocError, Global};
use std::str;
use wm_base::Text;
use wm_core::{Answer, Desk, Query, View, Want};
use wm_json::{EventBody, EventView};
use wm_lines::push_answer;

/// Writes the line that tells an answer.
pub fn push_told(alloc: Global, answer: &Answer, out: &mut String) -> Result<(), Fault> {
    let mut line = Vec::new(alloc);
    push_answer(alloc, &mut line, answer)?;
    match str::from_utf8(&line) {
        Ok(text) => Ok(write!(out, "  {text}")?),
        Err(_) => Err(Fault::BadLine),
    }
}

/// Writes what is seen of the desk: its tree, marks, mode, events or state, or what is asked of its windows.
pub fn push_seen(desk: &Desk, what: &str, out: &mut String) -> Result<(), Fault> {
    let query = match what {
        "tree" => Query::Tree,
        "marks" => Query::Marks,
        "mode" => Query::Mode,
        "modes" => Query::Modes,
        "events" => Query::Events { above: 0 },
        "state" => Query::State,
        "wants" => Query::Wants { serial: 0, kill: 0 },
        _ => return Err(Fault::BadLine),
    };
    let view = desk.look(0, &query)?;
    let told = push_view(&view, out);
    drop(view);
    Ok(told?)
}

fn push_view(view: &View, out: &mut String) -> Result<(), AllocError> {
    match view {
        View::Tree(root) => push_node(root, 1, out),
        View::Marks(marks) => push_names("mark", marks.items(), out),
        View::Modes(modes) => push_names("mode", modes.items(), out),
        View::Mode(mode) => write!(out, "  mode {}\n", mode.as_str()),
        View::State(state) => write!(
            out,
            "  {} steps, {} windows, stopped {}\n",
            state.steps, state.windows, state.stopped
        ),
        View::Wants(wants) => push_wants(wants.items(), out),
        View::Events(events) => push_events(events.items(), out),
        _ => Ok(()),
    }
}

fn push_names(what: &str, names: &[Text], out: &mut String) -> Result<(), AllocError> {
    for name in names {
        write!(out, "  {what} {}\n", name.as_str())?;
    }
    Ok(())
}

fn push_wants(wants: &[Want], out: &mut String) -> Result<(), AllocError> {
    for want in wants {
        match want {
            Want::Configure { con, serial, size } => write!(
                out,
                "  configure {} {serial} {}x{}\n",
                con.0, size.w, size.h
            )?,
            Want::Kill { con, number } => write!(out, "  kill {} {number}\n", con.0)?,
        }
    }
    Ok(())
}

fn push_events(events: &[EventView], out: &mut String) -> Result<(), AllocError> {
    for event in events {
        push_event(event.number, &event.body, out)?;
    }
    Ok(())
}

/// Writes what an event tells, but for the nodes in it.
fn push_event(number: u64, body: &EventBody, out: &mut String) -> Result<(), AllocError> {
    match body {
        EventBody::Output => write!(out, "  {number} output\n"),
        EventBody::Workspace {
            change,
            current,
            ..
        } => {
            let (change, name) = (change.as_str(), current.name.as_str());
            write!(out, "  {number} workspace {change} {name}\n")
        }
        EventBody::Window { change, container } => {
            let change = change.as_str();
            write!(out, "  {number} window {change} {}\n", container.id)
        }
        EventBody::Mode { change } => write!(out, "  {number} mode {}\n", change.as_str()),
        EventBody::Tick { payload, .. } => { write!(out, "  {number} tick {}\n", payload.as_str()) }
        EventBody::Shutdown => write!(out, "  {number} shutdown\n"),
        EventBody::Binding {
            command,
            event_state_mask,
            symbol,
        } => push_binding(
            number,
            command.as_str(),
            event_state_mask.items(),
            symbol,
            out,
        ),
    }
}

/// Writes the parts of a chord and the text to which it was bound.
fn push_binding(
    number: u64,
    command: &str,
    mask: &[Text],
    symbol: &Text,
    out: &mut String,
) -> Result<(), AllocError> {
    write!(out, "  {number} binding")?;
    for part in mask {
        write!(out, " [{}]", part.as_str())?;
    }
    write!(out, " {} runs {command}\n", symbol.as_str())
}

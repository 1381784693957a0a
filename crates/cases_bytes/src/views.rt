//! Cases of nodes, workspaces, outputs and events: the bytes of their JSON.
use crate::fields::text_of;
use crate::nodes::node_of;
use crate::replies::push_value;
use case_data::{Fault, Words, string_of};
use std::alloc::Global;
use wm_base::{List, Rect, Str, Text};
use wm_json::{
    EventBody, EventView, NodeView, OutputView, WorkspaceView, event_value, node_value,
    outputs_value, workspaces_value,
};

/// A node with its children.
pub fn tell_node(words: &mut Words<'_>, out: &mut String) -> Result<(), Fault> {
    let node = node_of(words)?;
    let told = push_node(words.alloc, &node, out);
    drop(node);
    told
}

fn push_node(alloc: Global, node: &NodeView, out: &mut String) -> Result<(), Fault> {
    let value = node_value(alloc, node)?;
    push_value(alloc, &value, out)
}

/// The workspaces of a text `ID NAME NUMBER OUTPUT | ..`.
pub fn tell_workspaces(words: &mut Words<'_>, out: &mut String) -> Result<(), Fault> {
    let mut workspaces = Vec::new(words.alloc);
    for _ in 0..u64::MAX {
        if words.is_done() {
            break;
        }
        push_workspace(words.alloc, words.until(" | "), &mut workspaces)?;
    }
    let value = workspaces_value(words.alloc, &workspaces)?;
    push_value(words.alloc, &value, out)
}

fn push_workspace(
    alloc: Global,
    part: &str,
    workspaces: &mut Vec<WorkspaceView>,
) -> Result<(), Fault> {
    let mut words = Words::of(alloc, part);
    let id = words.number()?;
    let name = text_of(alloc, words.word())?;
    let num = words.word().parse::<i32>().unwrap_or(0);
    let output = text_of(alloc, words.rest())?;
    let workspace = workspace(id, name, num, output);
    Ok(workspaces.push(workspace)?)
}

fn workspace(id: u32, name: Text, num: i32, output: Text) -> WorkspaceView {
    WorkspaceView {
        focused: id == 1,
        id,
        name,
        num,
        output,
        rect: Rect {
            x: 0,
            y: 0,
            w: 9,
            h: 8,
        },
        urgent: false,
        visible: num < 0,
    }
}

/// The outputs of a text `NAME WORKSPACE | ..`. The first one is the primary one.
pub fn tell_outputs(words: &mut Words<'_>, out: &mut String) -> Result<(), Fault> {
    let mut outputs = Vec::new(words.alloc);
    for _ in 0..u64::MAX {
        if words.is_done() {
            break;
        }
        push_output(words.alloc, words.until(" | "), &mut outputs)?;
    }
    let value = outputs_value(words.alloc, &outputs)?;
    push_value(words.alloc, &value, out)
}

fn push_output(alloc: Global, part: &str, outputs: &mut Vec<OutputView>) -> Result<(), Fault> {
    let mut words = Words::of(alloc, part);
    let name = text_of(alloc, words.word())?;
    let current_workspace = text_of(alloc, words.rest())?;
    let output = OutputView {
        active: true,
        current_workspace,
        name,
        primary: outputs.is_empty(),
        rect: Rect {
            x: -1,
            y: 0,
            w: 9,
            h: 8,
        },
    };
    Ok(outputs.push(output)?)
}

/// An event.
pub fn tell_event(words: &mut Words<'_>, out: &mut String) -> Result<(), Fault> {
    let event = event(body_of(words)?);
    let told = push_event(words.alloc, &event, out);
    drop(event);
    told
}

fn event(body: EventBody) -> EventView {
    EventView {
        number: 1,
        kind: 0,
        body,
    }
}

fn push_event(alloc: Global, event: &EventView, out: &mut String) -> Result<(), Fault> {
    let value = event_value(alloc, event)?;
    push_value(alloc, &value, out)
}

/// What an event tells: `output`, `workspace CHANGE NODE` or `workspace CHANGE NODE || NODE`, `window CHANGE NODE`,
/// `mode NAME`, `binding SYMBOL MODIFIER COMMAND`, `tick FIRST PAYLOAD` or `shutdown`.
pub fn body_of(words: &mut Words<'_>) -> Result<EventBody, Fault> {
    match words.word() {
        "output" => Ok(EventBody::Output),
        "workspace" => workspace_change(words),
        "window" => window_change(words),
        "mode" => mode_change(words),
        "binding" => binding(words),
        "tick" => tick(words),
        "shutdown" => Ok(EventBody::Shutdown),
        _ => Err(Fault::BadLine),
    }
}

fn workspace_change(words: &mut Words<'_>) -> Result<EventBody, Fault> {
    let change = string(words.alloc, words.word())?;
    let (current, before) = current_and_before(words)?;
    Ok(EventBody::Workspace {
        change,
        current,
        before,
    })
}

fn current_and_before(words: &mut Words<'_>) -> Result<(NodeView, Option<NodeView>), Fault> {
    let current = node_of(&mut Words::of(words.alloc, words.until(" || ")))?;
    match before(words) {
        Ok(before) => Ok((current, before)),
        Err(fault) => {
            drop(current);
            Err(fault)
        }
    }
}

fn before(words: &mut Words<'_>) -> Result<Option<NodeView>, Fault> {
    if words.is_done() {
        return Ok(None);
    }
    Ok(Some(node_of(words)?))
}

fn window_change(words: &mut Words<'_>) -> Result<EventBody, Fault> {
    let change = string(words.alloc, words.word())?;
    let container = node_of(words)?;
    Ok(EventBody::Window { change, container })
}

fn mode_change(words: &mut Words<'_>) -> Result<EventBody, Fault> {
    let change = text_of(words.alloc, words.rest())?;
    Ok(EventBody::Mode { change })
}

fn binding(words: &mut Words<'_>) -> Result<EventBody, Fault> {
    let symbol = text_of(words.alloc, words.word())?;
    let event_state_mask = List::of(modifiers(words.alloc, words.word())?);
    let command = string(words.alloc, words.rest())?;
    Ok(EventBody::Binding {
        command,
        event_state_mask,
        symbol,
    })
}

fn modifiers(alloc: Global, word: &str) -> Result<Vec<Text>, Fault> {
    let mut modifiers = Vec::new(alloc);
    modifiers.push(text_of(alloc, word)?)?;
    Ok(modifiers)
}

fn tick(words: &mut Words<'_>) -> Result<EventBody, Fault> {
    let first = words.word() == "true";
    let payload = string(words.alloc, words.rest())?;
    Ok(EventBody::Tick { first, payload })
}

fn string(alloc: Global, text: &str) -> Result<Str, Fault> {
    Ok(Str::of(string_of(alloc, text)?))
}

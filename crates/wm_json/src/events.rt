//! The objects of events.
ghost use Rattle.std.specs.Prelude.{◌≡◌, [], false, IfOk, OnOk};
ghost use Rattle.serde_json.specs.Data.{object, put as with_member};
ghost use Rattle.serde_json.specs.View.{members_view, view};
ghost use Rattle.serde_json.specs.Written.{has_float, compact_text};
ghost use Rattle.wm_json.specs.Events.{binding_fields, body_fields, event_data, event_text};
ghost use Rattle.wm_json.specs.Nodes.{node_data};
ghost use Rattle.wm_json.specs.Objects.{object_with, or_null};
ghost use Rattle.wm_json.specs.declared.views.EventBody.TheVariants as body;

use crate::fields::{put_flag, put_number, put_text};
use crate::nodes::node_value;
use crate::values::texts_value;
use crate::views::{EventBody, EventView, NodeView};
use serde_json::{Map, Value, put};
use std::alloc::Global;
use wm_base::{NoMemory, Text};

/// Adds a field that is a node.
fn put_node_at(
    alloc: Global,
    members: &mut Map<String, Value>,
    key: &str,
    n: &NodeView,
) -> Result<(), NoMemory>
    ensures { OnOk result (members_view members.new.entries
        ≡ with_member key.now (node_data n.now) (members_view members.old.entries)) }
{
    let value = node_value(alloc, n)?;
    Ok(put(members, alloc, key, value)?)
}

/// Adds a field that is a node, or null where there is none.
fn put_node_or_null(
    alloc: Global,
    members: &mut Map<String, Value>,
    key: &str,
    n: &Option<NodeView>,
) -> Result<(), NoMemory>
    ensures { OnOk result (members_view members.new.entries
        ≡ with_member key.now (or_null node_data n.now) (members_view members.old.entries)) }
{
    match n {
        Some(n) => put_node_at(alloc, members, key, n),
        None => Ok(put(members, alloc, key, Value::Null)?),
    }
}

/// Adds the fields of a change of a workspace to no members.
fn put_workspace_change(
    alloc: Global,
    members: &mut Map<String, Value>,
    change: &str,
    current: &NodeView,
    before: &Option<NodeView>,
) -> Result<(), NoMemory>
    requires { members.old.entries ≡ [] }
    ensures { OnOk result (object (members_view members.new.entries)
        ≡ object_with (body_fields (body.Workspace change.now current.now before.now))) }
{
    put_text(alloc, members, "change", change)?;
    put_node_at(alloc, members, "current", current)?;
    put_node_or_null(alloc, members, "old", before)
}

/// Adds the fields of a change of a window to no members.
fn put_window_change(
    alloc: Global,
    members: &mut Map<String, Value>,
    change: &str,
    container: &NodeView,
) -> Result<(), NoMemory>
    requires { members.old.entries ≡ [] }
    ensures { OnOk result (object (members_view members.new.entries)
        ≡ object_with (body_fields (body.Window change.now container.now))) }
{
    put_text(alloc, members, "change", change)?;
    put_node_at(alloc, members, "container", container)
}

/// Adds the fields of a change of the mode to no members.
fn put_mode(alloc: Global, members: &mut Map<String, Value>, change: &str) -> Result<(), NoMemory>
    requires { members.old.entries ≡ [] }
    ensures { OnOk result (object (members_view members.new.entries)
        ≡ object_with (body_fields (body.Mode change.now))) }
{
    put_text(alloc, members, "change", change)?;
    Ok(put_flag(alloc, members, "pango_markup", false)?)
}

/// Adds what is bound to a key to no members.
fn put_bound(
    alloc: Global,
    members: &mut Map<String, Value>,
    command: &str,
    mask: &[Text],
    symbol: &str,
) -> Result<(), NoMemory>
    requires { members.old.entries ≡ [] }
    ensures { OnOk result (object (members_view members.new.entries)
        ≡ object_with (binding_fields command.now mask.now symbol.now)) }
{
    put_text(alloc, members, "command", command)?;
    let modifiers = texts_value(alloc, mask)?;
    put(members, alloc, "event_state_mask", modifiers)?;
    put_number(alloc, members, "input_code", 0)?;
    put_text(alloc, members, "input_type", "keyboard")?;
    Ok(put_text(alloc, members, "symbol", symbol)?)
}

/// The object of what is bound to a key.
fn bound_value(alloc: Global, command: &str, mask: &[Text], symbol: &str) -> Result<Value, NoMemory>
    ensures { IfOk result (λ v. view v ≡ object_with (binding_fields command.now mask.now symbol.now)) }
{
    let mut members = Map::new(alloc);
    put_bound(alloc, &mut members, command, mask, symbol)?;
    Ok(Value::Object(members))
}

/// Adds the fields of a binding that ran to no members.
fn put_binding(
    alloc: Global,
    members: &mut Map<String, Value>,
    command: &str,
    mask: &[Text],
    symbol: &str,
) -> Result<(), NoMemory>
    requires { members.old.entries ≡ [] }
    ensures { OnOk result (object (members_view members.new.entries)
        ≡ object_with (body_fields (body.Binding command.now mask.now symbol.now))) }
{
    let bound = bound_value(alloc, command, mask, symbol)?;
    put(members, alloc, "binding", bound)?;
    Ok(put_text(alloc, members, "change", "run")?)
}

/// Adds the fields of a tick to no members.
fn put_tick(
    alloc: Global,
    members: &mut Map<String, Value>,
    first: bool,
    payload: &str,
) -> Result<(), NoMemory>
    requires { members.old.entries ≡ [] }
    ensures { OnOk result (object (members_view members.new.entries)
        ≡ object_with (body_fields (body.Tick first payload.now))) }
{
    put_flag(alloc, members, "first", first)?;
    Ok(put_text(alloc, members, "payload", payload)?)
}

/// Adds the fields of an event to no members.
fn put_body(alloc: Global, members: &mut Map<String, Value>, b: &EventBody) -> Result<(), NoMemory>
    requires { members.old.entries ≡ [] }
    ensures { OnOk result (object (members_view members.new.entries) ≡ object_with (body_fields b.now)) }
{
    match b {
        EventBody::Output => Ok(put_text(alloc, members, "change", "unspecified")?),
        EventBody::Workspace {
            change,
            current,
            before,
        } => put_workspace_change(alloc, members, change.as_str(), current, before),
        EventBody::Window { change, container } => {
            put_window_change(alloc, members, change.as_str(), container)
        }
        EventBody::Mode { change } => put_mode(alloc, members, change.as_str()),
        EventBody::Binding {
            command,
            event_state_mask,
            symbol,
        } => {
            let mask = event_state_mask.items();
            put_binding(alloc, members, command.as_str(), mask, symbol.as_str())
        }
        EventBody::Tick { first, payload } => put_tick(alloc, members, *first, payload.as_str()),
        EventBody::Shutdown => Ok(put_text(alloc, members, "change", "exit")?),
    }
}

/// The object of an event.
pub fn event_value(alloc: Global, e: &EventView) -> Result<Value, NoMemory>
    ensures value { IfOk result (λ v. view v ≡ event_data e.now) }
    ensures text { IfOk result (λ v. compact_text (view v) ≡ event_text e.now) }
    ensures whole { IfOk result (λ v. has_float (view v) ≡ false) }
{
    let mut members = Map::new(alloc);
    put_body(alloc, &mut members, &e.body)?;
    Ok(Value::Object(members))
}

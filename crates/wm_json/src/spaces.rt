//! The lists of workspaces and of outputs.
ghost use Rattle.std.specs.Prelude.{◌≡◌, [], false, IfOk, OnOk};
ghost use Rattle.serde_json.specs.Data.{object};
ghost use Rattle.serde_json.specs.View.{members_view, view};
ghost use Rattle.serde_json.specs.Written.{has_float, compact_text};
ghost use Rattle.wm_json.specs.Objects.{put_fields};
ghost use Rattle.wm_json.specs.Spaces.{name_fields, place_fields, output_data, outputs_data, outputs_text, workspace_data, workspaces_data, workspaces_text};

use crate::fields::{put_flag, put_integer, put_number, put_rect, put_text};
use crate::views::{OutputView, WorkspaceView};
use serde_json::{Map, Value};
use std::alloc::{AllocError, Global};
use wm_base::NoMemory;

/// Adds the fields from `focused` to `num`, the last first.
fn put_name(
    alloc: Global,
    w: &WorkspaceView,
    members: &mut Map<String, Value>,
) -> Result<(), AllocError>
    ensures { OnOk result (members_view members.new.entries
        ≡ put_fields (name_fields w.now) (members_view members.old.entries)) }
{
    put_integer(alloc, members, "num", w.num)?;
    put_text(alloc, members, "name", w.name.as_str())?;
    put_number(alloc, members, "id", w.id.into())?;
    put_flag(alloc, members, "focused", w.focused)
}

/// Adds the fields from `output` to `visible`, the last first.
fn put_place(
    alloc: Global,
    w: &WorkspaceView,
    members: &mut Map<String, Value>,
) -> Result<(), AllocError>
    ensures { OnOk result (members_view members.new.entries
        ≡ put_fields (place_fields w.now) (members_view members.old.entries)) }
{
    put_flag(alloc, members, "visible", w.visible)?;
    put_flag(alloc, members, "urgent", w.urgent)?;
    put_rect(alloc, members, "rect", &w.rect)?;
    put_text(alloc, members, "output", w.output.as_str())
}

/// Adds the fields of a workspace to no members.
fn put_workspace(
    alloc: Global,
    w: &WorkspaceView,
    members: &mut Map<String, Value>,
) -> Result<(), AllocError>
    requires { members.old.entries ≡ [] }
    ensures { OnOk result (object (members_view members.new.entries) ≡ workspace_data w.now) }
{
    put_place(alloc, w, members)?;
    put_name(alloc, w, members)
}

/// The object of a workspace.
fn workspace_value(alloc: Global, w: &WorkspaceView) -> Result<Value, NoMemory>
    ensures { IfOk result (λ v. view v ≡ workspace_data w.now) }
{
    let mut members = Map::new(alloc);
    put_workspace(alloc, w, &mut members)?;
    Ok(Value::Object(members))
}

/// The array of the workspaces, an object each.
pub fn workspaces_value(alloc: Global, w: &[WorkspaceView]) -> Result<Value, NoMemory>
    ensures value { IfOk result (λ v. view v ≡ workspaces_data w.now) }
    ensures text { IfOk result (λ v. compact_text (view v) ≡ workspaces_text w.now) }
    ensures whole { IfOk result (λ v. has_float (view v) ≡ false) }
{
    let mut values = Vec::with_capacity(alloc, w.len())?;
    for workspace in w {
        values.push(workspace_value(alloc, workspace)?)?;
    }
    Ok(Value::Array(values))
}

/// Adds the fields of an output to no members.
fn put_output(
    alloc: Global,
    o: &OutputView,
    members: &mut Map<String, Value>,
) -> Result<(), AllocError>
    requires { members.old.entries ≡ [] }
    ensures { OnOk result (object (members_view members.new.entries) ≡ output_data o.now) }
{
    put_flag(alloc, members, "active", o.active)?;
    put_text(
        alloc,
        members,
        "current_workspace",
        o.current_workspace.as_str(),
    )?;
    put_text(alloc, members, "name", o.name.as_str())?;
    put_flag(alloc, members, "primary", o.primary)?;
    put_rect(alloc, members, "rect", &o.rect)
}

/// The object of an output.
fn output_value(alloc: Global, o: &OutputView) -> Result<Value, NoMemory>
    ensures { IfOk result (λ v. view v ≡ output_data o.now) }
{
    let mut members = Map::new(alloc);
    put_output(alloc, o, &mut members)?;
    Ok(Value::Object(members))
}

/// The array of the outputs, an object each.
pub fn outputs_value(alloc: Global, o: &[OutputView]) -> Result<Value, NoMemory>
    ensures value { IfOk result (λ v. view v ≡ outputs_data o.now) }
    ensures text { IfOk result (λ v. compact_text (view v) ≡ outputs_text o.now) }
    ensures whole { IfOk result (λ v. has_float (view v) ≡ false) }
{
    let mut values = Vec::with_capacity(alloc, o.len())?;
    for output in o {
        values.push(output_value(alloc, output)?)?;
    }
    Ok(Value::Array(values))
}

//! The lists of workspaces and of outputs.
ghost use Rattle.std.specs.Prelude.{◌≡◌, IfOk, OnOk};
ghost use Rattle.wm_json.specs.Spaces.{name_fields, output_data, output_fields, outputs_data, outputs_text, place_fields, workspace_data, workspaces_data, workspaces_text};
ghost use Rattle.wm_written.specs.Sent.{Sends, sent, sent_fields};

use crate::fields::{put_flag, put_integer, put_number, put_rect, put_text};
use crate::tokens::{close_array, close_object, open_array, open_object};
use json::Writer;
use std::alloc::{AllocError, Global};
use wm_base::NoMemory;
use wm_json::{OutputView, WorkspaceView};

/// How many bytes have room at first. A few workspaces have as many.
const ROOM: usize = 1024;

/// The JSON of the array of the workspaces, an object each.
pub fn workspaces_json(alloc: Global, spaces: &[WorkspaceView]) -> Result<Vec<u8>, NoMemory>
    ensures { IfOk result (λ bytes. bytes.items ≡ workspaces_text spaces.now) }
{
    let mut out = Writer::new(Vec::with_capacity(alloc, ROOM)?);
    put_workspaces(&mut out, spaces)?;
    Ok(out.into_inner())
}

/// The JSON of the array of the outputs, an object each.
pub fn outputs_json(alloc: Global, outputs: &[OutputView]) -> Result<Vec<u8>, NoMemory>
    ensures { IfOk result (λ bytes. bytes.items ≡ outputs_text outputs.now) }
{
    let mut out = Writer::new(Vec::with_capacity(alloc, ROOM)?);
    put_outputs(&mut out, outputs)?;
    Ok(out.into_inner())
}

/// Writes the array of the workspaces.
fn put_workspaces(out: &mut Writer, spaces: &[WorkspaceView]) -> Result<(), AllocError>
    ensures { OnOk result (Sends out.old out.new (sent (workspaces_data spaces.now))) }
{
    open_array(out)?;
    for space in spaces {
        put_workspace(out, space)?;
    }
    close_array(out)
}

/// Writes the object of a workspace.
fn put_workspace(out: &mut Writer, w: &WorkspaceView) -> Result<(), AllocError>
    ensures { OnOk result (Sends out.old out.new (sent (workspace_data w.now))) }
{
    open_object(out)?;
    put_name(out, w)?;
    put_place(out, w)?;
    close_object(out)
}

/// Writes the fields from `focused` to `num`.
fn put_name(out: &mut Writer, w: &WorkspaceView) -> Result<(), AllocError>
    ensures { OnOk result (Sends out.old out.new (sent_fields (name_fields w.now))) }
{
    put_flag(out, "focused", w.focused)?;
    put_number(out, "id", w.id)?;
    put_text(out, "name", w.name.as_str())?;
    put_integer(out, "num", &w.num)
}

/// Writes the fields from `output` to `visible`.
fn put_place(out: &mut Writer, w: &WorkspaceView) -> Result<(), AllocError>
    ensures { OnOk result (Sends out.old out.new (sent_fields (place_fields w.now))) }
{
    put_text(out, "output", w.output.as_str())?;
    put_rect(out, "rect", &w.rect)?;
    put_flag(out, "urgent", w.urgent)?;
    put_flag(out, "visible", w.visible)
}

/// Writes the array of the outputs.
fn put_outputs(out: &mut Writer, outputs: &[OutputView]) -> Result<(), AllocError>
    ensures { OnOk result (Sends out.old out.new (sent (outputs_data outputs.now))) }
{
    open_array(out)?;
    for output in outputs {
        put_output(out, output)?;
    }
    close_array(out)
}

/// Writes the object of an output.
fn put_output(out: &mut Writer, o: &OutputView) -> Result<(), AllocError>
    ensures { OnOk result (Sends out.old out.new (sent (output_data o.now))) }
{
    open_object(out)?;
    put_output_fields(out, o)?;
    close_object(out)
}

/// Writes the fields of an output.
fn put_output_fields(out: &mut Writer, o: &OutputView) -> Result<(), AllocError>
    ensures { OnOk result (Sends out.old out.new (sent_fields (output_fields o.now))) }
{
    put_flag(out, "active", o.active)?;
    put_text(out, "current_workspace", o.current_workspace.as_str())?;
    put_text(out, "name", o.name.as_str())?;
    put_flag(out, "primary", o.primary)?;
    put_rect(out, "rect", &o.rect)
}

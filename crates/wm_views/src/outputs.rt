//! The outputs of a tree as the list of outputs shows them.
ghost use Rattle.std.specs.Prelude.{◌≡◌, ◌++◌, [], true, IfOk, OnOk};
ghost use Rattle.wm_forest.specs.Look.{first_kids, output_kind, space_kind};
ghost use Rattle.wm_views.specs.Outputs.{name_in, output_view, output_views, outputs_from, outputs_view, space_name};

use std::alloc::Global;
use wm_base::{ConId, NoMemory, Text};
use wm_json::OutputView;
use wm_tree::{Cursor, NodeKind, OutputPart, Tree};

/// The outputs in the order of the tree. Rectangles are in pixels.
pub fn outputs_view(alloc: Global, t: &Tree) -> Result<Vec<OutputView>, NoMemory>
    ensures { IfOk result (λ views. views.items ≡ outputs_view t.now) }
{
    let mut views = Vec::new(alloc);
    push_outputs(&mut views, alloc, t.nodes().kids())?;
    Ok(views)
}

/// Adds the outputs of a row, the first of which is the primary one.
fn push_outputs(views: &mut Vec<OutputView>, alloc: Global, row: Cursor<'_>) -> Result<(), NoMemory>
    ensures { OnOk result (views.new.items ≡ views.old.items ++ outputs_from true row.entry) }
{
    let mut first = true;
    let mut left = row;
    while let Some(part) = left.part() {
        push_output(views, alloc, first, &part.kind, &left)?;
        first = false;
        left = left.rest();
    }
    Ok(())
}

/// Adds the view of the row's first node, where it is an output.
fn push_output(
    views: &mut Vec<OutputView>,
    alloc: Global,
    first: bool,
    kind: &NodeKind,
    row: &Cursor<'_>,
) -> Result<(), NoMemory>
    ensures { OnOk result (views.new.items ≡ views.old.items ++ output_views first (output_kind kind.now) (first_kids row.now)) }
{
    let NodeKind::Output(output) = kind else {
        return Ok(());
    };
    views.push(output_view(alloc, first, output, row.kids())?)?;
    Ok(())
}

fn output_view(
    alloc: Global,
    first: bool,
    output: &OutputPart,
    spaces: Cursor<'_>,
) -> Result<OutputView, NoMemory>
    ensures { IfOk result (λ view. view ≡ output_view first output.now spaces.entry) }
{
    let name = output.name.clone()?;
    Ok(OutputView {
        active: true,
        current_workspace: name_in(alloc, output.shown, spaces)?,
        name,
        primary: first,
        rect: output.rect,
    })
}

/// The name of the workspace in a row of workspaces.
pub fn name_in(alloc: Global, id: ConId, row: Cursor<'_>) -> Result<Text, NoMemory>
    ensures { IfOk result (λ name. name ≡ name_in id row.entry) }
{
    let mut left = row;
    while let Some(part) = left.part() {
        if part.id == id {
            return space_name(alloc, &part.kind);
        }
        left = left.rest();
    }
    no_text(alloc)
}

/// A workspace's name. Other nodes have none.
fn space_name(alloc: Global, kind: &NodeKind) -> Result<Text, NoMemory>
    ensures { IfOk result (λ name. name ≡ space_name (space_kind kind.now)) }
{
    match kind {
        NodeKind::Space(space) => Ok(space.name.clone()?),
        NodeKind::Root { .. } | NodeKind::Output(_) | NodeKind::Con(_) => no_text(alloc),
    }
}

/// The text without a byte.
fn no_text(alloc: Global) -> Result<Text, NoMemory>
    ensures { IfOk result (λ text. text ≡ []) }
{
    match Text::new(alloc, "") {
        Ok(text) => Ok(text),
        Err(_) => Err(NoMemory),
    }
}

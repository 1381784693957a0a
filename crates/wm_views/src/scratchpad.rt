//! The views of the scratchpad: an output with one workspace, whose floating windows are those of the scratchpad.
ghost use Rattle.std.specs.Prelude.{◌≡◌, ◌++◌, ◌∷◌, [], IfOk, OnOk};
ghost use Rattle.wm_arrange.specs.AreaOf.{nowhere};
ghost use Rattle.wm_forest.specs.Forest.{end};
ghost use Rattle.wm_forest.specs.Look.{first_floats};
ghost use Rattle.wm_forest.specs.SoundRow.{containers};
ghost use Rattle.wm_json.specs.declared.views.NodeView.TheViews.{roll-NodeView};
ghost use Rattle.wm_views.specs.Nodes.{cons, over_floats, scratch_output, scratch_space, scratch_view};
ghost use Rattle.wm_views.specs.Recency.{least_place};
ghost use Rattle.wm_views.specs.Rows.{IsPlaced, IsRowAt};
ghost use Rattle.wm_views.specs.Sight.{IsSight};

use crate::nodes::{laid, outlined};
use crate::rows::{Below, push_over, push_view};
use crate::setting::{Rows, set_output, set_place, set_space};
use crate::sight::Sight;
use crate::spaces::has_urgent;
use crate::walk::{over_floats, push_cons};
use std::alloc::Global;
use wm_base::{Layout, List, NOWHERE, NoMemory, short_text};
use wm_json::NodeView;
use wm_tree::Cursor;

/// The id of the output that has the scratchpad's workspace.
pub const SCRATCH_OUTPUT: u32 = 4_294_967_294;

/// The id of the workspace that has the scratchpad's windows.
const SCRATCH_SPACE: u32 = 4_294_967_295;

/// Adds the scratchpad's output, and tells the least place of an id in the scratchpad. The row's first node is the root.
pub fn push_scratchpad(
    views: &mut Vec<NodeView>,
    alloc: Global,
    sight: &Sight<'_>,
    row: &Cursor<'_>,
) -> Result<usize, NoMemory>
    requires sight { IsSight sight.now }
    requires sound { IsRowAt containers (first_floats row.now) }
    ensures views { OnOk result (views.new.items ≡ views.old.items ++ roll-NodeView (scratch_output sight.now.tree.now sight.now.arrangement.now.parts (first_floats row.now)) ∷ []) }
    ensures least { IfOk result (λ least. least ≡ least_place sight.now.tree.now.recency (first_floats row.now)) }
{
    let mut below = Below::new(alloc);
    let least = push_cons(
        &mut below.floats,
        &mut below.placed,
        alloc,
        sight,
        &over_floats(NOWHERE),
        row.floats(),
    )?;
    let windows = row.floats();
    let mut spaces = Vec::new(alloc);
    push_space(&mut spaces, alloc, sight, &windows, below)?;
    push_output(views, alloc, sight, &windows, List::of(spaces))?;
    Ok(least)
}

/// Adds the scratchpad's workspace over its windows.
fn push_space(
    views: &mut Vec<NodeView>,
    alloc: Global,
    sight: &Sight<'_>,
    windows: &Cursor<'_>,
    below: Below,
) -> Result<(), NoMemory>
    requires sight { IsSight sight.now }
    requires kids { below.kids.items ≡ [] }
    requires floats { below.floats.items ≡ cons sight.now.tree.now sight.now.arrangement.now.parts (over_floats nowhere) windows.now }
    requires placed { IsPlaced sight.now.tree.now.recency end windows.now below }
    ensures { OnOk result (views.new.items ≡ views.old.items ++ scratch_view sight.now.tree.now sight.now.arrangement.now.parts windows.now ∷ []) }
{
    match space_alone(alloc, sight, windows) {
        Ok(view) => push_over(views, alloc, view, below),
        Err(error) => {
            drop(below);
            Err(error)
        }
    }
}

/// The scratchpad's workspace, without its windows' views.
fn space_alone(alloc: Global, sight: &Sight<'_>, windows: &Cursor<'_>) -> Result<NodeView, NoMemory>
    requires { IsSight sight.now }
    ensures { IfOk result (λ view. view ≡ roll-NodeView (scratch_space sight.now.tree.now windows.now)) }
{
    let output = short_text(alloc, "__i3")?;
    let name = short_text(alloc, "__i3_scratch")?;
    let mut view = laid(alloc, SCRATCH_SPACE, name, "workspace", Layout::SplitH)?;
    set_space(&mut view, -1, output, false);
    set_place(&mut view, NOWHERE, false, has_urgent(sight, windows));
    Ok(view)
}

/// Adds the scratchpad's output over its workspace.
fn push_output(
    views: &mut Vec<NodeView>,
    alloc: Global,
    sight: &Sight<'_>,
    windows: &Cursor<'_>,
    spaces: List<NodeView>,
) -> Result<(), NoMemory>
    requires sight { IsSight sight.now }
    requires space { spaces ≡ scratch_view sight.now.tree.now sight.now.arrangement.now.parts windows.now ∷ [] }
    ensures { OnOk result (views.new.items ≡ views.old.items ++ roll-NodeView (scratch_output sight.now.tree.now sight.now.arrangement.now.parts windows.now) ∷ []) }
{
    let rows = output_rows(alloc, spaces)?;
    match output_alone(alloc, sight, windows) {
        Ok(view) => push_view(views, view, rows),
        Err(error) => {
            drop(rows);
            Err(error)
        }
    }
}

/// The rows of the scratchpad's output: its workspace.
fn output_rows(alloc: Global, spaces: List<NodeView>) -> Result<Rows, NoMemory>
    ensures nodes { IfOk result (λ rows. rows.nodes ≡ spaces) }
    ensures floating { IfOk result (λ rows. rows.floating ≡ []) }
    ensures focus { IfOk result (λ rows. rows.focus ≡ 4294967295 ∷ []) }
{
    match space_list(alloc) {
        Ok(focus) => Ok(Rows {
            nodes: spaces,
            floating: List::of(Vec::new(alloc)),
            focus,
        }),
        Err(error) => {
            drop(spaces);
            Err(error)
        }
    }
}

fn space_list(alloc: Global) -> Result<List<u32>, NoMemory>
    ensures { IfOk result (λ ids. ids ≡ 4294967295 ∷ []) }
{
    let mut ids = Vec::new(alloc);
    ids.push(SCRATCH_SPACE)?;
    Ok(List::of(ids))
}

/// The scratchpad's output, without its workspace.
fn output_alone(
    alloc: Global,
    sight: &Sight<'_>,
    windows: &Cursor<'_>,
) -> Result<NodeView, NoMemory>
    requires { IsSight sight.now }
    ensures { IfOk result (λ view. view ≡ roll-NodeView (record (scratch_output sight.now.tree.now sight.now.arrangement.now.parts windows.now) { nodes = []; focus = [] })) }
{
    let shown = short_text(alloc, "__i3_scratch")?;
    let name = short_text(alloc, "__i3")?;
    let mut view = outlined(alloc, SCRATCH_OUTPUT, name, shown)?;
    set_output(&mut view, false, false);
    set_place(&mut view, NOWHERE, false, has_urgent(sight, windows));
    Ok(view)
}

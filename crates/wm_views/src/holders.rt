//! The views of workspaces and outputs with all that is below them.
ghost use Rattle.std.specs.Prelude.{◌≡◌, ◌++◌, [], true, IfOk, OnOk};
ghost use Rattle.wm_forest.specs.Look.{first_floats, first_kids, output_kind, space_kind};
ghost use Rattle.wm_forest.specs.SoundRow.{containers, outputs, spaces};
ghost use Rattle.wm_json.specs.declared.views.NodeView.TheViews.{roll-NodeView};
ghost use Rattle.wm_views.specs.Maps.{area};
ghost use Rattle.wm_views.specs.Nodes.{cons, output_node, output_nodes, outputs_under, over_floats, over_kids, space_nodes, spaces_under};
ghost use Rattle.wm_views.specs.Recency.{least_place, placed_row, put_nodes};
ghost use Rattle.wm_views.specs.Rows.{IsKids, IsPlaced, IsRowAt};
ghost use Rattle.wm_views.specs.Sight.{IsSight};

use crate::cons::space_view;
use crate::nodes::outlined;
use crate::order::least_place;
use crate::outputs::name_in;
use crate::placing::place_nodes;
use crate::rows::{Below, list_node, push_over};
use crate::setting::{set_output, set_place};
use crate::sight::Sight;
use crate::spaces::has_urgent;
use crate::walk::{over_floats, over_kids, push_cons};
use std::alloc::Global;
use wm_base::{ConId, NoMemory};
use wm_json::NodeView;
use wm_tree::{Cursor, NodeKind, OutputPart, Part};

/// Adds the workspaces of an output, puts their ids in at their places, and tells the least place of an id in the row
/// or below it.
#[tactic(auto, using(crate::proofs::RowLemmas::space_kids, crate::proofs::RowLemmas::space_floats, crate::proofs::RowLemmas::space_rest, crate::proofs::PlaceLemmas::least_start))]
fn push_spaces(
    views: &mut Vec<NodeView>,
    placed: &mut Vec<(usize, u32)>,
    alloc: Global,
    sight: &Sight<'_>,
    output: &OutputPart,
    row: Cursor<'_>,
) -> Result<usize, NoMemory>
    requires sight { IsSight sight.now }
    requires sound { IsRowAt spaces row }
    ensures views { OnOk result (views.new.items ≡ views.old.items ++ spaces_under sight.now.tree.now sight.now.arrangement.now.parts output.now row.entry) }
    ensures placed { OnOk result (placed.new.items ≡ put_nodes (placed_row sight.now.tree.now.recency row.entry) placed.old.items) }
    ensures least { IfOk result (λ least. least ≡ least_place sight.now.tree.now.recency row.entry) }
{
    let mut nodes = Vec::new(alloc);
    let mut least = sight.tree.recent_ids().len();
    let mut left = row;
    while let Some(part) = left.part() {
        let (kids, floats) = push_space(views, alloc, sight, output, part, &left)?;
        least = least.min(list_node(&mut nodes, sight, part.id, kids, floats)?);
        left = left.rest();
    }
    place_nodes(placed, alloc, nodes)?;
    Ok(least)
}

/// Adds the row's first node over its children and floating windows, where it is a workspace, and tells the least places
/// of an id among both.
fn push_space(
    views: &mut Vec<NodeView>,
    alloc: Global,
    sight: &Sight<'_>,
    output: &OutputPart,
    part: &Part,
    row: &Cursor<'_>,
) -> Result<(usize, usize), NoMemory>
    requires sight { IsSight sight.now }
    requires kids { IsKids (first_kids row.now) }
    requires floats { IsRowAt containers (first_floats row.now) }
    ensures views { OnOk result (views.new.items ≡ views.old.items ++ space_nodes sight.now.tree.now sight.now.arrangement.now.parts output.now part.now (space_kind part.now.kind) (first_kids row.now) (first_floats row.now)) }
    ensures least_kid { IfOk result (λ least. least.0 ≡ least_place sight.now.tree.now.recency (first_kids row.now)) }
    ensures least_float { IfOk result (λ least. least.1 ≡ least_place sight.now.tree.now.recency (first_floats row.now)) }
{
    let NodeKind::Space(space) = &part.kind else {
        return Ok((
            least_place(sight, row.kids()),
            least_place(sight, row.floats()),
        ));
    };
    let mut below = Below::new(alloc);
    let least = fill_below(&mut below, alloc, sight, part.id, row)?;
    match space_view(
        alloc,
        sight,
        output,
        part,
        space,
        &row.kids(),
        &row.floats(),
    ) {
        Ok(view) => {
            push_over(views, alloc, view, below)?;
            Ok(least)
        }
        Err(error) => {
            drop(below);
            Err(error)
        }
    }
}

/// Adds the children and floating windows of the row's first node, a workspace, and tells the least places of an id
/// among both.
#[tactic(auto, using(crate::proofs::RowLemmas::kids_row))]
fn fill_below(
    below: &mut Below,
    alloc: Global,
    sight: &Sight<'_>,
    id: ConId,
    row: &Cursor<'_>,
) -> Result<(usize, usize), NoMemory>
    requires sight { IsSight sight.now }
    requires kids { IsKids (first_kids row.now) }
    requires floats { IsRowAt containers (first_floats row.now) }
    requires no_kids { below.old.kids.items ≡ [] }
    requires no_floats { below.old.floats.items ≡ [] }
    requires none_placed { below.old.placed.items ≡ [] }
    ensures kids { OnOk result (below.new.kids.items ≡ cons sight.now.tree.now sight.now.arrangement.now.parts (over_kids sight.now.arrangement.now.parts id (first_kids row.now)) (first_kids row.now)) }
    ensures floats { OnOk result (below.new.floats.items ≡ cons sight.now.tree.now sight.now.arrangement.now.parts (over_floats (area sight.now.arrangement.now.parts id)) (first_floats row.now)) }
    ensures placed { OnOk result (IsPlaced sight.now.tree.now.recency (first_kids row.now) (first_floats row.now) below.new) }
    ensures least_kid { IfOk result (λ least. least.0 ≡ least_place sight.now.tree.now.recency (first_kids row.now)) }
    ensures least_float { IfOk result (λ least. least.1 ≡ least_place sight.now.tree.now.recency (first_floats row.now)) }
{
    let over = over_floats(sight.area(id));
    let least_float = push_cons(
        &mut below.floats,
        &mut below.placed,
        alloc,
        sight,
        &over,
        row.floats(),
    )?;
    let over = over_kids(sight, id, &row.kids());
    let least_kid = push_cons(
        &mut below.kids,
        &mut below.placed,
        alloc,
        sight,
        &over,
        row.kids(),
    )?;
    Ok((least_kid, least_float))
}

/// Adds the outputs of a row, the first of which is the primary one, and puts their ids in at their places.
#[tactic(auto, using(crate::proofs::RowLemmas::output_kids, crate::proofs::RowLemmas::output_rest))]
pub fn push_outputs(
    views: &mut Vec<NodeView>,
    placed: &mut Vec<(usize, u32)>,
    alloc: Global,
    sight: &Sight<'_>,
    row: Cursor<'_>,
) -> Result<(), NoMemory>
    requires sight { IsSight sight.now }
    requires sound { IsRowAt outputs row }
    ensures views { OnOk result (views.new.items ≡ views.old.items ++ outputs_under sight.now.tree.now sight.now.arrangement.now.parts true row.entry) }
    ensures placed { OnOk result (placed.new.items ≡ put_nodes (placed_row sight.now.tree.now.recency row.entry) placed.old.items) }
{
    let mut nodes = Vec::new(alloc);
    let mut first = true;
    let mut left = row;
    while let Some(part) = left.part() {
        let kids = push_output(views, alloc, sight, first, part, &left)?;
        let floats = least_place(sight, left.floats());
        list_node(&mut nodes, sight, part.id, kids, floats)?;
        first = false;
        left = left.rest();
    }
    place_nodes(placed, alloc, nodes)
}

/// Adds the row's first node over its workspaces, where it is an output, and tells the least place of an id among these.
fn push_output(
    views: &mut Vec<NodeView>,
    alloc: Global,
    sight: &Sight<'_>,
    first: bool,
    part: &Part,
    row: &Cursor<'_>,
) -> Result<usize, NoMemory>
    requires sight { IsSight sight.now }
    requires sound { IsRowAt spaces (first_kids row.now) }
    ensures views { OnOk result (views.new.items ≡ views.old.items ++ output_nodes sight.now.tree.now sight.now.arrangement.now.parts first part.now (output_kind part.now.kind) (first_kids row.now)) }
    ensures least { IfOk result (λ least. least ≡ least_place sight.now.tree.now.recency (first_kids row.now)) }
{
    let NodeKind::Output(output) = &part.kind else {
        return Ok(least_place(sight, row.kids()));
    };
    let mut below = Below::new(alloc);
    let least = push_spaces(
        &mut below.kids,
        &mut below.placed,
        alloc,
        sight,
        output,
        row.kids(),
    )?;
    match output_view(alloc, sight, first, part, output, row) {
        Ok(view) => {
            push_over(views, alloc, view, below)?;
            Ok(least)
        }
        Err(error) => {
            drop(below);
            Err(error)
        }
    }
}

/// The row's first node, an output, without its workspaces' views.
fn output_view(
    alloc: Global,
    sight: &Sight<'_>,
    first: bool,
    part: &Part,
    output: &OutputPart,
    row: &Cursor<'_>,
) -> Result<NodeView, NoMemory>
    requires { IsSight sight.now }
    ensures { IfOk result (λ view. view ≡ roll-NodeView (output_node sight.now.tree.now first part.now output.now (first_kids row.now))) }
{
    let shown = name_in(alloc, output.shown, row.kids())?;
    let name = output.name.clone()?;
    let mut view = outlined(alloc, part.id.0, name, shown)?;
    set_output(&mut view, true, first);
    set_place(
        &mut view,
        output.rect,
        false,
        has_urgent(sight, &row.kids()),
    );
    Ok(view)
}

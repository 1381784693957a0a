//! The arrangement: the shares of a tree as rectangles in whole pixels.
ghost use Rattle.std.specs.Prelude.{◌≡◌, ◌≤◌, ◌++◌, true, IfOk, IfSome, OnOk};
ghost use Rattle.std.specs.Option.{option_or};
ghost use Rattle.wm_arrange.specs.Areas.{edges_of, some_area, IsArea, IsFitMargins};
ghost use Rattle.wm_base.specs.declared.geometry.Rect.{Rect};
ghost use Rattle.wm_base.specs.declared.ids.ConId.{ConId};
ghost use Rattle.wm_base.specs.Rect.{inset};
ghost use Rattle.wm_arrange.specs.Arranged.{arranged, first_space, fullscreen_in, is_fullscreen, on_space, output_parts, outputs_parts, tiled_parts};
ghost use Rattle.wm_arrange.specs.Choices.{KnowsFirst, KnowsNode, KnowsOutputs};
ghost use Rattle.wm_arrange.specs.Maps.{value_at};
ghost use Rattle.wm_arrange.specs.CoverTree.{inner_at, tiled_at, IsOfSplits, LeavesCover};
ghost use Rattle.wm_arrange.specs.Gaps.{ground};
ghost use Rattle.wm_arrange.specs.Scene.{seen, IsScene};
ghost use Rattle.wm_arrange.specs.Slots.{IsFloatRow, IsTiledRow};
ghost use Rattle.wm_forest.specs.Counts.{row_length};
ghost use Rattle.wm_forest.specs.Look.{first_floats, first_kids, first_part, kind_by, output_kind};
ghost use Rattle.wm_forest.specs.SoundRow.{outputs, spaces, IsOutputRect, IsSoundRow};
ghost use Rattle.wm_tree.specs.Sound.{IsSound};

use crate::areas::{Margins, trim};
use crate::children::{place_floats, place_kids};
use crate::choosing::choices;
use crate::listing::id_set;
use crate::parts::{Arrangement, Placed, PlacedPart};
use crate::placing::place;
use crate::rows::row_from;
use crate::scene::Scene;
use std::alloc::Global;
use wm_base::{ConId, Edges, List, NoMemory, Rect};
use wm_tree::{Cursor, NodeKind, OutputPart, SpacePart, Tree};

/// The arrangement of a tree. With no inner gap, the areas of the windows and placeholders below a tiled container or
/// workspace cover its area, no pixel twice, where it and each split below it have a child and the layout splith or
/// splitv.
pub fn arrange(alloc: Global, tree: &Tree) -> Result<Arrangement, NoMemory>
    requires { IsSound tree.now }
    ensures parts { IfOk result (λ arrangement. arrangement.parts ≡ arranged tree.now) }
    ensures covers { (c : ConId) → inner_at c (first_kids tree.now.nodes) ≡ 0 → IsOfSplits (tiled_at c (first_kids tree.now.nodes)) →
        IfOk result (λ arrangement. LeavesCover (tiled_at c (first_kids tree.now.nodes)) c arrangement.parts) }
{
    let chosen = choices(alloc, tree)?;
    let urgent = id_set(alloc, tree.urgent_ids())?;
    let scene = Scene {
        alloc,
        tree,
        focused: tree.focused(),
        chosen: &chosen,
        urgent: &urgent,
        inner: 0,
    };
    let mut parts = Vec::new(alloc);
    place_outputs(&mut parts, &scene, tree.nodes().kids())?;
    Ok(Arrangement {
        parts: List::of(parts),
    })
}

/// Places the workspaces that a row of outputs shows, in order.
fn place_outputs(
    parts: &mut Vec<Placed>,
    scene: &Scene<'_>,
    row: Cursor<'_>,
) -> Result<(), NoMemory>
    requires scene { IsScene scene.now }
    requires sound { IsSoundRow outputs true 32 row }
    requires known { KnowsOutputs (value_at scene.now.chosen.now) scene.now.tree.now.recency row }
    ensures { OnOk result (parts.new.items ≡ parts.old.items ++ outputs_parts scene.now.tree.now scene.now.focused row.entry) }
{
    let mut left = row;
    while let Some(_) = left.part() {
        place_output(parts, scene, &left)?;
        left = left.rest();
    }
    Ok(())
}

/// Places the workspace that the first output of the row shows.
fn place_output(
    parts: &mut Vec<Placed>,
    scene: &Scene<'_>,
    row: &Cursor<'_>,
) -> Result<(), NoMemory>
    requires scene { IsScene scene.now }
    requires sound { IsSoundRow outputs true 32 row.now }
    requires known { KnowsOutputs (value_at scene.now.chosen.now) scene.now.tree.now.recency row.now }
    ensures { OnOk result (parts.new.items ≡ parts.old.items ++ output_parts scene.now.tree.now scene.now.focused (kind_by output_kind (first_part row.now)) (first_kids row.now)) }
{
    let Some(part) = row.part() else {
        return Ok(());
    };
    let NodeKind::Output(output) = &part.kind else {
        return Ok(());
    };
    let space = row_from(row.kids(), output.shown);
    place_space(parts, scene, output, &space)
}

/// Places the first workspace of the row, which the output shows.
fn place_space(
    parts: &mut Vec<Placed>,
    scene: &Scene<'_>,
    output: &OutputPart,
    row: &Cursor<'_>,
) -> Result<(), NoMemory>
    requires scene { IsScene scene.now }
    requires sound { IsSoundRow spaces true 32 row.now }
    requires known { KnowsFirst (value_at scene.now.chosen.now) scene.now.tree.now.recency row.now }
    requires placed { IsOutputRect output.now.rect }
    ensures { OnOk result (parts.new.items ≡ parts.old.items ++ first_space scene.now.tree.now scene.now.focused output.now row.now) }
{
    let Some(part) = row.part() else {
        return Ok(());
    };
    let NodeKind::Space(space) = &part.kind else {
        return Ok(());
    };
    place(parts, part.id, PlacedPart::Back, output.rect)?;
    let scene = Scene {
        inner: space.inner,
        ..*scene
    };
    place_on_space(parts, &scene, output, part.id, space, row)
}

/// Places what stands on a workspace: its fullscreen window, or else its area with its children, and its floating
/// windows.
fn place_on_space(
    parts: &mut Vec<Placed>,
    scene: &Scene<'_>,
    output: &OutputPart,
    id: ConId,
    space: &SpacePart,
    row: &Cursor<'_>,
) -> Result<(), NoMemory>
    requires scene { IsScene scene.now }
    requires few { row_length (first_kids row.now) ≤ 256 }
    requires sound { IsTiledRow (first_kids row.now) }
    requires known { KnowsNode (value_at scene.now.chosen.now) scene.now.tree.now.recency id space.now.layout (first_kids row.now) }
    requires floats { IsFloatRow (first_floats row.now) }
    requires placed { IsOutputRect output.now.rect }
    ensures { OnOk result (parts.new.items ≡ parts.old.items ++
        on_space (seen scene.now) output.now id space.now (first_kids row.now) (first_floats row.now)
        (option_or (fullscreen_in (first_kids row.now)) (fullscreen_in (first_floats row.now)))) }
{
    if let Some(window) = fullscreen_in(row.kids()).or(fullscreen_in(row.floats())) {
        return place(parts, window, PlacedPart::Content, output.rect);
    }
    let ground = ground(output.rect, output.reserved, space.outer, space.inner);
    place_tiled(parts, scene, id, space, ground, row)?;
    place_floats(parts, scene, row.floats())
}

/// Places the area of the row's first node, a workspace, and its children in it, unless it is empty.
fn place_tiled(
    parts: &mut Vec<Placed>,
    scene: &Scene<'_>,
    id: ConId,
    space: &SpacePart,
    ground: Option<Rect>,
    row: &Cursor<'_>,
) -> Result<(), NoMemory>
    requires scene { IsScene scene.now }
    requires few { row_length (first_kids row.now) ≤ 256 }
    requires sound { IsTiledRow (first_kids row.now) }
    requires known { KnowsNode (value_at scene.now.chosen.now) scene.now.tree.now.recency id space.now.layout (first_kids row.now) }
    requires area { IfSome ground (λ area. IsArea area) }
    ensures { OnOk result (parts.new.items ≡ parts.old.items ++ tiled_parts (seen scene.now) id space.now (first_kids row.now) ground) }
{
    let Some(area) = ground else {
        return Ok(());
    };
    place(parts, id, PlacedPart::Area, area)?;
    place_kids(parts, scene, id, space.layout, area, row)
}

/// The area of a workspace: the output's rectangle without the reserved edges, then without the outer and the inner
/// gap along all sides. `None` where it is empty.
fn ground(rect: Rect, reserved: Edges, outer: u32, inner: u32) -> Option<Rect>
    requires { IsOutputRect rect }
    ensures value { result ≡ some_area (ground rect reserved outer inner) }
    ensures area { IfSome result (λ area. IsArea area) }
{
    trim(rect, ground_margins(reserved, outer, inner))
}

/// What the area of a workspace lacks of the output's rectangle: the reserved edges, and the gaps along all sides.
pub fn ground_margins(reserved: Edges, outer: u32, inner: u32) -> Margins
    ensures value { (rect : Rect) → inset rect (edges_of result) ≡ ground rect reserved outer inner }
    ensures fit { IsFitMargins result }
{
    let gap = u64::from(outer) + u64::from(inner);
    Margins {
        top: u64::from(reserved.top) + gap,
        right: u64::from(reserved.right) + gap,
        bottom: u64::from(reserved.bottom) + gap,
        left: u64::from(reserved.left) + gap,
    }
}

/// The first fullscreen window of the row, at any depth.
fn fullscreen_in(row: Cursor<'_>) -> Option<ConId>
    ensures { result ≡ fullscreen_in row.entry }
{
    let mut left = row;
    while let Some(part) = left.part() {
        if is_fullscreen(&part.kind) {
            return Some(part.id);
        }
        if let Some(window) = fullscreen_in(left.kids()) {
            return Some(window);
        }
        if let Some(window) = fullscreen_in(left.floats()) {
            return Some(window);
        }
        left = left.rest();
    }
    None
}

/// Whether the node is a fullscreen window.
fn is_fullscreen(kind: &NodeKind) -> bool
    ensures { result ≡ is_fullscreen kind.now }
{
    match kind {
        NodeKind::Root { .. } | NodeKind::Output(_) | NodeKind::Space(_) => false,
        NodeKind::Con(con) => con.state.fullscreen && con.kind.is_window(),
    }
}

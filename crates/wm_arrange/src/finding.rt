//! Finding the area of a workspace or container, whether it is shown or not.
ghost use Rattle.std.specs.Prelude.{◌≡◌, ◌+◌, ◌≤◌, true};
ghost use Rattle.wm_arrange.specs.AreaOf.{area_among, area_in_output, area_in_outputs, area_in_space, area_in_spaces, area_of, area_on, as_area};
ghost use Rattle.wm_arrange.specs.Areas.{IsArea};
ghost use Rattle.wm_arrange.specs.Gaps.{ground};
ghost use Rattle.wm_arrange.specs.Lots.{area_from, HasLots};
ghost use Rattle.wm_arrange.specs.Slots.{IsTiledRow};
ghost use Rattle.wm_forest.specs.Counts.{row_length, share_sum};
ghost use Rattle.wm_forest.specs.SoundRow.{outputs, spaces, IsOutputRect, IsSoundRow};
ghost use Rattle.wm_tree.specs.Sound.{IsSound};

use crate::areas::keep;
use crate::arranging::ground_margins;
use crate::children::Stretch;
use crate::lots::{Lots, layout_of, lots_for};
use crate::rows::is_end;
use wm_base::{ConId, Edges, Rect};
use wm_tree::{Cursor, NodeKind, OutputPart, SpacePart, Tree};

/// The area of a workspace or tiled container, as if its workspace were shown without a fullscreen window, and each
/// container on the way to it were the focused child. It has no pixels, at 0,0, where the id names no such node.
pub fn area_of(tree: &Tree, con: ConId) -> Rect
    requires { IsSound tree.now }
    ensures { result ≡ area_of tree.now con }
{
    match in_outputs(con, tree.nodes().kids()) {
        Some(area) => area,
        None => Rect {
            x: 0,
            y: 0,
            w: 0,
            h: 0,
        },
    }
}

/// The area on one of a row of outputs.
fn in_outputs(con: ConId, row: Cursor<'_>) -> Option<Rect>
    requires { IsSoundRow outputs true 32 row }
    ensures { result ≡ area_in_outputs con row.entry }
{
    let mut left = row;
    while let Some(part) = left.part() {
        if let NodeKind::Output(output) = &part.kind {
            if let Some(area) = in_spaces(con, output, left.kids()) {
                return Some(area);
            }
        }
        left = left.rest();
    }
    None
}

/// The area in one of a row of workspaces.
fn in_spaces(con: ConId, output: &OutputPart, row: Cursor<'_>) -> Option<Rect>
    requires sound { IsSoundRow spaces true 32 row }
    requires placed { IsOutputRect output.now.rect }
    ensures { result ≡ area_in_spaces con output.now row.entry }
{
    let mut left = row;
    while let Some(part) = left.part() {
        if let NodeKind::Space(space) = &part.kind {
            let ground = ground(output.rect, output.reserved, space.outer, space.inner);
            if let Some(area) = on_space(con, part.id, space, left.kids(), ground) {
                return Some(area);
            }
        }
        left = left.rest();
    }
    None
}

/// The area of a workspace, at 0,0 where it has no pixels.
fn ground(rect: Rect, reserved: Edges, outer: u32, inner: u32) -> Rect
    requires { IsOutputRect rect }
    ensures value { result ≡ as_area (ground rect reserved outer inner) }
    ensures area { IsArea result }
{
    keep(rect, ground_margins(reserved, outer, inner))
}

/// The area in a workspace on which the children stand in this area.
fn on_space(con: ConId, id: ConId, space: &SpacePart, kids: Cursor<'_>, area: Rect) -> Option<Rect>
    requires few { row_length kids ≤ 256 }
    requires sound { IsTiledRow kids }
    requires area { IsArea area }
    ensures { result ≡ area_on con id space.now kids.entry area }
{
    if id == con {
        return Some(area);
    }
    let lots = lots_for(space.layout, area, &kids);
    among(con, space.inner, lots, kids)
}

/// The area among the nodes of a row and below them.
fn among(con: ConId, inner: u32, lots: Lots, row: Cursor<'_>) -> Option<Rect>
    requires few { share_sum row ≤ 268435456 }
    requires sound { IsTiledRow row }
    requires fit { HasLots lots (share_sum row) }
    ensures { result ≡ area_from inner con lots true 0 row.entry }
{
    let mut first = true;
    let mut before = 0;
    let mut left = row;
    while let Some(part) = left.part() {
        let (kids, rest) = (left.kids(), left.rest());
        let after = before + u64::from(part.kind.share());
        let child = Stretch {
            first,
            last: is_end(&rest),
            before,
            after,
        };
        let area = lots.area(inner, child);
        if part.id == con {
            return Some(area);
        }
        let below = lots_for(layout_of(&part.kind), area, &kids);
        if let Some(found) = among(con, inner, below, kids) {
            return Some(found);
        }
        first = false;
        before = after;
        left = rest;
    }
    None
}

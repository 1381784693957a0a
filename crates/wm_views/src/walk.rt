//! The views of rows of containers, each with what is below it.
ghost use Rattle.std.specs.Prelude.{◌≡◌, ◌++◌, IfOk, OnOk};
ghost use Rattle.wm_forest.specs.Look.{con_kind, first_kids};
ghost use Rattle.wm_forest.specs.SoundRow.{containers};
ghost use Rattle.wm_views.specs.Nodes.{con_views, cons, over_floats, over_kids};
ghost use Rattle.wm_views.specs.Recency.{least_place, placed_row, put_nodes};
ghost use Rattle.wm_views.specs.Rows.{IsKids, IsRowAt};
ghost use Rattle.wm_views.specs.Sight.{IsSight};

use crate::cons::{Above, con_view};
use crate::order::least_place;
use crate::placing::place_nodes;
use crate::rows::{Below, list_node, push_over};
use crate::sight::Sight;
use std::alloc::Global;
use wm_base::{ConId, NoMemory, Rect};
use wm_json::NodeView;
use wm_tree::{Cursor, NodeKind, Part};

/// What stands above the children of a node.
pub fn over_kids(sight: &Sight<'_>, id: ConId, kids: &Cursor<'_>) -> Above
    requires sight { IsSight sight.now }
    requires kids { IsKids kids.now }
    ensures { result ≡ over_kids sight.now.arrangement.now.parts id kids.now }
{
    Above {
        rect: sight.area(id),
        shares: kids.share_sum() as u32,
        floating: false,
    }
}

/// What stands above floating windows that are within this rectangle.
pub fn over_floats(rect: Rect) -> Above
    ensures { result ≡ over_floats rect }
{
    Above {
        rect,
        shares: 0,
        floating: true,
    }
}

/// Adds the containers of a row, puts their ids in at their places, and tells the least place of an id in the row or
/// below it.
#[cycle(cons)]
#[tactic(auto, using(crate::proofs::RowLemmas::con_kids, crate::proofs::RowLemmas::con_rest, crate::proofs::PlaceLemmas::least_start))]
pub fn push_cons(
    views: &mut Vec<NodeView>,
    placed: &mut Vec<(usize, u32)>,
    alloc: Global,
    sight: &Sight<'_>,
    above: &Above,
    row: Cursor<'_>,
) -> Result<usize, NoMemory>
    requires sight { IsSight sight.now }
    requires sound { IsRowAt containers row }
    ensures views { OnOk result (views.new.items ≡ views.old.items ++ cons sight.now.tree.now sight.now.arrangement.now.parts above.now row.entry) }
    ensures placed { OnOk result (placed.new.items ≡ put_nodes (placed_row sight.now.tree.now.recency row.entry) placed.old.items) }
    ensures least { IfOk result (λ least. least ≡ least_place sight.now.tree.now.recency row.entry) }
{
    let mut nodes = Vec::new(alloc);
    let mut least = sight.tree.recent_ids().len();
    let mut left = row;
    while let Some(part) = left.part() {
        let kids = push_con(views, alloc, sight, above, part, &left)?;
        let floats = least_place(sight, left.floats());
        least = least.min(list_node(&mut nodes, sight, part.id, kids, floats)?);
        left = left.rest();
    }
    place_nodes(placed, alloc, nodes)?;
    Ok(least)
}

/// Adds the row's first node over its children, where it is a container, and tells the least place of an id among
/// these.
#[cycle(cons)]
#[tactic(auto, using(crate::proofs::RowLemmas::kids_row))]
fn push_con(
    views: &mut Vec<NodeView>,
    alloc: Global,
    sight: &Sight<'_>,
    above: &Above,
    part: &Part,
    row: &Cursor<'_>,
) -> Result<usize, NoMemory>
    requires sight { IsSight sight.now }
    requires sound { IsKids (first_kids row.now) }
    ensures views { OnOk result (views.new.items ≡ views.old.items ++ con_views sight.now.tree.now sight.now.arrangement.now.parts above.now part.now (con_kind part.now.kind) (first_kids row.now)
        (cons sight.now.tree.now sight.now.arrangement.now.parts (over_kids sight.now.arrangement.now.parts part.now.id (first_kids row.now)) (first_kids row.now))) }
    ensures least { IfOk result (λ least. least ≡ least_place sight.now.tree.now.recency (first_kids row.now)) }
{
    let NodeKind::Con(con) = &part.kind else {
        return Ok(least_place(sight, row.kids()));
    };
    let kids = row.kids();
    let over = over_kids(sight, part.id, &kids);
    let mut below = Below::new(alloc);
    let least = push_cons(
        &mut below.kids,
        &mut below.placed,
        alloc,
        sight,
        &over,
        row.kids(),
    )?;
    match con_view(alloc, sight, above, part, con, &kids) {
        Ok(view) => {
            push_over(views, alloc, view, below)?;
            Ok(least)
        }
        Err(error) => {
            drop(below);
            Err(error)
        }
    }
}

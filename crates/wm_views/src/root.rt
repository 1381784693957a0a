//! The view of a whole tree: the root over the scratchpad and the outputs.
ghost use Rattle.std.specs.Prelude.{◌≡◌, ◌∷◌, [], codes, IfOk, OnOk, true};
ghost use Rattle.wm_forest.specs.Look.{first_floats, first_kids};
ghost use Rattle.wm_forest.specs.SoundRow.{containers, outputs};
ghost use Rattle.wm_json.specs.declared.views.NodeView.TheViews.{roll-NodeView};
ghost use Rattle.wm_tree.specs.Sound.{IsSound};
ghost use Rattle.wm_views.specs.Nodes.{outputs_under, plain, root_node, scratch_output, tree_view};
ghost use Rattle.wm_views.specs.Recency.{least_place, placed_row, put_nodes};
ghost use Rattle.wm_views.specs.Rows.{IsRowAt};
ghost use Rattle.wm_views.specs.Sight.{IsSight};

use crate::holders::push_outputs;
use crate::nodes::plain;
use crate::rows::{Below, place_node};
use crate::scratchpad::{SCRATCH_OUTPUT, push_scratchpad};
use crate::setting::{set_place, set_rows};
use crate::sight::Sight;
use crate::spaces::has_urgent;
use std::alloc::Global;
use wm_arrange::Arrangement;
use wm_base::{NOWHERE, NoMemory, short_text};
use wm_json::NodeView;
use wm_tree::{Cursor, Part, Tree};

/// The tree with its arrangement: the root over the scratchpad and the outputs, with all that is below them.
/// Rectangles are in pixels.
pub fn tree_view(alloc: Global, t: &Tree, a: &Arrangement) -> Result<NodeView, NoMemory>
    requires { IsSound t.now }
    ensures { IfOk result (λ view. view ≡ tree_view t.now a.now.parts) }
{
    let sight = Sight::new(alloc, t, a)?;
    whole_view(alloc, &sight)
}

#[tactic(auto, using(crate::proofs::RowLemmas::tree_outputs, crate::proofs::RowLemmas::tree_scratchpad))]
fn whole_view(alloc: Global, sight: &Sight<'_>) -> Result<NodeView, NoMemory>
    requires sight { IsSight sight.now }
    requires sound { IsSound sight.now.tree.now }
    ensures { IfOk result (λ view. view ≡ tree_view sight.now.tree.now sight.now.arrangement.now.parts) }
{
    let nodes = sight.tree.nodes();
    match nodes.part() {
        Some(part) => root_view(alloc, sight, part, &nodes),
        None => plain(alloc, 1, short_text(alloc, "root")?, "root"),
    }
}

/// The row's first node, the root, over its outputs and the scratchpad.
fn root_view(
    alloc: Global,
    sight: &Sight<'_>,
    part: &Part,
    row: &Cursor<'_>,
) -> Result<NodeView, NoMemory>
    requires sight { IsSight sight.now }
    requires kids { IsRowAt outputs (first_kids row.now) }
    requires windows { IsRowAt containers (first_floats row.now) }
    ensures { IfOk result (λ view. view ≡ roll-NodeView (root_node sight.now.tree.now sight.now.arrangement.now.parts part.now (first_kids row.now) (first_floats row.now))) }
{
    let mut below = Below::new(alloc);
    fill_root(&mut below, alloc, sight, row)?;
    root_over(alloc, sight, part, &row.kids(), &row.floats(), below)
}

/// Adds the scratchpad's output and the outputs, where the row's first node is the root.
fn fill_root(
    below: &mut Below,
    alloc: Global,
    sight: &Sight<'_>,
    row: &Cursor<'_>,
) -> Result<(), NoMemory>
    requires sight { IsSight sight.now }
    requires kids { IsRowAt outputs (first_kids row.now) }
    requires windows { IsRowAt containers (first_floats row.now) }
    requires no_kids { below.old.kids.items ≡ [] }
    requires no_floats { below.old.floats.items ≡ [] }
    requires none_placed { below.old.placed.items ≡ [] }
    ensures kids { OnOk result (below.new.kids.items ≡ roll-NodeView (scratch_output sight.now.tree.now sight.now.arrangement.now.parts (first_floats row.now)) ∷ outputs_under sight.now.tree.now sight.now.arrangement.now.parts true (first_kids row.now)) }
    ensures floats { OnOk result (below.new.floats.items ≡ []) }
    ensures placed { OnOk result (below.new.placed.items ≡ put_nodes ((least_place sight.now.tree.now.recency (first_floats row.now), 4294967294) ∷ placed_row sight.now.tree.now.recency (first_kids row.now)) []) }
{
    let least = push_scratchpad(&mut below.kids, alloc, sight, row)?;
    push_outputs(&mut below.kids, &mut below.placed, alloc, sight, row.kids())?;
    place_node(&mut below.placed, (least, SCRATCH_OUTPUT))
}

/// The root over what is below it.
fn root_over(
    alloc: Global,
    sight: &Sight<'_>,
    part: &Part,
    row: &Cursor<'_>,
    windows: &Cursor<'_>,
    below: Below,
) -> Result<NodeView, NoMemory>
    requires sight { IsSight sight.now }
    requires kids { below.kids.items ≡ roll-NodeView (scratch_output sight.now.tree.now sight.now.arrangement.now.parts windows.now) ∷ outputs_under sight.now.tree.now sight.now.arrangement.now.parts true row.now }
    requires floats { below.floats.items ≡ [] }
    requires placed { below.placed.items ≡ put_nodes ((least_place sight.now.tree.now.recency windows.now, 4294967294) ∷ placed_row sight.now.tree.now.recency row.now) [] }
    ensures { IfOk result (λ view. view ≡ roll-NodeView (root_node sight.now.tree.now sight.now.arrangement.now.parts part.now row.now windows.now)) }
{
    let rows = below.rows(alloc)?;
    let urgent = has_urgent(sight, row) || has_urgent(sight, windows);
    match root_alone(alloc, part.id.0) {
        Ok(mut view) => {
            set_place(&mut view, NOWHERE, false, urgent);
            set_rows(&mut view, rows);
            Ok(view)
        }
        Err(error) => {
            drop(rows);
            Err(error)
        }
    }
}

fn root_alone(alloc: Global, id: u32) -> Result<NodeView, NoMemory>
    ensures { IfOk result (λ view. view ≡ roll-NodeView (plain id (codes "root") (codes "root"))) }
{
    let name = short_text(alloc, "root")?;
    plain(alloc, id, name, "root")
}

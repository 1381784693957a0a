//! Placing the children of containers: beside each other by their shares, or one of them alone.
ghost use Rattle.std.specs.Prelude.{◌≡◌, ◌+◌, ◌≤◌, ◌++◌, [], true, IfSome, OnOk, option_and_then};
ghost use Rattle.wm_arrange.specs.Areas.{edges_of, near_area, IsArea, IsFitMargins};
ghost use Rattle.wm_arrange.specs.Arranged.{floats_parts, kids_parts, rect_of, row_parts, shown_parts, standing};
ghost use Rattle.wm_arrange.specs.Choices.{row_layout, KnowsNode, KnowsRow};
ghost use Rattle.wm_arrange.specs.Maps.{value_at};
ghost use Rattle.wm_arrange.specs.Gaps.{gap_after, gap_before, gaps};
ghost use Rattle.wm_arrange.specs.Scene.{seen, IsScene};
ghost use Rattle.wm_arrange.specs.Slots.{own_in, parts_from, slot_between, HasSlots, IsFloatRow, IsTiledRow};
ghost use Rattle.wm_forest.specs.Change.{is_id};
ghost use Rattle.wm_forest.specs.Counts.{row_length, share_sum};
ghost use Rattle.wm_forest.specs.Look.{first_kids};

use crate::areas::{Margins, below, cut_between, near_area, trim};
use crate::borders::place_window;
use crate::parts::{Placed, PlacedPart};
use crate::placing::place;
use crate::rows::{count, is_end};
use crate::scene::Scene;
use crate::titles::{TITLE_HEIGHT, place_kids_titles, place_own_title};
use wm_base::{Axis, ConId, Layout, NoMemory, Rect};
use wm_tree::{ConKind, Cursor, NodeKind, Part};

/// How the children of a container stand in its area: beside each other along an axis, their shares having this sum,
/// or one of them alone below the titles.
#[derive(Clone, Copy, Debug)]
pub enum Slots {
    Beside {
        axis: Axis,
        area: Rect,
        total: u64,
    },
    Alone {
        area: Option<Rect>,
        chosen: Option<ConId>,
    },
}

/// A child among its siblings: whether it is the first and the last one, and the sums of the shares before it and
/// with its own.
#[derive(Clone, Copy, Debug)]
pub struct Stretch {
    pub first: bool,
    pub last: bool,
    pub before: u64,
    pub after: u64,
}

impl Slots {
    /// The area of the child. `None` where it is not shown, or its area is empty.
    fn slot(self, inner: u32, child: Stretch, id: ConId) -> Option<Rect>
        requires rising { child.before ≤ child.after }
        requires fit { HasSlots self child.after }
        ensures value { result ≡ slot_between inner self child.first child.last child.before child.after id }
        ensures area { IfSome result (λ area. IsArea area) }
    {
        match self {
            Slots::Beside { axis, area, total } => {
                let cut = cut_between(axis, area, child.before, child.after, total);
                trim(cut, gaps(axis, inner, child.first, child.last))
            }
            Slots::Alone { area, chosen } => { if is_id(id, chosen) { area } else { None } }
        }
    }

    /// Whether the children's windows have titles of their own.
    fn own(self) -> bool
        ensures { result ≡ own_in self }
    {
        match self {
            Slots::Beside { .. } => true,
            Slots::Alone { .. } => false,
        }
    }
}

/// What a child loses for the inner gap: the half before it is rounded up, and the half behind it down.
pub fn gaps(axis: Axis, inner: u32, first: bool, last: bool) -> Margins
    ensures value { edges_of result ≡ gaps axis inner first last }
    ensures fit { IsFitMargins result }
{
    let before = u64::from(gap_before(inner, first));
    let after = u64::from(gap_after(inner, last));
    match axis {
        Axis::Across => Margins {
            top: 0,
            right: after,
            bottom: 0,
            left: before,
        },
        Axis::Down => Margins {
            top: before,
            right: 0,
            bottom: after,
            left: 0,
        },
    }
}

fn gap_before(inner: u32, first: bool) -> u32
    ensures { result ≡ gap_before inner first }
{
    if first { 0 } else { inner - inner / 2 }
}

fn gap_after(inner: u32, last: bool) -> u32
    ensures { result ≡ gap_after inner last }
{
    if last { 0 } else { inner / 2 }
}

fn is_id(id: ConId, chosen: Option<ConId>) -> bool
    ensures { result ≡ is_id id chosen }
{
    match chosen {
        None => false,
        Some(chosen) => id == chosen,
    }
}

/// How the children of a container with this layout stand in its area.
fn standing(scene: &Scene<'_>, id: ConId, layout: Layout, area: Rect, kids: &Cursor<'_>) -> Slots
    requires few { row_length kids.now ≤ 256 }
    requires sound { IsTiledRow kids.now }
    requires known { KnowsNode (value_at scene.now.chosen.now) scene.now.tree.now.recency id layout kids.now }
    requires area { IsArea area }
    ensures parts { parts_from (seen scene.now) result true 0 kids.now ≡ row_parts (seen scene.now) (standing scene.now.tree.now.recency layout area kids.now) 0 kids.now }
    ensures fit { HasSlots result (share_sum kids.now) }
    ensures few { share_sum kids.now ≤ 268435456 }
{
    let total = kids.share_sum();
    match layout {
        Layout::SplitH => Slots::Beside {
            axis: Axis::Across,
            area,
            total,
        },
        Layout::SplitV => Slots::Beside {
            axis: Axis::Down,
            area,
            total,
        },
        Layout::Tabbed => Slots::Alone {
            area: below(TITLE_HEIGHT, area),
            chosen: scene.chosen.get(id.0).copied(),
        },
        Layout::Stacked => Slots::Alone {
            area: below(TITLE_HEIGHT * count(kids), area),
            chosen: scene.chosen.get(id.0).copied(),
        },
    }
}

/// Places the children of the row's first node, a container with this layout, in its area: their titles, then what
/// they have.
#[cycle(place)]
pub fn place_kids(
    parts: &mut Vec<Placed>,
    scene: &Scene<'_>,
    id: ConId,
    layout: Layout,
    area: Rect,
    row: &Cursor<'_>,
) -> Result<(), NoMemory>
    requires scene { IsScene scene.now }
    requires few { row_length (first_kids row.now) ≤ 256 }
    requires sound { IsTiledRow (first_kids row.now) }
    requires known { KnowsNode (value_at scene.now.chosen.now) scene.now.tree.now.recency id layout (first_kids row.now) }
    requires area { IsArea area }
    ensures { OnOk result (parts.new.items ≡ parts.old.items ++ kids_parts (seen scene.now) (first_kids row.now) area layout) }
{
    place_kids_titles(parts, scene, layout, area, row)?;
    let kids = row.kids();
    let slots = standing(scene, id, layout, area, &kids);
    place_row(parts, scene, slots, kids)
}

/// Places the children of a row.
#[cycle(place)]
fn place_row(
    parts: &mut Vec<Placed>,
    scene: &Scene<'_>,
    slots: Slots,
    row: Cursor<'_>,
) -> Result<(), NoMemory>
    requires scene { IsScene scene.now }
    requires few { share_sum row ≤ 268435456 }
    requires sound { IsTiledRow row }
    requires known { KnowsRow (value_at scene.now.chosen.now) scene.now.tree.now.recency row }
    requires fit { HasSlots slots (share_sum row) }
    ensures { OnOk result (parts.new.items ≡ parts.old.items ++ parts_from (seen scene.now) slots true 0 row.entry) }
{
    let mut first = true;
    let mut before = 0;
    let mut left = row;
    while let Some(part) = left.part() {
        let rest = left.rest();
        let after = before + u64::from(part.kind.share());
        let child = Stretch {
            first,
            last: is_end(&rest),
            before,
            after,
        };
        let slot = slots.slot(scene.inner, child, part.id);
        place_child(parts, scene, slots.own(), part, slot, &left)?;
        first = false;
        before = after;
        left = rest;
    }
    Ok(())
}

/// Places the child that is the row's first node in its area, where it is shown, with what it has there.
#[cycle(place)]
fn place_child(
    parts: &mut Vec<Placed>,
    scene: &Scene<'_>,
    own: bool,
    part: &Part,
    slot: Option<Rect>,
    row: &Cursor<'_>,
) -> Result<(), NoMemory>
    requires scene { IsScene scene.now }
    requires few { row_length (first_kids row.now) ≤ 256 }
    requires sound { IsTiledRow (first_kids row.now) }
    requires known { KnowsNode (value_at scene.now.chosen.now) scene.now.tree.now.recency part.now.id (row_layout part.now.kind) (first_kids row.now) }
    requires area { IfSome slot (λ area. IsArea area) }
    ensures { OnOk result (parts.new.items ≡ parts.old.items ++
        shown_parts (seen scene.now) own part.now (first_kids row.now) (kids_parts (seen scene.now) (first_kids row.now)) slot) }
{
    let Some(area) = slot else {
        return Ok(());
    };
    place(parts, part.id, PlacedPart::Area, area)?;
    let NodeKind::Con(con) = &part.kind else {
        return Ok(());
    };
    let border = con.state.border;
    let kids = row.kids();
    match con.kind {
        ConKind::Split { layout, .. } => place_kids(parts, scene, part.id, layout, area, row),
        ConKind::Window { .. } => place_window(parts, scene, own, part, &kids, border, area),
        ConKind::Placeholder { .. } => {
            place_own_title(parts, scene, own, part, &kids, border, area)
        }
    }
}

/// Places floating windows, in order.
#[tactic(auto, using(crate::proofs::TreeLemmas::float_kids, crate::proofs::TreeLemmas::float_rest))]
pub fn place_floats(
    parts: &mut Vec<Placed>,
    scene: &Scene<'_>,
    floats: Cursor<'_>,
) -> Result<(), NoMemory>
    requires scene { IsScene scene.now }
    requires sound { IsFloatRow floats }
    ensures { OnOk result (parts.new.items ≡ parts.old.items ++ floats_parts (seen scene.now) floats.entry) }
{
    let mut row = floats;
    while let Some(part) = row.part() {
        place_float(parts, scene, part, &row.kids())?;
        row = row.rest();
    }
    Ok(())
}

/// Places a floating window at its outer rectangle.
fn place_float(
    parts: &mut Vec<Placed>,
    scene: &Scene<'_>,
    part: &Part,
    kids: &Cursor<'_>,
) -> Result<(), NoMemory>
    requires scene { IsScene scene.now }
    requires few { row_length kids.now ≤ 256 }
    ensures { OnOk result (parts.new.items ≡ parts.old.items ++
        shown_parts (seen scene.now) true part.now kids.now (λ area layout. []) (option_and_then near_area (rect_of part.now.kind))) }
{
    let NodeKind::Con(con) = &part.kind else {
        return Ok(());
    };
    let Some(rect) = con.state.rect else {
        return Ok(());
    };
    let Some(area) = near_area(rect) else {
        return Ok(());
    };
    place(parts, part.id, PlacedPart::Area, area)?;
    let border = con.state.border;
    match con.kind {
        ConKind::Window { .. } => place_window(parts, scene, true, part, kids, border, area),
        ConKind::Placeholder { .. } => {
            place_own_title(parts, scene, true, part, kids, border, area)
        }
        ConKind::Split { .. } => Ok(()),
    }
}

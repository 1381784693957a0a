//! The areas of all children of a container, whether they are shown or not.
ghost use Rattle.std.specs.Prelude.{◌≡◌, ◌+◌, ◌≤◌, ℕ, true};
ghost use Rattle.wm_base.specs.declared.ids.ConId.{ConId};
ghost use Rattle.wm_arrange.specs.AreaOf.{area_among, con_layout, layout_of};
ghost use Rattle.wm_arrange.specs.Areas.{IsArea};
ghost use Rattle.wm_arrange.specs.Lots.{area_from, lot_between, HasLots};
ghost use Rattle.wm_arrange.specs.Slots.{IsTiledRow};
ghost use Rattle.wm_forest.specs.Counts.{row_length, share_sum};

use crate::areas::{cut_between, keep, keep_below};
use crate::children::{Stretch, gaps};
use crate::rows::count;
use crate::titles::TITLE_HEIGHT;
use wm_base::{Axis, Layout, Rect};
use wm_tree::{ConKind, Cursor, NodeKind};

/// Where the children of a container have their areas: beside each other along an axis, their shares having this sum,
/// or each in what the titles leave.
#[derive(Clone, Copy, Debug)]
pub enum Lots {
    Beside { axis: Axis, area: Rect, total: u64 },
    Below { area: Rect },
}

impl Lots {
    /// The area of the child.
    pub fn area(self, inner: u32, child: Stretch) -> Rect
        requires rising { child.before ≤ child.after }
        requires fit { HasLots self child.after }
        ensures value { result ≡ lot_between inner self child.first child.last child.before child.after }
        ensures area { IsArea result }
    {
        match self {
            Lots::Beside { axis, area, total } => {
                let cut = cut_between(axis, area, child.before, child.after, total);
                keep(cut, gaps(axis, inner, child.first, child.last))
            }
            Lots::Below { area } => area,
        }
    }
}

/// Where the children of a container with this layout have their areas.
pub fn lots_for(layout: Layout, area: Rect, kids: &Cursor<'_>) -> Lots
    requires few { row_length kids.now ≤ 256 }
    requires sound { IsTiledRow kids.now }
    requires area { IsArea area }
    ensures among { (inner : ℕ) (c : ConId) → area_from inner c result true 0 kids.now ≡ area_among inner c layout area kids.now 0 kids.now }
    ensures fit { HasLots result (share_sum kids.now) }
    ensures few { share_sum kids.now ≤ 268435456 }
{
    let total = kids.share_sum();
    match layout {
        Layout::SplitH => Lots::Beside {
            axis: Axis::Across,
            area,
            total,
        },
        Layout::SplitV => Lots::Beside {
            axis: Axis::Down,
            area,
            total,
        },
        Layout::Tabbed => Lots::Below {
            area: keep_below(TITLE_HEIGHT, area),
        },
        Layout::Stacked => Lots::Below {
            area: keep_below(TITLE_HEIGHT * count(kids), area),
        },
    }
}

/// The layout of a split.
pub fn layout_of(kind: &NodeKind) -> Layout
    ensures { result ≡ layout_of kind.now }
{
    match kind {
        NodeKind::Root { .. } | NodeKind::Output(_) | NodeKind::Space(_) => Layout::SplitH,
        NodeKind::Con(con) => con_layout(&con.kind),
    }
}

pub fn con_layout(kind: &ConKind) -> Layout
    ensures { result ≡ con_layout kind.now }
{
    match kind {
        ConKind::Split { layout, .. } => *layout,
        ConKind::Window { .. } | ConKind::Placeholder { .. } => Layout::SplitH,
    }
}

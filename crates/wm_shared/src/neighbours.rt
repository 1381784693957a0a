//! The axis of a layout and of a direction, and the neighbours in a row.
ghost use Rattle.std.specs.Prelude.{◌≡◌};
ghost use Rattle.wm_shared.specs.Neighbours.{after, axis_of, before, dir_axis, first_id, is_forward, last_id, neighbour, runs};

use wm_base::{Axis, ConId, Dir, Layout};
use wm_tree::{ConKind, Cursor, NodeKind};

/// The axis along which a layout puts its children.
pub fn layout_axis(layout: Layout) -> Axis
    ensures { result ≡ axis_of layout }
{
    match layout {
        Layout::SplitH | Layout::Tabbed => Axis::Across,
        Layout::SplitV | Layout::Stacked => Axis::Down,
    }
}

/// The axis of a direction.
pub fn dir_axis(d: Dir) -> Axis
    ensures { result ≡ dir_axis d }
{
    match d {
        Dir::Left | Dir::Right => Axis::Across,
        Dir::Up | Dir::Down => Axis::Down,
    }
}

/// Whether a workspace or split puts its children along the axis.
pub fn runs(axis: Axis, kind: &NodeKind) -> bool
    ensures { result ≡ runs axis kind.now }
{
    match kind {
        NodeKind::Root { .. } | NodeKind::Output(_) => false,
        NodeKind::Space(space) => layout_axis(space.layout) == axis,
        NodeKind::Con(con) => match con.kind {
            ConKind::Split { layout, .. } => layout_axis(layout) == axis,
            ConKind::Window { .. } | ConKind::Placeholder { .. } => false,
        },
    }
}

/// Whether the direction is towards the end of a row.
pub fn is_forward(d: Dir) -> bool
    ensures { result ≡ is_forward d }
{
    match d {
        Dir::Left | Dir::Up => false,
        Dir::Right | Dir::Down => true,
    }
}

/// The node's neighbour in the row on that side.
pub fn neighbour(d: Dir, con: ConId, row: &Cursor<'_>) -> Option<ConId>
    ensures { result ≡ neighbour d con row.now }
{
    if is_forward(d) {
        after(row, con)
    } else {
        before(row, con)
    }
}

/// The first node of the row.
pub fn first_id(row: &Cursor<'_>) -> Option<ConId>
    ensures { result ≡ first_id row.now }
{
    Some(row.part()?.id)
}

/// The last node of the row.
pub fn last_id(row: Cursor<'_>) -> Option<ConId>
    ensures { result ≡ last_id row.entry }
{
    let mut last = None;
    let mut row = row;
    while let Some(part) = row.part() {
        last = Some(part.id);
        row = row.rest();
    }
    last
}

/// The node after this one in the row.
fn after(row: &Cursor<'_>, con: ConId) -> Option<ConId>
    ensures { result ≡ after con row.now }
{
    let mut id = row.part()?.id;
    let mut rest = row.rest();
    'nodes: while id != con {
        id = rest.part()?.id;
        rest = rest.rest();
    }
    first_id(&rest)
}

/// The node before this one in the row.
fn before(row: &Cursor<'_>, con: ConId) -> Option<ConId>
    ensures { result ≡ before con row.now }
{
    let mut id = row.part()?.id;
    let mut rest = row.rest();
    while let Some(next) = rest.part() {
        if next.id == con {
            return Some(id);
        }
        id = next.id;
        rest = rest.rest();
    }
    None
}

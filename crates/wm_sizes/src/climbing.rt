//! Climbing from a container to the nearest node above it whose children stand along an axis.
ghost use Rattle.std.specs.Prelude.{◌≡◌, true, false, MatchOption};
ghost use Rattle.wm_forest.specs.Look.{first_kids, has, only};
ghost use Rattle.wm_sizes.specs.Climbing.{climb, has_two, rung_at, rung_of, side_axis};

use wm_base::{Axis, ConId};
use wm_language::Side;
use wm_shared::{dir_axis, runs};
use wm_tree::{Cursor, Part, Tree};

/// A node with two or more children along an axis, and which of them is a container or holds it.
#[derive(Clone, Copy, Debug, PartialEq, Eq)]
pub struct Rung {
    pub parent: ConId,
    pub node: ConId,
}

/// A row's node that is a container or holds it, and the nearest rung above the container.
#[derive(Clone, Copy, Debug, PartialEq, Eq)]
pub struct Climbed {
    pub child: ConId,
    pub rung: Option<Rung>,
}

/// The axis along which a side moves.
pub(crate) fn side_axis(side: Side) -> Axis
    ensures { result ≡ side_axis side }
{
    match side {
        Side::Width => Axis::Across,
        Side::Height => Axis::Down,
        Side::At(d) => dir_axis(d),
    }
}

/// Whether the row has two or more nodes.
fn has_two(row: Cursor<'_>) -> bool
    ensures { result ≡ has_two row.entry }
{
    row.rest().part().is_some()
}

/// The rung of a node, one of whose children is the container or holds it.
fn rung_at(axis: Axis, part: &Part, kids: Cursor<'_>, node: ConId) -> Option<Rung>
    ensures { result ≡ rung_at axis part.now kids.entry node }
{
    if runs(axis, &part.kind) && has_two(kids) {
        Some(Rung {
            parent: part.id,
            node,
        })
    } else {
        None
    }
}

/// The node of the row that is the container or holds it, with the nearest rung. `None` exactly where the container is
/// not here.
fn climb(mut row: Cursor<'_>, con: ConId, axis: Axis) -> Option<Climbed>
    ensures { result ≡ climb axis con row.entry }
{
    while let Some(part) = row.part() {
        if part.id == con {
            return Some(Climbed {
                child: con,
                rung: None,
            });
        }
        if let Some(below) = climb(row.kids(), con, axis) {
            let rung = below.rung.or(rung_at(axis, part, row.kids(), below.child));
            return Some(Climbed {
                child: part.id,
                rung,
            });
        }
        if let Some(below) = climb(row.floats(), con, axis) {
            return Some(Climbed {
                child: part.id,
                rung: below.rung,
            });
        }
        row = row.rest();
    }
    None
}

/// The nearest rung above the container along the axis.
pub(crate) fn rung_of(t: &Tree, con: ConId, axis: Axis) -> Option<Rung>
    ensures { result ≡ rung_of axis con t.now }
{
    climb(t.nodes(), con, axis)?.rung
}

/// The children of a node. `None` exactly where it is not here.
pub(crate) fn kids_in<'a>(mut row: Cursor<'a>, id: ConId) -> Option<Cursor<'a>>
    ensures { MatchOption result (has id row.entry ≡ false) (λ kids. (has id row.entry ≡ true) × (kids ≡ first_kids (only id row.entry))) }
{
    while let Some(part) = row.part() {
        if part.id == id {
            return Some(row.kids());
        }
        if let Some(kids) = kids_in(row.kids(), id) {
            return Some(kids);
        }
        if let Some(kids) = kids_in(row.floats(), id) {
            return Some(kids);
        }
        row = row.rest();
    }
    None
}

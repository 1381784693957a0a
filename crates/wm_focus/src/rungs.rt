//! Climbing from a container along the nodes that hold it.
ghost use Rattle.std.specs.Prelude.{◌≡◌};
ghost use Rattle.wm_focus.specs.Rungs.{aimed, far_end, rung};
ghost use Rattle.wm_shared.specs.Neighbours.{after, axis_of, before, dir_axis, first_id, is_forward, last_id, neighbour};
ghost use Rattle.wm_focus.specs.Walks.{climbed, further, ways};
ghost use Rattle.wm_forest.specs.Look.{first_kids};

use wm_base::{ConId, Dir};
use wm_shared::{dir_axis, first_id, is_forward, last_id, neighbour, runs};
use wm_tree::{ConKind, Cursor, NodeKind};

/// What is looked for at a node along the axis of a direction: the neighbour on that side of the child that holds a
/// container, the child at the other end, or that child itself.
#[derive(Clone, Copy, Debug, PartialEq, Eq)]
pub enum Aim {
    Beside,
    Around,
    Out,
}

/// What is found in a direction above a container, at the nearest node that has it: a neighbour on that side, the child
/// at the other end, and the child itself.
#[derive(Clone, Copy, Debug, PartialEq, Eq)]
pub struct Ways {
    pub beside: Option<ConId>,
    pub around: Option<ConId>,
    pub out: Option<ConId>,
}

/// A row's node that is a container or holds it, and what is found above the container.
#[derive(Clone, Copy, Debug, PartialEq, Eq)]
pub struct Climbed {
    pub child: ConId,
    pub ways: Ways,
}

/// Where nothing is found.
const NO_WAYS: Ways = Ways {
    beside: None,
    around: None,
    out: None,
};

/// What is found in a direction above the container.
pub(crate) fn ways_above(row: Cursor<'_>, con: ConId, d: Dir) -> Ways
    ensures { result ≡ ways d con row.entry }
{
    match climb(row, con, d) {
        Some(climbed) => climbed.ways,
        None => NO_WAYS,
    }
}

/// The node of the row that is the container or holds it, with what is found below. `None` exactly where the container
/// is not here.
fn climb(mut row: Cursor<'_>, con: ConId, d: Dir) -> Option<Climbed>
    ensures { result ≡ climbed d con row.entry }
{
    while let Some(part) = row.part() {
        if part.id == con {
            return Some(Climbed {
                child: con,
                ways: NO_WAYS,
            });
        }
        if let Some(below) = climb(row.kids(), con, d) {
            let ways = further(below.ways, d, &part.kind, &row, below.child);
            return Some(Climbed {
                child: part.id,
                ways,
            });
        }
        if let Some(below) = climb(row.floats(), con, d) {
            return Some(Climbed {
                child: part.id,
                ways: below.ways,
            });
        }
        row = row.rest();
    }
    None
}

/// What was found further down, and else at the row's first node, which is of this kind.
fn further(found: Ways, d: Dir, kind: &NodeKind, row: &Cursor<'_>, child: ConId) -> Ways
    ensures { result ≡ further found d (rung kind.now (first_kids row.now) child) }
{
    Ways {
        beside: found
            .beside
            .or(aimed(Aim::Beside, d, kind, row.kids(), child)),
        around: found
            .around
            .or(aimed(Aim::Around, d, kind, row.kids(), child)),
        out: found.out.or(aimed(Aim::Out, d, kind, row.kids(), child)),
    }
}

/// What is found at a node of this kind with these children, one of which holds the container.
pub(crate) fn aimed(
    aim: Aim,
    d: Dir,
    kind: &NodeKind,
    row: Cursor<'_>,
    child: ConId,
) -> Option<ConId>
    ensures { result ≡ aimed aim d (rung kind.now row.entry child) }
{
    if !runs(dir_axis(d), kind) {
        return None;
    }
    match aim {
        Aim::Beside => neighbour(d, child, &row),
        Aim::Around => far_end(d, row),
        Aim::Out => Some(child),
    }
}

/// The node at the other end than that of the direction, in a row of two or more.
fn far_end(d: Dir, row: Cursor<'_>) -> Option<ConId>
    ensures { result ≡ far_end d row.entry }
{
    row.rest().part()?;
    if is_forward(d) {
        first_id(&row)
    } else {
        last_id(row)
    }
}

//! Where a node stands in the tree.
ghost use Rattle.std.specs.Prelude.{◌≡◌, is_some, true, false, None, Some, MatchOption};
ghost use Rattle.wm_forest.specs.Forest.{end};
ghost use Rattle.wm_forest.specs.Look.{has, only};
ghost use Rattle.wm_forest.specs.Row.{alone};
ghost use Rattle.wm_forest.specs.Spot.{holder_by, spot_below, spot_of, spot_in, space_at, room_below, fits};

use crate::part::{NodeKind, Part};
use crate::row::{Cell, Row};
use wm_base::ConId;

/// How many levels there may be below a workspace.
pub(crate) const MAX_DEPTH: u32 = 32;

/// Where a node stands: the node that holds it, its workspace, whether it is in a row of children, and how many
/// levels its row may have. A workspace's own is its workspace.
#[derive(Clone, Copy, Debug, PartialEq, Eq)]
pub struct Spot {
    pub holder: Option<ConId>,
    pub space: Option<ConId>,
    pub tiled: bool,
    pub room: u32,
}

/// The row of the root.
pub const TOP: Spot = Spot {
    holder: None,
    space: None,
    tiled: false,
    room: 0,
};

impl Spot {
    /// Where a node of a row stands.
    fn of(self, part: &Part) -> Spot
        ensures { result ≡ spot_of self part.now }
    {
        Spot {
            space: part.space_at(self.space),
            ..self
        }
    }

    /// Where the children of a node stand (tiled), or its floating windows.
    pub(crate) fn below(self, tiled: bool, part: &Part) -> Spot
        ensures { result ≡ spot_below tiled self part.now }
    {
        Spot {
            holder: holder(tiled, part),
            space: part.space_at(self.space),
            tiled,
            room: room_below(self.room, &part.kind),
        }
    }
}

impl Part {
    /// The workspace of the node, whose row is in that one, or in none.
    pub fn space_at(&self, space: Option<ConId>) -> Option<ConId>
        ensures { result ≡ space_at space self.now }
    {
        match self.kind {
            NodeKind::Space(_) => Some(self.id),
            NodeKind::Root { .. } | NodeKind::Output(_) | NodeKind::Con(_) => space,
        }
    }
}

/// What holds the children of a node (tiled), or its floating windows. Nothing holds the windows in the scratchpad.
fn holder(tiled: bool, part: &Part) -> Option<ConId>
    ensures { result ≡ holder_by tiled part.now.id part.now.kind }
{
    match part.kind {
        NodeKind::Root { .. } if !tiled => None,
        NodeKind::Root { .. } | NodeKind::Output(_) | NodeKind::Space(_) | NodeKind::Con(_) => {
            Some(part.id)
        }
    }
}

/// How many levels there may be below a node of a row that may have so many.
pub fn room_below(room: u32, kind: &NodeKind) -> u32
    ensures { result ≡ room_below room kind.now }
{
    match kind {
        NodeKind::Root { .. } | NodeKind::Output(_) | NodeKind::Space(_) => MAX_DEPTH,
        NodeKind::Con(_) => room.saturating_sub(1),
    }
}

impl Row {
    /// Where the node stands; `row` tells it of this row. `None` exactly where it is not here.
    pub fn spot(&self, row: Spot, id: ConId) -> Option<Spot>
        ensures value { result ≡ spot_in row id self.now }
        ensures there { is_some result ≡ has id self.now }
    {
        let (_, spot) = self.stand(row, id)?;
        Some(spot)
    }

    /// The cell of the node, and where it stands; `row` tells it of this row.
    pub fn stand(&self, row: Spot, id: ConId) -> Option<(&Cell, Spot)>
        ensures { MatchOption result
            ((has id self.now ≡ false) × (only id self.now ≡ end) × (spot_in row id self.now ≡ None))
            (λ found. (has id self.now ≡ true) × (only id self.now ≡ alone found.0.now) × (spot_in row id self.now ≡ Some found.1)) }
    {
        let mut left = self;
        while let Some(cell) = &left.first {
            if cell.part.id == id {
                return Some((cell, row.of(&cell.part)));
            }
            if !cell.kids.is_end()
                && let Some(found) = cell.kids.stand(row.below(true, &cell.part), id)
            {
                return Some(found);
            }
            if !cell.floats.is_end()
                && let Some(found) = cell.floats.stand(row.below(false, &cell.part), id)
            {
                return Some(found);
            }
            left = &cell.rest;
        }
        None
    }

    /// Whether the row and what is below it have at most so many levels.
    pub fn fits(&self, room: u32) -> bool
        ensures { result ≡ fits room self.now }
    {
        let mut row = self;
        while let Some(cell) = &row.first {
            if room == 0 || !cell.kids.fits(room - 1) || !cell.floats.fits(room - 1) {
                return false;
            }
            row = &cell.rest;
        }
        true
    }
}

impl Cell {
    /// Whether the node and what is below it have at most so many levels.
    pub fn fits(&self, room: u32) -> bool
        ensures { result ≡ fits room (alone self.now) }
    {
        room > 0 && self.kids.fits(room - 1) && self.floats.fits(room - 1)
    }
}

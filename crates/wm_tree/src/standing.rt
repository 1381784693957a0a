//! What a node is and where it stands, at one look.
ghost use Rattle.std.specs.Prelude.{◌≡◌};
ghost use Rattle.wm_forest.specs.Look.{has, only};
ghost use Rattle.wm_tree.specs.Standing.{IsSpotted, IsStanding};
ghost use Rattle.wm_tree.specs.TreeValue.{is_tiled_con};

use crate::tree::Tree;
use wm_base::ConId;
use wm_forest::{ConPart, NodeKind, SpacePart, Spot, TOP};

/// A container on a workspace, what holds it, and whether it is tiled or floats.
#[derive(Clone, Copy, Debug)]
pub struct Placed<'a> {
    pub part: &'a ConPart,
    pub holder: Option<ConId>,
    pub space: ConId,
    pub tiled: bool,
}

/// What a node is: the root or an output, a workspace, a container on a workspace, or one in the scratchpad. There a
/// window floats, and what a split holds is tiled.
#[derive(Clone, Copy, Debug)]
pub enum Standing<'a> {
    Above,
    Space(&'a SpacePart),
    Placed(Placed<'a>),
    Away(&'a ConPart, bool),
}

impl Tree {
    /// What the node is and where it stands. `None` exactly where the id is not in the tree.
    pub fn standing(&self, con: ConId) -> Option<Standing<'_>>
        ensures { IsStanding result con self.now }
    {
        let (cell, spot) = self.nodes.stand(TOP, con)?;
        match cell.part.kind {
            NodeKind::Root { .. } | NodeKind::Output(_) => Some(Standing::Above),
            NodeKind::Space(ref part) => Some(Standing::Space(part)),
            NodeKind::Con(ref part) => Some(container_at(spot, part)),
        }
    }

    /// Whether the node b is the node a or below it.
    pub fn is_within(&self, a: ConId, b: ConId) -> bool
        ensures { result ≡ has b (only a self.now.nodes) }
    {
        match self.nodes.find(a) {
            Some(cell) => cell.holds(b),
            None => false,
        }
    }

    /// Whether this is a tiled container.
    pub fn is_tiled(&self, con: ConId) -> bool
        ensures { result ≡ is_tiled_con self.now con }
    {
        match self.nodes.stand(TOP, con) {
            Some((cell, spot)) => cell.part.kind.is_con() && spot.tiled,
            None => false,
        }
    }
}

/// A container that stands there.
fn container_at(spot: Spot, part: &ConPart) -> Standing<'_>
    ensures { IsSpotted result part.now spot }
{
    let Spot {
        holder,
        space,
        tiled,
        ..
    } = spot;
    match space {
        Some(space) => Standing::Placed(Placed {
            part,
            holder,
            space,
            tiled,
        }),
        None => Standing::Away(part, tiled),
    }
}

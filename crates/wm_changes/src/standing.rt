//! Where the nodes of a row stand.
ghost use Rattle.std.specs.Prelude.{◌≡◌, ◌≤◌, IsTrue, true, false};
ghost use Rattle.wm_changes.specs.Differing.{IsFirst, IsNarrowNode, node_windows};
ghost use Rattle.wm_changes.specs.Facts.{IsNarrow, float_standing, kid_standing, top, window_here};
ghost use Rattle.wm_forest.specs.Counts.{row_length, share_sum};
ghost use Rattle.wm_forest.specs.Focus.{tiled_by};
ghost use Rattle.wm_forest.specs.Look.{con_kind, rest_of};
ghost use Rattle.wm_forest.specs.Spot.{holder_by, space_at};

use wm_base::ConId;
use wm_tree::{Cursor, NodeKind, Part, Tree};

/// Where the nodes of a row stand: the node that holds them, which in the scratchpad is none, their workspace, the
/// sum of their shares, and whether they float.
#[derive(Clone, Copy, Debug)]
pub struct Standing {
    pub holder: Option<ConId>,
    pub space: Option<ConId>,
    pub shares: u32,
    pub floating: bool,
}

/// A row of nodes, or what is left of it, with where its nodes stand.
#[derive(Drop)]
pub struct StandingRow<'a> {
    pub standing: Standing,
    pub row: Cursor<'a>,
}

/// A node with where it stands and the rows below it.
#[derive(Drop)]
pub struct StandingNode<'a> {
    pub standing: Standing,
    pub part: &'a Part,
    pub kids: Cursor<'a>,
    pub floats: Cursor<'a>,
}

/// The row of the root: nothing holds it, and it is no row of children.
const TOP: Standing = Standing {
    holder: None,
    space: None,
    shares: 0,
    floating: true,
};

impl<'a> StandingRow<'a> {
    /// The row of the root of a tree.
    pub fn top(tree: &'a Tree) -> StandingRow<'a>
        ensures { result ≡ record { standing = top; row = tree.now.nodes } }
    {
        StandingRow {
            standing: TOP,
            row: tree.nodes(),
        }
    }

    /// The first node. `None` exactly where the row is at its end.
    #[tactic(auto, using(crate::proofs::RowLemmas::at_end, crate::proofs::RowLemmas::at_node))]
    pub fn first(&self) -> Option<StandingNode<'a>>
        ensures { IsFirst self.now result }
    {
        match self.row.part() {
            None => None,
            Some(part) => Some(StandingNode {
                standing: self.standing,
                part,
                kids: self.row.kids(),
                floats: self.row.floats(),
            }),
        }
    }

    /// The row behind the first node.
    pub fn rest(&self) -> StandingRow<'a>
        ensures { result ≡ record { standing = self.now.standing; row = rest_of self.now.row } }
    {
        StandingRow {
            standing: self.standing,
            row: self.row.rest(),
        }
    }

    /// Whether the second node has this id. A wrong answer would cost time alone.
    pub fn goes_on_with(&self, id: ConId) -> bool {
        match self.row.rest().part() {
            None => false,
            Some(part) => part.id == id,
        }
    }
}

impl<'a> StandingNode<'a> {
    /// Whether nothing stands below the node.
    #[tactic(auto, using(crate::proofs::RowLemmas::leaf_windows))]
    pub fn is_leaf(&self) -> bool
        ensures { IsTrue result → node_windows self.now ≡ window_here self.now.standing self.now.part.now (con_kind self.now.part.now.kind) }
    {
        self.kids.part().is_none() && self.floats.part().is_none()
    }

    /// The rows of a node's children and of its floating windows.
    pub fn below(self) -> (StandingRow<'a>, StandingRow<'a>)
        requires { IsNarrowNode self }
        ensures kids { result.0 ≡ record { standing = kid_standing self.entry.standing self.entry.part.now self.entry.kids; row = self.entry.kids } }
        ensures floats { result.1 ≡ record { standing = float_standing self.entry.standing self.entry.part.now; row = self.entry.floats } }
    {
        let kids = StandingRow {
            standing: kid_standing(self.standing, self.part, &self.kids),
            row: self.kids,
        };
        let floats = StandingRow {
            standing: float_standing(self.standing, self.part),
            row: self.floats,
        };
        (kids, floats)
    }
}

/// Where the children of a node stand.
fn kid_standing(above: Standing, part: &Part, kids: &Cursor<'_>) -> Standing
    requires length { row_length kids.now ≤ 256 }
    requires narrow { IsNarrow kids.now }
    ensures { result ≡ kid_standing above part.now kids.now }
{
    Standing {
        holder: Some(part.id),
        space: space_at(above.space, part),
        shares: shares(&part.kind, kids),
        floating: false,
    }
}

/// Where the floating windows of a node stand, or those of the scratchpad.
fn float_standing(above: Standing, part: &Part) -> Standing
    ensures { result ≡ float_standing above part.now }
{
    Standing {
        holder: float_holder(part),
        space: space_at(above.space, part),
        shares: 0,
        floating: true,
    }
}

/// What holds the floating windows of a node. Nothing holds those in the scratchpad.
fn float_holder(part: &Part) -> Option<ConId>
    ensures { result ≡ holder_by false part.now.id part.now.kind }
{
    match part.kind {
        NodeKind::Root { .. } => None,
        NodeKind::Output(_) | NodeKind::Space(_) | NodeKind::Con(_) => Some(part.id),
    }
}

/// The workspace of what is below a node.
fn space_at(space: Option<ConId>, part: &Part) -> Option<ConId>
    ensures { result ≡ space_at space part.now }
{
    match part.kind {
        NodeKind::Space(_) => Some(part.id),
        NodeKind::Root { .. } | NodeKind::Output(_) | NodeKind::Con(_) => space,
    }
}

/// The sum of the shares of a node's children, where they are tiled.
#[tactic(auto, using(crate::proofs::FactLemmas::narrow_sum))]
fn shares(kind: &NodeKind, kids: &Cursor<'_>) -> u32
    requires length { row_length kids.now ≤ 256 }
    requires narrow { IsNarrow kids.now }
    ensures { result ≡ share_sum (tiled_by kind.now kids.now) }
{
    match kind {
        NodeKind::Root { .. } | NodeKind::Output(_) => 0,
        NodeKind::Space(_) | NodeKind::Con(_) => kids.share_sum() as u32,
    }
}

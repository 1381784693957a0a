//! The lists of a tree, whole.
ghost use Rattle.std.specs.Prelude.{◌≡◌};
ghost use Rattle.wm_forest.specs.Look.{first_marks, only};
ghost use Rattle.wm_forest.specs.Recency.{lists, place_from};

use crate::recent::Recent;
use crate::tree::Tree;
use wm_base::{ConId, Text};
use wm_forest::recency;

impl Tree {
    /// The urgent windows in the order they became so.
    pub fn urgent_ids(&self) -> &[ConId]
        ensures { result.now ≡ self.now.urgent }
    {
        &self.urgent
    }

    /// Whether the window is among the urgent ones.
    pub fn is_urgent(&self, con: ConId) -> bool
        ensures { result ≡ lists con self.now.urgent }
    {
        lists(con, &self.urgent)
    }

    /// The ids of all workspaces and containers, the most recent first.
    pub fn recent_ids(&self) -> Recent<'_>
        ensures { result ≡ self.now.recency }
    {
        Recent::along(&self.recency)
    }

    /// The place of the id among them, from 0. `None` exactly where it is not there.
    pub fn recent_place(&self, con: ConId) -> Option<usize>
        ensures { result ≡ place_from 0 con self.now.recency }
    {
        recency::place(&self.recency, con)
    }

    /// The node's marks in the order they were added. There are none where the id is not in the tree.
    pub fn marks(&self, con: ConId) -> &[Text]
        ensures { result.now ≡ first_marks (only con self.now.nodes) }
    {
        match self.nodes.find(con) {
            Some(cell) => cell.part.marks.items(),
            None => &[],
        }
    }
}

/// Whether the id is among these.
fn lists(con: ConId, ids: &[ConId]) -> bool
    ensures { result ≡ lists con ids.now }
{
    let mut rest = ids;
    while let [id, after @ ..] = rest {
        if *id == con {
            return true;
        }
        rest = after;
    }
    false
}

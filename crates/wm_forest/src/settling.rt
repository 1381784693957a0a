//! Settling a row: taking out splits without children and workspaces without containers.
ghost use Rattle.std.specs.Prelude.{◌≡◌};
ghost use Rattle.wm_forest.specs.Change.{append, is_id, is_vacant, settled_row};
ghost use Rattle.wm_forest.specs.Passing.{kept_onto, taken_onto};
ghost use Rattle.wm_forest.specs.Settle.{is_settled, vacant_in, vacated};

use crate::part::NodeKind;
use crate::row::{Cell, Row};
use wm_base::ConId;

impl Cell {
    /// Whether the node is a split without children, or a workspace without containers that is not the one shown.
    fn is_vacant(&self, shown: Option<ConId>) -> bool
        ensures { result ≡ is_vacant shown self.now.part.id self.now.part.kind self.now.kids self.now.floats }
    {
        match &self.part.kind {
            NodeKind::Root { .. } | NodeKind::Output(_) => false,
            NodeKind::Space(_) => {
                self.kids.is_end() && self.floats.is_end() && !is_id(self.part.id, shown)
            }
            NodeKind::Con(con) => con.kind.is_split() && self.kids.is_end(),
        }
    }
}

fn is_id(id: ConId, other: Option<ConId>) -> bool
    ensures { result ≡ is_id id other }
{
    match other {
        None => false,
        Some(other) => id == other,
    }
}

impl Row {
    /// Whether no node is vacant, so that settling takes none out.
    pub fn is_settled(&self, shown: Option<ConId>) -> bool
        ensures { result ≡ is_settled shown self.now }
    {
        let mut row = self;
        while let Some(cell) = &row.first {
            if cell.is_vacant(shown) || !cell.kids.is_settled(cell.part.kind.shown()) {
                return false;
            }
            row = &cell.rest;
        }
        true
    }

    /// Removes splits without children and workspaces without containers, from below upwards, but for the workspace
    /// that the output shows on which the row stands. What is taken out comes before the nodes of `gone`.
    #[tactic(auto, using(crate::proofs::AppendLemmas::append_both))]
    pub fn settle(&mut self, shown: Option<ConId>, gone: &mut Row)
        ensures kept { self.new ≡ settled_row shown self.old }
        ensures taken { gone.new ≡ append (vacated shown self.old) gone.old }
    {
        let mut done = Row::new();
        while let Some(mut cell) = self.pop() {
            let below = cell.part.kind.shown();
            cell.kids.settle(below, gone);
            done.push(cell);
        }
        self.hang_settled(done, shown, gone);
    }

    /// Puts the nodes of a row, the last one first, before those of this one, or the vacant ones before `gone`.
    fn hang_settled(&mut self, mut done: Row, shown: Option<ConId>, gone: &mut Row)
        ensures kept { self.new ≡ kept_onto (vacant_in shown) done self.old }
        ensures taken { gone.new ≡ taken_onto (vacant_in shown) done gone.old }
    {
        while let Some(cell) = done.pop() {
            if cell.is_vacant(shown) {
                gone.push(cell);
            } else {
                self.push(cell);
            }
        }
    }
}

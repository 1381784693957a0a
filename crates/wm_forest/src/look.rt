//! Looking along rows: the nodes of a row by number, and the focused child and leaf by recency.
ghost use Rattle.std.specs.Prelude.{◌≡◌, MatchOption};
ghost use Rattle.wm_forest.specs.Forest.{end};
ghost use Rattle.wm_forest.specs.Look.{has, node_in, nth_id};
ghost use Rattle.wm_forest.specs.Recency.{first_held};
ghost use Rattle.wm_forest.specs.Row.{alone, row_of};
ghost use Rattle.wm_forest.specs.Focus.{focused_in, follow, leaf_at, row_holder};

use crate::recency;
use crate::row::{Cell, Row};
use wm_base::ConId;

impl Row {
    /// The cell of the node in this row itself. `None` exactly where it is not in the row.
    pub fn node(&self, id: ConId) -> Option<&Cell>
        ensures { MatchOption result (node_in id self.now ≡ end)
            (λ cell. node_in id self.now ≡ row_of cell.now) }
    {
        let mut row = self;
        while let Some(cell) = &row.first {
            if cell.part.id == id {
                return Some(cell);
            }
            row = &cell.rest;
        }
        None
    }

    /// The id of the row's node with this number, from 0. `None` exactly where there is none.
    pub fn nth(&self, number: u32) -> Option<ConId>
        ensures { result ≡ nth_id number self.now }
    {
        let (mut row, mut left) = (self, number);
        while let Some(cell) = &row.first {
            if left == 0 {
                return Some(cell.part.id);
            }
            row = &cell.rest;
            left -= 1;
        }
        None
    }

    /// The row's node that is this one or holds it.
    fn holder(&self, id: ConId) -> Option<ConId>
        ensures { result ≡ row_holder id self.now }
    {
        let mut row = self;
        while let Some(cell) = &row.first {
            if cell.holds(id) {
                return Some(cell.part.id);
            }
            row = &cell.rest;
        }
        None
    }

    /// The row's node that is the first by recency, by itself or what is below it.
    pub fn focused(&self, recency: &[ConId]) -> Option<ConId>
        ensures { result ≡ focused_in recency.now self.now }
    {
        let id = recency::first_held(recency, self)?;
        self.holder(id)
    }

    /// From the row's node that holds this one on, by the focused child until there is none.
    #[cycle(leaf)]
    pub fn leaf_at(&self, recency: &[ConId], id: ConId) -> ConId
        ensures { result ≡ leaf_at recency.now self.now id }
    {
        let mut row = self;
        while let Some(cell) = &row.first {
            if cell.holds(id) {
                return cell.leaf(recency);
            }
            row = &cell.rest;
        }
        id
    }
}

impl Cell {
    /// From this node on, by the focused child until there is none.
    #[cycle(leaf)]
    pub fn leaf(&self, recency: &[ConId]) -> ConId
        ensures { result ≡ follow self.now.part.id (leaf_at recency.now self.now.kids) (first_held self.now.kids recency.now) }
    {
        match recency::first_held(recency, &self.kids) {
            None => self.part.id,
            Some(id) => self.kids.leaf_at(recency, id),
        }
    }
}

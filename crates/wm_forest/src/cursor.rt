//! A walk over the nodes of a tree, row by row.
ghost use Rattle.std.specs.Prelude.{◌≡◌, ◌≤◌};
ghost use Rattle.std.specs.Option.{option_copied};
ghost use Rattle.wm_forest.specs.Counts.{row_length, share_sum};
ghost use Rattle.wm_forest.specs.Look.{first_part, first_kids, first_floats, rest_of};
ghost use Rattle.wm_forest.specs.Focus.{focused_in};
ghost use Rattle.wm_forest.specs.SoundRow.{Level, IsSoundRow, containers};
ghost use Rattle.std.specs.Prelude.{Bool, true, ℕ};

use crate::part::Part;
use crate::row::Row;
use std::marker::Model;
use wm_base::ConId;

/// A row of nodes of a tree, from one of them on. Contracts see it as that row.
#[derive(Drop)]
pub struct Cursor<'a> {
    row: &'a Row,
}

impl<'a> Model for Cursor<'a> {
    ghost use Rattle.wm_forest.specs.Forest.{Forest};
    ghost use Rattle.wm_forest.specs.ForestCode.{forest_code};

    ghost Value = { Forest };

    ghost coded = { forest_code };

    ghost view = { λ cursor. cursor.row.now };
}

impl<'a> Cursor<'a> {
    /// A walk from the first node of the row on.
    pub fn at(row: &'a Row) -> Cursor<'a>
        ensures { result ≡ row.now }
    {
        Cursor { row }
    }

    /// The part of the row's first node. `None` exactly where the row is at its end.
    pub fn part(&self) -> Option<&'a Part>
        ensures { option_copied result ≡ first_part self.now }
    {
        let row = self.row;
        match &row.first {
            None => None,
            Some(cell) => Some(&cell.part),
        }
    }

    /// The row of the first node's children.
    pub fn kids(&self) -> Cursor<'a>
        ensures { result ≡ first_kids self.now }
    {
        let row = self.row;
        match &row.first {
            None => Cursor { row },
            Some(cell) => Cursor { row: &cell.kids },
        }
    }

    /// The row of the first node's floating windows, or the scratchpad at the root.
    pub fn floats(&self) -> Cursor<'a>
        ensures { result ≡ first_floats self.now }
    {
        let row = self.row;
        match &row.first {
            None => Cursor { row },
            Some(cell) => Cursor { row: &cell.floats },
        }
    }

    /// The row behind the first node.
    pub fn rest(&self) -> Cursor<'a>
        ensures { result ≡ rest_of self.now }
    {
        let row = self.row;
        match &row.first {
            None => Cursor { row },
            Some(cell) => Cursor { row: &cell.rest },
        }
    }

    /// The row's node that is the first by recency, by itself or what is below it.
    pub fn focused(&self, recency: &[ConId]) -> Option<ConId>
        ensures { result ≡ focused_in recency.now self.now }
    {
        let row = self.row;
        row.focused(recency)
    }

    /// The sum of the shares of the row's nodes.
    pub fn share_sum(&self) -> u64
        requires { row_length self.now ≤ 256 }
        ensures sum { result ≡ share_sum self.now }
        ensures small { (room : ℕ) → IsSoundRow containers true room self.now → result ≤ 268435456 }
    {
        let row = self.row;
        row.share_sum()
    }
}

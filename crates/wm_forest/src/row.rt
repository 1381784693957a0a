//! Rows of cells: the plain body of the tree's nested value.
ghost use Rattle.std.specs.Prelude.{◌≡◌, ◌-◌, ◌*◌, ◌≤◌, ◌^◌, false, true, if◌then◌else◌, IfOk, MatchOption, is_some, min};
ghost use Rattle.wm_forest.specs.Forest.{end, con};
ghost use Rattle.wm_forest.specs.Counts.{row_with};
ghost use Rattle.wm_forest.specs.Look.{same, has, only};
ghost use Rattle.wm_forest.specs.Row.{alone, row_of};

use crate::part::Part;
use std::alloc::{AllocError, Global};
use std::marker::Model;
use std::mem;
use wm_base::ConId;

/// A row of nodes, from its first cell on.
#[cycle(row)]
pub struct Row {
    pub first: Option<Box<Cell>>,
}

/// A node with the rows of its children and of its floating windows, and the rest of its own row.
#[cycle(row)]
#[derive(Drop)]
pub struct Cell {
    pub rest: Row,
    pub kids: Row,
    pub floats: Row,
    pub part: Part,
}

impl Model for Row {
    ghost use Rattle.wm_forest.specs.Forest.{Forest, node_count};
    ghost use Rattle.wm_forest.specs.ForestCode.{forest_code};

    ghost Value = { Forest };

    ghost coded = { forest_code };

    ghost use Rattle.wm_forest.specs.Row.{row_from};

    ghost view = { λ row. row_from row.first };

    ghost size = { node_count };

    ghost use Rattle.wm_forest.specs.ForestFalls.{depth_le-node_count};

    ghost size_decreases = { λ a h. depth_le-node_count a };
}

/// Goes along the row, and down at each of its nodes, so that a long row takes no more of the stack than a short one.
impl Drop for Row {
    #[cycle(drop)]
    fn drop(mut self) {
        loop {
            let Row { first } = self;
            let Some(mut cell) = first else { return };
            self = mem::replace(&mut cell.rest, Row::new());
            drop(cell);
        }
    }
}

impl Cell {
    /// A node with nothing below it and none behind it, on the heap.
    pub fn of(alloc: Global, part: Part) -> Result<Box<Cell>, AllocError>
        ensures { IfOk result (λ cell. row_of cell.value ≡ con part end end end) }
    {
        let cell = Cell {
            part,
            kids: Row::new(),
            floats: Row::new(),
            rest: Row::new(),
        };
        Ok(Box::new(alloc, cell)?)
    }

    /// Gives the node these children in place of those that it has.
    pub fn set_kids(&mut self, kids: Row)
        ensures { self.new ≡ record self.old { kids = kids } }
    {
        self.kids = kids;
    }

    /// Gives the node these floating windows in place of those that it has.
    pub fn set_floats(&mut self, floats: Row)
        ensures { self.new ≡ record self.old { floats = floats } }
    {
        self.floats = floats;
    }

    /// Whether the node is this one, or is below it at any depth.
    pub fn holds(&self, id: ConId) -> bool
        ensures { result ≡ has id (alone self.now) }
    {
        self.part.id == id || self.kids.has(id) || self.floats.has(id)
    }
}

impl Row {
    /// A row with no node.
    pub fn new() -> Row
        ensures { result ≡ end }
    {
        Row { first: None }
    }

    /// A row of one node with nothing below it.
    pub fn of(alloc: Global, part: Part) -> Result<Row, AllocError>
        ensures { IfOk result (λ row. row ≡ con part end end end) }
    {
        let cell = Cell::of(alloc, part)?;
        Ok(Row { first: Some(cell) })
    }

    /// Whether the node is here, at any depth.
    pub fn has(&self, id: ConId) -> bool
        ensures { result ≡ has id self.now }
    {
        let mut row = self;
        while let Some(cell) = &row.first {
            if cell.part.id == id {
                return true;
            }
            if !cell.kids.is_end() && cell.kids.has(id) {
                return true;
            }
            if !cell.floats.is_end() && cell.floats.has(id) {
                return true;
            }
            row = &cell.rest;
        }
        false
    }

    /// The cell of the node.
    pub fn find(&self, id: ConId) -> Option<&Cell>
        ensures { MatchOption result
            ((has id self.now ≡ false) × (only id self.now ≡ end))
            (λ cell. (has id self.now ≡ true) × (only id self.now ≡ alone cell.now)) }
    {
        let mut row = self;
        while let Some(cell) = &row.first {
            if cell.part.id == id {
                return Some(cell);
            }
            if let Some(found) = cell.kids.find(id) {
                return Some(found);
            }
            if let Some(found) = cell.floats.find(id) {
                return Some(found);
            }
            row = &cell.rest;
        }
        None
    }

    /// The row in which the node stands; `whole` is the row that this one ends.
    pub fn row_with<'a>(&'a self, whole: &'a Row, id: ConId) -> Option<&'a Row>
        ensures { MatchOption result (has id self.now ≡ false)
            (λ row. (has id self.now ≡ true) × (row.now ≡ row_with id whole.now self.now)) }
    {
        let mut row = self;
        while let Some(cell) = &row.first {
            if cell.part.id == id {
                return Some(whole);
            }
            if let Some(found) = cell.kids.row_with(&cell.kids, id) {
                return Some(found);
            }
            if let Some(found) = cell.floats.row_with(&cell.floats, id) {
                return Some(found);
            }
            row = &cell.rest;
        }
        None
    }
}

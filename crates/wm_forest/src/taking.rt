//! Taking out what a node holds, and taking it in.
ghost use Rattle.std.specs.Prelude.{◌≡◌, min};
ghost use Rattle.wm_forest.specs.Change.{without};
ghost use Rattle.wm_forest.specs.Counts.{but, row_length};
ghost use Rattle.wm_forest.specs.Look.{first_floats, first_kids, nth_id, only};
ghost use Rattle.wm_forest.specs.Row.{row_of};
ghost use Rattle.wm_forest.specs.Taking.{heir, taking_in};

use crate::edit::Edit;
use crate::row::{Cell, Row};
use std::mem;
use wm_base::ConId;

/// Taking in what another node held.
#[derive(Drop)]
pub struct TakeIn(pub Row);

impl Edit for TakeIn {
    ghost word = { λ x. taking_in x.0 };

    fn edit(self, row: &mut Row) {
        let TakeIn(gone) = self;
        if let Some(cell) = &mut row.first {
            cell.take_in(gone);
        }
    }
}

impl Cell {
    /// Takes in what another node held, behind what the node has.
    fn take_in(&mut self, mut gone: Row)
        ensures { row_of self.new ≡ taking_in gone self.old.part self.old.kids self.old.floats self.old.rest }
    {
        let kids = gone.take_kids();
        let floats = gone.take_floats();
        self.kids.append(kids);
        self.floats.append(floats);
    }
}

impl Row {
    /// Takes the first node's children out.
    fn take_kids(&mut self) -> Row
        ensures taken { result ≡ first_kids self.old }
        ensures floats { first_floats self.new ≡ first_floats self.old }
    {
        match &mut self.first {
            None => Row::new(),
            Some(cell) => mem::replace(&mut cell.kids, Row::new()),
        }
    }

    /// Takes the first node's floating windows out.
    fn take_floats(&mut self) -> Row
        ensures { result ≡ first_floats self.old }
    {
        match &mut self.first {
            None => Row::new(),
            Some(cell) => mem::replace(&mut cell.floats, Row::new()),
        }
    }

    /// The first node of the row beside this one.
    fn first_but(&self, id: ConId) -> Option<ConId>
        ensures { result ≡ nth_id 0 (but id self.now) }
    {
        match &self.first {
            None => None,
            Some(cell) if cell.part.id == id => cell.rest.nth(0),
            Some(cell) => Some(cell.part.id),
        }
    }

    /// The first of the outputs beside this one.
    pub fn heir(&self, output: ConId) -> Option<ConId>
        ensures { result ≡ heir output self.now }
    {
        match &self.first {
            None => None,
            Some(root) => root.kids.first_but(output),
        }
    }

    /// How many children the first node has, but no more than are counted here: `most`.
    pub fn kids_up_to(&self, most: usize) -> usize
        ensures { result ≡ min most (row_length (first_kids self.now)) }
    {
        match &self.first {
            None => 0,
            Some(root) => root.kids.len_up_to(most),
        }
    }

    /// Takes the node out with all that is below it. Nothing where it is not here.
    #[tactic(auto, using(crate::proofs::ForestLemmas::only_absent))]
    pub fn take_node(&mut self, id: ConId) -> Row
        ensures taken { result ≡ only id self.old }
        ensures rest { self.new ≡ without id self.old }
    {
        match self.take_out(id) {
            Some(row) => row,
            None => Row::new(),
        }
    }
}

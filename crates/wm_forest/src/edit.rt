//! Changing a row at one of its nodes, at any depth.
ghost use Rattle.std.specs.Prelude.{◌≡◌, false, true, MatchOption, None};
ghost use Rattle.wm_forest.specs.Change.{at, first_by};
ghost use Rattle.wm_forest.specs.Forest.{Forest};
ghost use Rattle.wm_forest.specs.Kinds.{kind_changed};
ghost use Rattle.wm_forest.specs.Look.{first_alone, has, only};
ghost use Rattle.wm_forest.specs.Passing.{first_or, if_some};
ghost use Rattle.wm_forest.specs.declared.part.Part.{Part};

use crate::kind::KindEdit;
use crate::row::Row;
use wm_base::ConId;

/// A change of a row at its first node.
pub trait Edit {
    /// What the change makes of the node's part, children, floating windows and the rest of its row.
    ghost word: { Self → Part → Forest → Forest → Forest → Forest };

    /// Changes the row at its first node.
    fn edit(self, row: &mut Row)
        ensures { row.new ≡ first_by word self row.old };
}

/// A change of a row at its first node, and of what it brings with it.
pub(crate) trait Change {
    /// What the change makes of the node's part, children, floating windows and the rest of its row.
    ghost word: { Self → Part → Forest → Forest → Forest → Forest };

    /// What the change is after it was made at a node with this part, these children and floating windows.
    ghost after: { Self → Part → Forest → Forest → Self };

    /// Changes the row at its first node.
    fn make(&mut self, row: &mut Row)
        ensures made { row.new ≡ first_by word self.old row.old }
        ensures left { self.new ≡ first_or after self.old row.old };
}

impl<E: Edit> Change for Option<E> {
    ghost word = { if_some E.word };

    ghost after = { λ x part kids floats. None };

    fn make(&mut self, row: &mut Row) {
        if row.is_end() {
            return;
        }
        if let Some(edit) = self.take() {
            edit.edit(row);
        }
    }
}

impl Row {
    /// Makes the change at the node. Gives it back exactly where the node is not here.
    pub fn change<E: Edit>(&mut self, id: ConId, edit: E) -> Option<E>
        ensures made { self.new ≡ at id E.word edit self.old }
        ensures left { MatchOption result (has id self.old ≡ true)
            (λ e. (has id self.old ≡ false) × (e ≡ edit)) }
    {
        let mut left = Some(edit);
        self.alter(id, &mut left);
        left
    }

    /// Makes the change at the node. Says whether it is here.
    #[cycle(alter)]
    pub(crate) fn alter<C: Change>(&mut self, id: ConId, change: &mut C) -> bool
        ensures found { result ≡ has id self.old }
        ensures made { self.new ≡ at id C.word change.old self.old }
        ensures left { change.new ≡ first_or C.after change.old (only id self.old) }
        ensures same { result ≡ false → (self.new ≡ self.old) × (change.new ≡ change.old) }
    {
        let mut done = Row::new();
        while !self.is_end() {
            if self.alter_first(id, change) {
                self.hang(done);
                return true;
            }
            self.pass(&mut done);
        }
        self.hang(done);
        false
    }

    /// Makes the change at the node, where it is the first one or below it. Says whether it is.
    #[cycle(alter)]
    fn alter_first<C: Change>(&mut self, id: ConId, change: &mut C) -> bool
        ensures found { result ≡ has id (first_alone self.old) }
        ensures made { result ≡ true → self.new ≡ at id C.word change.old self.old }
        ensures left { result ≡ true → change.new ≡ first_or C.after change.old (only id self.old) }
        ensures same { result ≡ false → (self.new ≡ self.old) × (change.new ≡ change.old) }
    {
        match &mut self.first {
            None => false,
            Some(cell) if cell.part.id == id => {
                change.make(self);
                true
            }
            Some(cell) => cell.kids.alter(id, change) || cell.floats.alter(id, change),
        }
    }
}

impl Edit for KindEdit {
    ghost word = { kind_changed };

    fn edit(self, row: &mut Row) {
        match &mut row.first {
            Some(cell) => self.make(&mut cell.part.kind),
            None => drop(self),
        }
    }
}

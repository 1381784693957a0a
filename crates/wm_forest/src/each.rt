//! Changing each node of a row, at any depth.
ghost use Rattle.std.specs.Prelude.{◌≡◌};
ghost use Rattle.wm_forest.specs.Each.{mapped};
ghost use Rattle.wm_forest.specs.declared.part.Part.{Part};

use crate::part::Part;
use crate::row::Row;

/// A change of the parts of nodes.
pub trait EachPart {
    /// What the change makes of a part.
    ghost word: { Self → Part → Part };

    /// Changes a part.
    fn change(&self, part: &mut Part)
        ensures { part.new ≡ word self.now part.old };
}

impl Row {
    /// Changes the part of each node of the row and below it.
    pub fn change_each<E: EachPart>(&mut self, change: &E)
        ensures { self.new ≡ mapped (E.word change.now) self.old }
    {
        let mut done = Row::new();
        while let Some(mut cell) = self.pop() {
            change.change(&mut cell.part);
            cell.kids.change_each(change);
            cell.floats.change_each(change);
            done.push(cell);
        }
        self.hang(done);
    }
}

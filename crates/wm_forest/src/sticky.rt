//! Taking sticky floating windows out of a node.
ghost use Rattle.std.specs.Prelude.{◌≡◌};
ghost use Rattle.wm_forest.specs.Change.{append, at};
ghost use Rattle.wm_forest.specs.Forest.{end, con};
ghost use Rattle.wm_forest.specs.Look.{first_floats, has, only};
ghost use Rattle.wm_forest.specs.Passing.{kept_onto, taken_onto};
ghost use Rattle.wm_forest.specs.Sticky.{is_sticky, loose, loosened, sticky, sticky_in};

use crate::edit::Change;
use crate::part::NodeKind;
use crate::row::Row;
use std::mem;
use wm_base::ConId;

impl NodeKind {
    /// Whether this is a container that stays in sight, whatever workspace its output shows.
    fn is_sticky(&self) -> bool
        ensures { result ≡ is_sticky self.now }
    {
        match self {
            NodeKind::Root { .. } | NodeKind::Output(_) | NodeKind::Space(_) => false,
            NodeKind::Con(con) => con.state.sticky,
        }
    }
}

/// Taking the sticky windows out of a node, and those that were taken out.
#[derive(Drop)]
struct Loosen(Row);

impl Change for Loosen {
    ghost word = { λ x part kids floats rest. con part kids (loose floats) rest };

    ghost after = { λ x part kids floats. record { 0 = append (sticky floats) x.0 } };

    fn make(&mut self, row: &mut Row) {
        if let Some(cell) = &mut row.first {
            cell.floats.take_sticky(&mut self.0);
        }
    }
}

impl Row {
    /// Takes the sticky nodes out of the row itself and puts them before those taken so far.
    fn take_sticky(&mut self, taken: &mut Row)
        ensures taken { taken.new ≡ append (sticky self.old) taken.old }
        ensures left { self.new ≡ loose self.old }
    {
        let done = self.turn();
        self.hang_loose(done, taken);
    }

    /// Puts the nodes of a row, the last one first, before those of this one, or before those taken where they are sticky.
    fn hang_loose(&mut self, mut done: Row, taken: &mut Row)
        ensures kept { self.new ≡ kept_onto sticky_in done self.old }
        ensures taken { taken.new ≡ taken_onto sticky_in done taken.old }
    {
        while let Some(cell) = done.pop() {
            if cell.part.kind.is_sticky() {
                taken.push(cell);
            } else {
                self.push(cell);
            }
        }
    }

    /// Takes the sticky windows out of the floating windows of the node. Says whether the node is here.
    pub fn loosen(&mut self, id: ConId, taken: &mut Row) -> bool
        ensures found { result ≡ has id self.old }
        ensures taken { taken.new ≡ append (sticky (first_floats (only id self.old))) taken.old }
        ensures left { self.new ≡ at id loosened end self.old }
    {
        let mut change = Loosen(mem::replace(taken, Row::new()));
        let found = self.alter(id, &mut change);
        let Loosen(row) = change;
        *taken = row;
        found
    }
}

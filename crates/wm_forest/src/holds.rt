//! What holds nodes: a row, or a node with what is below it.
ghost use Rattle.std.specs.Prelude.{◌≡◌};
ghost use Rattle.wm_forest.specs.Forest.{Forest};
ghost use Rattle.wm_forest.specs.Look.{has};
ghost use Rattle.wm_forest.specs.Row.{alone};
ghost use Rattle.wm_forest.specs.Sieve.{TakesIn};

use crate::row::{Cell, Row};
use crate::sieve::Sieve;
use wm_base::ConId;

/// A row, or a node with what is below it.
pub(crate) trait Holds {
    /// The nodes that it holds.
    ghost nodes: { Self → Forest };

    /// Whether it holds the node, at any depth.
    fn has_node(&self, id: ConId) -> bool
        ensures { result ≡ has id (nodes self.now) };

    /// Takes the places of its nodes' ids.
    fn put_into(&self, sieve: &mut Sieve)
        ensures { TakesIn (nodes self.now) sieve.old sieve.new };
}

impl Holds for Row {
    ghost nodes = { λ row. row };

    fn has_node(&self, id: ConId) -> bool {
        self.has(id)
    }

    fn put_into(&self, sieve: &mut Sieve) {
        sieve.take_in(self);
    }
}

impl Holds for Cell {
    ghost nodes = { alone };

    fn has_node(&self, id: ConId) -> bool {
        self.holds(id)
    }

    fn put_into(&self, sieve: &mut Sieve) {
        sieve.take(self.part.id);
        sieve.take_in(&self.kids);
        sieve.take_in(&self.floats);
    }
}

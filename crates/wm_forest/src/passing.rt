//! Rows taken apart from their first node on, and put together again, by moves alone.
ghost use Rattle.std.specs.Prelude.{◌≡◌, MatchOption};
ghost use Rattle.wm_forest.specs.Change.{append};
ghost use Rattle.wm_forest.specs.Forest.{end, con};
ghost use Rattle.wm_forest.specs.Look.{rest_of};
ghost use Rattle.wm_forest.specs.Passing.{onto, with_first};

use crate::row::{Cell, Row};
use std::mem;

impl Row {
    /// Takes the first node out, with all that is below it. `None` exactly where the row is at its end.
    pub(crate) fn pop(&mut self) -> Option<Box<Cell>>
        ensures { MatchOption result ((self.old ≡ end) × (self.new ≡ end))
            (λ cell. self.old ≡ con cell.value.part cell.value.kids cell.value.floats self.new) }
    {
        match self.first.take() {
            None => None,
            Some(mut cell) => {
                mem::swap(self, &mut cell.rest);
                Some(cell)
            }
        }
    }

    /// Puts a node first, with all that is below it and without what is behind it.
    pub(crate) fn push(&mut self, mut cell: Box<Cell>)
        ensures { self.new ≡ con cell.value.part cell.value.kids cell.value.floats self.old }
    {
        let behind = mem::replace(&mut cell.rest.first, self.first.take());
        let_go(behind);
        let_go(mem::replace(&mut self.first, Some(cell)));
    }

    /// Takes the first node, where there is one, to the front of another row.
    pub(crate) fn pass(&mut self, done: &mut Row)
        ensures left { self.new ≡ rest_of self.old }
        ensures passed { done.new ≡ with_first self.old done.old }
    {
        if let Some(cell) = self.pop() {
            done.push(cell);
        }
    }

    /// Puts the nodes of a row, the last one first, before those of this one.
    pub(crate) fn hang(&mut self, mut done: Row)
        ensures { self.new ≡ onto done self.old }
    {
        while let Some(cell) = done.pop() {
            self.push(cell);
        }
    }

    /// Takes all nodes out, the last one first.
    pub(crate) fn turn(&mut self) -> Row
        ensures none { self.new ≡ end }
        ensures turned { result ≡ onto self.old end }
    {
        let mut done = Row::new();
        while let Some(cell) = self.pop() {
            done.push(cell);
        }
        done
    }

    /// Adds the nodes of a row at the end.
    #[tactic(auto, using(crate::proofs::AppendLemmas::onto_both))]
    pub fn append(&mut self, row: Row)
        ensures { self.new ≡ append self.old row }
    {
        let done = self.turn();
        *self = row;
        self.hang(done);
    }
}

/// Drops a cell where there is one. What is inlined looks whether there is, and no more.
#[inline(always)]
fn let_go(cell: Option<Box<Cell>>) {
    if let Some(cell) = cell {
        let_one_go(cell);
    }
}

/// Drops a cell.
#[cold]
#[inline(never)]
fn let_one_go(cell: Box<Cell>) {
    drop(cell);
}

//! Copies of a tree.
ghost use Rattle.std.specs.Prelude.{◌≡◌, IfOk, OnOk};
ghost use Rattle.wm_tree.specs.TreeValue.{bare, filled};

use crate::tree::Tree;
use std::alloc::Global;
use wm_base::{Border, NoMemory};
use wm_forest::{Cell, Row};

impl Tree {
    /// An equal tree.
    pub fn copy(&self) -> Result<Tree, NoMemory>
        ensures { IfOk result (λ tree. tree ≡ self.now) }
    {
        let (alloc, next_id) = (self.alloc, self.next_id);
        let mut copy = Tree::bare(alloc, next_id, self.border, self.inner, self.outer)?;
        copy.copy_from(self)?;
        Ok(copy)
    }

    /// Gives this tree the nodes of another, and what is said of them.
    fn copy_from(&mut self, from: &Tree) -> Result<(), NoMemory>
        ensures { OnOk result (self.new ≡ filled from.now self.old) }
    {
        self.previous = match &from.previous {
            None => None,
            Some(name) => Some(name.clone()?),
        };
        self.recency = Vec::from_slice(self.alloc, &from.recency)?;
        self.urgent = Vec::from_slice(self.alloc, &from.urgent)?;
        self.nodes = from.nodes.copy(self.alloc)?;
        Ok(())
    }

    /// A tree with no node yet.
    pub(crate) fn bare(
        alloc: Global,
        next_id: u32,
        border: Border,
        inner: u32,
        outer: u32,
    ) -> Result<Tree, NoMemory>
        ensures { IfOk result (λ tree. tree ≡ bare next_id border inner outer) }
    {
        Ok(Tree {
            alloc,
            nodes: Row::new(),
            recency: Vec::new(alloc),
            urgent: Vec::new(alloc),
            previous: None,
            next_id,
            border,
            inner,
            outer,
            spare: Box::new(alloc, Cell::hole(alloc))?,
        })
    }
}

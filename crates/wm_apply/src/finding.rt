//! The rows of a tree by the id of their first node, for questions about many ids.
ghost use Rattle.std.specs.Prelude.{◌≡◌, if◌then◌else◌, Some, None, IfOk, OnOk};
ghost use Rattle.std.specs.Option.{option_copied, option_or};
ghost use Rattle.wm_apply.specs.Kills.{row_at};
ghost use Rattle.wm_apply.specs.Finding.{AreRows};
ghost use Rattle.wm_arrange.specs.Maps.{value_at};
ghost use Rattle.wm_base.specs.declared.ids.ConId.{ConId};
ghost use Rattle.wm_forest.specs.Look.{same};

use std::alloc::Global;
use wm_base::{ConId, NoMemory};
use wm_ids::IdMap;
use wm_tree::{Cursor, Tree};

/// A tree with the row from each node on, by the node's id.
#[derive(Drop)]
pub struct Rows<'a> {
    pub tree: &'a Tree,
    pub by_id: IdMap<Cursor<'a>>,
}

impl<'a> Rows<'a> {
    /// The rows of the tree, which are found in one walk.
    pub fn new(alloc: Global, tree: &'a Tree) -> Result<Rows<'a>, NoMemory>
        ensures rows { IfOk result (λ rows. AreRows rows) }
        ensures tree { IfOk result (λ rows. rows.tree.now ≡ tree.now) }
    {
        let mut by_id = IdMap::new(alloc);
        add_rows(&mut by_id, tree.nodes())?;
        Ok(Rows { tree, by_id })
    }

    /// The row from the node on. `None` exactly where it is not in the tree.
    pub fn row(&self, con: ConId) -> Option<&Cursor<'a>>
        requires { AreRows self.now }
        ensures { option_copied result ≡ row_at con self.now.tree.now.nodes }
    {
        self.by_id.get(con.0)
    }
}

/// Adds the row from each node of this one on, at any depth; where an id has one it keeps that.
#[tactic(auto, using(crate::proofs::RowLemmas::row_step))]
fn add_rows<'a>(rows: &mut IdMap<Cursor<'a>>, row: Cursor<'a>) -> Result<(), NoMemory>
    ensures { (c : ConId) → OnOk result (value_at rows.new c ≡ option_or (value_at rows.old c) (row_at c row.entry)) }
{
    let mut left = row;
    while let Some(part) = left.part() {
        let (kids, floats, rest) = (left.kids(), left.floats(), left.rest());
        add_row(rows, part.id, left)?;
        add_rows(rows, kids)?;
        add_rows(rows, floats)?;
        left = rest;
    }
    Ok(())
}

/// Adds a row under this id, unless it has one.
#[tactic(auto, using(wm_arrange::proofs::MapLemmas::or_there))]
fn add_row<'a>(rows: &mut IdMap<Cursor<'a>>, id: ConId, row: Cursor<'a>) -> Result<(), NoMemory>
    ensures { (c : ConId) → OnOk result (value_at rows.new c ≡ option_or (value_at rows.old c) (if same id c then Some row.entry else None)) }
{
    match rows.get(id.0) {
        Some(_) => Ok(()),
        None => put_row(rows, id, row),
    }
}

fn put_row<'a>(rows: &mut IdMap<Cursor<'a>>, id: ConId, row: Cursor<'a>) -> Result<(), NoMemory>
    ensures { (c : ConId) → OnOk result (value_at rows.new c ≡ (if same id c then Some row.entry else value_at rows.old c)) }
{
    rows.insert(id.0, row)?;
    Ok(())
}

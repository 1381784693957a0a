//! The ids of the windows of a tree, in a map.
ghost use Rattle.std.specs.Prelude.{◌≡◌, ◌||◌, nat_lt, IfOk, OnOk};
ghost use Rattle.wm_base.specs.declared.ids.ConId.{ConId};
ghost use Rattle.wm_history.specs.Windows.{holds};
ghost use Rattle.wm_opens.specs.Opens.{is_window_of, window_at};
ghost use Rattle.wm_forest.specs.Counts.{count};
ghost use Rattle.wm_tree.specs.Sound.{IsSound};

use crate::counting::one_if_window;
use std::alloc::{AllocError, Global};
use std::collections::BTreeMap;
use wm_base::ConId;
use wm_tree::{Cursor, Part, Tree};

/// The ids of the windows of a tree.
pub fn windows_of(alloc: Global, tree: &Tree) -> Result<BTreeMap<u32, ()>, AllocError>
    requires { IsSound tree.now }
    ensures { (v : ConId) → IfOk result (λ ids. holds ids.entries v ≡ is_window_of tree.now v) }
{
    let mut ids = BTreeMap::new(alloc);
    gather(tree.nodes(), &mut ids)?;
    Ok(ids)
}

/// Whether the id is among them.
pub fn holds(ids: &BTreeMap<u32, ()>, con: ConId) -> bool
    ensures { result ≡ holds ids.now.entries con }
{
    ids.get(&con.0).is_some()
}

/// Puts the windows of the row, and of what is below it, among those that were found.
fn gather(row: Cursor<'_>, ids: &mut BTreeMap<u32, ()>) -> Result<(), AllocError>
    ensures { (v : ConId) → OnOk result (holds ids.new.entries v ≡ (nat_lt 0 (count (window_at v) row.entry) || holds ids.old.entries v)) }
{
    let mut left = row;
    while let Some(part) = left.part() {
        add(part, ids)?;
        gather(left.kids(), ids)?;
        gather(left.floats(), ids)?;
        left = left.rest();
    }
    Ok(())
}

/// Puts a node among those that were found, where it is a window.
fn add(part: &Part, ids: &mut BTreeMap<u32, ()>) -> Result<(), AllocError>
    ensures { (v : ConId) → OnOk result (holds ids.new.entries v ≡ (nat_lt 0 (window_at v part.now) || holds ids.old.entries v)) }
{
    if one_if_window(&part.kind) == 1 {
        ids.insert(part.id.0, ())?;
    }
    Ok(())
}

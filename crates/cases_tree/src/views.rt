//! The view of a whole tree as its JSON.
ghost use Rattle.cases_tree.specs.Desk.{Holds};
ghost use Rattle.wm_tree.specs.Sound.{IsSound};

use crate::desk::Desk;
use crate::placed::UNKNOWN;
use case_data::{Fault, Words};
use std::alloc::Global;
use std::str;
use wm_arrange::{Arrangement, arrange};
use wm_json::{NodeView, compact, node_value};
use wm_tree::Tree;
use wm_views::tree_view;

/// Appends the JSON of the tree with its arrangement.
pub fn view(desk: &Desk, words: &Words<'_>, out: &mut String) -> Result<(), Fault>
    requires { Holds desk.now }
{
    if desk.sound {
        let arrangement = arrange(words.alloc, &desk.tree)?;
        push_view(words.alloc, &desk.tree, &arrangement, out)
    } else {
        Ok(writeln!(out, "{UNKNOWN}")?)
    }
}

fn push_view(
    alloc: Global,
    tree: &Tree,
    arrangement: &Arrangement,
    out: &mut String,
) -> Result<(), Fault>
    requires { IsSound tree.now }
{
    let bytes = view_bytes(alloc, tree, arrangement)?;
    match str::from_utf8(&bytes) {
        Ok(text) => Ok(writeln!(out, "{text}")?),
        Err(_) => Err(Fault::BadLine),
    }
}

fn view_bytes(alloc: Global, tree: &Tree, arrangement: &Arrangement) -> Result<Vec<u8>, Fault>
    requires { IsSound tree.now }
{
    let view = tree_view(alloc, tree, arrangement)?;
    let bytes = node_bytes(alloc, &view);
    drop(view);
    bytes
}

fn node_bytes(alloc: Global, view: &NodeView) -> Result<Vec<u8>, Fault> {
    let value = node_value(alloc, view)?;
    Ok(compact(alloc, &value)?)
}

//! Counting the windows of a tree, and finding those that were closed.
ghost use Rattle.std.specs.Prelude.{◌≡◌, ◌≤◌, filter, not, IfOk};
ghost use Rattle.wm_history.specs.Follows.{one_if_some, Follows};
ghost use Rattle.wm_history.specs.Effect.{closed, fresh_ids};
ghost use Rattle.wm_history.specs.Windows.{window_count, window_part};
ghost use Rattle.wm_opens.specs.Opens.{is_window_of, windows};
ghost use Rattle.wm_forest.specs.Counts.{count};
ghost use Rattle.wm_tree.specs.Sound.{IsSound};

use crate::holding::{holds, windows_of};
use std::alloc::{AllocError, Global};
use wm_base::{Buffer, ConId};
use wm_tree::{Cursor, NodeKind, Tree};

/// How many windows the tree has.
pub fn window_count(tree: &Tree) -> u32
    requires { IsSound tree.now }
    ensures value { result ≡ window_count tree.now }
    ensures small { result ≤ 4096 }
{
    count(tree.nodes())
}

/// How many windows are in the row and below it.
fn count(row: Cursor<'_>) -> u32
    requires { count window_part row ≤ 4096 }
    ensures { result ≡ count window_part row.entry }
{
    let mut n = 0;
    let mut left = row;
    while let Some(part) = left.part() {
        let kids = count(left.kids());
        let floats = count(left.floats());
        n += one_if_window(&part.kind) + kids + floats;
        left = left.rest();
    }
    n
}

/// 1 for a window, 0 for another node.
pub fn one_if_window(kind: &NodeKind) -> u32
    ensures value { result ≡ windows kind.now }
    ensures small { result ≤ 1 }
{
    match kind {
        NodeKind::Con(part) if part.kind.is_window() => 1,
        _ => 0,
    }
}

/// Whether this is an open window.
fn is_window_of(tree: &Tree, con: ConId) -> bool
    ensures { result ≡ is_window_of tree.now con }
{
    match tree.container(con) {
        Some(part) => part.kind.is_window(),
        None => false,
    }
}

/// The windows that were closed by a step that opened this window, if any: where the new tree has as many as it may, none.
/// The old tree has so many windows `before`, and the new one `after`.
pub fn closed(
    alloc: Global,
    old: &Tree,
    before: u32,
    new: &Tree,
    after: u32,
    opened: Option<(ConId, Buffer)>,
) -> Result<Vec<ConId>, AllocError>
    requires sound { IsSound old.now × IsSound new.now }
    requires counted { (before ≡ window_count old.now) × (after ≡ window_count new.now) }
    requires few { before ≤ 4096 }
    ensures { Follows old.now new.now opened → IfOk result (λ gone. gone.items ≡ closed old.now new.now opened) }
{
    let most = before + one_if_some(opened);
    if after == most {
        return Ok(Vec::new(alloc));
    }
    missing(alloc, old, new, opened)
}

fn one_if_some(opened: Option<(ConId, Buffer)>) -> u32
    ensures value { result ≡ one_if_some opened }
    ensures small { result ≤ 1 }
{
    match opened {
        Some(_) => 1,
        None => 0,
    }
}

/// The windows of the old tree, and the one that was opened, that the new tree does not have.
fn missing(
    alloc: Global,
    old: &Tree,
    new: &Tree,
    opened: Option<(ConId, Buffer)>,
) -> Result<Vec<ConId>, AllocError>
    requires { IsSound old.now × IsSound new.now }
    ensures { IfOk result (λ gone. gone.items ≡ closed old.now new.now opened) }
{
    let before = windows_of(alloc, old)?;
    let after = windows_of(alloc, new)?;
    let mut gone = unless_there(alloc, new, opened)?;
    let mut rest = old.recent_ids();
    while let Some(con) = rest.next() {
        if holds(&before, con) && !holds(&after, con) {
            gone.push(con)?;
        }
    }
    Ok(gone)
}

/// The window that was opened, where the new tree does not have it.
fn unless_there(
    alloc: Global,
    new: &Tree,
    opened: Option<(ConId, Buffer)>,
) -> Result<Vec<ConId>, AllocError>
    ensures { IfOk result (λ gone. gone.items ≡ filter (λ v. not (is_window_of new.now v)) (fresh_ids opened)) }
{
    let mut gone = Vec::new(alloc);
    if let Some((con, _)) = opened
        && !is_window_of(new, con)
    {
        gone.push(con)?;
    }
    Ok(gone)
}

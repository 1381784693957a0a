//! Windows that fill their output.
ghost use Rattle.std.specs.Prelude.{◌≡◌, Some, true, OnOk};
ghost use Rattle.wm_floats.specs.Fullscreen.{fills_alone, full_in, is_full, other_full, others_unfull};
ghost use Rattle.wm_floats.specs.Switches.{set_fullscreen_tree, will_fill};
ghost use Rattle.wm_floats.specs.Windows.{window_refusal};
ghost use Rattle.wm_shared.specs.Does.{DoesExactly, Makes};
ghost use Rattle.wm_shared.specs.Subject.{IsSubject};
ghost use Rattle.wm_tree.specs.Sound.{IsSound};
ghost use Rattle.wm_tree.specs.TreeValue.{workspace_of};

use crate::windows::{set_full, switched, window_at};
use wm_base::{ConId, Refusal};
use wm_tree::{Cursor, NodeKind, Placed, Tree};

/// Whether this is a fullscreen container.
fn is_full(kind: &NodeKind) -> bool
    ensures { result ≡ is_full kind.now }
{
    match kind {
        NodeKind::Con(con) => con.state.fullscreen,
        NodeKind::Root { .. } | NodeKind::Output(_) | NodeKind::Space(_) => false,
    }
}

/// A fullscreen container of the row other than this one, at any depth.
fn other_full(row: Cursor<'_>, con: ConId) -> Option<ConId>
    ensures { result ≡ other_full con row.entry }
{
    let mut row = row;
    while let Some(part) = row.part() {
        if part.id != con && is_full(&part.kind) {
            return Some(part.id);
        }
        if let Some(found) = other_full(row.kids(), con) {
            return Some(found);
        }
        if let Some(found) = other_full(row.floats(), con) {
            return Some(found);
        }
        row = row.rest();
    }
    None
}

/// A fullscreen container of the workspace other than this one.
fn full_in(row: Cursor<'_>, w: ConId, con: ConId) -> Option<ConId>
    ensures { result ≡ full_in w con row.entry }
{
    let mut row = row;
    while let Some(part) = row.part() {
        if part.id == w {
            return match other_full(row.kids(), con) {
                Some(found) => Some(found),
                None => other_full(row.floats(), con),
            };
        }
        if let Some(found) = full_in(row.kids(), w, con) {
            return Some(found);
        }
        if let Some(found) = full_in(row.floats(), w, con) {
            return Some(found);
        }
        row = row.rest();
    }
    None
}

/// Whether no container of this one's workspace but it is fullscreen.
pub fn fills_alone(t: &Tree, con: ConId) -> bool
    ensures { result ≡ fills_alone con (workspace_of t.now con) t.now }
{
    match t.workspace_of(con) {
        Some(w) => full_in(t.nodes(), w, con).is_none(),
        None => true,
    }
}

/// Takes fullscreen from the other containers of the workspace.
fn clear_others(t: &mut Tree, con: ConId, w: ConId)
    requires { IsSound t.old }
    ensures made { Makes t.old t.new (others_unfull con (Some w)) }
    ensures alone { fills_alone con (Some w) t.new ≡ true }
{
    while let Some(other) = full_in(t.nodes(), w, con) {
        set_full(t, other, false);
    }
}

/// Makes the window fullscreen, which takes that from the others of its workspace, or no longer so; `None` is the other way
/// round from now.
pub fn set_fullscreen(t: &mut Tree, con: ConId, on: Option<bool>) -> Result<(), Refusal>
    requires { IsSubject t.old con }
    ensures does { DoesExactly t.old t.new result (window_refusal con) (set_fullscreen_tree con on) }

    // No other window of its workspace is fullscreen beside it.
    ensures alone { will_fill con on t.old ≡ true → OnOk result (fills_alone con (workspace_of t.old con) t.new ≡ true) }
{
    let Placed { part, space, .. } = window_at(t, con)?;
    if switched(on, part.state.fullscreen) {
        clear_others(t, con, space);
        set_full(t, con, true);
    } else {
        set_full(t, con, false);
    }
    Ok(())
}

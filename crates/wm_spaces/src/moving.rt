//! Moving workspaces to other outputs.
ghost use Rattle.std.specs.Prelude.{◌≡◌, Some, None, true, OnOk};
ghost use Rattle.wm_shared.specs.Does.{Does};
ghost use Rattle.wm_shared.specs.Showing.{shown_there};
ghost use Rattle.wm_shared.specs.Subject.{is_space};
ghost use Rattle.wm_spaces.specs.Moving.{IsFree, aside_refusal, move_workspace_refusal, move_workspace_tree, other_refusal, other_space, set_aside, showing_other};
ghost use Rattle.wm_tree.specs.Outputs.{IsNotShown, IsOutput, space_moved};
ghost use Rattle.wm_tree.specs.Sound.{IsSound};
ghost use Rattle.wm_tree.specs.TreeValue.{parent};

use crate::coming::free_name;
use crate::order::{Pick, best_in};
use crate::targets::node_at;
use std::alloc::Global;
use wm_base::{ConId, Refusal};
use wm_shared::{Key, refused, remember, show_there, shown_on, space_name};
use wm_tree::Tree;

/// Puts the workspace last on the output and shows it there. The output that showed it shows the first of its other
/// workspaces in their order, or a new one whose name is the least number that no workspace has. A workspace of the
/// output itself stays.
pub fn move_workspace(alloc: Global, t: &mut Tree, w: ConId, output: ConId) -> Result<(), Refusal>
    requires sound { IsSound t.old }
    requires space { is_space t.old w ≡ true }
    requires output { IsOutput output t.old.nodes }
    ensures { Does t.old t.new result (move_workspace_refusal w output)
        (move_workspace_tree w output) }
{
    let Some(own) = t.parent(w) else {
        return Ok(());
    };
    if own == output {
        return Ok(());
    }
    let was = t.shown();
    let Ok(name) = space_name(t, was) else {
        return Err(Refusal::NoMemory);
    };
    match put_aside(alloc, t, w, own) {
        Ok(()) => {
            bring(t, w, output);
            remember(t, was, name);
            Ok(())
        }
        Err(error) => Err(error),
    }
}

/// Puts a workspace that is not shown last on the output and shows it there.
fn bring(t: &mut Tree, w: ConId, output: ConId)
    requires sound { IsSound t.old }
    requires space { is_space t.old w ≡ true }
    requires output { IsOutput output t.old.nodes }
    requires hidden { IsNotShown w t.old.nodes }
    ensures tree { t.new ≡ shown_there w (parent (space_moved w output t.old) w) (space_moved w output t.old) }
    ensures sound { IsSound t.new }
{
    match t.move_workspace(w, output) {
        Ok(()) => show_there(t, w),
        Err(_) => unreachable!(),
    }
}

/// The first of the output's other workspaces.
fn other_space(t: &Tree, w: ConId, own: ConId) -> Option<Key>
    ensures { result ≡ other_space w own t.now }
{
    best_in(node_at(t.nodes().kids(), own).kids(), Pick::But(w), false)
}

/// Where the output shows the workspace, makes it show the first of its others, or a new one.
fn put_aside(alloc: Global, t: &mut Tree, w: ConId, own: ConId) -> Result<(), Refusal>
    requires sound { IsSound t.old }
    requires space { is_space t.old w ≡ true }
    requires own { parent t.old w ≡ Some own }
    ensures does { Does t.old t.new result (aside_refusal w own) (set_aside w own) }
    ensures free { OnOk result (IsFree w t.old t.new) }
{
    if shown_on(t, own) == Some(w) {
        match other_space(t, w, own) {
            Some(key) => t.set_shown(key.id),
            None => show_another(alloc, t, w, own)?,
        }
    }
    Ok(())
}

/// Makes the output of a workspace show a new one.
fn show_another(alloc: Global, t: &mut Tree, w: ConId, own: ConId) -> Result<(), Refusal>
    requires sound { IsSound t.old }
    requires space { is_space t.old w ≡ true }
    requires own { parent t.old w ≡ Some own }
    ensures does { Does t.old t.new result (other_refusal None) (showing_other None own) }
    ensures free { OnOk result (IsFree w t.old t.new) }
{
    let Ok(name) = free_name(alloc, t) else {
        return Err(Refusal::NoMemory);
    };
    match t.add_workspace(own, &name) {
        Ok(v) => {
            t.set_shown(v);
            Ok(())
        }
        Err(error) => Err(refused(error)),
    }
}

//! What windows say of themselves, and how they go.
ghost use Rattle.wm_history.specs.Windows.{AreContainers, with_urgent, without_urgent, without_windows};
ghost use Rattle.wm_forest.specs.Look.{has};
ghost use Rattle.wm_tree.specs.Sound as trees;
ghost use Rattle.std.specs.Prelude.{◌≡◌, true, OnOk, if◌then◌else◌};

use wm_base::{ConId, NoMemory};
use wm_tree::Tree;

/// Takes the windows out of the tree, those that are there.
pub fn detach_all(tree: &mut Tree, windows: &[ConId])
    requires containers { AreContainers windows.now tree.old }
    requires sound { trees.IsSound tree.old }
    ensures tree { tree.new ≡ without_windows windows.now tree.old }
    ensures sound { trees.IsSound tree.new }
{
    let mut rest = windows;
    while let [window, after @ ..] = rest {
        let _ = tree.detach(*window);
        rest = after;
    }
}

/// Makes a window that is there urgent, or no longer so.
pub fn set_urgent(tree: &mut Tree, window: ConId, on: bool) -> Result<(), NoMemory>
    requires there { has window tree.old.nodes ≡ true }
    ensures tree { OnOk result (tree.new ≡ (if on then with_urgent window tree.old else without_urgent window tree.old)) }
    ensures sound { trees.IsSound tree.old → trees.IsSound tree.new }
{
    if !on {
        tree.remove_urgent(window);
        return Ok(());
    }
    if tree.is_urgent(window) {
        return Ok(());
    }
    tree.add_urgent(window).map_err(|_| NoMemory)
}

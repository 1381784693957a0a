//! Focusing the parent and the child of a container.
ghost use Rattle.wm_focus.specs.Parents.{focus_child_refusal, focus_child_tree, focus_parent_refusal, focus_parent_tree};
ghost use Rattle.wm_shared.specs.Does.{DoesExactlyIfSound};
ghost use Rattle.wm_shared.specs.Subject.{IsSubject};

use wm_base::{ConId, ErrorText, Refusal};
use wm_shared::is_hidden;
use wm_tree::{Standing, Tree};

/// Raises the container's parent, which is a workspace for the containers at the top of it and for floating windows.
pub fn focus_parent(t: &mut Tree, from: ConId) -> Result<(), Refusal>
    requires { IsSubject t.old from }
    ensures { DoesExactlyIfSound t.old t.new result (focus_parent_refusal from)
        (focus_parent_tree from) }
{
    let parent = match t.standing(from) {
        Some(Standing::Placed(placed)) => placed.holder,
        Some(Standing::Space(_)) => return Err(Refusal::NoTarget(ErrorText::NoNeighbour)),
        Some(Standing::Away(..)) => return Err(Refusal::NoTarget(ErrorText::NoWorkspace)),
        Some(Standing::Above) | None => unreachable!(),
    };
    if let Some(parent) = parent {
        t.raise(parent);
    }
    Ok(())
}

/// Raises the focused child of the container or workspace.
pub fn focus_child(t: &mut Tree, from: ConId) -> Result<(), Refusal>
    requires { IsSubject t.old from }
    ensures { DoesExactlyIfSound t.old t.new result (focus_child_refusal from)
        (focus_child_tree from) }
{
    if is_hidden(t, from) {
        return Err(Refusal::NoTarget(ErrorText::NoWorkspace));
    }
    let Some(child) = t.focused_child(from) else {
        return Err(Refusal::NoTarget(ErrorText::NoNeighbour));
    };
    t.raise(child);
    Ok(())
}

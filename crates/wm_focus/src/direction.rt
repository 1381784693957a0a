//! Focusing in a direction.
ghost use Rattle.std.specs.Prelude.{◌≡◌, false};
ghost use Rattle.wm_focus.specs.Direction.{IsListed, focus_dir_refusal, focus_dir_tree, goal_of};
ghost use Rattle.wm_shared.specs.Does.{Does};
ghost use Rattle.wm_floats.specs.Kinds.{is_of};
ghost use Rattle.wm_floats.specs.declared.kinds.Kind.TheVariants as kinds;
ghost use Rattle.wm_shared.specs.Subject.{IsSubject, is_hidden};
ghost use Rattle.wm_tree.specs.Sound.{IsSound};
ghost use Rattle.wm_tree.specs.TreeValue.{leaf};

use crate::rungs::ways_above;
use wm_base::{ConId, Dir, ErrorText, NoMemory, Refusal};
use wm_floats::focus_round;
use wm_shared::{enter_output, focus, output_from};
use wm_tree::{Placed, Standing, Tree};

/// Where focus goes in a direction: to a node, or to another output.
#[derive(Clone, Copy, Debug)]
pub enum Goal {
    Node(ConId),
    Output(ConId),
}

/// Focuses the neighbour in a direction of the container or of the nearest node above it that has one there; else the
/// output in that direction becomes the current one; else it goes round to the other end. From a floating window the
/// next one by id is focused, or the one before it, round both ends.
pub fn focus_dir(t: &mut Tree, from: ConId, d: Dir) -> Result<(), Refusal>
    requires { IsSubject t.old from }
    ensures { Does t.old t.new result (focus_dir_refusal from d) (focus_dir_tree from d) }
{
    match t.standing(from) {
        Some(Standing::Placed(Placed { tiled: true, .. }) | Standing::Space(_)) => {
            focus_beside(t, from, d)
        }
        Some(Standing::Placed(_)) => focus_round(t, from, d),
        Some(Standing::Away(..)) => Err(Refusal::NoTarget(ErrorText::NoWorkspace)),
        Some(Standing::Above) | None => unreachable!(),
    }
}

/// Focuses the leaf of what lies in a direction of a workspace or of a tiled container on one, or makes the output there
/// the current one.
fn focus_beside(t: &mut Tree, from: ConId, d: Dir) -> Result<(), Refusal>
    requires sound { IsSound t.old }
    requires tiled { is_of kinds.Floating t.old from ≡ false }
    requires seen { is_hidden t.old from ≡ false }
    ensures { Does t.old t.new result (focus_dir_refusal from d) (focus_dir_tree from d) }
{
    let went = match find_goal(t, from, d) {
        Some(Goal::Node(node)) => match t.leaf(node) {
            Some(leaf) => focus(t, leaf),
            None => Ok(()),
        },
        Some(Goal::Output(output)) => enter_output(t, output),
        None => return Err(Refusal::NoTarget(ErrorText::NoNeighbour)),
    };
    match went {
        Ok(()) => Ok(()),
        Err(NoMemory) => Err(Refusal::NoMemory),
    }
}

/// Where to go from the container.
fn find_goal(t: &Tree, from: ConId, d: Dir) -> Option<Goal>
    ensures value { result ≡ goal_of d from t.now }
    ensures listed { IsListed result t.now }
{
    let ways = ways_above(t.nodes(), from, d);
    if let Some(beside) = ways.beside {
        return Some(Goal::Node(beside));
    }
    if let Some(output) = output_from(t, from, d) {
        return Some(Goal::Output(output));
    }
    Some(Goal::Node(ways.around?))
}

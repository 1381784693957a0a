//! Showing the workspace that a command names.
ghost use Rattle.std.specs.Prelude.{true};
ghost use Rattle.wm_shared.specs.Does.{Does};
ghost use Rattle.wm_shared.specs.Showing.{followed, shown_there};
ghost use Rattle.wm_shared.specs.Subject.{is_space};
ghost use Rattle.wm_spaces.specs.Shows.{new_space_refusal, show_refusal, show_tree, showing_new};
ghost use Rattle.wm_tree.specs.Outputs.{IsOutput};
ghost use Rattle.wm_tree.specs.Sound.{IsSound};
ghost use Rattle.wm_tree.specs.TreeValue.{parent};

use crate::targets::{Goal, find_goal, home};
use wm_base::{ConId, NoMemory, Refusal, Text};
use wm_language::Target;
use wm_shared::{refused, remember, show_space, show_there, space_name};
use wm_tree::Tree;

/// Shows the workspace that the command names, and makes it where it is not there: last on the output that the homes
/// give its name, if that is there, else on the current one.
pub fn show(t: &mut Tree, target: &Target, homes: &[(Text, Text)]) -> Result<(), Refusal>
    requires { IsSound t.old }
    ensures { Does t.old t.new result (show_refusal target.now) (show_tree target.now homes.now) }
{
    let Ok(goal) = find_goal(t, target) else {
        return Err(Refusal::NoMemory);
    };
    match goal {
        Goal::There(w) => match show_space(t, w) {
            Ok(()) => Ok(()),
            Err(NoMemory) => Err(Refusal::NoMemory),
        },
        Goal::Absent(name) => {
            let output = home(t, name.as_str(), homes);
            show_new(t, output, &name)
        }
        Goal::Refused(text) => Err(Refusal::NoTarget(text)),
    }
}

/// Makes a workspace of this name on the output and shows it.
fn show_new(t: &mut Tree, output: ConId, name: &Text) -> Result<(), Refusal>
    requires sound { IsSound t.old }
    requires output { IsOutput output t.old.nodes }
    ensures { Does t.old t.new result new_space_refusal (showing_new output name.now) }
{
    let was = t.shown();
    let Ok(old) = space_name(t, was) else {
        return Err(Refusal::NoMemory);
    };
    match t.add_workspace(output, name) {
        Ok(w) => {
            show_there(t, w);
            remember(t, was, old);
            Ok(())
        }
        Err(error) => Err(refused(error)),
    }
}

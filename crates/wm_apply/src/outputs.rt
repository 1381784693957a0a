//! Commands on one subject that name an output.
ghost use Rattle.wm_apply.specs.OutputRows.{focus_output_refusal, focus_output_tree, move_space_refusal, move_space_tree, move_to_output_refusal, move_to_output_tree};
ghost use Rattle.wm_shared.specs.Does.{Does};
ghost use Rattle.wm_shared.specs.Subject.{IsSubject};

use std::alloc::Global;
use wm_base::{ConId, ErrorText, Refusal};
use wm_language::OutArg;
use wm_shared::{is_hidden, on_workspace};
use wm_spaces::{focus_output, move_workspace, output_at, send_to_output};
use wm_tree::Tree;

/// Makes the output that the command names the current one.
pub fn focus_named(t: &mut Tree, con: ConId, arg: &OutArg) -> Result<(), Refusal>
    requires { IsSubject t.old con }
    ensures { Does t.old t.new result (focus_output_refusal con arg.now)
        (focus_output_tree con arg.now) }
{
    if is_hidden(t, con) {
        return Err(Refusal::NoTarget(ErrorText::NoWorkspace));
    }
    let Some(output) = output_at(t, con, arg) else {
        return Err(Refusal::NoTarget(ErrorText::NoOutput));
    };
    focus_output(t, output)
}

/// Sends the container to what the output shows that the command names.
pub fn send_to_named(t: &mut Tree, con: ConId, arg: &OutArg) -> Result<(), Refusal>
    requires { IsSubject t.old con }
    ensures { Does t.old t.new result (move_to_output_refusal con arg.now)
        (move_to_output_tree con arg.now) }
{
    let Some(output) = output_at(t, con, arg) else {
        on_workspace(t, con)?;
        return Err(Refusal::NoTarget(ErrorText::NoOutput));
    };
    send_to_output(t, con, output)
}

/// Moves the workspace of the container to the output that the command names.
pub fn move_space_to_named(
    alloc: Global,
    t: &mut Tree,
    con: ConId,
    arg: &OutArg,
) -> Result<(), Refusal>
    requires { IsSubject t.old con }
    ensures { Does t.old t.new result (move_space_refusal con arg.now)
        (move_space_tree con arg.now) }
{
    let Some(w) = t.workspace_of(con) else {
        return Err(Refusal::NoTarget(ErrorText::NoWorkspace));
    };
    let Some(output) = output_at(t, con, arg) else {
        return Err(Refusal::NoTarget(ErrorText::NoOutput));
    };
    move_workspace(alloc, t, w, output)
}

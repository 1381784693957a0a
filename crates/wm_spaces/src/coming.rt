//! Outputs that come, go and become the current one.
ghost use Rattle.std.specs.Prelude.{◌≡◌, ◌≤◌, ◌+◌, true, IfOk, length, is_some};
ghost use Rattle.std.specs.Fmt.{decimal};
ghost use Rattle.wm_shared.specs.Does.{Does};
ghost use Rattle.wm_shared.specs.Showing.{output_focused};
ghost use Rattle.wm_spaces.specs.Coming.{free_from, free_name, left_output, output_added_refusal, output_added_tree, output_gone, output_removed_refusal, output_removed_tree, unrefused};
ghost use Rattle.wm_tree.specs.Outputs.{IsOutput};
ghost use Rattle.wm_forest.specs.SoundRow.{IsOutputRect};
ghost use Rattle.wm_tree.specs.Sound.{IsSound};

use crate::names::{output_named, space_named};
use std::alloc::Global;
use wm_base::{ConId, ErrorText, NoMemory, OutputPlan, Refusal, Text, TextRefusal};
use wm_shared::{enter_output, refused};
use wm_tree::Tree;

/// How many workspaces a tree has at most.
const MAX_SPACES: u32 = 256;

/// A number as a text.
fn number_text(alloc: Global, k: u32) -> Result<Text, NoMemory>
    requires { k ≤ 1000 }
    ensures { IfOk result (λ text. text ≡ decimal k) }
{
    let written = format!(in alloc; "{k}")?;
    match Text::new(alloc, written.as_str()) {
        Ok(text) => Ok(text),
        Err(TextRefusal::TooLong { .. }) => unreachable!(),
        Err(TextRefusal::NoMemory) => Err(NoMemory),
    }
}

/// The least number from k on, and below k + `most`, that is no workspace's name, or k + `most`.
fn free_from(alloc: Global, t: &Tree, most: u32, k: u32) -> Result<Text, NoMemory>
    requires { k + most ≤ 1000 }
    ensures { IfOk result (λ text. text ≡ decimal (free_from most k t.now)) }
{
    let name = number_text(alloc, k)?;
    if most == 0 || space_named(t, name.as_str()).is_none() {
        return Ok(name);
    }
    free_from(alloc, t, most - 1, k + 1)
}

/// The least number from 1 on that is no workspace's name.
pub(crate) fn free_name(alloc: Global, t: &Tree) -> Result<Text, NoMemory>
    ensures { IfOk result (λ text. text ≡ free_name t.now) }
{
    free_from(alloc, t, MAX_SPACES, 1)
}

/// Adds an output, last. It shows a new workspace, whose name is the least number from 1 on that no workspace has.
pub fn output_added(alloc: Global, t: &mut Tree, o: &OutputPlan) -> Result<(), Refusal>
    requires sound { IsSound t.old }
    requires rect { IsOutputRect o.now.rect }
    ensures { Does t.old t.new result (output_added_refusal o.now) (output_added_tree o.now) }
{
    if output_named(t, o.name.as_str()).is_some() {
        return Err(Refusal::NameTaken);
    }
    let Ok(first) = free_name(alloc, t) else {
        return Err(Refusal::NoMemory);
    };
    match t.add_output(o, &first) {
        Ok(_) => Ok(()),
        Err(error) => Err(refused(error)),
    }
}

/// Makes the output the current one, and keeps the name of the workspace that was focused as the previous one.
pub fn focus_output(t: &mut Tree, output: ConId) -> Result<(), Refusal>
    requires sound { IsSound t.old }
    requires output { IsOutput output t.old.nodes }
    ensures { Does t.old t.new result unrefused (output_focused output) }
{
    match enter_output(t, output) {
        Ok(()) => Ok(()),
        Err(NoMemory) => Err(Refusal::NoMemory),
    }
}

/// Makes the other output the current one where this one is.
fn leave_output(t: &mut Tree, output: ConId, heir: ConId) -> Result<(), Refusal>
    requires sound { IsSound t.old }
    requires heir { IsOutput heir t.old.nodes }
    ensures { Does t.old t.new result unrefused (left_output output heir) }
{
    if t.current() == output {
        return focus_output(t, heir);
    }
    Ok(())
}

/// Removes the output of this name. Its workspaces come last on the first of the others, which keeps what it shows; that
/// one becomes current where the removed one was, and the name of the workspace that was focused is kept then.
pub fn output_removed(t: &mut Tree, name: &Text) -> Result<(), Refusal>
    requires { IsSound t.old }
    ensures { Does t.old t.new result (output_removed_refusal name.now)
        (output_removed_tree name.now) }
{
    let Some(output) = output_named(t, name.as_str()) else {
        return Err(Refusal::NoTarget(ErrorText::NoOutput));
    };
    let Some(heir) = t.heir(output) else {
        return Err(Refusal::NoTarget(ErrorText::NoOutput));
    };
    leave_output(t, output, heir)?;
    match t.remove_output(output) {
        Ok(()) => Ok(()),
        Err(_) => unreachable!(),
    }
}

//! Showing a workspace on its output, and focusing a container in it.
ghost use Rattle.std.specs.Prelude.{◌≡◌, true, IfOk, OnOk, OnErr};
ghost use Rattle.wm_shared.specs.Showing.{entered, focusing, followed, output_focused, remembered, showing, shown_on, shown_there, space_name};
ghost use Rattle.wm_shared.specs.Subject.{is_space};
ghost use Rattle.wm_forest.specs.Look.{first_kids, in_row};
ghost use Rattle.wm_tree.specs.Sound.{IsSound};
ghost use Rattle.wm_tree.specs.TreeValue.{parent};

use crate::outputs::output_of;
use wm_base::{ConId, NoMemory, Text};
use wm_tree::Tree;

/// The name of a workspace. `None` where there is none.
pub fn space_name(t: &Tree, w: ConId) -> Result<Option<Text>, NoMemory>
    ensures { IfOk result (λ name. name ≡ space_name w t.now) }
{
    match t.space(w) {
        Some(space) => Ok(Some(space.name.clone()?)),
        None => Ok(None),
    }
}

/// The workspace that an output shows.
pub fn shown_on(t: &Tree, output: ConId) -> Option<ConId>
    ensures { result ≡ shown_on output t.now }
{
    Some(t.output(output)?.shown)
}

/// Puts the sticky windows of what was shown into the workspace that comes in its place.
fn follow(t: &mut Tree, was: Option<ConId>, w: ConId)
    ensures { t.new ≡ followed was w t.old }
{
    if let Some(v) = was
        && v != w
    {
        t.go_along(v, w);
    }
}

/// Keeps the name of the workspace that was focused as the previous one, where another is focused now.
pub fn remember(t: &mut Tree, was: ConId, name: Option<Text>)
    ensures tree { t.new ≡ remembered was name t.old }
    ensures sound { IsSound t.old → IsSound t.new }
{
    if t.shown() != was {
        t.set_previous(name);
    }
}

/// Makes the workspace what its output shows, with the sticky windows of what it showed, and that output the current
/// one.
pub fn show_there(t: &mut Tree, w: ConId)
    requires sound { IsSound t.old }
    requires space { is_space t.old w ≡ true }
    ensures tree { t.new ≡ shown_there w (parent t.old w) t.old }
    ensures sound { IsSound t.new }
{
    if let Some(output) = t.parent(w) {
        let was = shown_on(t, output);
        t.set_current(output);
        t.set_shown(w);
        follow(t, was, w);
    }
}

/// Shows a workspace: its output shows it and becomes the current one, and sticky windows of what it showed go along.
/// Where another workspace was focused, its name is kept as that of the previous one.
pub fn show_space(t: &mut Tree, w: ConId) -> Result<(), NoMemory>
    requires sound { IsSound t.old }
    requires space { is_space t.old w ≡ true }
    ensures tree { OnOk result (t.new ≡ showing w t.old) }
    ensures err { OnErr result (t.new ≡ t.old) }
    ensures sound { IsSound t.new }
{
    let was = t.shown();
    let name = space_name(t, was)?;
    show_there(t, w);
    remember(t, was, name);
    Ok(())
}

/// Makes an output the current one. Where another workspace was focused, its name is kept as that of the previous one.
pub fn enter_output(t: &mut Tree, output: ConId) -> Result<(), NoMemory>
    requires sound { IsSound t.old }
    requires output { in_row output (first_kids t.old.nodes) ≡ true }
    ensures tree { OnOk result (t.new ≡ output_focused output t.old) }
    ensures err { OnErr result (t.new ≡ t.old) }
    ensures sound { IsSound t.new }
{
    let was = t.shown();
    let name = space_name(t, was)?;
    t.set_current(output);
    remember(t, was, name);
    Ok(())
}

/// Focuses a container or workspace: its workspace is shown, and it is raised.
#[tactic(auto, using(crate::proofs::ShowLemmas::workspace_is))]
pub fn focus(t: &mut Tree, con: ConId) -> Result<(), NoMemory>
    requires { IsSound t.old }
    ensures tree { OnOk result (t.new ≡ focusing con t.old) }
    ensures err { OnErr result (t.new ≡ t.old) }
    ensures sound { IsSound t.new }
{
    if let Some(w) = t.workspace_of(con) {
        show_space(t, w)?;
    }
    t.raise(con);
    Ok(())
}

/// Makes the output on which the container stands the current one.
#[tactic(auto, using(crate::proofs::ShowLemmas::entered_listed))]
pub fn enter(t: &mut Tree, con: ConId)
    ensures tree { t.new ≡ entered con t.old }
    ensures sound { IsSound t.old → IsSound t.new }
{
    if let Some(output) = output_of(t, con) {
        t.set_current(output);
    }
}

//! Renaming workspaces.
ghost use Rattle.std.specs.Prelude.{◌≡◌};
ghost use Rattle.std.specs.Option.{option_copied};
ghost use Rattle.wm_spaces.specs.Renaming.{rename_refusal, rename_tree, renamed_space, renaming_refusal};
ghost use Rattle.wm_shared.specs.Does.{Does};
ghost use Rattle.wm_tree.specs.Sound.{IsSound};

use crate::names::{is_reserved, other_has, space_named};
use wm_base::{ConId, ErrorText, Refusal, Text};
use wm_tree::Tree;

/// The workspace of the name, or else the focused one.
fn renamed_space(t: &Tree, was: Option<&Text>) -> Option<ConId>
    ensures { result ≡ renamed_space (option_copied was.entry) t.now }
{
    match was {
        None => Some(t.shown()),
        Some(was) => space_named(t, was.as_str()),
    }
}

/// Gives a name to the workspace that has the name `was`, or else to the focused one. The name of the previous
/// workspace stays as it was.
pub fn rename(t: &mut Tree, was: Option<&Text>, name: &Text) -> Result<(), Refusal>
    requires { IsSound t.old }
    ensures { Does t.old t.new result (rename_refusal (option_copied was.entry) name.now)
        (rename_tree (option_copied was.entry) name.now) }
{
    let Some(w) = renamed_space(t, was) else {
        return Err(Refusal::NoTarget(ErrorText::NoWorkspace));
    };
    if is_reserved(name.as_str()) {
        return Err(Refusal::NoTarget(ErrorText::NameReserved));
    }
    if other_has(t, w, name.as_str()) {
        return Err(Refusal::NameTaken);
    }
    let Ok(name) = name.clone() else {
        return Err(Refusal::NoMemory);
    };
    t.set_name(w, name);
    Ok(())
}

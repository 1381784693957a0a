//! Appending the saved layout of a name.
ghost use Rattle.std.specs.Prelude.{◌≡◌, MatchOption, None, Some, true, IsTrue};
ghost use Rattle.wm_apply.specs.Layouts.{append_refusal, append_tree, if_fit, layout_named};
ghost use Rattle.wm_saved.specs.Limits.{is_fit};
ghost use Rattle.wm_shared.specs.Does.{Does};
ghost use Rattle.wm_tree.specs.Sound.{IsSound};

use std::alloc::Global;
use wm_base::{ErrorText, Refusal, Text};
use wm_layouts::Env;
use wm_saved::SavedLayout;
use wm_shared::refused;
use wm_swallow::append;
use wm_tree::Tree;

/// The layout, where its borders and marks are within their limits.
fn if_fit(layout: &SavedLayout) -> Option<&SavedLayout>
    ensures value { MatchOption result (if_fit layout.now ≡ None) (λ found. if_fit layout.now ≡ Some found.now) }
    ensures fit { MatchOption result (Unit {0}) (λ found. IsTrue (is_fit found.now)) }
{
    if layout.is_fit() { Some(layout) } else { None }
}

/// The first layout of this name. One that is not within the limits, as no sound plan has, counts as none.
fn layout_named<'a>(layouts: &'a [(Text, SavedLayout)], name: &str) -> Option<&'a SavedLayout>
    ensures value { MatchOption result (layout_named name.now layouts.now ≡ None) (λ found. layout_named name.now layouts.now ≡ Some found.now) }
    ensures fit { MatchOption result (Unit {0}) (λ found. IsTrue (is_fit found.now)) }
{
    let mut rest = layouts;
    while let [first, after @ ..] = rest {
        if first.0.as_str() == name {
            return if_fit(&first.1);
        }
        rest = after;
    }
    None
}

/// Appends the layout of this name to the focused workspace.
pub fn append_named(alloc: Global, t: &mut Tree, env: &Env, name: &Text) -> Result<(), Refusal>
    requires { IsSound t.old }
    ensures { Does t.old t.new result (append_refusal (layout_named name.now env.now.layouts))
        (append_tree (layout_named name.now env.now.layouts)) }
{
    let Some(layout) = layout_named(env.layouts.items(), name.as_str()) else {
        return Err(Refusal::NoTarget(ErrorText::NoLayout));
    };
    let workspace = t.shown();
    match append(alloc, t, workspace, layout) {
        Ok(()) => Ok(()),
        Err(error) => Err(refused(error)),
    }
}

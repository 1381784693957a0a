//! Windows hide in the scratchpad and come back.
ghost use Rattle.std.specs.Prelude.{◌≡◌, ◌≢◌, None, Some, false, true, OnOk, IfSome};
ghost use Rattle.wm_floats.specs.Floating.{earlier, floating_rect};
ghost use Rattle.wm_floats.specs.Kinds.{is_flagged_state};
ghost use Rattle.wm_floats.specs.Windows.{state_of};
ghost use Rattle.wm_floats.specs.Scratchpad.{bring_first_refusal, bring_first_tree, brought, brought_refusal, coming_place, put_away, put_away_refusal, show_next_refusal, show_next_tree, show_scratchpad_refusal, show_scratchpad_tree, show_this_refusal, show_this_tree, to_scratchpad_refusal, to_scratchpad_tree};
ghost use Rattle.wm_shared.specs.Does.{DoesExactly};
ghost use Rattle.wm_shared.specs.Subject.{IsSubject, is_hidden};
ghost use Rattle.wm_forest.specs.Look.{con_kind, kind_of};
ghost use Rattle.wm_tree.specs.Sound.{IsSound};

use crate::floating::{floating_rect, go};
use crate::kinds::{Kind, is_of_space, latest};
use crate::places::held_middle;
use crate::windows::{set_flag, window_at};
use wm_base::{ConId, ErrorText, Rect, Refusal, Size};
use wm_shared::{is_hidden, rect_of};
use wm_tree::{Place, Tree};

/// Puts the window last into the scratchpad, floating and flagged. It loses fullscreen.
pub fn to_scratchpad(t: &mut Tree, con: ConId) -> Result<(), Refusal>
    requires { IsSubject t.old con }
    ensures does { DoesExactly t.old t.new result (to_scratchpad_refusal con)
        (to_scratchpad_tree con) }

    // It is flagged and has a rectangle there.
    ensures flagged { OnOk result (is_flagged_state (state_of con t.new) ≡ true) }
    ensures rect { OnOk result (earlier con t.new ≡ Some (floating_rect con t.old)) }
{
    window_at(t, con)?;
    let rect = floating_rect(t, con);
    go(t, con, Place::Scratchpad(rect))?;
    set_flag(t, con, true);
    Ok(())
}

/// Puts a floating window last into the scratchpad as it is.
fn put_away(t: &mut Tree, con: ConId) -> Result<(), Refusal>
    requires sound { IsSound t.old }
    requires con { kind_of con_kind con t.old.nodes ≢ None }
    requires seen { is_hidden t.old con ≡ false }
    ensures { DoesExactly t.old t.new result (put_away_refusal con) (put_away con) }
{
    let rect = rect_of(t, con);
    go(t, con, Place::Scratchpad(rect))
}

/// Where a window of the scratchpad comes.
fn coming_place(t: &Tree, con: ConId) -> Place
    ensures { result ≡ coming_place con t.now }
{
    let rect = rect_of(t, con);
    let Rect { w, h, .. } = rect;
    let rect = match t.output(t.current()) {
        Some(output) => held_middle(output.rect, Size { w, h }),
        None => rect,
    };
    Place::Float(t.shown(), rect)
}

/// Brings a window of the scratchpad to the focused workspace, in the middle of the current output, and focuses it.
fn bring(t: &mut Tree, con: ConId) -> Result<(), Refusal>
    requires sound { IsSound t.old }
    requires con { kind_of con_kind con t.old.nodes ≢ None }
    ensures { DoesExactly t.old t.new result (brought_refusal con) (brought con) }
{
    let at = coming_place(t, con);
    go(t, con, at)?;
    t.raise(con);
    Ok(())
}

/// Brings the first window of the scratchpad.
fn bring_first(t: &mut Tree) -> Result<(), Refusal>
    requires { IsSound t.old }
    ensures { DoesExactly t.old t.new result bring_first_refusal bring_first_tree }
{
    match t.scratchpad(0) {
        Some(con) => bring(t, con),
        None => Err(Refusal::NoTarget(ErrorText::ScratchEmpty)),
    }
}

/// Puts the focused window away where it is flagged and floats; else focuses the most recent such window of the focused
/// workspace; else brings the first window of the scratchpad.
fn show_next(t: &mut Tree) -> Result<(), Refusal>
    requires { IsSound t.old }
    ensures { DoesExactly t.old t.new result show_next_refusal show_next_tree }
{
    let w = t.shown();
    let focused = t.focused();
    if is_of_space(t, Kind::Flagged, w, focused) {
        return put_away(t, focused);
    }
    match latest(t, Kind::Flagged, w) {
        Some(con) => {
            t.raise(con);
            Ok(())
        }
        None => bring_first(t),
    }
}

/// Brings the window where it is in the scratchpad, and puts it away where it is flagged and floats on the focused
/// workspace.
fn show_this(t: &mut Tree, con: ConId) -> Result<(), Refusal>
    requires { IsSubject t.old con }
    ensures { DoesExactly t.old t.new result (show_this_refusal con) (show_this_tree con) }
{
    if is_hidden(t, con) {
        return bring(t, con);
    }
    if is_of_space(t, Kind::Flagged, t.shown(), con) {
        return put_away(t, con);
    }
    Err(Refusal::NoTarget(ErrorText::NoContainer))
}

/// Shows and hides windows of the scratchpad: this one, or without one that whose turn it is.
pub fn show_scratchpad(t: &mut Tree, con: Option<ConId>) -> Result<(), Refusal>
    requires sound { IsSound t.old }
    requires subject { IfSome con (λ c. IsSubject t.old c) }
    ensures { DoesExactly t.old t.new result (show_scratchpad_refusal con)
        (show_scratchpad_tree con) }
{
    match con {
        Some(con) => show_this(t, con),
        None => show_next(t),
    }
}

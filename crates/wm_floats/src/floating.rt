//! Windows float, and are tiled again.
ghost use Rattle.std.specs.Prelude.{◌≡◌, ◌≢◌, None, Some, true, false, OnOk};
ghost use Rattle.std.specs.Option.{option_copied};
ghost use Rattle.wm_floats.specs.Floating.{IsGoal, earlier, floated, floated_refusal, floating_rect, moved_refusal, new_rect, sunk, sunk_refusal};
ghost use Rattle.wm_floats.specs.Switches.{set_floating_refusal, set_floating_tree, will_float};
ghost use Rattle.wm_shared.specs.Does.{DoesExactly};
ghost use Rattle.wm_shared.specs.Subject.{IsSubject, is_space};
ghost use Rattle.wm_floats.specs.Windows.{natural_of};
ghost use Rattle.wm_tree.specs.Move.{moved};
ghost use Rattle.wm_forest.specs.Look.{con_kind, kind_of};
ghost use Rattle.wm_tree.specs.Sound.{IsSound};
ghost use Rattle.wm_tree.specs.TreeValue.{is_tiled_con, workspace_of};

use crate::places::{held_middle, outer_size};
use crate::windows::{set_flag, switched, window_at};
use wm_base::{Border, ConId, NOWHERE, Rect, Refusal, Size};
use wm_shared::{natural_by, output_part_of, refused};
use wm_tree::{OutputPart, Place, Placed, Tree};

/// Puts the container at the place.
pub(crate) fn go(t: &mut Tree, con: ConId, at: Place) -> Result<(), Refusal>
    requires sound { IsSound t.old }
    requires goal { IsGoal con at t.old }
    ensures { DoesExactly t.old t.new result (moved_refusal con at) (moved con at) }
{
    match t.move_to(con, at) {
        Ok(()) => Ok(()),
        Err(error) => Err(refused(error)),
    }
}

/// The outer rectangle of a window that floats for the first time: in the middle of its output.
fn new_rect(output: Option<&OutputPart>, border: Border, natural: Option<Size>) -> Rect
    ensures { result ≡ new_rect (option_copied output.entry) border natural }
{
    match (output, natural) {
        (Some(output), Some(natural)) => {
            held_middle(output.rect, outer_size(border, natural, output.rect))
        }
        _ => NOWHERE,
    }
}

/// The outer rectangle with which the window floats: the one that it had when it floated earlier, or else a new one.
pub(crate) fn floating_rect(t: &Tree, con: ConId) -> Rect
    ensures { result ≡ floating_rect con t.now }
{
    let Some(part) = t.container(con) else {
        return NOWHERE;
    };
    match part.state.rect {
        Some(rect) => rect,
        None => {
            let natural = natural_by(&part.kind);
            new_rect(output_part_of(t, con), part.state.border, natural)
        }
    }
}

/// Makes the window float, or tiles it; `None` is the other way round from now. Nothing changes where it is so already.
///
/// A window that is to float leaves its place and comes last among the floating windows of its workspace: with the outer
/// rectangle that it had when it floated earlier, or with its natural size and border in the middle of its output. One
/// that is to be tiled comes after the leaf of its workspace, or last where nothing is tiled there, and is no longer
/// flagged for the scratchpad.
pub fn set_floating(t: &mut Tree, con: ConId, on: Option<bool>) -> Result<(), Refusal>
    requires { IsSubject t.old con }
    ensures does { DoesExactly t.old t.new result (set_floating_refusal con on) (set_floating_tree con on) }

    // The window that was tiled has that rectangle.
    ensures floats { will_float con on t.old ≡ true → is_tiled_con t.old con ≡ true → OnOk result (earlier con t.new ≡ Some (floating_rect con t.old)) }

    // One that is tiled keeps the rectangle with which it floated, and with which it floats again.
    ensures tiled { will_float con on t.old ≡ false → OnOk result (earlier con t.new ≡ earlier con t.old) }
{
    let Placed { space, tiled, .. } = window_at(t, con)?;
    match (switched(on, !tiled), tiled) {
        (true, true) => float_on(t, con, space),
        (false, false) => sink_on(t, con, space),
        (true, false) | (false, true) => Ok(()),
    }
}

/// Lets the tiled window float on its workspace.
fn float_on(t: &mut Tree, con: ConId, w: ConId) -> Result<(), Refusal>
    requires sound { IsSound t.old }
    requires tiled { is_tiled_con t.old con ≡ true }
    requires con { kind_of con_kind con t.old.nodes ≢ None }
    requires space { is_space t.old w ≡ true }
    ensures does { DoesExactly t.old t.new result (floated_refusal con (Some w))
        (floated con (Some w)) }
    ensures rect { is_tiled_con t.old con ≡ true → OnOk result (earlier con t.new ≡ Some (floating_rect con t.old)) }
{
    let rect = floating_rect(t, con);
    go(t, con, Place::Float(w, rect))
}

/// Tiles the floating window in its workspace.
fn sink_on(t: &mut Tree, con: ConId, w: ConId) -> Result<(), Refusal>
    requires sound { IsSound t.old }
    requires loose { is_tiled_con t.old con ≡ false }
    requires window { natural_of con t.old ≢ None }
    requires space { workspace_of t.old con ≡ Some w }
    ensures does { DoesExactly t.old t.new result (sunk_refusal con (Some w)) (sunk con (Some w)) }
    ensures rect { OnOk result (earlier con t.new ≡ earlier con t.old) }
{
    let at = t.tiling_place(w);
    go(t, con, at)?;
    set_flag(t, con, false);
    Ok(())
}

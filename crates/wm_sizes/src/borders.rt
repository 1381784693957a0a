//! Borders of windows.
ghost use Rattle.std.specs.Prelude.{◌≡◌};
ghost use Rattle.wm_sizes.specs.Borders.{cycle_border_refusal, cycle_border_tree, is_wide, next_border, set_border_refusal, set_border_tree};
ghost use Rattle.wm_shared.specs.Does.{DoesExactly};
ghost use Rattle.wm_shared.specs.Subject.{IsSubject};

use crate::windows::{look_refusal, put_border};
use wm_base::{Border, ConId, ErrorText, Refusal};
use wm_shared::state_of;
use wm_tree::Tree;

/// How wide a border is at most, in pixels.
const WIDEST: u32 = 64;

/// How wide the borders are between which toggling goes, in pixels.
const USUAL: u32 = 2;

/// Whether the border is wider than any may be.
pub fn is_wide(border: Border) -> bool
    ensures { result ≡ is_wide border }
{
    match border {
        Border::Normal(n) | Border::Pixel(n) => n > WIDEST,
        Border::Bare => false,
    }
}

/// Gives the window this border, of at most 64 pixels.
pub fn set_border(t: &mut Tree, con: ConId, border: Border) -> Result<(), Refusal>
    requires { IsSubject t.old con }
    ensures { DoesExactly t.old t.new result (set_border_refusal con border)
        (set_border_tree con border) }
{
    if let Some(error) = look_refusal(t, con) {
        return Err(error);
    }
    if is_wide(border) {
        return Err(Refusal::NoTarget(ErrorText::OutOfRange));
    }
    put_border(t, con, border);
    Ok(())
}

/// The border to which toggling goes.
pub fn next_border(border: Border) -> Border
    ensures { result ≡ next_border border }
{
    match border {
        Border::Normal(_) => Border::Bare,
        Border::Bare => Border::Pixel(USUAL),
        Border::Pixel(_) => Border::Normal(USUAL),
    }
}

/// Goes from a normal border to none, from none to a frame of 2 pixels, and from a frame to a normal one of 2 pixels.
pub fn cycle_border(t: &mut Tree, con: ConId) -> Result<(), Refusal>
    requires { IsSubject t.old con }
    ensures { DoesExactly t.old t.new result (cycle_border_refusal con) (cycle_border_tree con) }
{
    if let Some(error) = look_refusal(t, con) {
        return Err(error);
    }
    if let Some(state) = state_of(t, con) {
        put_border(t, con, next_border(state.border));
    }
    Ok(())
}

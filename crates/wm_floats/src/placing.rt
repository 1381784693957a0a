//! Moving floating windows about on the screen.
ghost use Rattle.std.specs.Prelude.{◌≡◌};
ghost use Rattle.wm_floats.specs.Placing.{centre_refusal, centre_tree, middle_x, middle_y, move_by_refusal, move_by_tree, place_at_refusal, place_at_tree};
ghost use Rattle.std.specs.Option.{option_copied};
ghost use Rattle.wm_shared.specs.Does.{DoesExactly};
ghost use Rattle.wm_shared.specs.Subject.{IsSubject};

use crate::places::middle_of;
use wm_base::{ConId, ErrorText, Rect, Refusal};
use wm_shared::{is_in_range, on_workspace, output_part_of, rect_of, set_rect};
use wm_tree::{OutputPart, Tree};

/// Puts the floating window's outer rectangle at this place, in pixels. Its size stays.
pub fn place_at(t: &mut Tree, con: ConId, x: i64, y: i64) -> Result<(), Refusal>
    requires { IsSubject t.old con }
    ensures { DoesExactly t.old t.new result (place_at_refusal con x y) (place_at_tree con x y) }
{
    if on_workspace(t, con)?.tiled {
        return Err(Refusal::NoTarget(ErrorText::NotFloating));
    }
    if !(is_in_range(x) && is_in_range(y)) {
        return Err(Refusal::NoTarget(ErrorText::OutOfRange));
    }
    let Rect { w, h, .. } = rect_of(t, con);
    let rect = Rect {
        x: x as i32,
        y: y as i32,
        w,
        h,
    };
    set_rect(t, con, rect);
    Ok(())
}

/// Shifts the floating window by so many pixels to the right and down.
pub fn move_by(t: &mut Tree, con: ConId, dx: i32, dy: i32) -> Result<(), Refusal>
    requires { IsSubject t.old con }
    ensures { DoesExactly t.old t.new result (move_by_refusal con dx dy) (move_by_tree con dx dy) }
{
    let rect = rect_of(t, con);
    let x = i64::from(rect.x) + i64::from(dx);
    let y = i64::from(rect.y) + i64::from(dy);
    place_at(t, con, x, y)
}

/// Where a rectangle begins across in the middle of the output.
fn middle_x(output: Option<&OutputPart>, rect: Rect) -> i64
    ensures { result ≡ middle_x (option_copied output.entry) rect }
{
    match output {
        Some(output) => middle_of(output.rect.x, output.rect.w, rect.w),
        None => i64::from(rect.x),
    }
}

/// Where a rectangle begins from above in the middle of the output.
fn middle_y(output: Option<&OutputPart>, rect: Rect) -> i64
    ensures { result ≡ middle_y (option_copied output.entry) rect }
{
    match output {
        Some(output) => middle_of(output.rect.y, output.rect.h, rect.h),
        None => i64::from(rect.y),
    }
}

/// Puts the floating window in the middle of its output: half of what is left is before it, rounded down.
pub fn centre(t: &mut Tree, con: ConId) -> Result<(), Refusal>
    requires { IsSubject t.old con }
    ensures { DoesExactly t.old t.new result (centre_refusal con) (centre_tree con) }
{
    let rect = rect_of(t, con);
    let x = middle_x(output_part_of(t, con), rect);
    let y = middle_y(output_part_of(t, con), rect);
    place_at(t, con, x, y)
}

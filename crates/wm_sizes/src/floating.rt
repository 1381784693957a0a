//! Sizes of floating windows.
ghost use Rattle.std.specs.Prelude.{◌≡◌, ◌+ℤ◌, ◌-ℤ◌, pos, nat_abs, true};
ghost use Rattle.wm_shared.specs.Rects.{is_in_range};
ghost use Rattle.wm_sizes.specs.Floating.{IsStep, as_rect, fits, grow_refusal, grow_tree, grown, has_place, has_sides, is_side, is_size, resize_set_refusal, resize_set_tree, step};
ghost use Rattle.wm_shared.specs.Does.{DoesExactly};
ghost use Rattle.wm_shared.specs.Subject.{IsSubject};
ghost use Rattle.wm_tree.specs.Sound.{IsSound};

use wm_base::{ConId, Dir, ErrorText, Rect, Refusal};
use wm_language::Side;
use wm_shared::{is_in_range, on_workspace, rect_of, set_rect};
use wm_tree::Tree;

/// How long a side of a window is at most, in pixels.
const LONGEST: u32 = 16_384;

/// A place and sides in pixels, which may be those of no window.
#[derive(Clone, Copy, Debug, PartialEq, Eq)]
pub(crate) struct Frame {
    pub x: i64,
    pub y: i64,
    pub w: i64,
    pub h: i64,
}

/// Whether a window's side may be this long.
fn is_size(n: u32) -> bool
    ensures { result ≡ is_size n }
{
    1 <= n && n <= LONGEST
}

/// Gives the floating window this outer size, in pixels. Its place stays.
pub fn resize_set(t: &mut Tree, con: ConId, w: u32, h: u32) -> Result<(), Refusal>
    requires { IsSubject t.old con }
    ensures { DoesExactly t.old t.new result (resize_set_refusal con w h)
        (resize_set_tree con w h) }
{
    if on_workspace(t, con)?.tiled {
        return Err(Refusal::NoTarget(ErrorText::NotFloating));
    }
    if !(is_size(w) && is_size(h)) {
        return Err(Refusal::NoTarget(ErrorText::OutOfRange));
    }
    let Rect { x, y, .. } = rect_of(t, con);
    set_rect(t, con, Rect { x, y, w, h });
    Ok(())
}

/// By how many pixels a side becomes longer.
fn step(grow: bool, px: u32) -> i64
    ensures value { result ≡ step grow px }
    ensures small { IsStep result }
{
    if grow { i64::from(px) } else { -i64::from(px) }
}

/// A side that becomes longer by so many pixels.
fn longer(side: u32, by: i64) -> i64
    requires { IsStep by }
    ensures { result ≡ pos side +ℤ by }
{
    i64::from(side) + by
}

/// A place that comes so many pixels earlier.
fn earlier(place: i32, by: i64) -> i64
    requires { IsStep by }
    ensures { result ≡ place -ℤ by }
{
    i64::from(place) - by
}

/// The frame of the rectangle that becomes longer by so many pixels at that side.
fn grown(rect: Rect, side: Side, by: i64) -> Frame
    requires { IsStep by }
    ensures { result ≡ grown side by rect }
{
    let (x, y) = (i64::from(rect.x), i64::from(rect.y));
    let (w, h) = (i64::from(rect.w), i64::from(rect.h));
    match side {
        Side::Width | Side::At(Dir::Right) => {
            let w = longer(rect.w, by);
            Frame { x, y, w, h }
        }
        Side::Height | Side::At(Dir::Down) => {
            let h = longer(rect.h, by);
            Frame { x, y, w, h }
        }
        Side::At(Dir::Left) => {
            let (x, w) = (earlier(rect.x, by), longer(rect.w, by));
            Frame { x, y, w, h }
        }
        Side::At(Dir::Up) => {
            let (y, h) = (earlier(rect.y, by), longer(rect.h, by));
            Frame { x, y, w, h }
        }
    }
}

/// Whether a window's side may be this long.
fn is_side(n: i64) -> bool
    ensures { result ≡ is_side n }
{
    1 <= n && n <= i64::from(LONGEST)
}

fn has_sides(frame: Frame) -> bool
    ensures { result ≡ has_sides frame }
{
    is_side(frame.w) && is_side(frame.h)
}

fn has_place(frame: Frame) -> bool
    ensures { result ≡ has_place frame }
{
    is_in_range(frame.x) && is_in_range(frame.y)
}

/// Whether a window may have the frame's sides and place.
fn fits(frame: Frame) -> bool
    ensures { result ≡ fits frame }
{
    has_sides(frame) && has_place(frame)
}

fn place(n: i64) -> i32
    requires { is_in_range n ≡ true }
    ensures { result ≡ n }
{
    n as i32
}

fn length(n: i64) -> u32
    requires { is_side n ≡ true }
    ensures { result ≡ nat_abs n }
{
    n as u32
}

/// The frame as a window's rectangle.
fn as_rect(frame: Frame) -> Rect
    requires sides { has_sides frame ≡ true }
    requires place { has_place frame ≡ true }
    ensures { result ≡ as_rect frame }
{
    Rect {
        x: place(frame.x),
        y: place(frame.y),
        w: length(frame.w),
        h: length(frame.h),
    }
}

/// Lets the floating window grow or shrink by so many pixels at that side.
pub(crate) fn grow_floating(
    t: &mut Tree,
    con: ConId,
    side: Side,
    grow: bool,
    px: u32,
) -> Result<(), Refusal>
    requires { IsSound t.old }
    ensures { DoesExactly t.old t.new result (grow_refusal con side (step grow px))
        (grow_tree con side (step grow px)) }
{
    let frame = grown(rect_of(t, con), side, step(grow, px));
    if !fits(frame) {
        return Err(Refusal::NoTarget(ErrorText::OutOfRange));
    }
    set_rect(t, con, as_rect(frame));
    Ok(())
}

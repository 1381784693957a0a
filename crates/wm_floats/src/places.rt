//! Places and sizes of windows in pixels, as plain numbers.
ghost use Rattle.std.specs.Prelude.{◌≡◌, ◌<◌, min, ◌+◌};
ghost use Rattle.wm_floats.specs.Places.{border_height, border_width, held_middle, middle_of, outer_size};

use wm_base::{Border, Rect, Size};
use wm_shared::held;

/// How high a title is, in pixels.
const TITLE: u64 = 20;

/// Where a span begins in the middle of another one: half of what is left is before it, rounded down.
pub(crate) fn middle_of(start: i32, room: u32, length: u32) -> i64
    ensures { result ≡ middle_of start room length }
{
    let left = i64::from(room) - i64::from(length);
    i64::from(start) + left.div_euclid(2)
}

/// How much wider a window is with its border.
fn border_width(border: Border) -> u64
    ensures { result ≡ border_width border }
{
    match border {
        Border::Normal(n) | Border::Pixel(n) => 2 * u64::from(n),
        Border::Bare => 0,
    }
}

/// How much higher a window is with its border.
fn border_height(border: Border) -> u64
    ensures { result ≡ border_height border }
{
    match border {
        Border::Normal(n) => u64::from(n) + TITLE,
        Border::Pixel(n) => 2 * u64::from(n),
        Border::Bare => 0,
    }
}

/// A side with what the border adds, at most this long.
fn side(natural: u32, more: u64, most: u32) -> u32
    requires { more < 10000000000 }
    ensures { result ≡ min (natural + more) most }
{
    let long = u64::from(natural) + more;
    if long < u64::from(most) {
        long as u32
    } else {
        most
    }
}

/// A natural size with its border, at most that of the output.
pub(crate) fn outer_size(border: Border, natural: Size, output: Rect) -> Size
    ensures { result ≡ outer_size border natural output }
{
    Size {
        w: side(natural.w, border_width(border), output.w),
        h: side(natural.h, border_height(border), output.h),
    }
}

/// The rectangle of this size in the middle of the output, at the nearest place that is in range.
pub(crate) fn held_middle(output: Rect, size: Size) -> Rect
    ensures { result ≡ held_middle output size }
{
    Rect {
        x: held(middle_of(output.x, output.w, size.w)),
        y: held(middle_of(output.y, output.h, size.h)),
        w: size.w,
        h: size.h,
    }
}

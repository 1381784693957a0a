//! Areas in whole pixels, and how they are cut and made smaller.
ghost use Rattle.std.specs.Prelude.{◌≡◌, ◌+◌, ◌-◌, ◌≤◌, ◌+ℤ◌, pos, IfSome, IsTrue};
ghost use Rattle.wm_base.specs.Rect.{inset};
ghost use Rattle.wm_arrange.specs.AreaOf.{as_area};
ghost use Rattle.wm_arrange.specs.Areas.{cut_between, edges_of, is_near_span, near_area, side_of, slice_of, some_area, some_span, IsArea, IsFitMargins, IsStretch};
ghost use Rattle.wm_arrange.specs.Titles.{lower, upper};

use crate::cutting::start_at;
use wm_base::{Axis, Rect};

/// How many pixels an area loses along each of its sides.
#[derive(Clone, Copy, Debug)]
pub struct Margins {
    pub top: u64,
    pub right: u64,
    pub bottom: u64,
    pub left: u64,
}

/// The area without its margins. `None` where nothing is left of it.
pub fn trim(area: Rect, margins: Margins) -> Option<Rect>
    requires area { IsArea area }
    requires margins { IsFitMargins margins }
    ensures value { result ≡ some_area (inset area (edges_of margins)) }
    ensures area { IfSome result (λ area. IsArea area) }
{
    let (x, w) = shrink(area.x, area.w, margins.left, margins.right)?;
    let (y, h) = shrink(area.y, area.h, margins.top, margins.bottom)?;
    Some(Rect { x, y, w, h })
}

/// The area without its margins. It is taken at 0,0 where nothing is left of it.
pub fn keep(area: Rect, margins: Margins) -> Rect
    requires area { IsArea area }
    requires margins { IsFitMargins margins }
    ensures value { result ≡ as_area (inset area (edges_of margins)) }
    ensures area { IsArea result }
{
    match trim(area, margins) {
        Some(area) => area,
        None => Rect {
            x: 0,
            y: 0,
            w: left_of(area.w, margins.left, margins.right),
            h: left_of(area.h, margins.top, margins.bottom),
        },
    }
}

/// How many places are left of so many without those before and after.
fn left_of(width: u32, before: u64, after: u64) -> u32
    requires fit { before ≤ 1099511627776 }
    requires fit_after { after ≤ 1099511627776 }
    ensures value { result ≡ width - (before + after) }
    ensures less { result ≤ width }
{
    u64::from(width).saturating_sub(before + after) as u32
}

/// What is left of a span without so many pixels before and after it. `None` where nothing is.
fn shrink(start: i32, width: u32, before: u64, after: u64) -> Option<(i32, u32)>
    requires stretch { IsStretch start width }
    requires fit { before ≤ 1099511627776 }
    requires fit_after { after ≤ 1099511627776 }
    ensures value { result ≡ some_span (start +ℤ pos before) (width - (before + after)) }
    ensures stretch { IfSome result (λ s. IsStretch s.0 s.1) }
{
    let left = left_of(width, before, after);
    if left == 0 {
        return None;
    }
    Some((start + before as i32, left))
}

/// The cut of an area along an axis, from the sum of the shares before a child to that with its own.
pub fn cut_between(axis: Axis, area: Rect, before: u64, after: u64, total: u64) -> Rect
    requires area { IsArea area }
    requires rising { before ≤ after }
    requires part { after ≤ total }
    requires few { total ≤ 268435456 }
    ensures value { result ≡ cut_between axis area before after total }
    ensures area { IsArea result }
{
    let length = side(axis, area);
    let start = start_at(length, before, total);
    let end = start_at(length, after, total);
    slice(axis, area, start, end - start)
}

/// The length of an area along an axis.
fn side(axis: Axis, area: Rect) -> u32
    ensures { result ≡ side_of axis area }
{
    match axis {
        Axis::Across => area.w,
        Axis::Down => area.h,
    }
}

/// The part of an area from a start on, of a length, along an axis.
fn slice(axis: Axis, area: Rect, start: u32, length: u32) -> Rect
    requires area { IsArea area }
    requires within { start + length ≤ side_of axis area }
    ensures value { result ≡ slice_of axis area (start, length) }
    ensures area { IsArea result }
{
    match axis {
        Axis::Across => Rect {
            x: area.x + start as i32,
            w: length,
            ..area
        },
        Axis::Down => Rect {
            y: area.y + start as i32,
            h: length,
            ..area
        },
    }
}

/// The upper rows of pixels of an area, or all where it has fewer.
pub fn upper(rows: u32, area: Rect) -> Rect
    ensures value { result ≡ upper rows area }
    ensures area { IsArea area → IsArea result }
{
    Rect {
        h: rows.min(area.h),
        ..area
    }
}

/// What is below the upper rows of pixels of an area.
pub fn lower(rows: u32, area: Rect) -> Rect
    requires area { IsArea area }
    requires few { rows ≤ 1000000 }
    ensures { result ≡ lower rows area }
{
    Rect {
        y: area.y + rows as i32,
        h: area.h.saturating_sub(rows),
        ..area
    }
}

/// What is below the upper rows of pixels of an area. `None` where nothing is.
pub fn below(rows: u32, area: Rect) -> Option<Rect>
    requires area { IsArea area }
    requires few { rows ≤ 1000000 }
    ensures value { result ≡ some_area (lower rows area) }
    ensures area { IfSome result (λ area. IsArea area) }
{
    some_area(lower(rows, area))
}

/// What is below the upper rows of pixels of an area. It is taken at 0,0 where nothing is.
pub fn keep_below(rows: u32, area: Rect) -> Rect
    requires area { IsArea area }
    requires few { rows ≤ 1000000 }
    ensures value { result ≡ as_area (lower rows area) }
    ensures area { IsArea result }
{
    let rect = lower(rows, area);
    if rect.w == 0 || rect.h == 0 {
        Rect { x: 0, y: 0, ..rect }
    } else {
        rect
    }
}

/// The area, unless it is empty.
pub fn some_area(area: Rect) -> Option<Rect>
    ensures { result ≡ some_area area }
{
    if area.w == 0 || area.h == 0 {
        None
    } else {
        Some(area)
    }
}

/// A floating window's rectangle as an area, unless it is empty. None where its places or sides are far beyond all
/// outputs, which no window may have.
pub fn near_area(rect: Rect) -> Option<Rect>
    ensures value { result ≡ near_area rect }
    ensures area { IfSome result (λ area. IsArea area) }
{
    if is_near_span(rect.x, rect.w) && is_near_span(rect.y, rect.h) {
        some_area(rect)
    } else {
        None
    }
}

fn is_near_span(start: i32, width: u32) -> bool
    ensures value { result ≡ is_near_span start width }
    ensures stretch { IsTrue result → IsStretch start width }
{
    -1_000_000 <= start && start <= 1_000_000 && width <= 1_000_000
}

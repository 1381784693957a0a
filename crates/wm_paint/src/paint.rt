//! Painting quads over the pixels of an area.
ghost use Rattle.std.specs.Prelude.{◌≡◌, ℕ, ◌+◌, ◌*◌, ◌/◌, ◌%◌, ◌<◌, ◌≤◌, ◌&&◌, ◌+ℤ◌, ◌≤ℤ◌, ◌<ℤ◌, pos, true, false, if◌then◌else◌, length, get_or};
ghost use Rattle.wm_paint.specs.CanvasValue.{IsArea, IsRepainted, count};
ghost use Rattle.wm_paint.specs.Rows.{in_box, in_range};
ghost use Rattle.wm_paint.specs.declared.frame.What.TheVariants.{Window};
ghost use Rattle.wm_paint.specs.Picture.{after_fill, after_part, after_quad, after_quads, black, in_span};

use crate::frame::{Quad, What};
use crate::pixels::BLACK;
use wm_base::{Buffer, Ink, Rect};

/// Paints quads in order.
pub fn paint_quads(inks: &mut [Ink], area: Rect, quads: &[Quad])
    requires area { IsArea area }
    requires all { length inks.old ≡ count area }
    ensures { IsRepainted area (after_quads quads.now) inks.old inks.new }
{
    let mut rest = quads;
    while let [quad, after @ ..] = rest {
        paint_quad(inks, area, quad);
        rest = after;
    }
}

fn paint_quad(inks: &mut [Ink], area: Rect, quad: &Quad)
    requires area { IsArea area }
    requires all { length inks.old ≡ count area }
    ensures { IsRepainted area (after_quad quad.now) inks.old inks.new }
{
    match &quad.what {
        What::Back => paint_rect(inks, area, quad.rect, BLACK),
        What::Title { ink, .. } => paint_rect(inks, area, quad.rect, *ink),
        What::Border { ink } => paint_rect(inks, area, quad.rect, *ink),
        What::Window { buffer } => paint_window(inks, area, quad.rect, *buffer),
    }
}

/// Paints a buffer from the upper left corner of a content, clipped to it, and black beside it.
fn paint_window(inks: &mut [Ink], area: Rect, content: Rect, buffer: Buffer)
    requires area { IsArea area }
    requires all { length inks.old ≡ count area }
    ensures { IsRepainted area (after_part content (Window buffer)) inks.old inks.new }
{
    let Buffer { ink, size } = buffer;
    if size.w >= content.w && size.h >= content.h {
        paint_rect(inks, area, content, ink);
        return;
    }
    let clipped = Rect {
        w: content.w.min(size.w),
        h: content.h.min(size.h),
        ..content
    };
    paint_rect(inks, area, content, BLACK);
    paint_rect(inks, area, clipped, ink);
}

/// Paints one ink over a rectangle, clipped to the area.
fn paint_rect(inks: &mut [Ink], area: Rect, rect: Rect, ink: Ink)
    requires area { IsArea area }
    requires all { length inks.old ≡ count area }
    ensures { IsRepainted area (after_fill rect ink) inks.old inks.new }
{
    if area.w == 0 {
        return;
    }
    let across = common(rect.x, rect.w, area.x, area.w);
    let down = common(rect.y, rect.h, area.y, area.h);
    fill_rows(inks, area.w as usize, across, down, ink);
}

/// The places of `count` ones from `from` on that are in a span too: the first one and the end, counted from
/// `from`.
fn common(start: i32, length: u32, from: i32, count: u32) -> (usize, usize)
    requires few { count ≤ 16384 }
    ensures ordered { result.0 ≤ result.1 }
    ensures within { result.1 ≤ count }
    ensures each { (i : ℕ) → i < count → in_span start length (from +ℤ pos i) ≡ in_range result.0 result.1 i }
{
    let gap = i64::from(start) - i64::from(from);
    let first = held(gap, count);
    let end = held(gap + i64::from(length), count);
    (first, end)
}

/// The nearest number from 0 to `most`.
fn held(number: i64, most: u32) -> usize
    ensures within { result ≤ most }
    ensures below { number <ℤ pos 0 → result ≡ 0 }
    ensures same { pos 0 ≤ℤ number → number ≤ℤ pos most → pos result ≡ number }
    ensures above { pos most <ℤ number → result ≡ most }
{
    if number < 0 {
        0
    } else if number < i64::from(most) {
        number as usize
    } else {
        most as usize
    }
}

/// Fills the columns `across` of the rows `down`, each from the first one to before the end, with one ink.
fn fill_rows(inks: &mut [Ink], width: usize, across: (usize, usize), down: (usize, usize), ink: Ink)
    requires columns { across.0 ≤ across.1 × across.1 ≤ width × 1 ≤ width × width ≤ 16384 }
    requires rows { down.0 ≤ down.1 × down.1 ≤ 16384 × down.1 * width ≤ length inks.old }
    ensures { (k : ℕ) → k < length inks.old →
        get_or inks.new k black ≡ (if in_box width across.0 across.1 down.0 down.1 k then ink else get_or inks.old k black) }
{
    let (left, right) = across;
    let (top, bottom) = down;
    for row in top..bottom {
        let start = row * width;
        inks[start + left..start + right].fill(ink);
    }
}

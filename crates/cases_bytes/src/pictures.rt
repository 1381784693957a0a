//! Cases of pictures: the text of a frame, and the pixels of a canvas on which frames are painted.
ghost use Rattle.std.specs.Prelude.{IfOk};
ghost use Rattle.wm_paint.specs.CanvasValue.{IsArea};

use crate::fields::push_bytes;
use crate::quads::frame_of;
use case_data::{Fault, Words, push_shown};
use wm_base::Rect;
use wm_paint::{Canvas, frame_text};

/// The text of a frame, line by line.
pub fn tell_frame(words: &mut Words<'_>, out: &mut String) -> Result<(), Fault> {
    let text = text_of_frame(words)?;
    for line in text.lines() {
        push_line(line, out)?;
    }
    Ok(())
}

fn text_of_frame(words: &mut Words<'_>) -> Result<String, Fault> {
    let frame = frame_of(words)?;
    Ok(frame_text(words.alloc, &frame)?)
}

fn push_line(line: &str, out: &mut String) -> Result<(), Fault> {
    out.push_str("  ")?;
    push_shown(out, line.as_bytes())?;
    Ok(out.push_str("\n")?)
}

/// A small area.
fn area_of(words: &mut Words<'_>) -> Result<Rect, Fault>
    ensures { IfOk result (λ r. IsArea r) }
{
    let area = words.rect()?;
    if area.x < -1000 || area.x > 1000 || area.y < -1000 || area.y > 1000 {
        return Err(Fault::BadLine);
    }
    if area.w > 100 || area.h > 100 {
        return Err(Fault::BadLine);
    }
    Ok(area)
}

/// From an area and frames with ` || ` between them, the pixels in and around the area once all were painted, and the
/// file.
pub fn tell_canvas(words: &mut Words<'_>, out: &mut String) -> Result<(), Fault> {
    let part = words.until(" || ");
    let area = area_of(&mut Words::of(words.alloc, part))?;
    let mut canvas = Canvas::new(words.alloc, area)?;
    paint_all(&mut canvas, words)?;
    push_canvas(&canvas, area, out)
}

fn paint_all(canvas: &mut Canvas, words: &mut Words<'_>) -> Result<(), Fault> {
    for _ in 0..u64::MAX {
        if words.is_done() {
            break;
        }
        let frame = words.until(" || ");
        paint(canvas, &mut Words::of(words.alloc, frame))?;
    }
    Ok(())
}

fn paint(canvas: &mut Canvas, words: &mut Words<'_>) -> Result<(), Fault> {
    let frame = frame_of(words)?;
    Ok(canvas.draw(&frame)?)
}

fn push_canvas(canvas: &Canvas, area: Rect, out: &mut String) -> Result<(), Fault> {
    push_pixels(canvas, area, out)?;
    let bytes = canvas.ppm()?;
    push_bytes(out, &bytes)
}

/// The inks of the pixels row by row, from one place before the area to one behind it.
fn push_pixels(canvas: &Canvas, area: Rect, out: &mut String) -> Result<(), Fault> {
    let y = i64::from(area.y);
    for y in y - 1..y + i64::from(area.h) + 1 {
        push_row(canvas, area, y, out)?;
    }
    Ok(())
}

fn push_row(canvas: &Canvas, area: Rect, y: i64, out: &mut String) -> Result<(), Fault> {
    let x = i64::from(area.x);
    out.push_str(" ")?;
    for x in x - 1..x + i64::from(area.w) + 1 {
        push_pixel(canvas, x, y, out)?;
    }
    Ok(out.push_str("\n")?)
}

fn push_pixel(canvas: &Canvas, x: i64, y: i64, out: &mut String) -> Result<(), Fault> {
    let x = i32::try_from(x).unwrap_or(0);
    let y = i32::try_from(y).unwrap_or(0);
    match canvas.pixel(x, y) {
        Some(ink) => Ok(write!(out, " {:06x}", ink.0)?),
        None => Ok(out.push_str(" none")?),
    }
}

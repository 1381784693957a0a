//! Where pixels stand, and what they are in a file.
ghost use Rattle.std.specs.Prelude.{◌≡◌, ◌<◌, ◌++◌, true, false, IfSome, IfNone, ◌-ℤ◌, unsigned_abs, flat_map, OnOk};
ghost use Rattle.wm_paint.specs.CanvasValue.{ink_bytes};
ghost use Rattle.wm_paint.specs.Picture.{in_span};

use std::alloc::AllocError;
use wm_base::Ink;

/// What a canvas is before anything is painted.
pub const BLACK: Ink = Ink(0);

/// How far a place is behind the first one of a span; `None` outside of the span.
pub fn offset(place: i32, start: i32, length: u32) -> Option<usize>
    ensures inside { IfSome result (λ k. (in_span start length place ≡ true) × (k ≡ unsigned_abs (place -ℤ start))) }
    ensures within { IfSome result (λ k. k < length) }
    ensures outside { IfNone result (in_span start length place ≡ false) }
{
    let gap = i64::from(place) - i64::from(start);
    if gap < 0 {
        None
    } else if gap < i64::from(length) {
        Some(gap as usize)
    } else {
        None
    }
}

/// Writes red, green and blue of each pixel.
pub fn push_inks(bytes: &mut Vec<u8>, inks: &[Ink]) -> Result<(), AllocError>
    ensures { OnOk result (bytes.new.items ≡ bytes.old.items ++ flat_map ink_bytes inks.now) }
{
    bytes.reserve(inks.len().saturating_mul(3))?;
    let mut rest = inks;
    while let [ink, after @ ..] = rest {
        let color = ink.0;
        bytes.push((color / 65_536 % 256) as u8)?;
        bytes.push((color / 256 % 256) as u8)?;
        bytes.push((color % 256) as u8)?;
        rest = after;
    }
    Ok(())
}

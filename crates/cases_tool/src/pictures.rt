//! Pictures that a run drew, each shown as its rows.
ghost use Rattle.std.specs.Prelude.{◌<◌};

use case_data::push_shown;
use std::alloc::AllocError;
use std::str;

/// Appends the header of a picture and its rows, or all bytes as one line where they are no picture.
pub fn push_picture(out: &mut String, bytes: &[u8]) -> Result<(), AllocError> {
    match width_and_pixels(bytes) {
        Some((width, height, pixels)) if width > 0 => {
            write!(out, "  P6 {width}x{height} 255\n")?;
            push_rows(out, 3 * width as usize, pixels)
        }
        _ => push_bytes(out, bytes),
    }
}

/// Appends bytes as one line, none where there are none.
fn push_bytes(out: &mut String, bytes: &[u8]) -> Result<(), AllocError> {
    if bytes.is_empty() {
        return Ok(());
    }
    out.push_str("  ")?;
    push_shown(out, bytes)?;
    out.push_str("\n")
}

/// The sides of a picture, and its pixels of three bytes each, where they are as many as its header says.
fn width_and_pixels(bytes: &[u8]) -> Option<(u16, u16, &[u8])> {
    let [b'P', b'6', b'\n', rest @ ..] = bytes else {
        return None;
    };
    let (width, rest) = number_to(rest, b' ')?;
    let (height, rest) = number_to(rest, b'\n')?;
    let [b'2', b'5', b'5', b'\n', pixels @ ..] = rest else {
        return None;
    };
    let count = 3 * u64::from(width) * u64::from(height);
    if count == pixels.len() as u64 {
        Some((width, height, pixels))
    } else {
        None
    }
}

/// The number before the first byte of this kind, and what stands behind that.
fn number_to(bytes: &[u8], end: u8) -> Option<(u16, &[u8])> {
    let at = bytes.iter().position(|byte| *byte == end)?;
    let text = str::from_utf8(&bytes[..at]).ok()?;
    let number = text.parse::<u16>().ok()?;
    Some((number, &bytes[at + 1..]))
}

/// Appends the rows, of this many bytes each, equal ones behind each other as one.
fn push_rows(out: &mut String, length: usize, pixels: &[u8]) -> Result<(), AllocError>
    requires { 0 < length }
{
    let mut last: &[u8] = &[];
    let mut count: u64 = 0;
    for row in pixels.chunks_exact(length) {
        if row == last && count < u64::MAX {
            count += 1;
        } else {
            push_row(out, last, count)?;
            last = row;
            count = 1;
        }
    }
    push_row(out, last, count)
}

/// Appends a row that is there this often.
fn push_row(out: &mut String, row: &[u8], rows: u64) -> Result<(), AllocError> {
    if rows == 0 {
        return Ok(());
    }
    write!(out, "  {rows} rows:")?;
    push_runs(out, row)?;
    out.push_str("\n")
}

/// Appends the pixels of a row, equal ones behind each other as one.
fn push_runs(out: &mut String, row: &[u8]) -> Result<(), AllocError> {
    let mut last: &[u8] = &[];
    let mut count: u64 = 0;
    for pixel in row.chunks_exact(3) {
        if pixel == last && count < u64::MAX {
            count += 1;
        } else {
            push_pixels(out, last, count)?;
            last = pixel;
            count = 1;
        }
    }
    push_pixels(out, last, count)
}

/// Appends a pixel that is there this often.
fn push_pixels(out: &mut String, pixel: &[u8], count: u64) -> Result<(), AllocError> {
    match pixel {
        [red, green, blue] => write!(out, " {red:02x}{green:02x}{blue:02x} x {count}"),
        _ => Ok(()),
    }
}

//! The text of a frame.
ghost use Rattle.std.specs.Prelude.{◌≡◌, ◌<◌, [], ◌∷◌, ◌++◌, IfOk, OnOk, string_bytes};
ghost use Rattle.std.specs.Fmt.{decimal};
ghost use Rattle.wm_defs.specs.Hex.{hex_digit, six_hex};
ghost use Rattle.wm_paint.specs.FrameText.{buffer_text, frame_text, quad_text, quads_text, rect_text, title_text, what_text, what_word};

use crate::escapes::push_escaped;
use crate::frame::{Frame, Quad, What};
use std::alloc::{AllocError, Global};
use wm_base::{Buffer, Ink, NoMemory, Rect, Text};

/// The text of a frame: a line `frame NUMBER PREFIX`, a line for each quad, and a line `end`.
pub fn frame_text(alloc: Global, frame: &Frame) -> Result<String, NoMemory>
    ensures { IfOk result (λ text. string_bytes text ≡ frame_text frame.now) }
{
    let mut text = String::new(alloc);
    writeln!(text, "frame {} {}", frame.number, frame.prefix)?;
    push_quads(&mut text, frame.quads.items())?;
    text.push_str("end\n")?;
    Ok(text)
}

fn push_quads(out: &mut String, quads: &[Quad]) -> Result<(), AllocError>
    ensures { OnOk result (string_bytes out.new ≡ string_bytes out.old ++ quads_text quads.now) }
{
    let mut rest = quads;
    while let [quad, after @ ..] = rest {
        push_quad(out, quad)?;
        rest = after;
    }
    Ok(())
}

fn push_quad(out: &mut String, quad: &Quad) -> Result<(), AllocError>
    ensures { OnOk result (string_bytes out.new ≡ string_bytes out.old ++ quad_text quad.now) }
{
    push_word(out, &quad.what)?;
    write!(out, "{} ", quad.con.0)?;
    push_rect(out, quad.rect)?;
    push_what(out, &quad.what)?;
    out.push('\n')
}

fn push_word(out: &mut String, what: &What) -> Result<(), AllocError>
    ensures { OnOk result (string_bytes out.new ≡ string_bytes out.old ++ what_word what.now) }
{
    match what {
        What::Back => out.push_str("back "),
        What::Title { .. } => out.push_str("title "),
        What::Border { .. } => out.push_str("border "),
        What::Window { .. } => out.push_str("window "),
    }
}

fn push_rect(out: &mut String, rect: Rect) -> Result<(), AllocError>
    ensures { OnOk result (string_bytes out.new ≡ string_bytes out.old ++ rect_text rect) }
{
    write!(out, "{},{} {}x{}", rect.x, rect.y, rect.w, rect.h)
}

/// What stands behind a quad's rectangle.
fn push_what(out: &mut String, what: &What) -> Result<(), AllocError>
    ensures { OnOk result (string_bytes out.new ≡ string_bytes out.old ++ what_text what.now) }
{
    match what {
        What::Back => Ok(()),
        What::Title { ink, text } => push_title(out, *ink, text),
        What::Border { ink } => push_ink(out, *ink),
        What::Window { buffer } => push_buffer(out, *buffer),
    }
}

fn push_title(out: &mut String, ink: Ink, text: &Text) -> Result<(), AllocError>
    ensures { OnOk result (string_bytes out.new ≡ string_bytes out.old ++ title_text ink text.now) }
{
    push_ink(out, ink)?;
    out.push_str(" \"")?;
    push_escaped(out, text.as_str())?;
    out.push_str("\"")
}

fn push_buffer(out: &mut String, buffer: Buffer) -> Result<(), AllocError>
    ensures { OnOk result (string_bytes out.new ≡ string_bytes out.old ++ buffer_text buffer) }
{
    push_ink(out, buffer.ink)?;
    write!(out, " {}x{}", buffer.size.w, buffer.size.h)
}

/// A blank and the six hexadecimal digits of an ink, in lower case.
fn push_ink(out: &mut String, ink: Ink) -> Result<(), AllocError>
    ensures { OnOk result (string_bytes out.new ≡ string_bytes out.old ++ 32 ∷ six_hex ink.0) }
{
    out.push(' ')?;
    push_digit(out, ink.0 / 1_048_576 % 16)?;
    push_digit(out, ink.0 / 65_536 % 16)?;
    push_digit(out, ink.0 / 4_096 % 16)?;
    push_digit(out, ink.0 / 256 % 16)?;
    push_digit(out, ink.0 / 16 % 16)?;
    push_digit(out, ink.0 % 16)
}

fn push_digit(out: &mut String, value: u32) -> Result<(), AllocError>
    requires { value < 16 }
    ensures { OnOk result (string_bytes out.new ≡ string_bytes out.old ++ hex_digit value ∷ []) }
{
    let digit = if value < 10 {
        48 + value as u8
    } else {
        87 + value as u8
    };
    out.push(digit as char)
}

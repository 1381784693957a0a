//! Lines of the plan: outputs, the default border and gaps, modes, bindings and saved layouts.
ghost use Rattle.std.specs.Prelude.{◌≡◌, ◌≤◌, IfOk, IfSome, length};
ghost use Rattle.wm_script.specs.Lines.{bind_at, border_at, chord_at, command_in, command_of, gaps_at, layout_at, layout_in, mode_at, plan_line_of, planned_at, set_line_of, IsFitSaid};

use crate::said::Said;
use std::alloc::Global;
use wm_base::{Border, NoMemory, Str, Text};
use wm_binds::{layout_of, text_of};
use wm_fields::{at_end, behind, gap, name, number, word_then};
use wm_layouts::is_fit_rect;
use wm_lines::output_in;

/// The greatest width of a border in pixels.
const MAX_BORDER: u32 = 64;

/// The greatest gap in pixels.
const MAX_GAP: u32 = 1000;

/// What a line says of the plan. `None` exactly where it is none of these lines.
pub fn plan_line(alloc: Global, text: &[u8]) -> Result<Option<Said>, NoMemory>
    requires { length text.now ≤ 16777216 }
    ensures value { IfOk result (λ said. said ≡ plan_line_of text.now) }
    ensures fit { IfOk result (λ said. IfSome said IsFitSaid) }
{
    if let Some(rest) = word_then(text, b"output") {
        return planned_line(alloc, rest);
    }
    if let Some(rest) = word_then(text, b"mode") {
        return mode_line(alloc, rest);
    }
    if let Some(rest) = word_then(text, b"bind") {
        return bind_line(alloc, rest);
    }
    if let Some(rest) = word_then(text, b"layout") {
        return layout_line(alloc, rest);
    }
    Ok(set_line(text))
}

/// What a line says of borders and gaps.
fn set_line(text: &[u8]) -> Option<Said>
    ensures value { result ≡ set_line_of text.now }
    ensures fit { IfSome result IsFitSaid }
{
    if let Some(rest) = word_then(text, b"border") {
        return border_line(rest);
    }
    gaps_line(word_then(text, b"gaps")?)
}

/// `NAME X,Y WxH`, to the end of the line. The rectangle is within the limits.
fn planned_line(alloc: Global, text: &[u8]) -> Result<Option<Said>, NoMemory>
    ensures value { IfOk result (λ said. said ≡ planned_at text.now) }
    ensures fit { IfOk result (λ said. IfSome said IsFitSaid) }
{
    match output_in(alloc, text)? {
        Some(output) if is_fit_rect(output.rect) => Ok(Some(Said::Output(output))),
        other => {
            drop(other);
            Ok(None)
        }
    }
}

/// `none`, or `pixel N` or `normal N`, to the end of the line.
fn border_line(text: &[u8]) -> Option<Said>
    ensures value { result ≡ border_at text.now }
    ensures fit { IfSome result IsFitSaid }
{
    if let Some(rest) = word_then(text, b"pixel") {
        let (width, rest) = number(rest, MAX_BORDER)?;
        return at_end(rest, Said::Border(Border::Pixel(width)));
    }
    if let Some(rest) = word_then(text, b"normal") {
        let (width, rest) = number(rest, MAX_BORDER)?;
        return at_end(rest, Said::Border(Border::Normal(width)));
    }
    let rest = behind(text, b"none")?;
    at_end(rest, Said::Border(Border::Bare))
}

/// `inner N` or `outer N`, to the end of the line.
fn gaps_line(text: &[u8]) -> Option<Said>
    ensures value { result ≡ gaps_at text.now }
    ensures fit { IfSome result IsFitSaid }
{
    if let Some(rest) = word_then(text, b"inner") {
        let (width, rest) = number(rest, MAX_GAP)?;
        return at_end(rest, Said::Inner(width));
    }
    let rest = word_then(text, b"outer")?;
    let (width, rest) = number(rest, MAX_GAP)?;
    at_end(rest, Said::Outer(width))
}

/// `NAME`, to the end of the line.
fn mode_line(alloc: Global, text: &[u8]) -> Result<Option<Said>, NoMemory>
    ensures value { IfOk result (λ said. said ≡ mode_at text.now) }
    ensures fit { IfOk result (λ said. IfSome said IsFitSaid) }
{
    match name(alloc, text)? {
        Some((name, rest)) => Ok(at_end(rest, Said::Mode(name))),
        None => Ok(None),
    }
}

/// `MODE CHORD COMMAND`, to the end of the line.
fn bind_line(alloc: Global, text: &[u8]) -> Result<Option<Said>, NoMemory>
    requires { length text.now ≤ 16777216 }
    ensures value { IfOk result (λ said. said ≡ bind_at text.now) }
    ensures fit { IfOk result (λ said. IfSome said IsFitSaid) }
{
    let Some((mode, rest)) = name(alloc, text)? else {
        return Ok(None);
    };
    match gap(rest) {
        Some(rest) => chord_line(alloc, mode, rest),
        None => Ok(None),
    }
}

/// `CHORD COMMAND` in this mode, to the end of the line.
fn chord_line(alloc: Global, mode: Text, text: &[u8]) -> Result<Option<Said>, NoMemory>
    requires { length text.now ≤ 16777216 }
    ensures value { IfOk result (λ said. said ≡ chord_at mode text.now) }
    ensures fit { IfOk result (λ said. IfSome said IsFitSaid) }
{
    match name(alloc, text) {
        Ok(Some((chord, rest))) => match gap(rest) {
            Some(rest) => command_line(alloc, mode, chord, rest),
            None => Ok(None),
        },
        Ok(None) => Ok(None),
        Err(error) => {
            drop(mode);
            Err(error)
        }
    }
}

/// The chord runs the text in the mode, which is all to the end of the line.
fn command_line(
    alloc: Global,
    mode: Text,
    chord: Text,
    text: &[u8],
) -> Result<Option<Said>, NoMemory>
    requires { length text.now ≤ 16777216 }
    ensures value { IfOk result (λ said. said ≡ command_of mode chord text.now) }
    ensures fit { IfOk result (λ said. IfSome said IsFitSaid) }
{
    match command(alloc, text) {
        Ok(Some(text)) => Ok(Some(Said::Bind { mode, chord, text })),
        Ok(None) => Ok(None),
        Err(error) => {
            drop(mode);
            drop(chord);
            Err(error)
        }
    }
}

/// A text that says something.
fn command(alloc: Global, text: &[u8]) -> Result<Option<Str>, NoMemory>
    ensures { IfOk result (λ said. said ≡ command_in text.now) }
{
    match text_of(text) {
        Some(text) if !text.is_empty() => Ok(Some(Str::of(String::from_str(alloc, text)?))),
        _ => Ok(None),
    }
}

/// `NAME JSON`, to the end of the line.
fn layout_line(alloc: Global, text: &[u8]) -> Result<Option<Said>, NoMemory>
    ensures value { IfOk result (λ said. said ≡ layout_at text.now) }
    ensures fit { IfOk result (λ said. IfSome said IsFitSaid) }
{
    let Some((name, rest)) = name(alloc, text)? else {
        return Ok(None);
    };
    match gap(rest) {
        Some(rest) => layout_line_of(alloc, name, rest),
        None => Ok(None),
    }
}

/// The layout of this name that a JSON text describes.
fn layout_line_of(alloc: Global, name: Text, text: &[u8]) -> Result<Option<Said>, NoMemory>
    ensures value { IfOk result (λ said. said ≡ layout_in name text.now) }
    ensures fit { IfOk result (λ said. IfSome said IsFitSaid) }
{
    match layout_of(alloc, text) {
        Ok(Some(layout)) => Ok(Some(Said::Layout { name, layout })),
        Ok(None) => Ok(None),
        Err(error) => {
            drop(name);
            Err(error)
        }
    }
}

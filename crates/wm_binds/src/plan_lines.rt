//! Lines of the plan: outputs, the default border, the default gaps, and where workspaces are made.
ghost use Rattle.std.specs.Prelude.{◌≡◌, IfOk};
ghost use Rattle.std.specs.Option.{option_copied, option_map};
ghost use Rattle.wm_binds.specs.Lines.{border_at, gaps_at, home_at, home_on, last_number, on_output, output_at, output_in, rect_at, width_at};

use crate::entry::Entry;
use crate::words::{command_word, gap, name, word_then};
use std::alloc::Global;
use wm_base::{Border, Edges, NoMemory, OutputPlan, Rect, Text};
use wm_fields::{at_end, behind, coordinate, number, size};
use wm_layouts::is_fit_rect;

/// The greatest width of a border in pixels.
const MAX_BORDER: u32 = 64;

/// The width of a border that names none, in pixels.
const USUAL_BORDER: u32 = 2;

/// The greatest gap in pixels.
const MAX_GAP: u32 = 1000;

/// `none`, or `pixel N` or `normal N`, where N may be missing, to the end of the line.
pub fn border_line(text: &[u8]) -> Option<Entry>
    ensures { result ≡ border_at text.now }
{
    if let Some(rest) = behind(text, b"none") {
        return at_end(rest, Entry::Border(Border::Bare));
    }
    if let Some(rest) = behind(text, b"pixel") {
        return Some(Entry::Border(Border::Pixel(border_width(rest)?)));
    }
    let rest = behind(text, b"normal")?;
    Some(Entry::Border(Border::Normal(border_width(rest)?)))
}

/// A width of at most 64 behind blanks, or 2 where the line ends.
fn border_width(text: &[u8]) -> Option<u32>
    ensures { result ≡ width_at text.now }
{
    if text.is_empty() {
        return Some(USUAL_BORDER);
    }
    last_number(gap(text)?, MAX_BORDER)
}

/// A number of at most `most`, to the end of the line.
fn last_number(text: &[u8], most: u32) -> Option<u32>
    ensures { result ≡ last_number most text.now }
{
    let (value, rest) = number(text, most)?;
    at_end(rest, value)
}

/// `inner N` or `outer N`, to the end of the line.
pub fn gaps_line(text: &[u8]) -> Option<Entry>
    ensures { result ≡ gaps_at text.now }
{
    if let Some(rest) = word_then(text, b"inner") {
        return Some(Entry::Inner(last_number(rest, MAX_GAP)?));
    }
    let rest = word_then(text, b"outer")?;
    Some(Entry::Outer(last_number(rest, MAX_GAP)?))
}

/// `WORKSPACE output OUTPUT`, to the end of the line.
pub fn home_line(alloc: Global, text: &[u8]) -> Result<Option<Entry>, NoMemory>
    ensures { IfOk result (λ entry. entry ≡ home_at text.now) }
{
    let Some((name, rest)) = command_word(alloc, text)? else {
        return Ok(None);
    };
    match home_of(rest) {
        Some(rest) => home_on(alloc, name, rest),
        None => Ok(None),
    }
}

/// What follows ` output `.
fn home_of(text: &[u8]) -> Option<&[u8]>
    ensures { option_copied result ≡ on_output text.now }
{
    word_then(gap(text)?, b"output")
}

/// `OUTPUT`, to the end of the line, on which the workspace of this name is made.
fn home_on(alloc: Global, name: Text, text: &[u8]) -> Result<Option<Entry>, NoMemory>
    ensures { IfOk result (λ entry. entry ≡ home_on name text.now) }
{
    match command_word(alloc, text)? {
        Some((output, rest)) => Ok(at_end(rest, Entry::Home { name, output })),
        None => Ok(None),
    }
}

/// `NAME X,Y WxH`, to the end of the line. The rectangle is within the limits.
pub fn output_line(alloc: Global, text: &[u8]) -> Result<Option<Entry>, NoMemory>
    ensures { IfOk result (λ entry. entry ≡ output_at text.now) }
{
    match name(alloc, text)? {
        Some((name, rest)) => Ok(output_in(name, rest)),
        None => Ok(None),
    }
}

/// The output of this name with the rectangle behind blanks, to the end of the line.
fn output_in(name: Text, text: &[u8]) -> Option<Entry>
    ensures { result ≡ output_in name text.now }
{
    let (rect, rest) = rect(gap(text)?)?;
    if !is_fit_rect(rect) {
        return None;
    }
    let reserved = Edges {
        top: 0,
        right: 0,
        bottom: 0,
        left: 0,
    };
    let output = OutputPlan {
        name,
        rect,
        reserved,
    };
    at_end(rest, Entry::Output(output))
}

/// A place and a size in pixels, `X,Y WxH`, and what follows them.
fn rect(text: &[u8]) -> Option<(Rect, &[u8])>
    ensures { option_map (λ found. (found.0, found.1.now)) result ≡ rect_at text.now }
{
    let (x, rest) = coordinate(text)?;
    let rest = behind(rest, b",")?;
    let (y, rest) = coordinate(rest)?;
    let rest = gap(rest)?;
    let (size, rest) = size(rest)?;
    let rect = Rect {
        x,
        y,
        w: size.w,
        h: size.h,
    };
    Some((rect, rest))
}

//! Lines of windows: they open, change and close.
ghost use Rattle.std.specs.Prelude.{◌≡◌, IfOk, IfSome};
ghost use Rattle.std.specs.Option.{option_map};
ghost use Rattle.wm_lines.specs.Lines.{close_at, con_at, con_then_at, map_at, of_con, other_line_of, switch_at, title_at, urgent_at, window_line_of, IsFitLine};

use std::alloc::Global;
use wm_base::{ConId, NoMemory};
use wm_core::Step;
use wm_fields::{at_end, behind, buffer, gap, number, quoted_text, window_properties, word_then};

/// What a line says of windows.
pub fn window_line(alloc: Global, text: &[u8]) -> Result<Option<Step>, NoMemory>
    ensures value { IfOk result (λ step. step ≡ window_line_of text.now) }
    ensures fit { IfOk result (λ step. IfSome step IsFitLine) }
{
    if let Some(rest) = word_then(text, b"map") {
        return map_line(alloc, rest);
    }
    if let Some(rest) = word_then(text, b"title") {
        return title_line(alloc, rest);
    }
    Ok(other_line(text))
}

/// What a line says of windows that are open.
fn other_line(text: &[u8]) -> Option<Step>
    ensures value { result ≡ other_line_of text.now }
    ensures fit { IfSome result IsFitLine }
{
    if let Some(rest) = word_then(text, b"urgent") {
        return urgent_line(rest);
    }
    if let Some(rest) = word_then(text, b"close") {
        return close_line(rest);
    }
    let rest = behind(text, b"gone")?;
    at_end(rest, Step::Gone)
}

/// `INK WxH` and properties, to the end of the line.
fn map_line(alloc: Global, text: &[u8]) -> Result<Option<Step>, NoMemory>
    ensures value { IfOk result (λ step. step ≡ map_at text.now) }
    ensures fit { IfOk result (λ step. IfSome step IsFitLine) }
{
    let Some((buffer, rest)) = buffer(text) else {
        return Ok(None);
    };
    match window_properties(alloc, rest)? {
        Some(props) => Ok(Some(Step::Map {
            props,
            buffer,
            then: None,
        })),
        None => Ok(None),
    }
}

/// The id of a container, and what follows it.
fn con(text: &[u8]) -> Option<(ConId, &[u8])>
    ensures { option_map (λ found. (found.0, found.1.now)) result ≡ con_at text.now }
{
    let (id, rest) = number(text, u32::MAX)?;
    Some((ConId(id), rest))
}

/// The id of a container, and what follows it and spaces.
pub fn con_then(text: &[u8]) -> Option<(ConId, &[u8])>
    ensures { option_map (λ found. (found.0, found.1.now)) result ≡ con_then_at text.now }
{
    let (con, rest) = con(text)?;
    Some((con, gap(rest)?))
}

/// `ID "T"`, to the end of the line.
fn title_line(alloc: Global, text: &[u8]) -> Result<Option<Step>, NoMemory>
    ensures value { IfOk result (λ step. step ≡ of_con text.now title_at) }
    ensures fit { IfOk result (λ step. IfSome step IsFitLine) }
{
    let Some((con, rest)) = con_then(text) else {
        return Ok(None);
    };
    match quoted_text(alloc, rest)? {
        Some((title, rest)) => Ok(at_end(rest, Step::Retitle { con, title })),
        None => Ok(None),
    }
}

/// `ID on` or `ID off`, to the end of the line.
fn urgent_line(text: &[u8]) -> Option<Step>
    ensures value { result ≡ of_con text.now urgent_at }
    ensures fit { IfSome result IsFitLine }
{
    let (con, rest) = con_then(text)?;
    let on = switch(rest)?;
    Some(Step::Urgent { con, on })
}

/// `on` or `off`, to the end of the line.
fn switch(text: &[u8]) -> Option<bool>
    ensures { result ≡ switch_at text.now }
{
    if let Some(rest) = behind(text, b"on") {
        return at_end(rest, true);
    }
    let rest = behind(text, b"off")?;
    at_end(rest, false)
}

/// `ID`, to the end of the line.
fn close_line(text: &[u8]) -> Option<Step>
    ensures value { result ≡ close_at text.now }
    ensures fit { IfSome result IsFitLine }
{
    let (con, rest) = con(text)?;
    at_end(rest, Step::Close { con })
}

//! The lines that say what was answered.
use case_data::{Fault, Words};
use std::alloc::AllocError;
use wm_base::{Border, ConId, Layout, Rect, Text};
use wm_tree::TreeRefusal;

/// The line that begins a case.
pub fn tell_case(words: &mut Words<'_>, out: &mut String) -> Result<(), Fault> {
    Ok(writeln!(out, "case {}", words.rest())?)
}

/// The line of a call that gives an id.
pub fn tell_id(out: &mut String, answer: Result<ConId, TreeRefusal>) -> Result<(), Fault> {
    match answer {
        Ok(con) => Ok(writeln!(out, "{}", con.0)?),
        Err(refusal) => tell_refusal(out, refusal),
    }
}

/// The line of a call that gives nothing.
pub fn tell_done(out: &mut String, answer: Result<(), TreeRefusal>) -> Result<(), Fault> {
    match answer {
        Ok(()) => Ok(writeln!(out, "done")?),
        Err(refusal) => tell_refusal(out, refusal),
    }
}

fn tell_refusal(out: &mut String, refusal: TreeRefusal) -> Result<(), Fault> {
    match refusal {
        TreeRefusal::Full { limit } => Ok(writeln!(out, "full {}", limit.word())?),
        TreeRefusal::Missing(con) => Ok(writeln!(out, "missing {}", con.0)?),
        TreeRefusal::NoMemory => Err(Fault::NoMemory),
    }
}

/// An id, or `none`.
pub fn push_con(out: &mut String, con: Option<ConId>) -> Result<(), AllocError> {
    match con {
        Some(con) => write!(out, "{}", con.0),
        None => out.push_str("none"),
    }
}

/// A text between quotation marks, or `none`.
pub fn push_text(out: &mut String, text: Option<&Text>) -> Result<(), AllocError> {
    match text {
        Some(text) => write!(out, "\"{}\"", text.as_str()),
        None => out.push_str("none"),
    }
}

/// A rectangle like `10,20 30x40`.
pub fn push_rect(out: &mut String, rect: Rect) -> Result<(), AllocError> {
    let Rect { x, y, w, h } = rect;
    write!(out, "{x},{y} {w}x{h}")
}

/// A border like `pixel 2`.
pub fn push_border(out: &mut String, border: Border) -> Result<(), AllocError> {
    match border {
        Border::Normal(width) => write!(out, "normal {width}"),
        Border::Pixel(width) => write!(out, "pixel {width}"),
        Border::Bare => out.push_str("none"),
    }
}

/// The word of a layout.
pub fn layout_word(layout: Layout) -> &'static str {
    match layout {
        Layout::SplitH => "splith",
        Layout::SplitV => "splitv",
        Layout::Tabbed => "tabbed",
        Layout::Stacked => "stacked",
    }
}

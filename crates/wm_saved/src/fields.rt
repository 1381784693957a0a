//! The fields of a node that are no nodes: border, layout, marks, name and type.
ghost use Rattle.std.specs.Prelude.{◌≡◌, IfOk, codes, decimal};
ghost use Rattle.serde_json.specs.View.{items_view, view};
ghost use Rattle.wm_saved.specs.Answers.{IsAnswer, below};
ghost use Rattle.wm_saved.specs.declared.fields.Frame.TheVariants as frames;
ghost use Rattle.wm_saved.specs.Fields.{bordered, border_of, field, frame_in, items_from, layout_in, layout_of, mark_at, mark_in, marks_of, name_of, text_in, type_in, type_of, width_in};

use crate::fit::is_fit_mark;
use crate::refusal::{LayoutRefusal, bad_field, bad_item, below, or_bad};
use serde_json::Value;
use std::alloc::Global;
use wm_base::{Border, Layout, List, NoMemory, Text, TextRefusal};

/// The kind of a border: with a title, a frame alone, or none.
#[derive(Clone, Copy, Debug, PartialEq, Eq)]
pub(crate) enum Frame {
    Normal,
    Pixel,
    Bare,
}

impl Frame {
    /// The border of this kind, of a width in pixels.
    fn bordered(self, width: u32) -> Border
        ensures { result ≡ bordered self width }
    {
        match self {
            Frame::Normal => Border::Normal(width),
            Frame::Pixel => Border::Pixel(width),
            Frame::Bare => Border::Bare,
        }
    }
}

fn frame_in(value: &Value) -> Option<Frame>
    ensures { result ≡ frame_in (view value.now) }
{
    let word = value.as_str()?;
    if word == "normal" {
        Some(Frame::Normal)
    } else if word == "pixel" {
        Some(Frame::Pixel)
    } else if word == "none" {
        Some(Frame::Bare)
    } else {
        None
    }
}

fn layout_in(value: &Value) -> Option<Layout>
    ensures { result ≡ layout_in (view value.now) }
{
    let word = value.as_str()?;
    if word == "splith" {
        Some(Layout::SplitH)
    } else if word == "splitv" {
        Some(Layout::SplitV)
    } else if word == "stacked" {
        Some(Layout::Stacked)
    } else if word == "tabbed" {
        Some(Layout::Tabbed)
    } else {
        None
    }
}

fn type_in(value: &Value) -> Option<()>
    ensures { result ≡ type_in (view value.now) }
{
    if value.as_str()? == "con" {
        Some(())
    } else {
        None
    }
}

fn width_in(value: &Value) -> Option<u32>
    ensures { result ≡ width_in (view value.now) }
{
    let width = value.as_u64()?;
    if width <= 64 {
        Some(width as u32)
    } else {
        None
    }
}

/// The text that a value is, where it is one of at most 1,024 bytes.
pub(crate) fn text_in(alloc: Global, value: &Value) -> Result<Option<Text>, NoMemory>
    ensures { IfOk result (λ text. text ≡ text_in (view value.now)) }
{
    let Some(text) = value.as_str() else {
        return Ok(None);
    };
    match Text::new(alloc, text) {
        Ok(text) => Ok(Some(text)),
        Err(TextRefusal::TooLong { .. }) => Ok(None),
        Err(TextRefusal::NoMemory) => Err(NoMemory),
    }
}

/// The mark that a value is, where it is a text of 1 to 256 bytes.
fn mark_in(alloc: Global, value: &Value) -> Result<Option<Text>, NoMemory>
    ensures { IfOk result (λ mark. mark ≡ mark_in (view value.now)) }
{
    let Some(mark) = value.as_str() else {
        return Ok(None);
    };
    if !is_fit_mark(mark) {
        return Ok(None);
    }
    match Text::new(alloc, mark) {
        Ok(mark) => Ok(Some(mark)),
        Err(_) => Err(NoMemory),
    }
}

fn frame_of(alloc: Global, path: &str, node: &Value) -> Result<Frame, LayoutRefusal>
    ensures { IsAnswer (field path.now (codes "border") frames.Normal frame_in (view node.now)) result }
{
    match node.get("border") {
        Some(value) => or_bad(alloc, path, "border", frame_in(value)),
        None => Ok(Frame::Normal),
    }
}

fn width_of(alloc: Global, path: &str, node: &Value) -> Result<u32, LayoutRefusal>
    ensures { IsAnswer (field path.now (codes "current_border_width") 2 width_in (view node.now)) result }
{
    match node.get("current_border_width") {
        Some(value) => or_bad(alloc, path, "current_border_width", width_in(value)),
        None => Ok(2),
    }
}

/// The border of the node at this path.
pub(crate) fn border_of(alloc: Global, path: &str, node: &Value) -> Result<Border, LayoutRefusal>
    ensures { IsAnswer (border_of path.now (view node.now)) result }
{
    let frame = frame_of(alloc, path, node)?;
    let width = width_of(alloc, path, node)?;
    Ok(frame.bordered(width))
}

/// The layout of the node at this path.
pub(crate) fn layout_of(alloc: Global, path: &str, node: &Value) -> Result<Layout, LayoutRefusal>
    ensures { IsAnswer (layout_of path.now (view node.now)) result }
{
    match node.get("layout") {
        Some(value) => or_bad(alloc, path, "layout", layout_in(value)),
        None => Ok(Layout::SplitH),
    }
}

/// Tests the type of the node at this path.
pub(crate) fn type_of(alloc: Global, path: &str, node: &Value) -> Result<(), LayoutRefusal>
    ensures { IsAnswer (type_of path.now (view node.now)) result }
{
    match node.get("type") {
        Some(value) => or_bad(alloc, path, "type", type_in(value)),
        None => Ok(()),
    }
}

/// The name of the node at this path.
pub(crate) fn name_of(alloc: Global, path: &str, node: &Value) -> Result<Text, LayoutRefusal>
    ensures { IsAnswer (name_of path.now (view node.now)) result }
{
    match node.get("name") {
        Some(value) => or_bad(alloc, path, "name", text_in(alloc, value)?),
        None => match Text::new(alloc, "") {
            Ok(name) => Ok(name),
            Err(_) => Err(LayoutRefusal::NoMemory),
        },
    }
}

/// The mark at this place of the array at this path.
fn mark_at(alloc: Global, path: &str, place: usize, value: &Value) -> Result<Text, LayoutRefusal>
    ensures { IsAnswer (mark_at (below path.now (decimal place)) (view value.now)) result }
{
    match mark_in(alloc, value)? {
        Some(mark) => Ok(mark),
        None => Err(bad_item(alloc, path, place)),
    }
}

/// The marks of the array at this path.
fn marks_at(alloc: Global, path: &str, values: &[Value]) -> Result<List<Text>, LayoutRefusal>
    ensures { IsAnswer (items_from mark_at path.now 0 (items_view values.now)) result }
{
    let mut marks = Vec::with_capacity(alloc, values.len())?;
    for (place, value) in values.iter().enumerate() {
        marks.push(mark_at(alloc, path, place, value)?)?;
    }
    Ok(List::of(marks))
}

/// The marks of the node at this path.
pub(crate) fn marks_of(alloc: Global, path: &str, node: &Value) -> Result<List<Text>, LayoutRefusal>
    ensures { IsAnswer (marks_of path.now (view node.now)) result }
{
    let Some(value) = node.get("marks") else {
        return Ok(List::of(Vec::new(alloc)));
    };
    let Some(values) = value.as_array() else {
        return Err(bad_field(alloc, path, "marks"));
    };
    let path = below(alloc, path, "marks")?;
    marks_at(alloc, path.as_str(), values)
}

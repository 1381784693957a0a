//! The texts of titles.
ghost use Rattle.std.specs.Prelude.{◌≡◌, ◌++◌, ◌≤◌, ◌<◌, codes, length, string_bytes, List, ℕ, IfOk, IfSome, OnOk};
ghost use Rattle.wm_arrange.specs.TitleText.{con_text, cut_place, filled, fitted, is_hidden, letter, mark_text, marks_text, node_text, title_text};
ghost use Rattle.wm_forest.specs.Counts.{row_length};
ghost use Rattle.wm_forest.specs.Forest.{Forest};
ghost use Rattle.wm_forest.specs.declared.part.ConPart.{ConPart};
ghost use Rattle.std.specs.Fmt.{decimal};
ghost use Rattle.std.specs.String.Boundary.{IsSplitPoint};

use crate::filling::fill;
use crate::rows::count;
use std::alloc::Global;
use wm_base::{Layout, NoMemory, Props, Text};
use wm_tree::{ConKind, ConPart, Cursor, NodeKind, Part};

/// How many bytes a title has at most.
const MAX_TITLE: usize = 1024;

/// The text of a container's title: of at most 1,024 bytes. It shares those of the title where that is the whole text.
#[tactic(auto, unfolding(crate::specs::TitleText::title_text), using(crate::proofs::CutLemmas::fits))]
pub fn title_text(alloc: Global, part: &Part, kids: &Cursor<'_>) -> Result<Text, NoMemory>
    requires { row_length kids.now ≤ 256 }
    ensures { IfOk result (λ text. text ≡ title_text part.now kids.now) }
{
    match whole_title(part) {
        Some(title) => Ok(title.clone()?),
        None => made_text(alloc, part, kids),
    }
}

/// The title that is the whole text: of a window or placeholder without marks whose format is `%title`.
#[tactic(auto, using(crate::proofs::FillLemmas::only_title))]
fn whole_title(part: &Part) -> Option<&Text>
    ensures { IfSome result (λ title. (kids : Forest) → node_text part.now.kind part.now.marks kids ≡ title.now) }
{
    let NodeKind::Con(con) = &part.kind else {
        return None;
    };
    let props = props_of(&con.kind)?;
    match (part.marks.items(), con.title_format.as_str()) {
        ([], "%title") => Some(&props.title),
        _ => None,
    }
}

/// The properties of a window or placeholder, which its format is filled in with.
fn props_of(kind: &ConKind) -> Option<&Props>
    ensures { IfSome result (λ props. (c : ConPart) (marks : List (List ℕ)) (kids : Forest) →
        con_text c kind.now marks kids ≡ filled props.now c.title_format ++ marks_text marks) }
{
    match kind {
        ConKind::Split { .. } => None,
        ConKind::Window { props, .. } | ConKind::Placeholder { props, .. } => Some(props),
    }
}

/// The text of a title that is put together.
#[tactic(auto, unfolding(crate::specs::TitleText::title_text))]
fn made_text(alloc: Global, part: &Part, kids: &Cursor<'_>) -> Result<Text, NoMemory>
    requires { row_length kids.now ≤ 256 }
    ensures { IfOk result (λ text. text ≡ title_text part.now kids.now) }
{
    let mut text = String::new(alloc);
    push_node(&mut text, part, kids)?;
    fit(&mut text);
    match Text::new(alloc, text.as_str()) {
        Ok(text) => Ok(text),
        Err(_) => Err(NoMemory),
    }
}

fn push_node(text: &mut String, part: &Part, kids: &Cursor<'_>) -> Result<(), NoMemory>
    requires { row_length kids.now ≤ 256 }
    ensures { OnOk result (string_bytes text.new ≡ string_bytes text.old ++ node_text part.now.kind part.now.marks kids.now) }
{
    let NodeKind::Con(con) = &part.kind else {
        return Ok(());
    };
    push_con(text, con, part.marks.items(), kids)
}

fn push_con(
    text: &mut String,
    con: &ConPart,
    marks: &[Text],
    kids: &Cursor<'_>,
) -> Result<(), NoMemory>
    requires { row_length kids.now ≤ 256 }
    ensures { OnOk result (string_bytes text.new ≡ string_bytes text.old ++ con_text con.now con.now.kind marks.now kids.now) }
{
    let props = match &con.kind {
        ConKind::Split { layout, .. } => return push_split(text, *layout, count(kids)),
        ConKind::Window { props, .. } => props,
        ConKind::Placeholder { props, .. } => props,
    };
    fill(text, con.title_format.as_str(), props)?;
    push_marks(text, marks)
}

fn push_split(text: &mut String, layout: Layout, count: u32) -> Result<(), NoMemory>
    ensures { OnOk result (string_bytes text.new ≡ string_bytes text.old ++ (letter layout ++ (codes "[" ++ (decimal count ++ codes "]")))) }
{
    push_letter(text, layout)?;
    write!(text, "[{}]", count)?;
    Ok(())
}

fn push_letter(text: &mut String, layout: Layout) -> Result<(), NoMemory>
    ensures { OnOk result (string_bytes text.new ≡ string_bytes text.old ++ letter layout) }
{
    match layout {
        Layout::SplitH => text.push_str("H")?,
        Layout::SplitV => text.push_str("V")?,
        Layout::Tabbed => text.push_str("T")?,
        Layout::Stacked => text.push_str("S")?,
    }
    Ok(())
}

fn push_marks(text: &mut String, marks: &[Text]) -> Result<(), NoMemory>
    ensures { OnOk result (string_bytes text.new ≡ string_bytes text.old ++ marks_text marks.now) }
{
    let mut rest = marks;
    while let [mark, after @ ..] = rest {
        push_mark(text, mark.as_str())?;
        rest = after;
    }
    Ok(())
}

/// Adds a mark in brackets, unless it begins with `_`.
fn push_mark(text: &mut String, mark: &str) -> Result<(), NoMemory>
    ensures { OnOk result (string_bytes text.new ≡ string_bytes text.old ++ mark_text mark.now) }
{
    if is_hidden(mark) {
        return Ok(());
    }
    write!(text, " [{}]", mark)?;
    Ok(())
}

fn is_hidden(mark: &str) -> bool
    ensures { result ≡ is_hidden mark.now }
{
    mark.starts_with("_")
}

/// Cuts a text to 1,024 bytes at a character.
#[tactic(auto, using(crate::proofs::CutLemmas::fits, crate::proofs::CutLemmas::cuts))]
fn fit(text: &mut String)
    ensures value { string_bytes text.new ≡ fitted (string_bytes text.old) }
    ensures short { length (string_bytes text.new) ≤ 1024 }
{
    if text.len() <= MAX_TITLE {
        return;
    }
    let place = cut_place(text, MAX_TITLE);
    text.truncate(place);
}

/// The last place up to this one at which the text may be cut.
#[tactic(auto, using(crate::proofs::CutLemmas::place_here, crate::proofs::CutLemmas::place_before))]
fn cut_place(text: &String, at: usize) -> usize
    requires { at < length (string_bytes text.now) }
    ensures value { result ≡ cut_place (string_bytes text.now) at }
    ensures below { result ≤ at }
    ensures splits { IsSplitPoint (string_bytes text.now) result }
{
    if text.is_char_boundary(at) {
        at
    } else {
        cut_place(text, at - 1)
    }
}

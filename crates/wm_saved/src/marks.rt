//! The marks of a layout, each counted once.
ghost use Rattle.std.specs.Prelude.{◌≡◌, false, IfOk, length, nat_lt, OnOk};
ghost use Rattle.std.specs.List.{list_any};
ghost use Rattle.std.specs.Str.{bytes_eq};
ghost use Rattle.wm_saved.specs.Containers.{kids_of};
ghost use Rattle.wm_saved.specs.Limits.{all_marks, different, is_crowded, with_mark, with_marks};
ghost use Rattle.wm_saved.specs.declared.saved.SavedKind.TheViews.{out-SavedKind};

use crate::saved::{SavedKind, SavedNode};
use std::alloc::{AllocError, Global};
use wm_base::{NoMemory, Text};

/// How many marks a desktop has at most.
const MAX_MARKS: usize = 1024;

/// How many marks a container has at most.
const MAX_OWN_MARKS: usize = 32;

/// Whether the mark is one of these.
fn is_held(held: &[Text], mark: &str) -> bool
    ensures { result ≡ list_any (bytes_eq mark.now) held.now }
{
    held.iter().any(|other| mark == other.as_str())
}

/// Adds a mark that is not held yet.
fn add_mark(held: &mut Vec<Text>, mark: &Text) -> Result<(), NoMemory>
    ensures { OnOk result (held.new.items ≡ with_mark held.old.items mark.now) }
{
    if !is_held(held.as_slice(), mark.as_str()) {
        held.push(mark.clone()?)?;
    }
    Ok(())
}

/// Adds marks that are not held yet, and tells whether more than `most` are held then. Where they are, it may have
/// added only some.
fn add_marks(held: &mut Vec<Text>, marks: &[Text], most: usize) -> Result<bool, NoMemory>
    ensures over { IfOk result (λ over. over ≡ nat_lt most (length (with_marks held.old.items marks.now))) }
    ensures added { IfOk result (λ over. over ≡ false → held.new.items ≡ with_marks held.old.items marks.now) }
{
    for mark in marks {
        if held.len() > most {
            return Ok(true);
        }
        add_mark(held, mark)?;
    }
    Ok(held.len() > most)
}

/// Whether these are too many different marks for one container.
fn are_many(alloc: Global, marks: &[Text]) -> Result<bool, NoMemory>
    ensures { IfOk result (λ many. many ≡ nat_lt 32 (different marks.now)) }
{
    let mut held = Vec::new(alloc);
    add_marks(&mut held, marks, MAX_OWN_MARKS)
}

/// Whether a container below one of this kind has too many marks.
#[cycle(crowd)]
fn is_kind_crowded(alloc: Global, kind: &SavedKind) -> Result<bool, NoMemory>
    ensures { IfOk result (λ crowded. crowded ≡ is_crowded (kids_of (out-SavedKind kind.now))) }
{
    match kind {
        SavedKind::Split { nodes, .. } => is_crowded(alloc, nodes.items()),
        SavedKind::Placeholder { .. } => Ok(false),
    }
}

/// Whether one of these, or a container below them, has too many marks.
#[cycle(crowd)]
pub(crate) fn is_crowded(alloc: Global, nodes: &[SavedNode]) -> Result<bool, NoMemory>
    ensures { IfOk result (λ crowded. crowded ≡ is_crowded nodes.now) }
{
    for node in nodes {
        if are_many(alloc, node.marks.items())? {
            return Ok(true);
        }
        if is_kind_crowded(alloc, &node.kind)? {
            return Ok(true);
        }
    }
    Ok(false)
}

/// The same for the containers below one of this kind.
#[cycle(total)]
fn add_below(held: &mut Vec<Text>, kind: &SavedKind) -> Result<bool, NoMemory>
    ensures over { IfOk result (λ over. over ≡ nat_lt 1024 (length (with_marks held.old.items (all_marks (kids_of (out-SavedKind kind.now)))))) }
    ensures added { IfOk result (λ over. over ≡ false → held.new.items ≡ with_marks held.old.items (all_marks (kids_of (out-SavedKind kind.now)))) }
{
    match kind {
        SavedKind::Split { nodes, .. } => add_all(held, nodes.items()),
        SavedKind::Placeholder { .. } => Ok(held.len() > MAX_MARKS),
    }
}

/// Adds the marks of these and of all containers below them that are not held yet, and tells whether more than
/// 1,024 are held then. Where they are, it may have added only some.
#[cycle(total)]
fn add_all(held: &mut Vec<Text>, nodes: &[SavedNode]) -> Result<bool, NoMemory>
    ensures over { IfOk result (λ over. over ≡ nat_lt 1024 (length (with_marks held.old.items (all_marks nodes.now)))) }
    ensures added { IfOk result (λ over. over ≡ false → held.new.items ≡ with_marks held.old.items (all_marks nodes.now)) }
{
    for node in nodes {
        if add_marks(held, node.marks.items(), MAX_MARKS)? {
            return Ok(true);
        }
        if add_below(held, &node.kind)? {
            return Ok(true);
        }
    }
    Ok(held.len() > MAX_MARKS)
}

/// Whether these and all containers below them have too many different marks for a desktop.
pub(crate) fn are_too_many(alloc: Global, nodes: &[SavedNode]) -> Result<bool, NoMemory>
    ensures { IfOk result (λ many. many ≡ nat_lt 1024 (different (all_marks nodes.now))) }
{
    let mut held = Vec::new(alloc);
    add_all(&mut held, nodes)
}

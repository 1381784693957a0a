//! What a layout alone has too much of.
ghost use Rattle.std.specs.Prelude.{◌≡◌, ◌+◌, ◌<◌, IfNone, IfOk, IfSome, IsTrue, length, nat_le};
ghost use Rattle.wm_saved.specs.Containers.{containers, kids_of, levels};
ghost use Rattle.wm_saved.specs.declared.saved.SavedKind.TheViews.{out-SavedKind};
ghost use Rattle.wm_saved.specs.Limits.{has_many_marks, is_wide, passed};

use crate::marks::{are_too_many, is_crowded};
use crate::saved::{SavedKind, SavedNode};
use std::alloc::Global;
use wm_base::{Limit, NoMemory};

/// How many containers a desktop has at most.
const MAX_CONTAINERS: usize = 4096;

/// How many children a container has at most.
const MAX_CHILDREN: usize = 256;

/// How many levels there are at most below a workspace.
const MAX_DEPTH: usize = 32;

/// How much of this room is left behind the containers below one of this kind, or none where they do not fit.
#[cycle(count)]
fn room_below(kind: &SavedKind, room: usize) -> Option<usize>
    ensures some { IfSome result (λ left. left + length (containers (kids_of (out-SavedKind kind.now))) ≡ room) }
    ensures none { IfNone result (room < length (containers (kids_of (out-SavedKind kind.now)))) }
{
    match kind {
        SavedKind::Split { nodes, .. } => room_behind(nodes.items(), room),
        SavedKind::Placeholder { .. } => Some(room),
    }
}

/// How much of this room is left behind these containers and those below them, or none where they do not fit.
#[cycle(count)]
fn room_behind(nodes: &[SavedNode], room: usize) -> Option<usize>
    ensures some { IfSome result (λ left. left + length (containers nodes.now) ≡ room) }
    ensures none { IfNone result (room < length (containers nodes.now)) }
{
    let mut left = room;
    for node in nodes {
        left = room_below(&node.kind, left.checked_sub(1)?)?;
    }
    Some(left)
}

/// Whether one of this kind, or a container below it, has too many children.
#[cycle(width)]
fn is_kind_wide(kind: &SavedKind) -> bool
    ensures { result ≡ is_wide (kids_of (out-SavedKind kind.now)) }
{
    match kind {
        SavedKind::Split { nodes, .. } => is_wide(nodes.items()),
        SavedKind::Placeholder { .. } => false,
    }
}

/// Whether these are too many children of one container, or a container of theirs has too many.
#[cycle(width)]
fn is_wide(nodes: &[SavedNode]) -> bool
    ensures { result ≡ is_wide nodes.now }
{
    for node in nodes {
        if is_kind_wide(&node.kind) {
            return true;
        }
    }
    nodes.len() > MAX_CHILDREN
}

/// Whether the containers below one of this kind stand on at most this many levels.
#[cycle(depth)]
fn fits_below(kind: &SavedKind, room: usize) -> bool
    ensures { result ≡ nat_le (levels (kids_of (out-SavedKind kind.now))) room }
{
    match kind {
        SavedKind::Split { nodes, .. } => fits_levels(nodes.items(), room),
        SavedKind::Placeholder { .. } => true,
    }
}

/// Whether these and those below them stand on at most this many levels.
#[cycle(depth)]
fn fits_levels(nodes: &[SavedNode], room: usize) -> bool
    ensures { result ≡ nat_le (levels nodes.now) room }
{
    for node in nodes {
        if room == 0 || !fits_below(&node.kind, room - 1) {
            return false;
        }
    }
    true
}

/// Whether these and the containers below them have too many marks, one of them or all together.
fn has_many_marks(alloc: Global, trees: &[SavedNode]) -> Result<bool, NoMemory>
    ensures { IfOk result (λ many. many ≡ has_many_marks trees.now) }
{
    if is_crowded(alloc, trees)? {
        return Ok(true);
    }
    are_too_many(alloc, trees)
}

/// The first limit that these trees pass on an empty workspace, where nothing else is.
pub(crate) fn passed(alloc: Global, trees: &[SavedNode]) -> Result<Option<Limit>, NoMemory>
    ensures { IfOk result (λ limit. limit ≡ passed trees.now) }
{
    if room_behind(trees, MAX_CONTAINERS).is_none() {
        Ok(Some(Limit::Containers))
    } else if is_wide(trees) {
        Ok(Some(Limit::Children))
    } else if !fits_levels(trees, MAX_DEPTH) {
        Ok(Some(Limit::Depth))
    } else if has_many_marks(alloc, trees)? {
        Ok(Some(Limit::Marks))
    } else {
        Ok(None)
    }
}

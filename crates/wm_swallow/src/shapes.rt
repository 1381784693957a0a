//! How many children, levels and marks saved containers have.
ghost use Rattle.std.specs.Prelude.{◌≡◌, ◌||◌, false, nat_lt};
ghost use Rattle.wm_focus.specs.Marks.{bears};
ghost use Rattle.wm_swallow.specs.Limits.{different, is_overmarked};
ghost use Rattle.wm_swallow.specs.SavedRows.{fits, is_wide, row_below, row_size, rows};

use wm_base::Text;
use wm_saved::{SavedKind, SavedNode};

/// How many tiled children a container has at most.
pub(crate) const MAX_CHILDREN: usize = 256;

/// How many marks a container has at most.
const MAX_MARKS_OF_ONE: usize = 32;

/// Whether a container of these or below them has more children than it may have.
#[cycle(width)]
pub(crate) fn is_wide(nodes: &[SavedNode]) -> bool
    ensures { result ≡ is_wide (rows nodes.now) }
{
    for node in nodes {
        if is_wide_kind(&node.kind) {
            return true;
        }
    }
    false
}

/// Whether one of this kind, or a container below it, has more children than it may have.
#[cycle(width)]
fn is_wide_kind(kind: &SavedKind) -> bool
    ensures { result ≡ (nat_lt 256 (row_size (row_below kind.now)) || is_wide (row_below kind.now)) }
{
    match kind {
        SavedKind::Split { nodes, .. } => is_wide_row(nodes.items()),
        SavedKind::Placeholder { .. } => false,
    }
}

/// Whether these are more children than a container may have, or a container of these or below them has more.
#[cycle(width)]
#[tactic(auto, using(crate::proofs::SavedLemmas::row_length_is))]
fn is_wide_row(nodes: &[SavedNode]) -> bool
    ensures { result ≡ (nat_lt 256 (row_size (rows nodes.now)) || is_wide (rows nodes.now)) }
{
    nodes.len() > MAX_CHILDREN || is_wide(nodes)
}

/// Whether these and what is below them have at most so many levels.
#[cycle(depth)]
pub(crate) fn fits(levels: usize, nodes: &[SavedNode]) -> bool
    ensures { result ≡ fits levels (rows nodes.now) }
{
    for node in nodes {
        if levels == 0 || !fits_kind(levels - 1, &node.kind) {
            return false;
        }
    }
    true
}

/// Whether what is below one of this kind has at most so many levels.
#[cycle(depth)]
fn fits_kind(levels: usize, kind: &SavedKind) -> bool
    ensures { result ≡ fits levels (row_below kind.now) }
{
    match kind {
        SavedKind::Split { nodes, .. } => fits(levels, nodes.items()),
        SavedKind::Placeholder { .. } => true,
    }
}

/// Whether a container of these or below them has more different marks than it may have.
#[cycle(marks)]
pub(crate) fn is_overmarked(nodes: &[SavedNode]) -> bool
    ensures { result ≡ is_overmarked (rows nodes.now) }
{
    for node in nodes {
        if are_too_many(node.marks.items()) || is_overmarked_kind(&node.kind) {
            return true;
        }
    }
    false
}

/// Whether a container below one of this kind has more different marks than it may have.
#[cycle(marks)]
fn is_overmarked_kind(kind: &SavedKind) -> bool
    ensures { result ≡ is_overmarked (row_below kind.now) }
{
    match kind {
        SavedKind::Split { nodes, .. } => is_overmarked(nodes.items()),
        SavedKind::Placeholder { .. } => false,
    }
}

/// Whether these are more different marks than a container may have.
fn are_too_many(marks: &[Text]) -> bool
    ensures { result ≡ nat_lt 32 (different (λ m. false) marks.now) }
{
    let mut room = MAX_MARKS_OF_ONE;
    let mut rest = marks;
    while let [mark, after @ ..] = rest {
        if !bears(after, mark) {
            if room == 0 {
                return true;
            }
            room -= 1;
        }
        rest = after;
    }
    false
}

/// Whether the mark is among the marks.
pub(crate) fn bears(marks: &[Text], mark: &Text) -> bool
    ensures { result ≡ bears mark.now marks.now }
{
    marks.iter().any(|own| own.as_str() == mark.as_str())
}

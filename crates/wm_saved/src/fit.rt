//! Whether a layout's borders and marks are within their limits.
ghost use Rattle.std.specs.Prelude.{◌≡◌};
ghost use Rattle.std.specs.List.{list_all};
ghost use Rattle.wm_saved.specs.Containers.{kids_of};
ghost use Rattle.wm_saved.specs.Fields.{is_fit_mark};
ghost use Rattle.wm_saved.specs.Limits.{are_fit, is_fit, is_fit_border, is_fit_with};
ghost use Rattle.wm_saved.specs.declared.saved.SavedKind.TheViews.{out-SavedKind};

use crate::saved::{SavedKind, SavedLayout, SavedNode};
use wm_base::{Border, Text};

/// Whether a border is at most 64 pixels wide.
fn is_fit_border(border: Border) -> bool
    ensures { result ≡ is_fit_border border }
{
    match border {
        Border::Normal(width) | Border::Pixel(width) => width <= 64,
        Border::Bare => true,
    }
}

/// Whether a mark has 1 to 256 bytes.
pub(crate) fn is_fit_mark(mark: &str) -> bool
    ensures { result ≡ is_fit_mark mark.now }
{
    !mark.is_empty() && mark.len() <= 256
}

/// Whether each mark has 1 to 256 bytes.
fn are_fit_marks(marks: &[Text]) -> bool
    ensures { result ≡ list_all is_fit_mark marks.now }
{
    marks.iter().all(|mark| is_fit_mark(mark.as_str()))
}

/// Whether the border is at most 64 pixels wide and each mark has 1 to 256 bytes.
fn is_fit_with(border: Border, marks: &[Text]) -> bool
    ensures { result ≡ is_fit_with border marks.now }
{
    is_fit_border(border) && are_fit_marks(marks)
}

/// Whether the containers below one of this kind are within the limits.
#[cycle(fit)]
fn is_fit_kind(kind: &SavedKind) -> bool
    ensures { result ≡ are_fit (kids_of (out-SavedKind kind.now)) }
{
    match kind {
        SavedKind::Split { nodes, .. } => are_fit(nodes.items()),
        SavedKind::Placeholder { .. } => true,
    }
}

/// Whether these and all containers below them are within the limits.
#[cycle(fit)]
fn are_fit(nodes: &[SavedNode]) -> bool
    ensures { result ≡ are_fit nodes.now }
{
    for node in nodes {
        if !is_fit_with(node.border, node.marks.items()) {
            return false;
        }
        if !is_fit_kind(&node.kind) {
            return false;
        }
    }
    true
}

impl SavedLayout {
    /// Whether each border is at most 64 pixels wide, and each mark has 1 to 256 bytes.
    pub fn is_fit(&self) -> bool
        ensures { result ≡ is_fit self.now }
    {
        are_fit(self.trees.items())
    }
}

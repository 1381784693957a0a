//! What differs in a window from what it was.
ghost use Rattle.std.specs.Prelude.{◌≡◌, not};
ghost use Rattle.std.specs.Cmp.Lexicographic.{pointwise};
ghost use Rattle.std.specs.Str.{bytes_eq};
ghost use Rattle.wm_changes.specs.Differences.{is_filled, is_floated, is_marked, is_moved, is_retitled, same_flag, same_id, title};

use crate::windows::Found;
use wm_base::{ConId, Text};
use wm_tree::ConKind;

/// Whether a window has another title.
pub fn is_retitled(before: &Found<'_>, after: &Found<'_>) -> bool
    ensures { result ≡ is_retitled before.now after.now }
{
    title(before) != title(after)
}

/// The title of a window.
fn title<'a>(window: &Found<'a>) -> &'a str
    ensures { result.now ≡ title window.now }
{
    match &window.state.kind {
        ConKind::Split { .. } => "",
        ConKind::Window { props, .. } | ConKind::Placeholder { props, .. } => props.title.as_str(),
    }
}

/// Whether a window has another parent or another workspace.
pub fn is_moved(before: &Found<'_>, after: &Found<'_>) -> bool
    ensures { result ≡ is_moved before.now after.now }
{
    let old = before.standing;
    let new = after.standing;
    !(same_id(old.holder, new.holder) && same_id(old.space, new.space))
}

fn same_id(a: Option<ConId>, b: Option<ConId>) -> bool
    ensures { result ≡ same_id a b }
{
    match (a, b) {
        (None, None) => true,
        (Some(a), Some(b)) => a == b,
        _ => false,
    }
}

/// Whether a window floats now, or no longer does.
pub fn is_floated(before: &Found<'_>, after: &Found<'_>) -> bool
    ensures { result ≡ is_floated before.now after.now }
{
    !same_flag(before.standing.floating, after.standing.floating)
}

/// Whether a window is fullscreen now, or no longer is.
pub fn is_filled(before: &Found<'_>, after: &Found<'_>) -> bool
    ensures { result ≡ is_filled before.now after.now }
{
    !same_flag(before.state.state.fullscreen, after.state.state.fullscreen)
}

/// Whether two flags are one.
pub fn same_flag(a: bool, b: bool) -> bool
    ensures { result ≡ same_flag a b }
{
    if a { b } else { !b }
}

/// Whether a window has other marks.
pub fn is_marked(before: &Found<'_>, after: &Found<'_>) -> bool
    ensures { result ≡ is_marked before.now after.now }
{
    !same_texts(before.part.marks.items(), after.part.marks.items())
}

/// Whether two lists of texts are the same.
pub fn same_texts(texts: &[Text], others: &[Text]) -> bool
    ensures { result ≡ pointwise bytes_eq texts.now others.now }
{
    let mut left = (texts, others);
    while let ([text, rest @ ..], [other, other_rest @ ..]) = left {
        if text.as_str() != other.as_str() {
            return false;
        }
        left = (rest, other_rest);
    }
    left.0.is_empty() && left.1.is_empty()
}

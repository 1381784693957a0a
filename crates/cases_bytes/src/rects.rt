//! Cases of rectangles: moved inwards, and what two have in common.
ghost use Rattle.std.specs.Prelude.{IfOk};
ghost use Rattle.wm_base.specs.Rect.{IsNear, IsSmallEdges};

use case_data::{Fault, Words};
use wm_base::{Edges, Rect};

/// How far from 0 a place may be, and how long a side.
const FAR: i32 = 1_000_000;

/// The next rectangle, where it is near enough.
fn near_rect(words: &mut Words<'_>) -> Result<Rect, Fault>
    ensures { IfOk result (λ r. IsNear r) }
{
    let rect = words.rect()?;
    let Rect { x, y, w, h } = rect;
    if x < -FAR || x > FAR || y < -FAR || y > FAR || w > 1_000_000 || h > 1_000_000 {
        return Err(Fault::BadLine);
    }
    Ok(rect)
}

/// Widths along the upper, right, lower and left side, each less than 65536.
fn small_edges(words: &mut Words<'_>) -> Result<Edges, Fault>
    ensures { IfOk result (λ e. IsSmallEdges e) }
{
    let Edges {
        top,
        right,
        bottom,
        left,
    } = words.edges()?;
    Ok(Edges {
        top: top % 65536,
        right: right % 65536,
        bottom: bottom % 65536,
        left: left % 65536,
    })
}

/// From `X,Y WxH by TOP RIGHT BOTTOM LEFT`, the rectangle with its sides moved inwards.
pub fn tell_inset(words: &mut Words<'_>, out: &mut String) -> Result<(), Fault> {
    let outer = near_rect(words)?;
    skip(words, "by")?;
    let edges = small_edges(words)?;
    push_rect(out, outer.inset(edges))
}

/// From `X,Y WxH and X,Y WxH`, what both have in common.
pub fn tell_overlap(words: &mut Words<'_>, out: &mut String) -> Result<(), Fault> {
    let first = near_rect(words)?;
    skip(words, "and")?;
    let second = near_rect(words)?;
    push_rect(out, first.overlap(second))
}

/// Passes over a word that stands between two parts of a line.
pub fn skip(words: &mut Words<'_>, word: &str) -> Result<(), Fault> {
    if words.word() == word {
        Ok(())
    } else {
        Err(Fault::BadLine)
    }
}

fn push_rect(out: &mut String, rect: Rect) -> Result<(), Fault> {
    let Rect { x, y, w, h } = rect;
    Ok(write!(out, "  {x},{y} {w}x{h}\n")?)
}

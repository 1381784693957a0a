//! The output in a direction.
ghost use Rattle.std.specs.Prelude.{◌≡◌, true, IfSome};
ghost use Rattle.wm_shared.specs.Outputs.{end_of, gap, key_beyond, keys_beyond, output_from, output_in, output_of, spans_meet, stands_beside};
ghost use Rattle.wm_shared.specs.Keys.{least};
ghost use Rattle.wm_forest.specs.Look.{first_kids, in_row, output_kind};

use crate::keys::{Key, lesser};
use wm_base::{ConId, Dir, Rect};
use wm_tree::{Cursor, NodeKind, Part, Tree};

/// The place behind the last of a span.
fn end_of(start: i32, length: u32) -> i64
    ensures { result ≡ end_of start length }
{
    i64::from(start) + i64::from(length)
}

/// Whether two spans have a place in common.
fn spans_meet(a: i32, a_length: u32, b: i32, b_length: u32) -> bool
    ensures { result ≡ spans_meet a a_length b b_length }
{
    i64::from(a) < end_of(b, b_length) && i64::from(b) < end_of(a, a_length)
}

/// How far it is from the edge of one rectangle to another one beyond it.
fn gap(d: Dir, a: Rect, b: Rect) -> i64
    ensures { result ≡ gap d a b }
{
    match d {
        Dir::Left => i64::from(a.x) - end_of(b.x, b.w),
        Dir::Right => i64::from(b.x) - end_of(a.x, a.w),
        Dir::Up => i64::from(a.y) - end_of(b.y, b.h),
        Dir::Down => i64::from(b.y) - end_of(a.y, a.h),
    }
}

/// Whether two rectangles overlap on the axis across the direction.
fn stands_beside(d: Dir, a: Rect, b: Rect) -> bool
    ensures { result ≡ stands_beside d a b }
{
    match d {
        Dir::Left | Dir::Right => spans_meet(a.y, a.h, b.y, b.h),
        Dir::Up | Dir::Down => spans_meet(a.x, a.w, b.x, b.w),
    }
}

/// How far off an output is that lies wholly beyond the edge and beside it. `None` where this is no such output.
fn key_beyond(d: Dir, a: Rect, part: &Part) -> Option<Key>
    ensures { result ≡ key_beyond d a part.now.id (output_kind part.now.kind) }
{
    let NodeKind::Output(output) = &part.kind else {
        return None;
    };
    let gap = gap(d, a, output.rect);
    if gap < 0 || !stands_beside(d, a, output.rect) {
        return None;
    }
    Some(Key {
        first: gap.unsigned_abs(),
        id: part.id,
    })
}

/// The nearest of the outputs of a row that lie beyond the edge, or what was found before.
fn nearest(d: Dir, a: Rect, outputs: Cursor<'_>) -> Option<Key>
    ensures { result ≡ least (keys_beyond d a outputs.entry) }
{
    let mut best = None;
    let mut row = outputs;
    while let Some(part) = row.part() {
        best = lesser(best, key_beyond(d, a, part));
        row = row.rest();
    }
    best
}

/// The output of a container's or workspace's workspace. `None` exactly where it has none, as in the scratchpad.
pub fn output_of(t: &Tree, con: ConId) -> Option<ConId>
    ensures { result ≡ output_of con t.now }
{
    t.parent(t.workspace_of(con)?)
}

/// The output in a direction of the one on which a container or workspace stands.
pub fn output_from(t: &Tree, con: ConId, d: Dir) -> Option<ConId>
    ensures value { result ≡ output_from d con t.now }
    ensures listed { IfSome result (λ o. in_row o (first_kids t.now.nodes) ≡ true) }
{
    output_in(t, output_of(t, con)?, d)
}

/// The output in a direction of another one: of those that lie wholly beyond that edge and overlap it on the other axis
/// the nearest, then the one of least id. `None` exactly where there is none.
#[tactic(auto, using(crate::proofs::KeyLemmas::listed_by))]
pub fn output_in(t: &Tree, output: ConId, d: Dir) -> Option<ConId>
    ensures value { result ≡ output_in d output t.now }
    ensures listed { IfSome result (λ o. in_row o (first_kids t.now.nodes) ≡ true) }
{
    let rect = t.output(output)?.rect;
    let key = nearest(d, rect, t.nodes().kids())?;
    Some(key.id)
}

//! Floating windows in a direction: the next one by id, round both ends, and a shift by so many pixels.
ghost use Rattle.std.specs.Prelude.{◌≡◌, Some};
ghost use Rattle.wm_floats.specs.Rounds.{ahead, floats_at, focus_round_refusal, focus_round_tree, key_round, keys_round, off, round_to, shift_refusal, shift_tree, shifted_x, shifted_y};
ghost use Rattle.wm_shared.specs.Does.{Does, DoesExactly};
ghost use Rattle.wm_shared.specs.Keys.{least};
ghost use Rattle.wm_shared.specs.Subject.{IsSubject};
ghost use Rattle.wm_tree.specs.TreeValue.{workspace_of};

use crate::placing::place_at;
use wm_base::{ConId, Dir, ErrorText, NoMemory, Rect, Refusal};
use wm_shared::{Key, focus, lesser, rect_of};
use wm_tree::{Cursor, Tree};

/// How many ids there are.
const IDS: u64 = 4_294_967_296;

/// How far an id is ahead of another one, where behind the greatest id of all the least one comes.
fn ahead(from: ConId, to: ConId) -> u64
    ensures { result ≡ ahead from to }
{
    let start = u64::from(from.0);
    let end = u64::from(to.0);
    if start < end {
        end - start
    } else {
        end + IDS - start
    }
}

/// How far an id is off in the direction.
fn off(d: Dir, from: ConId, to: ConId) -> u64
    ensures { result ≡ off d from to }
{
    match d {
        Dir::Right | Dir::Down => ahead(from, to),
        Dir::Left | Dir::Up => ahead(to, from),
    }
}

/// How far another window is off. `None` where it is the same one.
fn key_round(d: Dir, con: ConId, other: ConId) -> Option<Key>
    ensures { result ≡ key_round d con other }
{
    if other == con {
        return None;
    }
    Some(Key {
        first: off(d, con, other),
        id: other,
    })
}

/// The nearest of the row in the direction.
fn nearest(d: Dir, con: ConId, windows: Cursor<'_>) -> Option<Key>
    ensures { result ≡ least (keys_round d con windows.entry) }
{
    let mut best = None;
    let mut row = windows;
    while let Some(part) = row.part() {
        best = lesser(best, key_round(d, con, part.id));
        row = row.rest();
    }
    best
}

/// The row of floating windows of a node. `None` exactly where it is not here.
fn floats_at(row: Cursor<'_>, w: ConId) -> Option<Cursor<'_>>
    ensures { result ≡ floats_at w row.entry }
{
    let mut row = row;
    while let Some(part) = row.part() {
        if part.id == w {
            return Some(row.floats());
        }
        if let Some(found) = floats_at(row.kids(), w) {
            return Some(found);
        }
        if let Some(found) = floats_at(row.floats(), w) {
            return Some(found);
        }
        row = row.rest();
    }
    None
}

/// The next floating window of the container's workspace.
fn round_to(t: &Tree, con: ConId, w: ConId, d: Dir) -> Option<ConId>
    requires { workspace_of t.now con ≡ Some w }
    ensures { result ≡ round_to d con t.now }
{
    let key = nearest(d, con, floats_at(t.nodes(), w)?)?;
    Some(key.id)
}

/// Focuses the next floating window of the subject's workspace in the order of ids (right, down), or the one before it
/// (left, up); behind the last one comes the first.
pub fn focus_round(t: &mut Tree, from: ConId, d: Dir) -> Result<(), Refusal>
    requires { IsSubject t.old from }
    ensures { Does t.old t.new result (focus_round_refusal from d) (focus_round_tree from d) }
{
    let Some(w) = t.workspace_of(from) else {
        return Err(Refusal::NoTarget(ErrorText::NoWorkspace));
    };
    let Some(next) = round_to(t, from, w, d) else {
        return Err(Refusal::NoTarget(ErrorText::NoNeighbour));
    };
    match focus(t, next) {
        Ok(()) => Ok(()),
        Err(NoMemory) => Err(Refusal::NoMemory),
    }
}

/// Where a rectangle begins across after a shift.
fn shifted_x(d: Dir, px: u32, rect: Rect) -> i64
    ensures { result ≡ shifted_x d px rect }
{
    match d {
        Dir::Left => i64::from(rect.x) - i64::from(px),
        Dir::Right => i64::from(rect.x) + i64::from(px),
        Dir::Up | Dir::Down => i64::from(rect.x),
    }
}

/// Where a rectangle begins from above after a shift.
fn shifted_y(d: Dir, px: u32, rect: Rect) -> i64
    ensures { result ≡ shifted_y d px rect }
{
    match d {
        Dir::Up => i64::from(rect.y) - i64::from(px),
        Dir::Down => i64::from(rect.y) + i64::from(px),
        Dir::Left | Dir::Right => i64::from(rect.y),
    }
}

/// Shifts the floating window by so many pixels in the direction.
pub fn shift(t: &mut Tree, con: ConId, d: Dir, px: u32) -> Result<(), Refusal>
    requires { IsSubject t.old con }
    ensures { DoesExactly t.old t.new result (shift_refusal con d px) (shift_tree con d px) }
{
    let rect = rect_of(t, con);
    let x = shifted_x(d, px, rect);
    let y = shifted_y(d, px, rect);
    place_at(t, con, x, y)
}

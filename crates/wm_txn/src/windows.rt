//! The windows by id: what transactions configure them with, and those that close.
ghost use Rattle.std.specs.Prelude.{◌≡◌, ◌≤◌, Some};
ghost use Rattle.wm_txn.specs.Windows.{configure_all, configure_found, close_all, close_found, count_all, count_awaited, count_closed, count_found, find, is_left, least_left, one_if, size_of};
ghost use Rattle.wm_txn.specs.Commits.{lesser};
ghost use Rattle.wm_arrange.specs.Sizes.{is_content};

use crate::held::Held;
use wm_arrange::{Placed, PlacedPart};
use wm_base::{ConId, Size};
use wm_ids::IdMap;

/// Configures the windows that have a content among the parts with its size, and answers how many transaction `number`
/// awaits.
pub(crate) fn configure_all(windows: &mut IdMap<Held>, parts: &[Placed], number: u64) -> u64
    ensures windows { windows.new ≡ configure_all number parts.now windows.old }
    ensures count { result ≡ count_all number parts.now windows.old }
{
    let mut count: u64 = 0;
    let mut rest = parts;
    while let [placed, after @ ..] = rest {
        if is_content(&placed.part) {
            count += configure(windows, placed.con, size_of(placed), number);
        }
        rest = after;
    }
    count
}

/// Configures a window with a size, and answers 1 where transaction `number` awaits it for that.
fn configure(windows: &mut IdMap<Held>, con: ConId, size: Size, number: u64) -> u64
    ensures windows { windows.new ≡ configure_found number size con (find con windows.old) windows.old }
    ensures count { result ≡ count_found number size (find con windows.old) }
    ensures small { result ≤ 1 }
{
    let Some(held) = windows.get(con.0) else {
        return 0;
    };
    let before = *held;
    let after = before.configured_by(number, size);
    windows.set(con.0, after);
    one_if(before.placed != number && after.is_unanswered(number))
}

/// Closes windows, and answers how many of them transaction `number` awaited.
pub(crate) fn close_all(windows: &mut IdMap<Held>, gone: &[ConId], number: u64) -> u64
    ensures windows { windows.new ≡ close_all gone.now windows.old }
    ensures count { result ≡ count_closed number gone.now windows.old }
{
    let mut count: u64 = 0;
    let mut rest = gone;
    while let [con, after @ ..] = rest {
        count += close(windows, *con, number);
        rest = after;
    }
    count
}

/// Closes a window, and answers 1 where transaction `number` awaited it.
fn close(windows: &mut IdMap<Held>, con: ConId, number: u64) -> u64
    ensures windows { windows.new ≡ close_found con (find con windows.old) windows.old }
    ensures count { result ≡ count_awaited number (find con windows.old) }
    ensures small { result ≤ 1 }
{
    let Some(held) = windows.get(con.0) else {
        return 0;
    };
    let before = *held;
    windows.set(con.0, before.closed());
    one_if(before.is_unanswered(number))
}

/// The least window with a content among the parts that transaction `number` awaits and that has not answered.
pub(crate) fn least_left(windows: &IdMap<Held>, parts: &[Placed], number: u64) -> Option<ConId>
    ensures { result ≡ least_left number windows.now parts.now }
{
    let mut least: Option<ConId> = None;
    let mut rest = parts;
    while let [placed, after @ ..] = rest {
        if is_content(&placed.part) && is_left(windows, placed.con, number) {
            least = Some(lesser(placed.con, least));
        }
        rest = after;
    }
    least
}

fn lesser(con: ConId, other: Option<ConId>) -> ConId
    ensures { lesser con other ≡ Some result }
{
    match other {
        Some(id) if id.0 < con.0 => id,
        _ => con,
    }
}

pub(crate) fn is_left(windows: &IdMap<Held>, con: ConId, number: u64) -> bool
    ensures { result ≡ is_left number (find con windows.now) }
{
    match windows.get(con.0) {
        Some(held) => held.is_unanswered(number),
        None => false,
    }
}

/// 1 where the test holds, 0 elsewhere.
pub(crate) fn one_if(test: bool) -> u64
    ensures value { result ≡ one_if test }
    ensures small { result ≤ 1 }
{
    if test { 1 } else { 0 }
}

fn size_of(placed: &Placed) -> Size
    ensures { result ≡ size_of placed.now }
{
    Size {
        w: placed.rect.w,
        h: placed.rect.h,
    }
}

pub(crate) fn is_content(part: &PlacedPart) -> bool
    ensures { result ≡ is_content part.now }
{
    matches!(part, PlacedPart::Content)
}

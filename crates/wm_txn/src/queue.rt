//! The windows that a waiting transaction awaits and that have not answered, by rising id.
ghost use Rattle.std.specs.Prelude.{◌≡◌, ◌++◌, true, List, Option, IfSome, OnOk};
ghost use Rattle.wm_arrange.specs.declared.parts.Placed.{Placed};
ghost use Rattle.std.specs.Option.{option_map};
ghost use Rattle.wm_txn.specs.declared.held.Pending.{Pending};
ghost use Rattle.wm_txn.specs.Queue.{IsQueue, IsQueued, lefts};

use crate::held::{Held, Pending};
use crate::windows::{is_content, is_left};
use std::alloc::{AllocError, Global};
use std::collections::VecDeque;
use wm_arrange::Placed;
use wm_base::ConId;
use wm_ids::IdMap;

/// The windows with a content among the parts that transaction `number` awaits and that have not answered, by rising id.
/// They are kept in this room; `None` where it is too small and no more is to be had.
pub(crate) fn queue(
    windows: &IdMap<Held>,
    parts: &[Placed],
    number: u64,
    room: Vec<ConId>,
) -> Option<VecDeque<ConId>>
    ensures { IfSome result (λ queue. IsQueue number windows.now parts.now queue.items) }
{
    let mut ids = room;
    ids.clear();
    gather(windows, parts, number, &mut ids).ok()?;
    ids.sort_unstable_by_key(|con| con.0);
    Some(VecDeque::from_vec(ids))
}

/// The queue of the transaction that waits, if one does, in room of its own.
pub(crate) fn queue_again(
    alloc: Global,
    windows: &IdMap<Held>,
    waiting: &Option<Pending>,
    number: u64,
) -> Option<VecDeque<ConId>>
    ensures { IsQueued number windows.now waiting.now (option_map (λ queue. queue.items) result) }
{
    let pending = waiting.as_ref()?;
    queue(
        windows,
        pending.arrangement.parts.items(),
        number,
        Vec::new(alloc),
    )
}

/// Adds the windows that are left among the parts, in the parts' order.
fn gather(
    windows: &IdMap<Held>,
    parts: &[Placed],
    number: u64,
    ids: &mut Vec<ConId>,
) -> Result<(), AllocError>
    ensures { OnOk result (ids.new.items ≡ ids.old.items ++ lefts number windows.now parts.now) }
{
    let mut rest = parts;
    while let [placed, after @ ..] = rest {
        if is_content(&placed.part) && is_left(windows, placed.con, number) {
            ids.push(placed.con)?;
        }
        rest = after;
    }
    Ok(())
}

/// The queue without those at the front that have answered or closed.
pub(crate) fn trimmed(
    queue: Option<VecDeque<ConId>>,
    windows: &IdMap<Held>,
    number: u64,
) -> Option<VecDeque<ConId>>
    ensures { (waiting : Option Pending) →
        IsQueued number windows.now waiting (option_map (λ queue. queue.items) queue) →
        IsQueued number windows.now waiting (option_map (λ queue. queue.items) result) }
{
    let mut queue = queue?;
    trim(&mut queue, windows, number);
    Some(queue)
}

/// Lets the queue know of a buffer of a window, which was awaited before it and is so after it where the tests say so.
/// Only where the first in the queue answers, the next one is looked for; and where a window is awaited that was not, the
/// queue goes.
pub(crate) fn heard(
    queue: &mut Option<VecDeque<ConId>>,
    con: ConId,
    awaited: bool,
    awaits: bool,
    windows: &IdMap<Held>,
    number: u64,
)
    ensures { (waiting : Option Pending) →
        ((awaits ≡ true → awaited ≡ true) → IsQueued number windows.now waiting (option_map (λ queue. queue.items) queue.old)) →
        IsQueued number windows.now waiting (option_map (λ queue. queue.items) queue.new) }
{
    if awaited == awaits {
        return;
    }
    if !awaited {
        *queue = None;
        return;
    }
    if is_first(queue, con) {
        *queue = trimmed(queue.take(), windows, number);
    }
}

/// Whether the window is the first in the queue.
fn is_first(queue: &Option<VecDeque<ConId>>, con: ConId) -> bool {
    match queue {
        Some(queue) => match queue.front() {
            Some(first) => first.0 == con.0,
            None => false,
        },
        None => false,
    }
}

/// Takes those at the front off that have answered or closed.
fn trim(queue: &mut VecDeque<ConId>, windows: &IdMap<Held>, number: u64)
    ensures { (parts : List Placed) → IsQueue number windows.now parts queue.old.items → IsQueue number windows.now parts queue.new.items }
{
    while let Some(con) = queue.front().copied() {
        if is_left(windows, con, number) {
            return;
        }
        queue.pop_front();
    }
}

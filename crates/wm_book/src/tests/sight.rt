//! What a caller sees of the window that it opens.
ghost use Rattle.std.specs.Prelude.{[], IfOk};
ghost use Rattle.wm_book.specs.Carried.{IsBack, IsReady};
ghost use Rattle.wm_core.specs.DeskValue.{Stands};

use super::books::{close_joined, crossed, shared_by_two};
use super::callers::open;
use crate::{Book, Kept};
use std::alloc::Global;
use std::sync::Wait;
use std::test::*;
use wm_base::{ConId, NoMemory, Size};
use wm_core::{Desk, Door, Query, View, Want};
use wm_layouts::Plan;
use wm_turn::Seat;

/// The first window that is opened.
const WINDOW: ConId = ConId(4);

/// What it is asked: to take the size of the output.
const CONFIGURE: Want = Want::Configure {
    con: WINDOW,
    serial: 1,
    size: Size { w: 1000, h: 800 },
};

/// Whether the caller's window, and no other, is asked to take the size of the output.
fn is_configured(view: &View) -> bool {
    match view {
        View::Wants(wants) => matches!(wants.items(), [one] if *one == CONFIGURE),
        _ => false,
    }
}

/// Whether one step was taken, and one window is open.
fn has_one_window(view: &View) -> bool {
    match view {
        View::State(state) => state.steps == 1 && state.windows == 1,
        _ => false,
    }
}

/// Whether what the caller sees of its windows is the one configure.
fn sees_configure<V: Kept, R: Wait>(
    rt: &R,
    book: &Book<V>,
    seat: &mut Seat<V>,
) -> Result<bool, NoMemory>
    requires { IsReady book.now seat.old }
    ensures { IsBack book.now seat.old seat.new }
{
    let view = book.look(rt, seat, &Query::Wants { serial: 0, kill: 0 })?;
    let seen = is_configured(&view);
    drop(view);
    Ok(seen)
}

/// Whether what the caller sees of the desk is one step and one window.
fn sees_window<V: Kept, R: Wait>(
    rt: &R,
    book: &Book<V>,
    seat: &mut Seat<V>,
) -> Result<bool, NoMemory>
    requires { IsReady book.now seat.old }
    ensures { IsBack book.now seat.old seat.new }
{
    let view = book.look(rt, seat, &Query::State)?;
    let seen = has_one_window(&view);
    drop(view);
    Ok(seen)
}

/// The window that the caller opens, whether it sees its configure, and whether it sees one window.
fn look_at_new_window<V: Kept, R: Wait>(
    rt: &R,
    alloc: Global,
    book: &Book<V>,
    seat: &mut Seat<V>,
) -> Result<(Option<ConId>, bool, bool), NoMemory>
    requires { IsReady book.now seat.old }
    ensures { IsBack book.now seat.old seat.new }
{
    let window = open(rt, alloc, book, seat);
    let configure = sees_configure(rt, book, seat)?;
    let one_window = sees_window(rt, book, seat)?;
    Ok((window, configure, one_window))
}

/// What a caller tells of its new window, and how many steps were taken in all. The other caller's seat is joined to its.
fn told<V: Kept + Send + Sync + Drop, R: Wait>(
    rt: &R,
    alloc: Global,
    value: V,
) -> Result<((Option<ConId>, bool, bool), u64), Fail>
    requires { V.stands value [] }
{
    let (book, mut seat, other) = shared_by_two(alloc, crossed(value))?;
    let told = look_at_new_window(rt, alloc, &book, &mut seat);
    book.join(&mut seat, other);
    let steps = close_joined(alloc, book, seat)?;
    Ok((told?, steps))
}

/// A desk at the standard opening.
fn opened(alloc: Global) -> Result<Desk, NoMemory>
    ensures { IfOk result (λ desk. Stands desk []) }
{
    Desk::start(alloc, Plan::standard(alloc)?)
}

#[test]
fn a_caller_sees_what_its_window_is_asked(rt: HostRuntime) -> Result<(), Fail> {
    let told = told(&rt, rt.alloc(), opened(rt.alloc())?)?;
    assert_eq!(rt; told, ((Some(WINDOW), true, true), 1));
    Ok(())
}

//! Two threads that open and close windows by one book.
ghost use Rattle.std.specs.Prelude.{◌≤◌, [], IfOk};
ghost use Rattle.wm_book.specs.Carried.{IsBack, IsReady};
ghost use Rattle.wm_book.specs.Recorded.{IsRecord};

use super::books::{close_both, crossed, shared_by_two};
use super::callers::{open, take};
use crate::{Book, Kept, Recorded};
use std::alloc::Global;
use std::sync::Wait;
use std::test::*;
use std::thread;
use std::thread::Threads;
use wm_base::NoMemory;
use wm_core::{Answer, Step};
use wm_layouts::Plan;
use wm_turn::Seat;

/// Opens a window and closes it, and answers how many of the two steps were done.
fn open_and_close<V: Kept, R: Wait>(
    rt: &R,
    alloc: Global,
    book: &Book<V>,
    seat: &mut Seat<V>,
) -> u32
    requires ready { IsReady book.now seat.old }
    ensures back { IsBack book.now seat.old seat.new }
    ensures most { result ≤ 2 }
{
    let Some(con) = open(rt, alloc, book, seat) else {
        return 0;
    };
    let closed = take(rt, book, seat, Step::Close { con });
    if matches!(&closed, Ok(Answer::Done)) {
        2
    } else {
        1
    }
}

/// Opens a window and closes it, fifty times, and answers how many of these steps were done.
fn take_hundred<V: Kept, R: Wait>(
    rt: &R,
    alloc: Global,
    book: &Book<V>,
    mut seat: Seat<V>,
) -> (Seat<V>, u32)
    requires { IsReady book.now seat }
    ensures { IsBack book.now seat result.0 }
{
    let mut done = 0;
    for _pair in 0..50_u32 {
        done += open_and_close(rt, alloc, book, &mut seat);
    }
    (seat, done)
}

/// Two threads take a hundred steps each.
fn race<V: Kept + Send, R: Threads + Wait + Sync>(
    rt: &R,
    alloc: Global,
    book: &Book<V>,
    first: Seat<V>,
    second: Seat<V>,
) -> ((Seat<V>, u32), (Seat<V>, u32))
    requires one { IsReady book.now first }
    requires two { IsReady book.now second }
    ensures one { IsBack book.now first result.0.0 }
    ensures two { IsBack book.now second result.1.0 }
{
    thread::join(
        rt,
        move ||
            requires { IsReady book.now first }
            ensures { IsBack book.entry.now first result.0 }
        { take_hundred(rt, alloc, book, first) },
        move ||
            requires { IsReady book.now second }
            ensures { IsBack book.entry.now second result.0 }
        { take_hundred(rt, alloc, book, second) },
    )
}

/// Whether the caller's steps among the first 200 are a hundred in its order: it opens a window and closes it, again and
/// again, and each window has a greater id than the one before.
fn are_in_order(recorded: &Recorded, caller: u32) -> bool {
    let mut open = false;
    let mut last = 0;
    let mut count = 0_u32;
    for place in 0..200 {
        let Some(entry) = recorded.entry(place) else {
            return false;
        };
        if entry.who == caller {
            count += 1;
            match &entry.step {
                Step::Map { .. } if !open => open = true,
                Step::Close { con } if open && last < con.0 => {
                    open = false;
                    last = con.0;
                }
                _ => return false,
            }
        }
    }
    !open && count == 100
}

/// The value after two threads took a hundred steps each, how many steps it stands for, and how many were done by each.
fn raced<V: Kept + Send + Sync + Drop, R: Threads + Wait + Sync>(
    rt: &R,
    alloc: Global,
    value: V,
) -> Result<(V, u64, (u32, u32)), Fail>
    requires { V.stands value [] }
{
    let (book, first, second) = shared_by_two(alloc, crossed(value))?;
    let ((first, done), (second, more)) = race(rt, alloc, &book, first, second);
    let (value, steps) = close_both(alloc, book, first, second)?;
    Ok((value, steps, (done, more)))
}

/// A recorded desk at the standard opening.
fn opened_recorded(alloc: Global) -> Result<Recorded, NoMemory>
    ensures { IfOk result (λ recorded. IsRecord recorded []) }
{
    Recorded::start(alloc, Plan::standard(alloc)?)
}

/// How many windows the desk has, whether the steps of both callers are in their order, and whether no others are stored.
fn told(recorded: Recorded) -> (u32, bool, bool) {
    let windows = recorded.state().windows;
    let in_order = are_in_order(&recorded, 0) && are_in_order(&recorded, 1);
    let no_others = recorded.entry(200).is_none();
    drop(recorded);
    (windows, in_order, no_others)
}

/// How many steps a recorded desk stands for after the race, how many each thread did, and what the desk tells.
fn race_told<R: Threads + Wait + Sync>(
    rt: &R,
    alloc: Global,
) -> Result<(u64, (u32, u32), (u32, bool, bool)), Fail> {
    let (recorded, steps, done) = raced(rt, alloc, opened_recorded(alloc)?)?;
    Ok((steps, done, told(recorded)))
}

#[test]
fn two_threads_take_a_hundred_steps_each(rt: HostRuntime) -> Result<(), Fail> {
    let (steps, done, told) = race_told(&rt, rt.alloc())?;
    assert_eq!(rt; (steps, done), (200, (100, 100)));
    assert_eq!(rt; told, (0, true, true));
    Ok(())
}

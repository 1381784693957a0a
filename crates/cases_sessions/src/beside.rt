//! Sessions with another thread beside: another session, or a caller that takes steps.
ghost use Rattle.wm_book.specs.Carried.{IsReady};

use crate::gated::{Gate, GatedLink};
use crate::gates::comes;
use crate::links::{frames_of, quiet_link, spoken};
use crate::others::take_all;
use crate::seats::shared_by_two;
use crate::speech::{End, Speech, served};
use crate::telling::{push_end, push_sent, push_told};
use case_data::{Fault, Words, number_of};
use std::alloc::Global;
use std::sync::Wait;
use std::sync::atomic::{AtomicU64, Ordering};
use std::thread;
use std::thread::Threads;
use wm_book::{Book, Kept};
use wm_ports::Link;
use wm_turn::Seat;

/// Serves the clients of two links, each in a thread of its own.
fn both_served<V: Kept + Send + Drop, L: Link + Send + Drop, R: Threads + Wait + Sync>(
    alloc: Global,
    rt: &R,
    book: &Book<V>,
    first: (Seat<V>, L),
    second: (Seat<V>, L),
) -> ((End, L), (End, L))
    requires one { IsReady book.now first.0 }
    requires two { IsReady book.now second.0 }
{
    let (seat, link) = first;
    let (other, beside) = second;
    thread::join(
        rt,
        move ||
            requires { IsReady book.now seat }
        { served(alloc, rt, book, seat, link, Speech::Messages) },
        move ||
            requires { IsReady book.now other }
        { served(alloc, rt, book, other, beside, Speech::Messages) },
    )
}

/// Writes how a session ended, whether its link went on without what it waited for, and what was sent on it.
fn push_served(
    alloc: Global,
    served: &(End, GatedLink<'_>),
    out: &mut String,
) -> Result<(), Fault> {
    push_end(served.0, out)?;
    push_late(&served.1, out)?;
    push_sent(alloc, served.1.sent(), out)
}

fn push_late(link: &GatedLink<'_>, out: &mut String) -> Result<(), Fault> {
    if link.is_late() {
        out.push_str("  too late\n")?;
    }
    Ok(())
}

/// From `MESSAGES|MESSAGES`, what two sessions tell that are served beside each other, the first of which ends its first
/// sending only after the second one's client was answered.
pub fn tell_together<R: Threads + Wait + Sync>(
    rt: &R,
    fields: &mut Words<'_>,
    out: &mut String,
) -> Result<(), Fault> {
    let alloc = fields.alloc;
    let (begun, beside) = (AtomicU64::new(0), AtomicU64::new(0));
    let first = quiet_link(alloc, frames_of(alloc, fields.until("|"))?, 0)?;
    let second = quiet_link(alloc, frames_of(alloc, fields.rest())?, 0)?;
    let first = GatedLink::new(first, Gate { at: 2, until: 3 }, &begun, &beside);
    let second = GatedLink::new(second, Gate { at: 0, until: 0 }, &beside, &begun);
    let (book, seat, other) = shared_by_two(alloc)?;
    let (one, two) = both_served(alloc, rt, &book, (seat, first), (other, second));
    push_served(alloc, &one, out)?;
    push_served(alloc, &two, out)
}

/// Takes steps, once the count of a link's calls is at least so much, and then tells that it has.
fn take_beside<V: Kept + Drop, R: Wait>(
    alloc: Global,
    rt: &R,
    book: &Book<V>,
    mut seat: Seat<V>,
    steps: &str,
    when: (&AtomicU64, u64),
    told: &AtomicU64,
) -> Result<(), Fault>
    requires { IsReady book.now seat }
{
    comes(when.0, when.1);
    let taken = take_all(alloc, rt, book, &mut seat, steps);
    told.store(1, Ordering::SeqCst);
    taken
}

/// Serves the client of a link in one thread, while a caller in another one takes steps.
fn served_beside<V: Kept + Send + Drop, L: Link + Send + Drop, R: Threads + Wait + Sync>(
    alloc: Global,
    rt: &R,
    book: &Book<V>,
    client: (Seat<V>, L, Speech),
    caller: (Seat<V>, &str),
    when: (&AtomicU64, u64),
    told: &AtomicU64,
) -> ((End, L), Result<(), Fault>)
    requires one { IsReady book.now client.0 }
    requires two { IsReady book.now caller.0 }
{
    let (seat, link, speech) = client;
    let (other, steps) = caller;
    thread::join(
        rt,
        move ||
            requires { IsReady book.now seat }
        { served(alloc, rt, book, seat, link, speech) },
        move ||
            requires { IsReady book.now other }
        { take_beside(alloc, rt, book, other, steps, when, told) },
    )
}

/// From `CALL|STEPS|BYTES`, what a session of a client that speaks so tells whose link is quiet at this call of it, which ends
/// only after another caller has taken these steps.
fn beside<R: Threads + Wait + Sync>(
    rt: &R,
    fields: &mut Words<'_>,
    speech: Speech,
    out: &mut String,
) -> Result<(), Fault> {
    let alloc = fields.alloc;
    let at = u64::from(number_of(fields.until("|"))?);
    let steps = fields.until("|");
    let (begun, told) = (AtomicU64::new(0), AtomicU64::new(0));
    let link = quiet_link(alloc, spoken(alloc, fields.rest(), speech)?, at)?;
    let link = GatedLink::new(link, Gate { at, until: 1 }, &begun, &told);
    let (book, seat, other) = shared_by_two(alloc)?;
    let (client, taken) = served_beside(
        alloc,
        rt,
        &book,
        (seat, link, speech),
        (other, steps),
        (&begun, at),
        &told,
    );
    taken?;
    push_end(client.0, out)?;
    push_late(&client.1, out)?;
    push_told(alloc, client.1.sent(), speech, out)
}

/// From `CALL|STEPS|MESSAGES`, what a session tells whose link is quiet at this call of it, which ends only after another
/// caller has taken these steps.
pub fn tell_beside<R: Threads + Wait + Sync>(
    rt: &R,
    fields: &mut Words<'_>,
    out: &mut String,
) -> Result<(), Fault> {
    beside(rt, fields, Speech::Messages, out)
}

/// From `CALL|STEPS|LINES`, the same of a client that speaks lines.
pub fn tell_client_beside<R: Threads + Wait + Sync>(
    rt: &R,
    fields: &mut Words<'_>,
    out: &mut String,
) -> Result<(), Fault> {
    beside(rt, fields, Speech::Lines, out)
}

//! Workers over links in memory, on one thread.
ghost use Rattle.wm_book.specs.Carried.{IsReady};

use crate::actors::push_actor_end;
use crate::links::{numbers, spoken};
use crate::others::take_all;
use crate::seats::shared_by_two;
use crate::speech::Speech;
use crate::telling::{push_lines, push_sent};
use case_data::{Fault, Words};
use std::alloc::{AllocError, Global};
use std::sync::Wait;
use wm_actors::{ActorEnd, client_worker, ipc_worker};
use wm_book::{Book, Kept};
use wm_core::Door;
use wm_criteria::RegexBuild;
use wm_ports::{MemLink, MemListen};
use wm_turn::Seat;

/// How many bytes each link has room for.
const SPACE: usize = 1 << 12;

/// The links that give the bytes of parts with `|` between them.
fn links_of(alloc: Global, text: &str, speech: Speech) -> Result<Vec<MemLink>, Fault> {
    let mut links = Vec::new(alloc);
    for part in text.split("|") {
        let bytes = spoken(alloc, part, speech)?;
        links.push(MemLink::new(alloc, bytes, SPACE, Vec::new(alloc), Vec::new(alloc))?)?;
    }
    Ok(links)
}

/// Serves the links of a listener, after what another caller does: how the worker ended, and whether the desk is to stop.
fn work<R: Wait>(
    alloc: Global,
    rt: &R,
    before: &str,
    listen: &mut MemListen,
    speech: Speech,
) -> Result<(ActorEnd, bool), Fault> {
    let (book, seat, mut other) = shared_by_two(alloc)?;
    take_all(alloc, rt, &book, &mut other, before)?;
    let end = worked(alloc, rt, &book, seat, listen, speech);
    Ok((end, book.stopped(rt, &mut other)))
}

/// How a worker ends that serves clients who speak so.
fn worked<V: Kept + Drop, R: Wait>(
    alloc: Global,
    rt: &R,
    book: &Book<V>,
    mut seat: Seat<V>,
    listen: &mut MemListen,
    speech: Speech,
) -> ActorEnd
    requires { IsReady book.now seat }
{
    match speech {
        Speech::Messages => {
            let mut build = RegexBuild::new();
            ipc_worker(alloc, rt, book, &mut seat, listen, &mut build)
        }
        Speech::Lines => client_worker(alloc, rt, book, &mut seat, listen),
    }
}

/// From `FAILS|QUIET|BEFORE|LINK|LINK`, how a worker ends whose listener fails and is quiet at these calls and gives links of
/// clients that speak so, and what was sent on each link that it gave back.
fn tell_work<R: Wait>(
    rt: &R,
    fields: &mut Words<'_>,
    speech: Speech,
    out: &mut String,
) -> Result<(), Fault> {
    let alloc = fields.alloc;
    let (fails, quiet) = (numbers(fields)?, numbers(fields)?);
    let before = fields.until("|");
    let links = links_of(alloc, fields.rest(), speech)?;
    let mut listen = MemListen::new(alloc, links, fails, quiet)?;
    let (end, stopped) = work(alloc, rt, before, &mut listen, speech)?;
    push_actor_end(end, out)?;
    push_stopped(stopped, out)?;
    for link in listen.returned() {
        out.push_str("  link\n")?;
        push_all(alloc, link.sent(), speech, out)?;
    }
    Ok(())
}

/// Writes whether the desk is to stop.
fn push_stopped(stopped: bool, out: &mut String) -> Result<(), AllocError> {
    out.push_str(if stopped {
        "  the desk is to stop\n"
    } else {
        "  the desk goes on\n"
    })
}

/// Writes all that was sent to a client that speaks so.
fn push_all(alloc: Global, sent: &[u8], speech: Speech, out: &mut String) -> Result<(), Fault> {
    match speech {
        Speech::Messages => push_sent(alloc, sent, out),
        Speech::Lines => push_lines(sent, out),
    }
}

/// The case of a worker that serves i3-ipc clients.
pub fn tell_ipc_worker<R: Wait>(
    rt: &R,
    fields: &mut Words<'_>,
    out: &mut String,
) -> Result<(), Fault> {
    tell_work(rt, fields, Speech::Messages, out)
}

/// The case of a worker that serves clients that speak lines.
pub fn tell_client_worker<R: Wait>(
    rt: &R,
    fields: &mut Words<'_>,
    out: &mut String,
) -> Result<(), Fault> {
    tell_work(rt, fields, Speech::Lines, out)
}

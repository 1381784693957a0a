//! A server whole, over links in memory.
ghost use Rattle.std.specs.Prelude.{◌≡◌, length};

use crate::doors::{builds, last_link, push_ended, two_doors};
use crate::gated::{Gate, GatedLink};
use crate::given::GivenLink;
use crate::links::{frames_of, quiet_link};
use crate::telling::{push_lines, push_sent};
use case_data::{Fault, Words, bytes_of};
use std::alloc::Global;
use std::sync::Wait;
use std::sync::atomic::AtomicU64;
use std::thread::Threads;
use wm_crew::ServeStatus;
use wm_ports::{Link, MemLink, MemSink, MemSource, StepClock};
use wm_serve::serve;

/// How many bytes of frames there is room for.
const SPACE: usize = 1 << 16;

/// Writes what was sent on the link that was given back, and whether it went on without what it waited for.
fn push_back(
    alloc: Global,
    door: &GivenLink<GatedLink<'_>>,
    out: &mut String,
) -> Result<(), Fault> {
    let Some(link) = door.back() else {
        return Ok(out.push_str("  not given back\n")?);
    };
    if link.is_late() {
        out.push_str("  too late\n")?;
    }
    push_sent(alloc, link.sent(), out)
}

/// From `MESSAGES|MESSAGES`, how a server ends and what it tells two clients, the first of which ends its first sending only
/// after the second one was answered, and then what it wrote. Its configuration is empty.
pub fn tell_serve<R: Threads + Wait + Sync>(
    rt: &R,
    fields: &mut Words<'_>,
    out: &mut String,
) -> Result<(), Fault> {
    let config = Vec::new(fields.alloc);
    tell_served(rt, config, fields, out)
}

/// From `CONFIG|MESSAGES|MESSAGES`, the same with a configuration.
pub fn tell_serve_by<R: Threads + Wait + Sync>(
    rt: &R,
    fields: &mut Words<'_>,
    out: &mut String,
) -> Result<(), Fault> {
    let config = bytes_of(fields.alloc, fields.until("|"))?;
    tell_served(rt, config, fields, out)
}

/// Tells the same of two links' messages by a configuration.
fn tell_served<R: Threads + Wait + Sync>(
    rt: &R,
    config: Vec<u8>,
    fields: &mut Words<'_>,
    out: &mut String,
) -> Result<(), Fault> {
    let alloc = fields.alloc;
    let first = quiet_link(alloc, frames_of(alloc, fields.until("|"))?, 0)?;
    match last_link(fields) {
        Ok(second) => serve_both(alloc, rt, config, first, second, out),
        Err(fault) => {
            drop(first);
            Err(fault)
        }
    }
}

/// Serves two links, the first of which ends its first sending only after the second one's client was answered.
fn serve_both<R: Threads + Wait + Sync>(
    alloc: Global,
    rt: &R,
    config: Vec<u8>,
    first: MemLink,
    second: MemLink,
    out: &mut String,
) -> Result<(), Fault> {
    let (begun, beside) = (AtomicU64::new(0), AtomicU64::new(0));
    let first = GatedLink::new(first, Gate { at: 2, until: 3 }, &begun, &beside);
    let second = GatedLink::new(second, Gate { at: 0, until: 0 }, &beside, &begun);
    let mut doors = two_doors(alloc, first, second, 22)?;
    let told = serve_doors(alloc, rt, config, &mut doors, out);
    drop(doors);
    told
}

/// Serves the doors, and writes how that ended, what was sent on the first two, and what was written.
fn serve_doors<R: Threads + Wait + Sync>(
    alloc: Global,
    rt: &R,
    config: Vec<u8>,
    doors: &mut Vec<GivenLink<GatedLink<'_>>>,
    out: &mut String,
) -> Result<(), Fault>
    requires { length doors.old.items ≡ 24 }
{
    let mut frames = MemSink::new(alloc, SPACE, Vec::new(alloc))?;
    let status = serve_in_memory(alloc, rt, config, doors, &mut frames);
    let told = push_ended(status, out);
    let lines = push_lines(frames.taken(), out);
    drop(frames);
    told?;
    push_backs(alloc, doors, out)?;
    lines
}

/// Writes what was sent on the first two links.
fn push_backs(
    alloc: Global,
    doors: &[GivenLink<GatedLink<'_>>],
    out: &mut String,
) -> Result<(), Fault> {
    for door in doors.iter().take(2) {
        push_back(alloc, door, out)?;
    }
    Ok(())
}

/// Serves these doors without words, by this configuration.
fn serve_in_memory<L: Link + Send + Drop, R: Threads + Wait + Sync>(
    alloc: Global,
    rt: &R,
    config: Vec<u8>,
    doors: &mut Vec<GivenLink<L>>,
    frames: &mut MemSink,
) -> Result<ServeStatus, Fault>
    requires { length doors.old.items ≡ 24 }
{
    let mut builds = builds(alloc, 24)?;
    let mut source = MemSource::new(config, Vec::new(alloc));
    let mut clock = StepClock::new(0, 1);
    let words: [String; 0] = [];
    Ok(serve(
        alloc,
        rt,
        &words,
        &mut source,
        doors,
        &mut builds,
        frames,
        &mut clock,
    ))
}

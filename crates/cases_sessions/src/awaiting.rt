//! All actors beside one another, with a client that never answers.
ghost use Rattle.std.specs.Prelude.{◌≡◌, length};

use crate::counted::CountedSink;
use crate::doors::{builds, last_link, push_ended, two_doors};
use crate::gated::{Gate, GatedLink};
use crate::given::{EitherLink, GivenLink};
use crate::telling::push_sent;
use case_data::{Fault, Words};
use std::alloc::Global;
use std::sync::Wait;
use std::sync::atomic::AtomicU64;
use std::thread::Threads;
use wm_core::Desk;
use wm_crew::ServeStatus;
use wm_habits::{Actor, ActorLink, Habit};
use wm_layouts::Plan;
use wm_ports::{Link, MemLink, MemSink, StepClock};
use wm_serve::run_desk;

/// How many bytes of frames there is room for.
const SPACE: usize = 1 << 16;

/// From `MESSAGES`, how a server ends with a client that opens a window and never answers, where these messages come on
/// another link once its second frame is written, and what it told there.
pub fn tell_awaited<R: Threads + Wait + Sync>(
    rt: &R,
    fields: &mut Words<'_>,
    out: &mut String,
) -> Result<(), Fault> {
    let alloc = fields.alloc;
    let link = last_link(fields)?;
    match ActorLink::new(Actor::new(alloc, Habit::Never), "map 0000ff 640x480") {
        Ok(client) => await_frame(alloc, rt, link, client, out),
        Err(_) => {
            drop(link);
            Err(Fault::NoMemory)
        }
    }
}

/// Serves a link that waits for the second frame, and a client beside it.
fn await_frame<R: Threads + Wait + Sync>(
    alloc: Global,
    rt: &R,
    link: MemLink,
    client: ActorLink,
    out: &mut String,
) -> Result<(), Fault> {
    let (begun, written) = (AtomicU64::new(0), AtomicU64::new(0));
    let link = GatedLink::new(link, Gate { at: 1, until: 2 }, &begun, &written);
    let mut doors = two_doors(alloc, EitherLink::One(link), EitherLink::Other(client), 0)?;
    let told = run_doors(alloc, rt, &mut doors, &written, out);
    drop(doors);
    told
}

/// Runs the actors of two doors, counts their frames, and writes how that ended and what was sent on the first one.
fn run_doors<R: Threads + Wait + Sync>(
    alloc: Global,
    rt: &R,
    doors: &mut Vec<GivenLink<EitherLink<GatedLink<'_>, ActorLink>>>,
    written: &AtomicU64,
    out: &mut String,
) -> Result<(), Fault>
    requires { length doors.old.items ≡ 2 }
{
    let mut frames = CountedSink::new(MemSink::new(alloc, SPACE, Vec::new(alloc))?, written);
    let status = run_two(alloc, rt, doors, &mut frames);
    drop(frames);
    push_ended(status, out)?;
    match doors.first() {
        Some(door) => push_one(alloc, door, out),
        None => Ok(()),
    }
}

/// Runs the actors of two doors, one of each kind, with deadlines after two numbers of the clock.
fn run_two<L: Link + Send + Drop, R: Threads + Wait + Sync>(
    alloc: Global,
    rt: &R,
    doors: &mut Vec<GivenLink<L>>,
    frames: &mut CountedSink<'_>,
) -> Result<ServeStatus, Fault>
    requires { length doors.old.items ≡ 2 }
{
    let mut builds = builds(alloc, 2)?;
    let mut clock = StepClock::new(0, 100);
    let desk = Desk::start(alloc, Plan::standard(alloc)?)?;
    match run_desk(
        alloc,
        rt,
        desk,
        doors,
        1,
        &mut builds,
        frames,
        &mut clock,
        200,
    ) {
        Ok((desk, status)) => {
            drop(desk);
            Ok(status)
        }
        Err(desk) => {
            drop(desk);
            Err(Fault::NoMemory)
        }
    }
}

/// Writes what was sent on the first of two kinds of links.
fn push_one<K: Link>(
    alloc: Global,
    door: &GivenLink<EitherLink<GatedLink<'_>, K>>,
    out: &mut String,
) -> Result<(), Fault> {
    match door.back() {
        Some(EitherLink::One(link)) => {
            if link.is_late() {
                out.push_str("  too late\n")?;
            }
            push_sent(alloc, link.sent(), out)
        }
        _ => Ok(out.push_str("  not given back\n")?),
    }
}

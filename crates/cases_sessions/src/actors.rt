//! Painters and timers, beside a caller in another thread.
ghost use Rattle.wm_book.specs.Carried.{IsBack, IsReady};

use crate::counted::CountedSink;
use crate::gates::comes;
use crate::habits::habit_of;
use crate::links::numbers;
use crate::others::take_all;
use crate::seats::shared_by_two;
use crate::speech::{End, Speech, served};
use crate::telling::{push_end, push_lines};
use case_data::{Fault, Words, number_of};
use crossbeam_utils::Backoff;
use std::alloc::{AllocError, Global};
use std::sync::Wait;
use std::sync::atomic::AtomicU64;
use std::thread;
use std::thread::Threads;
use wm_actors::{ActorEnd, painter_loop, timer_loop};
use wm_book::{Book, Kept};
use wm_core::{Door, Query, View};
use wm_habits::{Actor, ActorLink};
use wm_ports::{Link, MemSink, Sink, StepClock};
use wm_turn::Seat;

/// How many bytes of frames there is room for.
const SPACE: usize = 1 << 16;

/// How often a caller looks whether anything waits, before it goes on.
const MOST_LOOKS: u32 = 10_000_000;

/// Writes how an actor ended.
pub fn push_actor_end(end: ActorEnd, out: &mut String) -> Result<(), AllocError> {
    match end {
        ActorEnd::Stopped => out.push_str("  Stopped\n"),
        ActorEnd::ListenFault => out.push_str("  ListenFault\n"),
        ActorEnd::WriteFault => out.push_str("  WriteFault\n"),
        ActorEnd::Exhausted => out.push_str("  Exhausted\n"),
        ActorEnd::NoMemory => out.push_str("  NoMemory\n"),
    }
}

/// Takes the steps of stages with `|` between them, each once the count has come to one more than the stages before.
fn take_stages<V: Kept + Drop, R: Wait>(
    alloc: Global,
    rt: &R,
    book: &Book<V>,
    mut seat: Seat<V>,
    stages: &str,
    count: &AtomicU64,
) -> Result<(), Fault>
    requires { IsReady book.now seat }
{
    let mut writings = 0_u64;
    for steps in stages.split("|") {
        writings = writings.saturating_add(1);
        comes(count, writings);
        take_all(alloc, rt, book, &mut seat, steps)?;
    }
    Ok(())
}

/// Paints in one thread, while a caller in another one takes the steps of stages: how the painter ended, and its sink.
fn painted<V: Kept + Send + Drop, S: Sink + Send + Drop, R: Threads + Wait + Sync>(
    alloc: Global,
    rt: &R,
    book: &Book<V>,
    painter: (Seat<V>, S),
    caller: (Seat<V>, &str),
    count: &AtomicU64,
) -> ((ActorEnd, S), Result<(), Fault>)
    requires one { IsReady book.now painter.0 }
    requires two { IsReady book.now caller.0 }
{
    let (seat, sink) = painter;
    let (other, stages) = caller;
    thread::join(
        rt,
        move ||
            requires { IsReady book.now seat }
        { paint_to(alloc, rt, book, seat, sink) },
        move ||
            requires { IsReady book.now other }
        { take_stages(alloc, rt, book, other, stages, count) },
    )
}

fn paint_to<V: Kept + Drop, S: Sink, R: Wait>(
    alloc: Global,
    rt: &R,
    book: &Book<V>,
    mut seat: Seat<V>,
    mut sink: S,
) -> (ActorEnd, S)
    requires { IsReady book.now seat }
{
    let end = painter_loop(alloc, rt, book, &mut seat, &mut sink);
    (end, sink)
}

/// From `FAILS|BEFORE|STAGE|STAGE`, what a painter writes to a sink that fails at these calls, after the steps before, while
/// another caller takes the steps of each stage once the sink's next writing has begun.
pub fn tell_painter<R: Threads + Wait + Sync>(
    rt: &R,
    fields: &mut Words<'_>,
    out: &mut String,
) -> Result<(), Fault> {
    let alloc = fields.alloc;
    let fails = numbers(fields)?;
    let before = fields.until("|");
    let count = AtomicU64::new(0);
    let sink = CountedSink::new(MemSink::new(alloc, SPACE, fails)?, &count);
    let (book, seat, mut other) = shared_by_two(alloc)?;
    take_all(alloc, rt, &book, &mut other, before)?;
    let (painter, taken) = painted(
        alloc,
        rt,
        &book,
        (seat, sink),
        (other, fields.rest()),
        &count,
    );
    taken?;
    push_actor_end(painter.0, out)?;
    push_lines(painter.1.taken(), out)
}

/// Waits until so many transactions have ended and none waits, and then stops the desk: how many have ended by then.
fn stop_when_done<V: Kept + Drop, R: Wait>(
    alloc: Global,
    rt: &R,
    book: &Book<V>,
    mut seat: Seat<V>,
    least: u64,
) -> Result<u64, Fault>
    requires { IsReady book.now seat }
{
    let backoff = Backoff::new();
    let mut done = 0;
    for _look in 0..MOST_LOOKS {
        let (ended, waits) = looked(rt, book, &mut seat)?;
        done = ended;
        if !waits && done >= least {
            break;
        }
        backoff.snooze();
    }
    take_all(alloc, rt, book, &mut seat, "1 run exit")?;
    Ok(done)
}

/// How many transactions have ended, and whether one waits.
fn looked<V: Kept, R: Wait>(
    rt: &R,
    book: &Book<V>,
    seat: &mut Seat<V>,
) -> Result<(u64, bool), Fault>
    requires { IsReady book.now seat.old }
    ensures { IsBack book.now seat.old seat.new }
{
    let view = book.look(rt, seat, &Query::State)?;
    let told = state_in(&view);
    drop(view);
    told
}

/// The same by what is seen of the desk.
fn state_in(view: &View) -> Result<(u64, bool), Fault> {
    match view {
        View::State(state) => Ok((state.done, state.waiting.is_some())),
        _ => Err(Fault::BadLine),
    }
}

/// Gives deadlines in one thread, while a caller in another one stops the desk when so many transactions have ended and none
/// waits: how the timer ended, and how many have ended then.
fn timed<V: Kept + Send + Drop, R: Threads + Wait + Sync>(
    alloc: Global,
    rt: &R,
    book: &Book<V>,
    timer: (Seat<V>, StepClock, u64),
    caller: (Seat<V>, u64),
) -> (ActorEnd, Result<u64, Fault>)
    requires one { IsReady book.now timer.0 }
    requires two { IsReady book.now caller.0 }
{
    let (seat, clock, hold) = timer;
    let (other, least) = caller;
    thread::join(
        rt,
        move ||
            requires { IsReady book.now seat }
        { time_by(alloc, rt, book, seat, clock, hold) },
        move ||
            requires { IsReady book.now other }
        { stop_when_done(alloc, rt, book, other, least) },
    )
}

fn time_by<V: Kept + Drop, R: Wait>(
    alloc: Global,
    rt: &R,
    book: &Book<V>,
    mut seat: Seat<V>,
    mut clock: StepClock,
    hold: u64,
) -> ActorEnd
    requires { IsReady book.now seat }
{
    timer_loop(alloc, rt, book, &mut seat, &mut clock, hold)
}

/// From `HOLD|ADD|LEAST|STEPS`, how a timer with this hold ends, by a clock that goes on by so much at each reading, after
/// steps of another caller that stops the desk when so many transactions have ended and none waits, and how many have ended
/// then.
pub fn tell_timing<R: Threads + Wait + Sync>(
    rt: &R,
    fields: &mut Words<'_>,
    out: &mut String,
) -> Result<(), Fault> {
    let alloc = fields.alloc;
    let hold = u64::from(number_of(fields.until("|"))?);
    let clock = StepClock::new(0, u64::from(number_of(fields.until("|"))?));
    let least = u64::from(number_of(fields.until("|"))?);
    let (book, seat, mut other) = shared_by_two(alloc)?;
    take_all(alloc, rt, &book, &mut other, fields.rest())?;
    let (end, done) = timed(alloc, rt, &book, (seat, clock, hold), (other, least));
    push_actor_end(end, out)?;
    push_done(done?, out)
}

/// Writes how many transactions have ended.
fn push_done(done: u64, out: &mut String) -> Result<(), Fault> {
    Ok(write!(out, "  {done} done\n")?)
}

/// Serves a client in one thread, while a caller in another one stops the desk when so many transactions have ended and none
/// waits: how the session ended, and how many have ended then.
fn acted<V: Kept + Send + Drop, L: Link + Send + Drop, R: Threads + Wait + Sync>(
    alloc: Global,
    rt: &R,
    book: &Book<V>,
    client: (Seat<V>, L),
    caller: (Seat<V>, u64),
) -> ((End, L), Result<u64, Fault>)
    requires one { IsReady book.now client.0 }
    requires two { IsReady book.now caller.0 }
{
    let (seat, link) = client;
    let (other, least) = caller;
    thread::join(
        rt,
        move ||
            requires { IsReady book.now seat }
        { served(alloc, rt, book, seat, link, Speech::Lines) },
        move ||
            requires { IsReady book.now other }
        { stop_when_done(alloc, rt, book, other, least) },
    )
}

/// From `HABIT|LEAST|LINE`, how the session of a modelled client ends that begins with this line, while another caller stops
/// the desk when so many transactions have ended and none waits, and how many have ended then.
pub fn tell_acted<R: Threads + Wait + Sync>(
    rt: &R,
    fields: &mut Words<'_>,
    out: &mut String,
) -> Result<(), Fault> {
    let alloc = fields.alloc;
    let habit = habit_of(&mut Words::of(alloc, fields.until("|")))?;
    let least = u64::from(number_of(fields.until("|"))?);
    let link = ActorLink::new(Actor::new(alloc, habit), fields.rest())?;
    let (book, seat, other) = shared_by_two(alloc)?;
    let (client, done) = acted(alloc, rt, &book, (seat, link), (other, least));
    push_end(client.0, out)?;
    push_done(done?, out)
}

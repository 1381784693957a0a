//! Answers of clients and looks on a desk with 20, 200 or 4,000 open windows, and what each took.
ghost use Rattle.std.specs.Prelude.{◌<◌, ◌^◌, IfOk};
ghost use Rattle.wm_history.specs.Sizes.{IsFitStep};

use crate::fault::Fault;
use crate::states::ask_all;
use crate::texts::props;
use std::alloc::Global;
use std::time::{CpuClock, Duration};
use wm_base::{Buffer, ConId, Ink, NoMemory, Size};
use wm_core::{Answer, ClientStep, Desk, Step};
use wm_criteria::prepare_bare;
use wm_layouts::Plan;

/// How many answers are given without a step between them.
pub(crate) const ANSWERS: u32 = 10_000_000;

/// How many answers follow steps.
const FOLLOWING: u32 = 400_000;

/// How many answers a round counts for at least, where it has fewer.
const FEWEST: usize = 100;

/// How many windows a workspace has at most.
const CROWD: u32 = 200;

/// The caller whose windows they are.
const CALLER: u32 = 7;

/// What each window shows.
const AMBER: Buffer = Buffer {
    ink: Ink(0xe0b030),
    size: Size { w: 64, h: 48 },
};

/// What clients do again and again.
#[derive(Clone, Copy)]
pub(crate) enum Call {
    /// Each window on the screen acknowledges its new size and gives a buffer, after each step.
    Follow,
    /// The time of the transaction is over, after each step.
    Expire,
    /// One window after another, far from one another, does this alone.
    Acknowledge,
    Give,
    TimeOut,
    /// How far the desk is, is asked after each deadline that is nobody's, where nothing waits.
    State,
    /// The same, where each window on the screen is awaited.
    Waiting,
}

/// Opens so many windows, and writes how many nanoseconds an answer took.
pub fn bench(rt: &HostRuntime, count: &str, call: &str) -> Result<(), Fault> {
    let windows = match count {
        "20" => 20,
        "200" => 200,
        "4000" => 4000,
        _ => return Err(Fault::BadWords),
    };
    let took = time_on_desk(rt, windows, named(call)?)?;
    println!(rt; "{took}")?;
    Ok(())
}

fn named(word: &str) -> Result<Call, Fault> {
    match word {
        "follow" => Ok(Call::Follow),
        "expire" => Ok(Call::Expire),
        "acknowledge" => Ok(Call::Acknowledge),
        "give" => Ok(Call::Give),
        "time-out" => Ok(Call::TimeOut),
        "state" => Ok(Call::State),
        "waiting" => Ok(Call::Waiting),
        _ => Err(Fault::BadWords),
    }
}

fn time_on_desk(rt: &HostRuntime, windows: u32, call: Call) -> Result<u128, Fault> {
    let mut desk = started(rt.alloc())?;
    let took = time_answers(rt, &mut desk, windows, call);
    drop(desk);
    took
}

pub(crate) fn started(alloc: Global) -> Result<Desk, NoMemory> {
    Desk::start(alloc, Plan::standard(alloc)?)
}

fn time_answers(
    rt: &HostRuntime,
    desk: &mut Desk,
    windows: u32,
    call: Call,
) -> Result<u128, Fault> {
    let cons = open_windows(rt.alloc(), desk, windows)?;
    match call {
        Call::Follow => end_steps(rt, desk, shown(&cons)),
        Call::Expire => end_steps(rt, desk, &[]),
        Call::State => ask_all(rt, desk, false),
        Call::Waiting => ask_all(rt, desk, true),
        _ => Ok(answer_all(rt, desk, &cons, call)?.as_nanos() / u128::from(ANSWERS)),
    }
}

/// Lets the caller open so many windows, and gives their ids.
fn open_windows(alloc: Global, desk: &mut Desk, windows: u32) -> Result<Vec<ConId>, Fault> {
    let mut cons = Vec::new(alloc);
    for number in 0..windows {
        if number % CROWD == 0 {
            show_workspace(alloc, desk, number / CROWD)?;
        }
        cons.push(open_window(alloc, desk)?)?;
    }
    Ok(cons)
}

fn show_workspace(alloc: Global, desk: &mut Desk, number: u32) -> Result<(), Fault> {
    let mut text = String::new(alloc);
    write!(text, "workspace {number}")?;
    run(alloc, desk, &text)
}

/// Takes the step that runs a text.
pub(crate) fn run(alloc: Global, desk: &mut Desk, text: &str) -> Result<(), Fault> {
    let step = running(alloc, text)?;
    let answer = take(desk, &step);
    drop(step);
    drop(answer?);
    Ok(())
}

/// The step that runs a text.
fn running(alloc: Global, text: &str) -> Result<Step, Fault>
    ensures { IfOk result (λ step. IsFitStep step) }
{
    let prepared = prepare_bare(alloc, text)?;
    if !prepared.built() {
        drop(prepared);
        return Err(Fault::Refused);
    }
    Ok(Step::Run(prepared))
}

/// Takes a step of the caller.
fn take(desk: &mut Desk, step: &Step) -> Result<Answer, Fault>
    requires { IsFitStep step.now }
{
    if desk.steps() >= 1 << 48 {
        return Err(Fault::Refused);
    }
    Ok(desk.step(CALLER, step)?)
}

fn open_window(alloc: Global, desk: &mut Desk) -> Result<ConId, Fault> {
    let step = window(alloc)?;
    let answer = take(desk, &step);
    drop(step);
    let answer = answer?;
    let con = mapped(&answer);
    drop(answer);
    con.ok_or(Fault::Refused)
}

/// The id of the window that a step opened.
fn mapped(answer: &Answer) -> Option<ConId> {
    match answer {
        Answer::Mapped(con) => Some(*con),
        _ => None,
    }
}

/// A window without properties.
fn window(alloc: Global) -> Result<Step, Fault>
    ensures { IfOk result (λ step. IsFitStep step) }
{
    Ok(Step::Map {
        props: props(alloc)?,
        buffer: AMBER,
        then: None,
    })
}

/// The time from one reading of the clock to a later one.
pub(crate) fn between(before: Duration, after: Duration) -> Result<Duration, Fault> {
    after.checked_sub(before).ok_or(Fault::Refused)
}

/// Answers for the windows, one after another, far from one another, and tells how long that took.
fn answer_all(
    rt: &HostRuntime,
    desk: &mut Desk,
    cons: &[ConId],
    call: Call,
) -> Result<Duration, Fault> {
    let before = rt.thread_cpu_time()?;
    let mut at = 0;
    for _ in 0..ANSWERS {
        let Some(con) = cons.get(at) else {
            return Err(Fault::Refused);
        };
        answer(desk, *con, call, 1)?;
        at = (at + 37) % cons.len();
    }
    between(before, rt.thread_cpu_time()?)
}

pub(crate) fn answer(desk: &mut Desk, con: ConId, call: Call, serial: u64) -> Result<(), Fault> {
    if desk.steps() >= 1 << 48 {
        return Err(Fault::Refused);
    }
    let step = match call {
        Call::Acknowledge => ClientStep::Ack { con, serial },
        Call::Give | Call::Follow => ClientStep::Buffer { con, buffer: AMBER },
        Call::TimeOut | Call::Expire | Call::State | Call::Waiting => ClientStep::Deadline {
            number: serial,
        },
    };
    desk.answer_client(CALLER, &step);
    Ok(())
}

/// The windows on the screen: those that were opened last.
fn shown(cons: &[ConId]) -> &[ConId] {
    &cons[cons.len() - cons.len().min(CROWD as usize)..]
}

/// Turns the workspace on the screen again and again, ends each time what waits, and tells how many nanoseconds one of the
/// answers took, the reading of the clock taken off.
fn end_steps(rt: &HostRuntime, desk: &mut Desk, shown: &[ConId]) -> Result<u128, Fault> {
    let answers = (2 * shown.len()).max(1);
    let rounds = FOLLOWING as usize / answers.max(FEWEST);
    let mut took = Duration::ZERO;
    for _ in 0..rounds {
        let more = end_step(rt, desk, shown)?;
        took = took.checked_add(more).ok_or(Fault::Refused)?;
    }
    Ok(took.as_nanos() / (rounds * answers).max(1) as u128)
}

/// Turns the workspace on the screen, and tells how long the answers took that end what waits then.
fn end_step(rt: &HostRuntime, desk: &mut Desk, shown: &[ConId]) -> Result<Duration, Fault> {
    time_out_all(desk)?;
    run(rt.alloc(), desk, "layout toggle split")?;
    let waiting = desk.state().waiting.ok_or(Fault::Refused)?;
    timed(rt, desk, shown, waiting.number)
}

/// How long the answers take that end the transaction of this number, a reading of the clock taken off.
fn timed(
    rt: &HostRuntime,
    desk: &mut Desk,
    shown: &[ConId],
    number: u64,
) -> Result<Duration, Fault> {
    let start = rt.thread_cpu_time()?;
    let before = rt.thread_cpu_time()?;
    end(desk, shown, number)?;
    let after = rt.thread_cpu_time()?;
    let reading = between(start, before)?;
    Ok(
        between(before, after)?
            .checked_sub(reading)
            .unwrap_or(Duration::ZERO),
    )
}

/// Each of these windows acknowledges the transaction of this number and gives a buffer. Where there are none, its time is over.
fn end(desk: &mut Desk, shown: &[ConId], number: u64) -> Result<(), Fault> {
    if shown.is_empty() {
        answer(desk, ConId(0), Call::Expire, number)?;
    }
    for con in shown {
        answer(desk, *con, Call::Acknowledge, number)?;
        answer(desk, *con, Call::Give, number)?;
    }
    Ok(())
}

/// Ends the transactions that wait since windows were opened.
pub(crate) fn time_out_all(desk: &mut Desk) -> Result<(), Fault> {
    for _ in 0..4 {
        let Some(waiting) = desk.state().waiting else {
            return Ok(());
        };
        answer(desk, ConId(0), Call::TimeOut, waiting.number)?;
    }
    Ok(())
}

//! What another caller does: steps as words, each of them so many times.
ghost use Rattle.std.specs.Prelude.{IfOk};
ghost use Rattle.wm_book.specs.Carried.{IsBack, IsReady};
ghost use Rattle.wm_history.specs.Sizes.{IsFitStep};

use case_data::{Fault, Words, string_of};
use std::alloc::{AllocError, Global};
use std::sync::Wait;
use wm_base::{Buffer, Ink, Props, Size, Str, Text};
use wm_book::{Book, Kept};
use wm_core::{ClientStep, Door, Step};
use wm_criteria::prepare_bare;
use wm_turn::Seat;

/// What a window shows when it is opened.
const RED: Buffer = Buffer {
    ink: Ink(0xff0000),
    size: Size { w: 640, h: 480 },
};

/// Takes the steps of `COUNT STEP ; COUNT STEP`, in order; nothing where the text is empty.
pub fn take_all<V: Kept, R: Wait>(
    alloc: Global,
    rt: &R,
    book: &Book<V>,
    seat: &mut Seat<V>,
    text: &str,
) -> Result<(), Fault>
    requires { IsReady book.now seat.old }
    ensures { IsBack book.now seat.old seat.new }
{
    for part in text.split(" ; ") {
        take_part(alloc, rt, book, seat, &mut Words::of(alloc, part))?;
    }
    Ok(())
}

/// Takes the step of `COUNT STEP` so many times.
fn take_part<V: Kept, R: Wait>(
    alloc: Global,
    rt: &R,
    book: &Book<V>,
    seat: &mut Seat<V>,
    words: &mut Words<'_>,
) -> Result<(), Fault>
    requires { IsReady book.now seat.old }
    ensures { IsBack book.now seat.old seat.new }
{
    if words.is_done() {
        return Ok(());
    }
    let count = words.number()?;
    let step = step_of(alloc, words)?;
    let taken = take_often(rt, book, seat, &step, count);
    drop(step);
    taken
}

/// Takes a step so many times.
fn take_often<V: Kept, R: Wait>(
    rt: &R,
    book: &Book<V>,
    seat: &mut Seat<V>,
    step: &Step,
    count: u32,
) -> Result<(), Fault>
    requires ready { IsReady book.now seat.old }
    requires fit { IsFitStep step.now }
    ensures { IsBack book.now seat.old seat.new }
{
    for _again in 0..count {
        if book.act(rt, seat, step).is_err() {
            return Err(Fault::NoMemory);
        }
    }
    Ok(())
}

/// The step of `run TEXT`, `tick TEXT`, `map`, `close ID` or `deadline NUMBER`.
fn step_of(alloc: Global, words: &mut Words<'_>) -> Result<Step, Fault>
    ensures { IfOk result (λ step. IsFitStep step) }
{
    match words.word() {
        "run" => running(alloc, words.rest()),
        "tick" => ticking(alloc, words.rest()),
        "map" => mapping(alloc),
        "close" => Ok(Step::Close { con: words.con()? }),
        "deadline" => Ok(Step::Client(ClientStep::Deadline {
            number: words.serial()?,
        })),
        _ => Err(Fault::BadLine),
    }
}

fn running(alloc: Global, text: &str) -> Result<Step, Fault>
    ensures { IfOk result (λ step. IsFitStep step) }
{
    let prepared = prepare_bare(alloc, text)?;
    if !prepared.built() {
        drop(prepared);
        return Err(Fault::BadLine);
    }
    Ok(Step::Run(prepared))
}

fn ticking(alloc: Global, text: &str) -> Result<Step, Fault>
    ensures { IfOk result (λ step. IsFitStep step) }
{
    let text = string_of(alloc, text)?;
    if text.len() > 4096 {
        return Err(Fault::BadLine);
    }
    let payload = Str::of(text);
    Ok(Step::Tick { payload })
}

/// The step that opens a window, each of whose properties is the same text.
fn mapping(alloc: Global) -> Result<Step, Fault>
    ensures { IfOk result (λ step. IsFitStep step) }
{
    let text = Text::new(alloc, "w")?;
    let (class, instance, role) = three(&text)?;
    let (kind, machine, title) = three(&text)?;
    let props = Props {
        class,
        instance,
        role,
        kind,
        machine,
        title,
    };
    Ok(Step::Map {
        props,
        buffer: RED,
        then: None,
    })
}

fn three(text: &Text) -> Result<(Text, Text, Text), AllocError> {
    Ok((text.clone()?, text.clone()?, text.clone()?))
}

//! The step that a drawn number gives on a desk.
ghost use Rattle.std.specs.Prelude.{◌≡◌, ◌≤◌, length, IfOk};
ghost use Rattle.wm_history.specs.Act.{act_of};
ghost use Rattle.wm_core.specs.DeskValue.{StandsFrom};
ghost use Rattle.wm_history.specs.History.{History, Start};
ghost use Rattle.wm_history.specs.Look.{state};
ghost use Rattle.wm_history.specs.Sizes.{IsFitStep};
ghost use Rattle.wm_generate.specs.Steps.{answer_of, asked, mapped, number_or_one, step_of, titled};

use crate::texts::prepared;
use std::alloc::Global;
use wm_base::{Buffer, ConId, Ink, NoMemory, Props, Size, Str, Text, TextRefusal};
use wm_core::{ClientStep, Desk, Step};
use wm_txn::Waiting;

/// The ink of the buffers that answer.
const ANSWERING: Ink = Ink(0x12_34_56);

/// The step that a drawn number gives on the desk, for caller 0.
pub fn step_of(alloc: Global, desk: &Desk, number: u32) -> Result<Step, NoMemory>
    ensures step { (start : Start) (history : History) → StandsFrom start desk.now history →
        IfOk result (λ step. act_of step ≡ step_of start history number) }
    ensures fit { IfOk result (λ step. IsFitStep step) }
{
    if number % 8 < 3 {
        return answer(alloc, desk);
    }
    match number % 8 {
        3 => Ok(Step::Run(prepared(alloc, number / 8)?)),
        4 => Ok(Step::Close {
            con: ConId(4 + number / 8 % 64),
        }),
        5 => Ok(Step::Client(ClientStep::Deadline {
            number: number_or_one(desk.state().waiting),
        })),
        _ => map(alloc, number),
    }
}

/// The answer of the least window that the waiting transaction awaits, or a tick where none waits.
fn answer(alloc: Global, desk: &Desk) -> Result<Step, NoMemory>
    ensures step { (start : Start) (history : History) → StandsFrom start desk.now history →
        IfOk result (λ step. act_of step ≡ answer_of (asked start history) (state start history).waiting) }
    ensures fit { IfOk result (λ step. IsFitStep step) }
{
    let Some(waiting) = desk.state().waiting else {
        return Ok(Step::Tick {
            payload: Str::of(String::new(alloc)),
        });
    };
    let con = waiting.least;
    if !waiting.acked {
        return Ok(Step::Client(ClientStep::Ack {
            con,
            serial: waiting.number,
        }));
    }
    let buffer = Buffer {
        ink: ANSWERING,
        size: asked(desk, con),
    };
    Ok(Step::Client(ClientStep::Buffer { con, buffer }))
}

/// The number of the transaction that waits, or 1.
fn number_or_one(waiting: Option<Waiting>) -> u64
    ensures { result ≡ number_or_one waiting }
{
    match waiting {
        Some(waiting) => waiting.number,
        None => 1,
    }
}

/// The size that is asked of a window, in pixels; none where none is asked.
fn asked(desk: &Desk, con: ConId) -> Size
    ensures { (start : Start) (history : History) → StandsFrom start desk.now history → result ≡ asked start history con }
{
    match desk.asked(con) {
        Some((_, size)) => size,
        None => Size { w: 0, h: 0 },
    }
}

/// The step that opens a window, whose ink is that of the number.
fn map(alloc: Global, number: u32) -> Result<Step, NoMemory>
    ensures step { IfOk result (λ step. act_of step ≡ mapped number) }
    ensures fit { IfOk result (λ step. IsFitStep step) }
{
    let buffer = Buffer {
        ink: Ink(number % 16_777_216),
        size: Size { w: 640, h: 480 },
    };
    Ok(Step::Map {
        props: titled(alloc)?,
        buffer,
        then: None,
    })
}

/// The properties of a window that has the title `w` and no others.
fn titled(alloc: Global) -> Result<Props, NoMemory>
    ensures { IfOk result (λ props. props ≡ titled) }
{
    let none = word(alloc, "")?;
    let (class, instance, role) = (none.clone()?, none.clone()?, none.clone()?);
    let kind = word(alloc, "normal")?;
    let title = word(alloc, "w")?;
    Ok(Props {
        class,
        instance,
        role,
        kind,
        machine: none,
        title,
    })
}

/// A short text.
fn word(alloc: Global, text: &str) -> Result<Text, NoMemory>
    requires { length text.now ≤ 1024 }
    ensures { IfOk result (λ word. word ≡ text.now) }
{
    match Text::new(alloc, text) {
        Ok(word) => Ok(word),
        Err(TextRefusal::TooLong { len: _ }) => unreachable!(),
        Err(TextRefusal::NoMemory) => Err(NoMemory),
    }
}

//! Callers that open windows.
ghost use Rattle.std.specs.Prelude.{IfOk};
ghost use Rattle.wm_book.specs.Carried.{IsBack, IsReady};
ghost use Rattle.wm_history.specs.Sizes.{IsFitStep};

use crate::{Book, Kept};
use std::alloc::{AllocError, Global};
use std::sync::Wait;
use wm_base::{Buffer, ConId, Ink, NoMemory, Props, Size, Text};
use wm_core::{ActRefusal, Answer, Door, Step};
use wm_turn::Seat;

/// What a window shows when it is opened.
const RED: Buffer = Buffer {
    ink: Ink(0xff0000),
    size: Size { w: 640, h: 480 },
};

/// The step that opens a window, each of whose properties is the same text.
fn window(alloc: Global) -> Result<Step, NoMemory>
    ensures { IfOk result (λ step. IsFitStep step) }
{
    let Ok(text) = Text::new(alloc, "w") else {
        return Err(NoMemory);
    };
    let (class, instance, role) = three(&text)?;
    let (kind, machine, title) = three(&text)?;
    let props = Props {
        class,
        instance,
        role,
        kind,
        machine,
        title,
    };
    Ok(Step::Map {
        props,
        buffer: RED,
        then: None,
    })
}

fn three(text: &Text) -> Result<(Text, Text, Text), AllocError> {
    Ok((text.clone()?, text.clone()?, text.clone()?))
}

/// Takes the step.
pub(super) fn take<V: Kept, R: Wait>(
    rt: &R,
    book: &Book<V>,
    seat: &mut Seat<V>,
    step: Step,
) -> Result<Answer, ActRefusal>
    requires ready { IsReady book.now seat.old }
    requires fit { IsFitStep step }
    ensures { IsBack book.now seat.old seat.new }
{
    let said = book.act(rt, seat, &step);
    drop(step);
    said
}

/// The window that was opened.
fn mapped(answer: &Result<Answer, ActRefusal>) -> Option<ConId> {
    match answer {
        Ok(Answer::Mapped(con)) => Some(*con),
        _ => None,
    }
}

/// Opens a window.
pub(super) fn open<V: Kept, R: Wait>(
    rt: &R,
    alloc: Global,
    book: &Book<V>,
    seat: &mut Seat<V>,
) -> Option<ConId>
    requires ready { IsReady book.now seat.old }
    ensures { IsBack book.now seat.old seat.new }
{
    let step = window(alloc).ok()?;
    mapped(&take(rt, book, seat, step))
}

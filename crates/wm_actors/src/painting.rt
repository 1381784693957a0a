//! The painter: it writes the text of each frame that differs from the one before.
ghost use Rattle.std.specs.Prelude.{◌≡◌, IfOk, OnErr, false, string_bytes};
ghost use Rattle.wm_core.specs.Passes.{Pass};
ghost use Rattle.wm_actors.specs.Pictured.{GoesOn, Painting, Pictured, ReadsFrame, Screen, Shows, Unread, screen};

use crate::ending::ActorEnd;
use crate::exiting::finish;
use crate::rests::rest_painter;
use std::alloc::Global;
use std::sync::Wait;
use wm_base::NoMemory;
use wm_core::Door;
use wm_paint::frame_text;
use wm_ports::{Sink, write_all};

/// Writes frames, through a door by its pass, until the desk is to stop. In each round it asks whether that is so, and then
/// paints, and writes the frame's text where it differs from the last that it wrote. It may wait, and need not return.
pub fn painter_loop<R: Wait, S: Sink, D: Door>(
    alloc: Global,
    rt: &R,
    door: &D,
    pass: &mut D::Pass,
    frames: &mut S,
) -> ActorEnd
    requires ready { D.is_of door.now pass.old × ((D.carried pass.old).turn ≡ false) }
    ensures door { D.is_of door.now pass.new }
    ensures pictured { Pictured (D.carried pass.old) (D.carried pass.new)
        (screen (S.taken frames.old) (S.faults frames.old)) (screen (S.taken frames.new) (S.faults frames.new)) result }
{
    let mut last = String::new(alloc);
    let mut end = ActorEnd::Stopped;
    for _ in rt.forever() {
        if let Err(found) = turn(alloc, rt, door, pass, frames, &mut last) {
            end = finish(alloc, rt, door, pass, found);
            break;
        }
    }
    end
}

/// One round.
fn turn<R: Wait, S: Sink, D: Door>(
    alloc: Global,
    rt: &R,
    door: &D,
    pass: &mut D::Pass,
    frames: &mut S,
    last: &mut String,
) -> Result<(), ActorEnd>
    requires ready { D.is_of door.now pass.old × ((D.carried pass.old).turn ≡ false) }
    ensures door { D.is_of door.now pass.new }
    ensures turn { (D.carried pass.new).turn ≡ false }
    ensures goes_on { (first : Pass) (from : Screen) →
        Painting first (D.carried pass.old) from (screen (S.taken frames.old) (S.faults frames.old)) (string_bytes last.old) →
        GoesOn first (D.carried pass.new) from (screen (S.taken frames.new) (S.faults frames.new)) (string_bytes last.new) result }
{
    let stopped = door.stopped(rt, pass);
    let text = picture(alloc, rt, door, pass)?;
    show(rt, text, frames, last)?;
    if stopped {
        return Err(ActorEnd::Stopped);
    }
    Ok(())
}

/// The text of the frame.
fn picture<R: Wait, D: Door>(
    alloc: Global,
    rt: &R,
    door: &D,
    pass: &mut D::Pass,
) -> Result<String, NoMemory>
    requires ready { D.is_of door.now pass.old × ((D.carried pass.old).turn ≡ false) }
    ensures door { D.is_of door.now pass.new }
    ensures read { IfOk result (λ text. ReadsFrame (D.carried pass.old) (D.carried pass.new) (string_bytes text)) }
    ensures unread { OnErr result (Unread (D.carried pass.old) (D.carried pass.new)) }
{
    let frame = door.paint(rt, pass)?;
    let text = frame_text(alloc, &frame);
    drop(frame);
    text
}

/// Writes a text where it differs from the last that was written. Where it does not, it rests.
fn show<R: Wait, S: Sink>(
    rt: &R,
    text: String,
    frames: &mut S,
    last: &mut String,
) -> Result<(), ActorEnd>
    ensures { Shows (screen (S.taken frames.old) (S.faults frames.old)) (screen (S.taken frames.new) (S.faults frames.new))
        (string_bytes last.old) (string_bytes last.new) (string_bytes text) result }
{
    if last.as_str() == text.as_str() {
        rest_painter(rt);
        return Ok(());
    }
    write_all(frames, text.as_bytes())?;
    *last = text;
    Ok(())
}

//! The lines that are written for frames, and for what callers see.
ghost use Rattle.std.specs.Prelude.{◌≡◌, ◌++◌, IfOk, OnOk};
ghost use Rattle.wm_core.specs.DeskValue.{Stands};
ghost use Rattle.wm_history.specs.Frame.{frame};
ghost use Rattle.wm_history.specs.History.{History, opening_of};
ghost use Rattle.wm_history.specs.Look.{look};
ghost use Rattle.wm_paint.specs.FrameText.{frame_text};
ghost use Rattle.wm_script.specs.Out.{view_text};

use std::alloc::Global;
use wm_base::{List, NoMemory};
use wm_core::{Desk, Query, View};
use wm_lines::{push_line, push_text, push_wants};
use wm_paint::frame_text;
use wm_talk::view_json;

/// The lines of the frame.
pub(crate) fn paint(alloc: Global, desk: &Desk) -> Result<List<u8>, NoMemory>
    ensures { (history : History) → Stands desk.now history →
        IfOk result (λ text. text ≡ frame_text (frame (opening_of desk.now.plan) history)) }
{
    let frame = desk.frame()?;
    let text = frame_text(alloc, &frame)?;
    Ok(List::of(text.into_bytes()))
}

/// The lines of what the caller sees.
pub(crate) fn look(
    alloc: Global,
    desk: &Desk,
    who: u32,
    query: &Query,
) -> Result<List<u8>, NoMemory>
    ensures { (history : History) → Stands desk.now history →
        IfOk result (λ text. text ≡ view_text (look (opening_of desk.now.plan) history who query.now)) }
{
    let view = desk.look(who, query)?;
    let told = view_lines(alloc, &view);
    drop(view);
    told
}

/// The lines that tell a view.
fn view_lines(alloc: Global, view: &View) -> Result<List<u8>, NoMemory>
    ensures { IfOk result (λ text. text ≡ view_text view.now) }
{
    let mut text = Vec::new(alloc);
    push_view(alloc, &mut text, view)?;
    Ok(List::of(text))
}

/// Adds the lines that tell a view.
fn push_view(alloc: Global, piece: &mut Vec<u8>, view: &View) -> Result<(), NoMemory>
    ensures { OnOk result (piece.new.items ≡ piece.old.items ++ view_text view.now) }
{
    match view {
        View::Wants(wants) => {
            push_wants(alloc, piece, wants.items())?;
            push_text(piece, "end\n")
        }
        _ => {
            let line = view_json(alloc, view)?;
            push_line(piece, &line)
        }
    }
}

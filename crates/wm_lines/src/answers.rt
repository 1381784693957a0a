//! The lines that tell answers.
ghost use Rattle.std.specs.Prelude.{◌≡◌, ◌++◌, OnOk};
ghost use Rattle.wm_history.specs.declared.step.Answer.TheVariants as answers;
ghost use Rattle.wm_lines.specs.Told.{answer_text};

use crate::texts::{push_line, push_text};
use std::alloc::Global;
use wm_base::{ConId, Limit, NoMemory};
use wm_core::Answer;
use wm_json::{Reply, replies_json};

/// Adds the line that tells the answer.
pub fn push_answer(alloc: Global, piece: &mut Vec<u8>, answer: &Answer) -> Result<(), NoMemory>
    ensures { OnOk result (piece.new.items ≡ piece.old.items ++ answer_text answer.now) }
{
    match answer {
        Answer::Done => push_text(piece, "ok\n"),
        Answer::Mapped(id) => push_mapped(alloc, piece, *id),
        Answer::Replies(replies) => push_replies(alloc, piece, replies.items()),
        Answer::Unbound => push_text(piece, "unbound\n"),
        Answer::NoView => push_text(piece, "no-view\n"),
        Answer::Empty => push_text(piece, "empty\n"),
        Answer::BadSerial { asked, last } => push_bad_serial(alloc, piece, *asked, *last),
        Answer::Full(limit) => push_full(alloc, piece, *limit),
        Answer::NameTaken => push_text(piece, "name-taken\n"),
        Answer::NoTarget => push_text(piece, "no-target\n"),
        Answer::BadRect => push_text(piece, "bad-rect\n"),
    }
}

/// Adds the line that tells under which id a window was opened.
fn push_mapped(alloc: Global, piece: &mut Vec<u8>, id: ConId) -> Result<(), NoMemory>
    ensures { OnOk result (piece.new.items ≡ piece.old.items ++ answer_text (answers.Mapped id)) }
{
    let line = format!(in alloc; "ok {}\n", id.0)?;
    push_text(piece, line.as_str())
}

/// Adds the line of the replies.
fn push_replies(alloc: Global, piece: &mut Vec<u8>, replies: &[Reply]) -> Result<(), NoMemory>
    ensures { OnOk result (piece.new.items ≡ piece.old.items ++ answer_text (answers.Replies replies.now)) }
{
    let line = replies_json(alloc, replies)?;
    push_line(piece, &line)
}

/// Adds the line that tells which serial was asked for, and which came last.
fn push_bad_serial(
    alloc: Global,
    piece: &mut Vec<u8>,
    asked: u64,
    last: u64,
) -> Result<(), NoMemory>
    ensures { OnOk result (piece.new.items ≡ piece.old.items ++ answer_text (answers.BadSerial asked last)) }
{
    let line = format!(in alloc; "bad-serial {asked} {last}\n")?;
    push_text(piece, line.as_str())
}

/// Adds the line that tells which limit would be passed.
fn push_full(alloc: Global, piece: &mut Vec<u8>, limit: Limit) -> Result<(), NoMemory>
    ensures { OnOk result (piece.new.items ≡ piece.old.items ++ answer_text (answers.Full limit)) }
{
    let line = format!(in alloc; "full {}\n", limit.word())?;
    push_text(piece, line.as_str())
}

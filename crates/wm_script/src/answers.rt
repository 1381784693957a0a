//! The lines that are written for answers.
ghost use Rattle.std.specs.Prelude.{◌≡◌, IfOk};
ghost use Rattle.wm_lines.specs.Told.{answer_text};

use std::alloc::Global;
use wm_base::{List, NoMemory};
use wm_core::Answer;
use wm_lines::push_answer;

/// The line that tells an answer, with its line feed.
pub fn answer_text(alloc: Global, answer: &Answer) -> Result<List<u8>, NoMemory>
    ensures { IfOk result (λ text. text ≡ answer_text answer.now) }
{
    let mut text = Vec::new(alloc);
    push_answer(alloc, &mut text, answer)?;
    Ok(List::of(text))
}

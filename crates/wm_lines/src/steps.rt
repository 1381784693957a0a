//! The step of a line that takes one and runs no text.
ghost use Rattle.std.specs.Prelude.{◌≡◌, IfOk, IfSome};
ghost use Rattle.wm_lines.specs.Lines.{step_line_of, IsFitLine};

use crate::client_lines::client_line;
use crate::output_lines::output_line;
use crate::window_lines::window_line;
use std::alloc::Global;
use wm_base::NoMemory;
use wm_core::Step;

/// The step of a line, which stands without its line feed: of windows, of clients and the timer, of outputs, or a tick.
/// `None` exactly where the line is outside this grammar.
pub fn step_line(alloc: Global, line: &[u8]) -> Result<Option<Step>, NoMemory>
    ensures value { IfOk result (λ step. step ≡ step_line_of line.now) }
    ensures fit { IfOk result (λ step. IfSome step IsFitLine) }
{
    if let Some(step) = window_line(alloc, line)? {
        return Ok(Some(step));
    }
    match client_line(line) {
        Some(step) => Ok(Some(step)),
        None => output_line(alloc, line),
    }
}

//! The lines that tell how far a desk is.
ghost use Rattle.std.specs.Prelude.{◌≡◌, ◌++◌, OnOk};
ghost use Rattle.wm_lines.specs.Told.{state_text};

use crate::texts::push_text;
use std::alloc::Global;
use wm_base::NoMemory;
use wm_core::State;

/// Adds the lines of how many steps were taken, how many transactions have ended, how many steps had come when the last of
/// them began, and how many windows are open.
pub fn push_state(alloc: Global, piece: &mut Vec<u8>, state: &State) -> Result<(), NoMemory>
    ensures { OnOk result (piece.new.items ≡ piece.old.items ++ state_text state.now) }
{
    let (steps, done) = (state.steps, state.done);
    let (prefix, windows) = (state.prefix, state.windows);
    let lines = format!(in alloc;
        "steps {steps}\ndone {done}\nprefix {prefix}\nwindows {windows}\n"
    )?;
    push_text(piece, lines.as_str())
}

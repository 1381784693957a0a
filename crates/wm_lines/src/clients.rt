//! The step that a client's line takes.
ghost use Rattle.std.specs.Prelude.{◌≡◌, IfOk, IfSome};
ghost use Rattle.std.specs.Option.{option_map};
ghost use Rattle.wm_history.specs.Act.{act_of};
ghost use Rattle.wm_history.specs.Sizes.{IsFitStep};
ghost use Rattle.wm_lines.specs.Lines.{client_act, client_step_of, is_client_step};

use crate::steps::step_line;
use std::alloc::Global;
use wm_base::NoMemory;
use wm_core::{ClientStep, Step};

/// The step of a client's line, without its line feed: it opens, retitles or closes a window, says whether it is urgent,
/// acknowledges a configure or gives a buffer. `None` exactly where the line is outside the grammar.
#[tactic(auto, using(crate::proofs::FitLemmas::fit_step))]
pub fn client_step(alloc: Global, line: &[u8]) -> Result<Option<Step>, NoMemory>
    ensures value { IfOk result (λ step. step ≡ client_step_of line.now) }
    ensures act { IfOk result (λ step. option_map act_of step ≡ client_act line.now) }
    ensures fit { IfOk result (λ step. IfSome step IsFitStep) }
{
    match step_line(alloc, line)? {
        Some(step) if is_client_step(&step) => Ok(Some(step)),
        other => {
            drop(other);
            Ok(None)
        }
    }
}

/// Whether a client may take it. A window that it opens runs no text.
fn is_client_step(step: &Step) -> bool
    ensures { result ≡ is_client_step step.now }
{
    matches!(
        step,
        Step::Map { then: None, .. }
            | Step::Retitle { .. }
            | Step::Urgent { .. }
            | Step::Close { .. }
            | Step::Client(ClientStep::Ack { .. } | ClientStep::Buffer { .. })
    )
}

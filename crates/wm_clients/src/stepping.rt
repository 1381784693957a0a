//! The step of a line is read, and taken through a door.
ghost use Rattle.std.specs.Prelude.{◌≡◌, false};
ghost use Rattle.wm_history.specs.Act.{act_of};
ghost use Rattle.wm_core.specs.Passes.{Acts};
ghost use Rattle.wm_history.specs.Sizes.{IsFitStep};
ghost use Rattle.wm_clients.specs.Telling.{IsReadAs, IsTakenAlways};

use crate::ending::ClientEnd;
use std::alloc::Global;
use std::sync::Wait;
use wm_core::{ActRefusal, Answer, Door, Step};
use wm_lines::client_step;

/// How many bytes a line may have, its line feed not counted: 16 KiB.
pub const LONGEST: usize = 16384;

/// Reads the step of the line of this number.
pub fn read_step(alloc: Global, line: &[u8], number: u64) -> Result<Step, ClientEnd>
    ensures { IsReadAs line.now number result }
{
    if line.len() > LONGEST {
        return Err(ClientEnd::BadLine { line: number });
    }
    match client_step(alloc, line)? {
        Some(step) => Ok(step),
        None => Err(ClientEnd::BadLine { line: number }),
    }
}

/// Takes a step through the door. What a client acknowledges or draws takes no memory.
pub fn take_step<R: Wait, D: Door>(
    rt: &R,
    door: &D,
    pass: &mut D::Pass,
    step: &Step,
) -> Result<Answer, ActRefusal>
    requires ready { D.is_of door.now pass.old × ((D.carried pass.old).turn ≡ false) }
    requires fit { IsFitStep step.now }
    ensures door { D.is_of door.now pass.new }
    ensures acts { Acts (D.carried pass.old) (D.carried pass.new) (act_of step.now) result }
    ensures always { IsTakenAlways step.now result }
{
    match step {
        Step::Client(step) => match door.act_client(rt, pass, step) {
            Ok(answer) => Ok(answer),
            Err(exhausted) => Err(ActRefusal::Exhausted(exhausted)),
        },
        _ => door.act(rt, pass, step),
    }
}

//! Steps are taken on a desk, by the numbers of the sequence.
ghost use Rattle.std.specs.Prelude.{◌≡◌, ◌+◌, ◌∷◌, ◌<◌, ◌≤◌, ◌^◌, IfOk, OnOk};
ghost use Rattle.wm_core.specs.DeskValue.{StandsFrom};
ghost use Rattle.wm_history.specs.History.{History, Start};
ghost use Rattle.wm_history.specs.Look.{state};
ghost use Rattle.wm_generate.specs.Numbers.{drawn, numbers};
ghost use Rattle.wm_generate.specs.Steps.{entry_of, history_of};

use crate::numbers::{drawn, next};
use crate::steps::step_of;
use std::alloc::Global;
use wm_base::NoMemory;
use wm_core::{Desk, State};

/// Takes so many steps on the desk for caller 0, each the one that the next number of the sequence after `seed` gives there,
/// and says how far the desk is then.
pub fn generate(alloc: Global, desk: &mut Desk, seed: u32, count: u32) -> Result<State, NoMemory>
    requires few { desk.old.steps + count ≤ 2 ^ 48 }
    ensures stands { (start : Start) (history : History) → StandsFrom start desk.old history →
        OnOk result (StandsFrom start desk.new (history_of start (numbers count seed) history)) }
    ensures state { (start : Start) (history : History) → StandsFrom start desk.old history →
        IfOk result (λ s. s ≡ state start (history_of start (numbers count seed) history)) }
    ensures plan { desk.new.plan ≡ desk.old.plan }
{
    let mut number = u64::from(seed);
    let mut left = count;
    while left > 0 {
        number = next(number);
        take(alloc, desk, number)?;
        left -= 1;
    }
    Ok(desk.state())
}

/// Takes the step that a number of the sequence gives on the desk.
fn take(alloc: Global, desk: &mut Desk, number: u64) -> Result<(), NoMemory>
    requires few { desk.old.steps < 2 ^ 48 }
    ensures stands { (start : Start) (history : History) → StandsFrom start desk.old history →
        OnOk result (StandsFrom start desk.new (entry_of start history (drawn number) ∷ history)) }
    ensures count { OnOk result (desk.new.steps ≡ desk.old.steps + 1) }
    ensures plan { desk.new.plan ≡ desk.old.plan }
{
    let step = step_of(alloc, desk, drawn(number))?;
    let taken = desk.step(0, &step);
    drop(step);
    taken?;
    Ok(())
}

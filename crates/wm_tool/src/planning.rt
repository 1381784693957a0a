//! The desk of the standard plan.
ghost use Rattle.std.specs.Prelude.{◌≡◌, [], IfOk};
ghost use Rattle.wm_core.specs.DeskValue.{Stands};
ghost use Rattle.wm_layouts.specs.Plan.{IsSound, IsStandard};
ghost use Rattle.wm_tool.specs.Planning.{IsPlain};

use std::alloc::Global;
use wm_base::{NoMemory, Str};
use wm_core::Desk;
use wm_layouts::Plan;

/// The desk at the opening of the standard plan.
pub fn standard_desk(alloc: Global) -> Result<Desk, NoMemory>
    ensures plan { IfOk result (λ desk. IsPlain desk.plan) }
    ensures stands { IfOk result (λ desk. Stands desk []) }
{
    let plan = plain_plan(alloc)?;
    Desk::start(alloc, plan)
}

/// The standard plan, with no text of a configuration.
fn plain_plan(alloc: Global) -> Result<Plan, NoMemory>
    ensures standard { IfOk result (λ plan. IsStandard plan) }
    ensures config { IfOk result (λ plan. plan.config ≡ []) }
    ensures sound { IfOk result (λ plan. IsSound plan) }
{
    let mut plan = Plan::standard(alloc)?;
    plan.config = Str::of(String::new(alloc));
    Ok(plan)
}

//! Rehearsals, whose stored steps are taken again.
ghost use Rattle.std.specs.Prelude.{◌≤◌};

use crate::doors::{builds, push_status};
use crate::replaying::push_replayed;
use case_data::{Fault, Words};
use std::alloc::Global;
use std::sync::Wait;
use std::thread::Threads;
use wm_book::Recorded;
use wm_crew::ServeStatus;
use wm_layouts::Plan;
use wm_ports::{MemSink, StepClock};
use wm_serve::rehearse;

/// How many bytes of frames there is room for.
const SPACE: usize = 1 << 16;

/// From `N`, how a rehearsal with so many callers and clients ends, and whether its stored steps give a new desk the same tree.
pub fn tell_rehearse<R: Threads + Wait + Sync>(
    rt: &R,
    fields: &mut Words<'_>,
    out: &mut String,
) -> Result<(), Fault> {
    let n = fields.number()?;
    if n < 1 || 8 < n {
        return Err(Fault::BadLine);
    }
    let (desk, status) = rehearsed(fields.alloc, rt, n)?;
    let told = push_status(status, out);
    if let Some(desk) = desk {
        push_replayed(fields.alloc, desk, out)?;
    }
    Ok(told?)
}

/// Rehearses with so many callers and clients, at the opening of the standard plan.
fn rehearsed<R: Threads + Wait + Sync>(
    alloc: Global,
    rt: &R,
    n: u32,
) -> Result<(Option<Recorded>, ServeStatus), Fault>
    requires { (1 ≤ n) × (n ≤ 8) }
{
    let mut builds = builds(alloc, 2 * n as usize)?;
    let mut frames = MemSink::new(alloc, SPACE, Vec::new(alloc))?;
    let mut clock = StepClock::new(0, 1);
    let Ok(plan) = Plan::standard(alloc) else {
        drop(frames);
        return Err(Fault::NoMemory);
    };
    let ended = rehearse(
        alloc,
        rt,
        plan,
        n,
        &mut builds,
        &mut frames,
        &mut clock,
        200,
    );
    drop(frames);
    Ok(ended)
}

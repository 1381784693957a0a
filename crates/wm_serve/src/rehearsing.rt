//! A rehearsal: callers and modelled clients over links in memory, on a recorded desk.
ghost use Rattle.std.specs.Prelude.{◌≡◌, ◌⊎◌, ◌↔◌, ◌≤◌, ◌*◌, length, IfSome, IsTrue};
ghost use Rattle.std.specs.Option.{is_some};
ghost use Rattle.wm_actors.specs.Pictured.{screen};
ghost use Rattle.wm_crew.specs.declared.status.ServeStatus.TheVariants as status;
ghost use Rattle.wm_layouts.specs.Plan.{IsSound};
ghost use Rattle.wm_serve.specs.Rehearsals.{Rehearsed};

use crate::callers::rehearsed_doors;
use crate::desk::run_desk;
use std::alloc::Global;
use std::sync::Wait;
use std::thread::Threads;
use wm_book::Recorded;
use wm_crew::ServeStatus;
use wm_criteria::Build;
use wm_layouts::Plan;
use wm_ports::{Clock, Sink};

/// Rehearses with `n` callers, 1 to 8, and as many modelled clients, on a recorded desk at the opening of the plan. Each client
/// opens a window; each caller sends its eight commands twice, and the first one then `exit`. The recorded desk is there
/// exactly where the status is `Done`. Where there is no memory to begin nothing is done. It may wait, and need not return.
pub fn rehearse<R: Threads + Wait + Sync, S: Sink + Send, C: Clock + Send, B: Build + Send>(
    alloc: Global,
    rt: &R,
    plan: Plan,
    n: u32,
    builds: &mut [B],
    frames: &mut S,
    clock: &mut C,
    hold_ms: u64,
) -> (Option<Recorded>, ServeStatus)
    requires few { (1 ≤ n) × (n ≤ 8) }
    requires builds { length builds.old ≡ 2 * n }
    requires sound { IsSound plan }
    ensures desk { IsTrue (is_some result.0) ↔ (result.1 ≡ status.Done) }
    ensures words { result.1 ≡ status.BadWords → ⊥ }
    ensures opening { IfSome result.0 (λ desk. desk.desk.plan ≡ plan) }
    ensures ran { ((result.1 ≡ status.NoMemory) × (builds.new ≡ builds.old) × (frames.new ≡ frames.old) × (clock.new ≡ clock.old)) ⊎ Rehearsed B.log plan n hold_ms builds.old builds.new
        (screen (S.taken frames.old) (S.faults frames.old)) (screen (S.taken frames.new) (S.faults frames.new)) (C.told clock.old) (C.told clock.new) result.0 result.1 }
{
    let Ok(mut doors) = rehearsed_doors(alloc, n) else {
        return (None, ServeStatus::NoMemory);
    };
    let Ok(desk) = Recorded::start(alloc, plan) else {
        return (None, ServeStatus::NoMemory);
    };
    let ipc = n as usize;
    let ipc = n as usize;
    match run_desk(
        alloc, rt, desk, &mut doors, ipc, builds, frames, clock, hold_ms,
    ) {
        Ok((desk, status)) => (given_where_done(desk, status), status),
        Err(desk) => {
            drop(desk);
            (None, ServeStatus::NoMemory)
        }
    }
}

/// The desk, where the status is `Done`.
fn given_where_done(desk: Recorded, ended: ServeStatus) -> Option<Recorded>
    ensures given { IsTrue (is_some result) ↔ (ended ≡ status.Done) }
    ensures same { IfSome result (λ given. given ≡ desk) }
{
    if ended != ServeStatus::Done {
        drop(desk);
        return None;
    }
    Some(desk)
}

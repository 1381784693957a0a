//! The server from end to end.
ghost use Rattle.std.specs.Prelude.{◌≡◌, ◌⊎◌, ◌≤◌, ◌*◌, ◌+◌, ℕ, [], List, None, Some, length, map, string_bytes, IfErr, IfOk};
ghost use Rattle.wm_actors.specs.Pictured.{screen};
ghost use Rattle.wm_core.specs.Entries.{history_of};
ghost use Rattle.wm_history.specs.History.{opening_of};
ghost use Rattle.wm_history.specs.declared.step.Step as steps;
ghost use Rattle.wm_crew.specs.Running.{outside};
ghost use Rattle.wm_crew.specs.declared.status.ServeStatus.TheVariants as status;
ghost use Rattle.wm_layouts.specs.Plan.{IsSound};
ghost use Rattle.wm_options.specs.Options.{options_of};
ghost use Rattle.wm_serve.specs.Rehearsals.{IsRehearsed, RanRehearsal};
ghost use Rattle.wm_serve.specs.Serving.{IsEnded, IsPlanRead, IsRefused, IsServed, IsSummed, Ran};
ghost use Rattle.wm_serve.specs.Summary.{summary};
ghost use Rattle.wm_turn.specs.declared.view.Entry.{Entry};

use crate::desk::run_desk;
use crate::rehearsing::rehearse;
use crate::summing::summary;
use std::alloc::Global;
use std::sync::Wait;
use std::thread::Threads;
use wm_base::NoMemory;
use wm_binds::{Config, ConfigRefusal};
use wm_book::Kept;
use wm_core::Desk;
use wm_crew::ServeStatus;
use wm_criteria::Build;
use wm_layouts::Plan;
use wm_options::options_of;
use wm_ports::{Clock, Link, Listen, ReadFault, Sink, Source, read_to_limit, write_all};

/// How long a configuration is at most, in bytes.
const MOST: usize = 1_048_576;

/// How many of the doors give clients that speak i3-ipc.
const IPC: usize = 8;

/// Serves clients by these words: `--hold` and a number of milliseconds from 1 to 10,000, for which a transaction may wait, 200
/// where it is missing, and `--rehearse` and a number from 1 to 8. The configuration that the source gives is read to its end,
/// and the desk opens with its plan. The first 8 doors give clients that speak i3-ipc, and the other 16 clients that speak
/// lines; with `--rehearse` no door is used. Frames are written as they come, and a summary at the end. It may wait, and need
/// not return.
pub fn serve<
    R: Threads + Wait + Sync,
    I: Source,
    L: Link + Send,
    A: Listen<L> + Send,
    S: Sink + Send,
    C: Clock + Send,
    B: Build + Send,
>(
    alloc: Global,
    rt: &R,
    words: &[String],
    source: &mut I,
    doors: &mut Vec<A>,
    builds: &mut [B],
    frames: &mut S,
    clock: &mut C,
) -> ServeStatus
    requires doors { length doors.old.items ≡ 24 }
    requires builds { length builds.old ≡ 24 }
    ensures words { result ≡ status.BadWords → options_of (map string_bytes words.now) ≡ None }
    ensures refused { options_of (map string_bytes words.now) ≡ None → ((result ≡ status.BadWords) ⊎ (result ≡ status.NoMemory))
        × (source.new ≡ source.old) × (doors.new ≡ doors.old) × (builds.new ≡ builds.old) × (frames.new ≡ frames.old) × (clock.new ≡ clock.old) }
    ensures served { (hold : ℕ) → options_of (map string_bytes words.now) ≡ Some (record { hold_ms = hold; rehearse = None }) → IsServed L.told L.faults A.told A.faults B.log hold
        (I.rest source.old) (I.rest source.new) (I.faults source.old) (I.faults source.new)
        (outside doors.old.items builds.old (S.taken frames.old) (S.faults frames.old) (C.told clock.old))
        (outside doors.new.items builds.new (S.taken frames.new) (S.faults frames.new) (C.told clock.new)) result }
    ensures unused { (hold n : ℕ) → options_of (map string_bytes words.now) ≡ Some (record { hold_ms = hold; rehearse = Some n }) → doors.new ≡ doors.old }
    ensures rehearsed { (hold n : ℕ) → options_of (map string_bytes words.now) ≡ Some (record { hold_ms = hold; rehearse = Some n }) → IsRehearsed B.log n hold
        (I.rest source.old) (I.rest source.new) (I.faults source.old) (I.faults source.new) builds.old builds.new
        (screen (S.taken frames.old) (S.faults frames.old)) (screen (S.taken frames.new) (S.faults frames.new)) (C.told clock.old) (C.told clock.new) result }
{
    let options = match options_of(alloc, words) {
        Ok(Some(options)) => options,
        Ok(None) => return ServeStatus::BadWords,
        Err(NoMemory) => return ServeStatus::NoMemory,
    };
    let plan = match configured(alloc, source) {
        Ok(plan) => plan,
        Err(status) => return status,
    };
    match options.rehearse {
        None => serve_doors(
            alloc,
            rt,
            plan,
            options.hold_ms,
            doors,
            builds,
            frames,
            clock,
        ),
        Some(n) => rehearse_whole(alloc, rt, plan, options.hold_ms, n, builds, frames, clock),
    }
}

/// The plan of the configuration that the source gives.
fn configured<I: Source>(alloc: Global, source: &mut I) -> Result<Plan, ServeStatus>
    ensures plan { IfOk result (λ plan. IsPlanRead (I.rest source.old) (I.rest source.new) plan) }
    ensures sound { IfOk result (λ plan. IsSound plan) }
    ensures refused { IfErr result (λ s. IsRefused s (I.rest source.old) (I.rest source.new) (I.faults source.old) (I.faults source.new)) }
{
    let bytes = match read_to_limit(alloc, source, MOST) {
        Ok(bytes) => bytes,
        Err(ReadFault::Failed) => return Err(ServeStatus::ReadFault),
        Err(ReadFault::TooLarge { read }) => return Err(ServeStatus::TooLarge { read }),
        Err(ReadFault::NoMemory) => return Err(ServeStatus::NoMemory),
    };
    match Config::read_bytes(alloc, &bytes) {
        Ok(Config { plan, binds }) => {
            drop(binds);
            Ok(plan)
        }
        Err(ConfigRefusal::BadLine { line }) => Err(ServeStatus::BadConfig { line }),
        Err(ConfigRefusal::Full { line, limit }) => Err(ServeStatus::Full { line, limit }),
        Err(ConfigRefusal::NoMemory) => Err(ServeStatus::NoMemory),
    }
}

/// Serves the doors with a new desk, and writes the summary.
fn serve_doors<
    R: Threads + Wait + Sync,
    L: Link + Send,
    A: Listen<L> + Send,
    S: Sink + Send,
    C: Clock + Send,
    B: Build + Send,
>(
    alloc: Global,
    rt: &R,
    plan: Plan,
    hold_ms: u64,
    doors: &mut Vec<A>,
    builds: &mut [B],
    frames: &mut S,
    clock: &mut C,
) -> ServeStatus
    requires doors { length doors.old.items ≤ 4094 }
    requires builds { length builds.old ≡ length doors.old.items }
    requires sound { IsSound plan }
    ensures { ((result ≡ status.NoMemory) × (doors.new ≡ doors.old) × (builds.new ≡ builds.old) × (frames.new ≡ frames.old) × (clock.new ≡ clock.old)) ⊎ Ran L.told L.faults A.told A.faults B.log plan 8 hold_ms
        (outside doors.old.items builds.old (S.taken frames.old) (S.faults frames.old) (C.told clock.old))
        (outside doors.new.items builds.new (S.taken frames.new) (S.faults frames.new) (C.told clock.new)) result }
{
    let Ok(desk) = Desk::start(alloc, plan) else {
        return ServeStatus::NoMemory;
    };
    match run_desk(alloc, rt, desk, doors, IPC, builds, frames, clock, hold_ms) {
        Ok((desk, status)) => close_down(alloc, desk, status, frames),
        Err(desk) => {
            drop(desk);
            ServeStatus::NoMemory
        }
    }
}

/// Writes the summary of the history that the value stands for, where all actors were told to stop.
fn close_down<V: Kept + Drop, S: Sink>(
    alloc: Global,
    value: V,
    ended: ServeStatus,
    frames: &mut S,
) -> ServeStatus
    ensures { (entries : List (Entry steps.Step)) → V.stands value entries →
        IsEnded ended result (summary (opening_of (V.opening value)) (history_of entries))
        (screen (S.taken frames.old) (S.faults frames.old)) (screen (S.taken frames.new) (S.faults frames.new)) }
{
    if ended != ServeStatus::Done {
        drop(value);
        return ended;
    }
    sum_up(alloc, value, frames)
}

/// Rehearses, and writes the summary.
fn rehearse_whole<R: Threads + Wait + Sync, S: Sink + Send, C: Clock + Send, B: Build + Send>(
    alloc: Global,
    rt: &R,
    plan: Plan,
    hold_ms: u64,
    n: u32,
    builds: &mut [B],
    frames: &mut S,
    clock: &mut C,
) -> ServeStatus
    requires few { (1 ≤ n) × (n ≤ 8) }
    requires builds { 2 * n ≤ length builds.old }
    requires sound { IsSound plan }
    ensures words { result ≡ status.BadWords → ⊥ }
    ensures ran { ((result ≡ status.NoMemory) × (builds.new ≡ builds.old) × (frames.new ≡ frames.old) × (clock.new ≡ clock.old)) ⊎ RanRehearsal B.log plan n hold_ms builds.old builds.new
        (screen (S.taken frames.old) (S.faults frames.old)) (screen (S.taken frames.new) (S.faults frames.new)) (C.told clock.old) (C.told clock.new) result }
{
    let (builds, _) = builds.split_at_mut(2 * n as usize);
    let (desk, status) = rehearse(alloc, rt, plan, n, builds, frames, clock, hold_ms);
    match desk {
        Some(desk) => sum_up(alloc, desk, frames),
        None => status,
    }
}

/// Writes the summary of the history that the value stands for.
fn sum_up<V: Kept + Drop, S: Sink>(alloc: Global, value: V, frames: &mut S) -> ServeStatus
    ensures words { result ≡ status.BadWords → ⊥ }
    ensures summed { (entries : List (Entry steps.Step)) → V.stands value entries →
        IsSummed result (summary (opening_of (V.opening value)) (history_of entries))
        (screen (S.taken frames.old) (S.faults frames.old)) (screen (S.taken frames.new) (S.faults frames.new)) }
{
    let text = summary(alloc, &value);
    drop(value);
    let Ok(text) = text else {
        return ServeStatus::NoMemory;
    };
    match write_all(frames, &text) {
        Ok(()) => ServeStatus::Done,
        Err(_) => ServeStatus::WriteFault,
    }
}

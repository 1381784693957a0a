//! A desk behind one lock, with all actors.
ghost use Rattle.std.specs.Prelude.{◌≡◌, ◌+◌, ◌≤◌, [], length, IfErr, IfOk, OnErr};
ghost use Rattle.wm_crew.specs.Running.{outside};
ghost use Rattle.wm_crew.specs.declared.status.ServeStatus.TheVariants as status;
ghost use Rattle.wm_serve.specs.Running.{RanDesk};

use std::alloc::Global;
use std::sync::Wait;
use std::thread::Threads;
use wm_book::{Book, Kept};
use wm_crew::{Ran, ServeStatus, run_actors};
use wm_criteria::Build;
use wm_ports::{Clock, Link, Listen, Sink};

/// Opens a book of the value, runs the actors on it, and closes it: the value, and what the actors' ends come to. The first
/// `ipc` of the doors give clients that speak i3-ipc, the others clients that speak lines; there is a build for each. A
/// transaction waits for `hold_ms` milliseconds at most. Where there is no memory for a book nothing is done, and the value
/// comes back. It may wait, and need not return.
pub fn run_desk<
    R: Threads + Wait + Sync,
    L: Link + Send,
    A: Listen<L> + Send,
    S: Sink + Send,
    C: Clock + Send,
    V: Kept + Send,
    B: Build + Send,
>(
    alloc: Global,
    rt: &R,
    value: V,
    doors: &mut Vec<A>,
    ipc: usize,
    builds: &mut [B],
    frames: &mut S,
    clock: &mut C,
    hold_ms: u64,
) -> Result<(V, ServeStatus), V>
    requires doors { length doors.old.items ≤ 4094 }
    requires builds { length builds.old ≡ length doors.old.items }
    requires stands { V.stands value [] }
    ensures ran { IfOk result (λ ended. RanDesk L.told L.faults A.told A.faults B.log (V.opening value) ipc hold_ms (length doors.old.items + 2)
        (outside doors.old.items builds.old (S.taken frames.old) (S.faults frames.old) (C.told clock.old))
        (outside doors.new.items builds.new (S.taken frames.new) (S.faults frames.new) (C.told clock.new)) ended.1 (V.stands ended.0)) }
    ensures words { IfOk result (λ ended. ended.1 ≡ status.BadWords → ⊥) }
    ensures opening { IfOk result (λ ended. V.opening ended.0 ≡ V.opening value) }
    ensures err { IfErr result (λ back. back ≡ value) }
    ensures same { OnErr result ((doors.new ≡ doors.old) × (builds.new ≡ builds.old) × (frames.new ≡ frames.old) × (clock.new ≡ clock.old)) }
{
    let seats = doors.len() as u32 + 2;
    let (book, passes) = match Book::start(alloc, value, seats) {
        Ok(started) => started,
        Err((_, value)) => return Err(value),
    };
    let Ran { passes, status } = run_actors(
        alloc, rt, &book, passes, doors, ipc, builds, frames, clock, hold_ms,
    );
    let (value, _) = book.close(passes);
    Ok((value, status))
}

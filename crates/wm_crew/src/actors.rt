//! The actors of a server: a worker for each door, a timer and a painter.
ghost use Rattle.std.specs.Prelude.{◌≡◌, ◌+◌, length};
ghost use Rattle.std.specs.List.{All};
ghost use Rattle.wm_crew.specs.Duties.{IsReady};
ghost use Rattle.wm_crew.specs.Running.{RanActors, RanAtPlaces, outside};

use crate::duties::Server;
use crate::fault::Fault;
use crate::running::run_all;
use crate::status::ServeStatus;
use std::alloc::Global;
use std::sync::Wait;
use std::thread::Threads;
use wm_core::Door;
use wm_criteria::Build;
use wm_ports::{Clock, Link, Listen, Sink};

/// The passes as the actors left them, each at its place, and what the actors' ends come to.
#[derive(Drop)]
pub struct Ran<P> {
    pub passes: Vec<P>,
    pub status: ServeStatus,
}

/// Runs one worker for each listener, the first `ipc` of them for clients that speak i3-ipc and the others for clients that
/// speak lines, a timer and a painter, beside one another until the desk is to stop. A transaction waits for `hold_ms`
/// milliseconds at most, as the clock tells it. The passes are those of the workers in the order of their listeners, then the
/// timer's, then the painter's, and each comes back at its place, however its actor ended. Each actor but one has a thread of
/// its own; where none can be had it runs after the others. The status is that of the first listener that failed, or else that
/// of the gravest failure. It may wait, and need not return.
pub fn run_actors<
    R: Threads + Wait + Sync,
    L: Link + Send,
    A: Listen<L> + Send,
    S: Sink + Send,
    C: Clock + Send,
    P: Send,
    D: Door<Pass = P> + Sync,
    B: Build + Send,
>(
    alloc: Global,
    rt: &R,
    door: &D,
    passes: Vec<P>,
    doors: &mut Vec<A>,
    ipc: usize,
    builds: &mut [B],
    frames: &mut S,
    clock: &mut C,
    hold_ms: u64,
) -> Ran<P>
    requires builds { length builds.old ≡ length doors.old.items }
    requires passes { length passes.items ≡ length doors.old.items + 2 }
    requires ready { All (IsReady (D.is_of door.now) D.carried) passes.items }
    ensures { RanActors L.told L.faults A.told A.faults B.log (D.is_of door.now) D.carried ipc hold_ms passes.items result.passes.items
        (outside doors.old.items builds.old (S.taken frames.old) (S.faults frames.old) (C.told clock.old))
        (outside doors.new.items builds.new (S.taken frames.new) (S.faults frames.new) (C.told clock.new)) result.status }
{
    let mut passes = passes;
    let server = Server { door, ipc, hold_ms };
    let fault = run_at_places(
        alloc,
        rt,
        &server,
        passes.as_mut_slice(),
        doors.as_mut_slice(),
        builds,
        frames,
        clock,
    );
    Ran {
        passes,
        status: ServeStatus::of(fault),
    }
}

/// Runs all actors, each with the pass at its place. The answer is the fault that counts.
fn run_at_places<
    R: Threads + Wait + Sync,
    L: Link + Send,
    A: Listen<L> + Send,
    S: Sink + Send,
    C: Clock + Send,
    P: Send,
    D: Door<Pass = P> + Sync,
    B: Build + Send,
>(
    alloc: Global,
    rt: &R,
    server: &Server<'_, D>,
    passes: &mut [P],
    listens: &mut [A],
    builds: &mut [B],
    frames: &mut S,
    clock: &mut C,
) -> Option<Fault>
    requires builds { length builds.old ≡ length listens.old }
    requires passes { length passes.old ≡ length listens.old + 2 }
    requires ready { All (IsReady (D.is_of server.now.door.now) D.carried) passes.old }
    ensures { RanAtPlaces L.told L.faults A.told A.faults B.log (D.is_of server.now.door.now) D.carried server.now.ipc server.now.hold_ms
        passes.old passes.new
        (outside listens.old builds.old (S.taken frames.old) (S.faults frames.old) (C.told clock.old))
        (outside listens.new builds.new (S.taken frames.new) (S.faults frames.new) (C.told clock.new)) result }
{
    let (workers, others) = passes.split_at_mut(listens.len());
    let (timer, painter) = others.split_at_mut(1);
    run_all(
        alloc,
        rt,
        server,
        &mut timer[0],
        clock,
        &mut painter[0],
        frames,
        workers,
        listens,
        builds,
    )
}

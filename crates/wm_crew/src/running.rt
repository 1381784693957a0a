//! All actors of a server beside one another.
ghost use Rattle.std.specs.Prelude.{◌≡◌, ◌<◌, ◌^◌, length};
ghost use Rattle.std.specs.List.{All};
ghost use Rattle.std.specs.Thread.{IsSend, IsSync};
ghost use Rattle.wm_actors.specs.Pictured.{Pictured, screen};
ghost use Rattle.wm_actors.specs.Timed.{Timed};
ghost use Rattle.wm_crew.specs.Crew.{AtAll, posts};
ghost use Rattle.wm_crew.specs.Duties.{IsReady, ServedAt};
ghost use Rattle.wm_crew.specs.Running.{AllRan, crew, outside};

use crate::duties::Server;
use crate::fault::{Fault, fault_of, worse};
use crate::serving::serve_doors;
use std::alloc::Global;
use std::sync::Wait;
use std::thread::{Threads, join_mut};
use wm_actors::{ActorEnd, painter_loop, timer_loop};
use wm_core::Door;
use wm_criteria::Build;
use wm_ports::{Clock, Link, Listen, Sink};

/// Runs the painter, and beside it a worker for each door. The answer is how the painter ended, and the fault of the workers.
fn paint_and_serve<
    R: Threads + Wait + Sync,
    L: Link + Send,
    A: Listen<L> + Send,
    S: Sink + Send,
    P: Send,
    D: Door<Pass = P> + Sync,
    B: Build + Send,
>(
    alloc: Global,
    rt: &R,
    server: &Server<'_, D>,
    painter: &mut P,
    frames: &mut S,
    passes: &mut [P],
    listens: &mut [A],
    builds: &mut [B],
) -> (ActorEnd, Option<Fault>)
    requires listens { length listens.old ≡ length passes.old }
    requires builds { length builds.old ≡ length passes.old }
    requires ready { IsReady (D.is_of server.now.door.now) D.carried painter.old × All (IsReady (D.is_of server.now.door.now) D.carried) passes.old }
    ensures door { D.is_of server.now.door.now painter.new }
    ensures painted { Pictured (D.carried painter.old) (D.carried painter.new)
        (screen (S.taken frames.old) (S.faults frames.old)) (screen (S.taken frames.new) (S.faults frames.new)) result.0 }
    ensures served { AtAll (ServedAt L.told L.faults A.told A.faults (D.is_of server.now.door.now) D.carried B.log server.now.ipc) 0
        (posts passes.old listens.old builds.old) (posts passes.new listens.new builds.new) result.1 }
{
    let mut paint = || -> ActorEnd
        requires { IsSync R.row × IsSync D.row × IsSend S.row × IsSend P.row × IsReady (D.is_of server.now.door.now) D.carried painter.now }
        ensures { D.is_of server.entry.now.door.now painter.exit.now × Pictured (D.carried painter.entry.now) (D.carried painter.exit.now)
            (screen (S.taken frames.entry.now) (S.faults frames.entry.now)) (screen (S.taken frames.exit.now) (S.faults frames.exit.now)) result }
    { painter_loop(alloc, rt, server.door, painter, frames) };
    let mut serve = || -> Option<Fault>
        requires { IsSync R.row × IsSync D.row × IsSend L.row × IsSend A.row × IsSend P.row × IsSend B.row
            × (length listens.now ≡ length passes.now) × (length builds.now ≡ length passes.now) × All (IsReady (D.is_of server.now.door.now) D.carried) passes.now }
        ensures { AtAll (ServedAt L.told L.faults A.told A.faults (D.is_of server.entry.now.door.now) D.carried B.log server.entry.now.ipc) 0
            (posts passes.entry.now listens.entry.now builds.entry.now) (posts passes.exit.now listens.exit.now builds.exit.now) result }
    { serve_doors(alloc, rt, server, passes, listens, builds) };
    join_mut(rt, &mut paint, &mut serve)
}

/// Runs the timer, and beside it the painter and a worker for each listener. The answer is the fault that counts.
pub fn run_all<
    R: Threads + Wait + Sync,
    L: Link + Send,
    A: Listen<L> + Send,
    S: Sink + Send,
    C: Clock + Send,
    P: Send,
    D: Door<Pass = P> + Sync,
    B: Build + Send,
>(
    alloc: Global,
    rt: &R,
    server: &Server<'_, D>,
    timer: &mut P,
    clock: &mut C,
    painter: &mut P,
    frames: &mut S,
    passes: &mut [P],
    listens: &mut [A],
    builds: &mut [B],
) -> Option<Fault>
    requires places { (length listens.old ≡ length passes.old) × (length builds.old ≡ length passes.old) }
    requires ready { IsReady (D.is_of server.now.door.now) D.carried timer.old × IsReady (D.is_of server.now.door.now) D.carried painter.old × All (IsReady (D.is_of server.now.door.now) D.carried) passes.old }
    ensures { AllRan L.told L.faults A.told A.faults B.log (D.is_of server.now.door.now) D.carried server.now.ipc server.now.hold_ms
        (crew passes.old timer.old painter.old) (crew passes.new timer.new painter.new)
        (outside listens.old builds.old (S.taken frames.old) (S.faults frames.old) (C.told clock.old))
        (outside listens.new builds.new (S.taken frames.new) (S.faults frames.new) (C.told clock.new)) result }
{
    let mut time = || -> ActorEnd
        requires { IsSync R.row × IsSync D.row × IsSend C.row × IsSend P.row × IsReady (D.is_of server.now.door.now) D.carried timer.now }
        ensures { D.is_of server.entry.now.door.now timer.exit.now
            × Timed (D.carried timer.entry.now) (D.carried timer.exit.now) server.entry.now.hold_ms (C.told clock.entry.now) (C.told clock.exit.now) result }
    { timer_loop(alloc, rt, server.door, timer, clock, server.hold_ms) };
    let mut others = || -> (ActorEnd, Option<Fault>)
        requires { IsSync R.row × IsSync D.row × IsSend L.row × IsSend A.row × IsSend S.row × IsSend P.row × IsSend B.row
            × (length listens.now ≡ length passes.now) × (length builds.now ≡ length passes.now) × IsReady (D.is_of server.now.door.now) D.carried painter.now × All (IsReady (D.is_of server.now.door.now) D.carried) passes.now }
        ensures { D.is_of server.entry.now.door.now painter.exit.now
            × Pictured (D.carried painter.entry.now) (D.carried painter.exit.now)
            (screen (S.taken frames.entry.now) (S.faults frames.entry.now)) (screen (S.taken frames.exit.now) (S.faults frames.exit.now)) result.0
            × AtAll (ServedAt L.told L.faults A.told A.faults (D.is_of server.entry.now.door.now) D.carried B.log server.entry.now.ipc) 0
            (posts passes.entry.now listens.entry.now builds.entry.now) (posts passes.exit.now listens.exit.now builds.exit.now) result.1 }
    { paint_and_serve(alloc, rt, server, painter, frames, passes, listens, builds) };
    let (timed, (painted, worked)) = join_mut(rt, &mut time, &mut others);
    worse(worked, worse(fault_of(0, timed), fault_of(0, painted)))
}

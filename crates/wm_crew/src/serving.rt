//! All actors beside one another.
ghost use Rattle.std.specs.Prelude.{◌≡◌, ◌<◌, ◌^◌, length};
ghost use Rattle.std.specs.List.{All};
ghost use Rattle.wm_crew.specs.Crew.{AtAll, posts};
ghost use Rattle.wm_crew.specs.Duties.{IsReady, ServedAt};

use crate::crew::run_crew;
use crate::duties::Server;
use crate::fault::Fault;
use std::alloc::Global;
use std::sync::Wait;
use std::thread::Threads;
use wm_core::Door;
use wm_criteria::Build;
use wm_ports::{Link, Listen};

/// Runs a worker for each listener. The fault is that of the first door of the
/// gravest kind.
pub fn serve_doors<
    R: Threads + Wait + Sync,
    L: Link + Send,
    A: Listen<L> + Send,
    P: Send,
    D: Door<Pass = P> + Sync,
    B: Build + Send,
>(
    alloc: Global,
    rt: &R,
    server: &Server<'_, D>,
    passes: &mut [P],
    listens: &mut [A],
    builds: &mut [B],
) -> Option<Fault>
    requires listens { length listens.old ≡ length passes.old }
    requires builds { length builds.old ≡ length passes.old }
    requires ready { All (IsReady (D.is_of server.now.door.now) D.carried) passes.old }
    ensures { AtAll (ServedAt L.told L.faults A.told A.faults (D.is_of server.now.door.now) D.carried B.log server.now.ipc) 0
        (posts passes.old listens.old builds.old) (posts passes.new listens.new builds.new) result }
{
    run_crew::<R, P, A, B, L, Server<'_, D>>(alloc, rt, server, 0, passes, listens, builds)
}

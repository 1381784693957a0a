//! The duty of a server's workers.
ghost use Rattle.std.specs.Prelude.{◌≡◌};
ghost use Rattle.wm_crew.specs.Duties.{IsReady, ServedAt};

use crate::duty::Duty;
use std::alloc::Global;
use std::sync::Wait;
use wm_actors::{ActorEnd, client_worker, ipc_worker};
use wm_core::Door;
use wm_criteria::Build;
use wm_ports::{Link, Listen};

/// What all actors of a server go by: the door of the desk, how many of the first listeners give clients that speak i3-ipc,
/// where the others give clients that speak lines, and for how many milliseconds a transaction may wait.
#[derive(Drop)]
pub struct Server<'a, D> {
    pub door: &'a D,
    pub ipc: usize,
    pub hold_ms: u64,
}

impl<'a, P, D: Door<Pass = P>, L: Link, A: Listen<L>, B: Build> Duty<P, A, B, L> for Server<'a, D> {
    ghost ready = { λ duty pass. IsReady (D.is_of duty.door.now) D.carried pass };

    ghost does = { λ duty number pass listen build pass' listen' build' end.
        ServedAt L.told L.faults A.told A.faults (D.is_of duty.door.now) D.carried B.log duty.ipc number pass listen build pass' listen' build' end };

    fn perform<R: Wait>(
        &self,
        alloc: Global,
        rt: &R,
        number: usize,
        pass: &mut P,
        listen: &mut A,
        build: &mut B,
    ) -> ActorEnd {
        if number < self.ipc {
            ipc_worker(alloc, rt, self.door, pass, listen, build)
        } else {
            client_worker(alloc, rt, self.door, pass, listen)
        }
    }
}

//! The worker that serves i3-ipc clients.
ghost use Rattle.std.specs.Prelude.{◌≡◌, ◌^◌, IfSome, Some, false, length};
ghost use Rattle.wm_session.specs.Served.{Served, stage};
ghost use Rattle.wm_actors.specs.Ipc.{failure_of};
ghost use Rattle.wm_actors.specs.Worked.{IsCarried, Worked, gate};
ghost use Rattle.wm_actors.specs.Works.{spot};
ghost use Rattle.wm_actors.specs.declared.serve.Failure.TheVariants as failures;

use crate::ending::ActorEnd;
use crate::serve::{Failure, Serve};
use crate::working::work;
use std::alloc::Global;
use std::sync::Wait;
use wm_core::Door;
use wm_criteria::Build;
use wm_ports::{Link, Listen};
use wm_session::{SessionEnd, session};

/// Serves links by sessions of i3-ipc clients.
#[derive(Clone, Copy, Debug, PartialEq, Eq)]
pub struct Ipc;

impl<B: Build> Serve<B> for Ipc {
    type End = SessionEnd;

    ghost log = { B.log };

    ghost served = { Served };

    ghost fails = { failure_of };

    fn serve<R: Wait, D: Door, L: Link>(
        &self,
        alloc: Global,
        rt: &R,
        door: &D,
        pass: &mut D::Pass,
        kept: &mut B,
        link: &mut L,
    ) -> SessionEnd {
        session(alloc, rt, door, pass, kept, link)
    }

    fn failure(&self, end: SessionEnd) -> Option<Failure> {
        match end {
            SessionEnd::Exhausted => Some(Failure::Exhausted),
            SessionEnd::NoMemory => Some(Failure::NoMemory),
            _ => None,
        }
    }
}

/// Serves i3-ipc clients on the links of a listener, through a door by its pass, until the desk is to stop. It may wait,
/// and need not return.
pub fn ipc_worker<R: Wait, L: Link, A: Listen<L>, D: Door, B: Build>(
    alloc: Global,
    rt: &R,
    door: &D,
    pass: &mut D::Pass,
    listen: &mut A,
    build: &mut B,
) -> ActorEnd
    requires ready { D.is_of door.now pass.old × ((D.carried pass.old).turn ≡ false) }
    ensures door { D.is_of door.now pass.new }
    ensures worked { Worked L.told L.faults Served failure_of
        (spot (D.carried pass.old) (B.log build.old)) (spot (D.carried pass.new) (B.log build.new))
        (gate (A.told listen.old) (A.faults listen.old)) (gate (A.told listen.new) (A.faults listen.new)) result }
{
    work(alloc, rt, door, pass, listen, build, &Ipc)
}

//! The worker that serves clients that speak lines.
ghost use Rattle.std.specs.Prelude.{◌≡◌, false};
ghost use Rattle.wm_actors.specs.Clients.{NO_LOG, Serves, failure_of};
ghost use Rattle.wm_actors.specs.Worked.{Worked, gate};
ghost use Rattle.wm_actors.specs.Works.{spot};

use crate::ending::ActorEnd;
use crate::serve::{Failure, Serve};
use crate::working::work;
use std::alloc::Global;
use std::sync::Wait;
use wm_clients::{ClientEnd, client_session};
use wm_core::Door;
use wm_ports::{Link, Listen};

/// Serves links by sessions of clients that speak lines. It keeps nothing between them.
#[derive(Clone, Copy, Debug, PartialEq, Eq)]
pub struct Clients;

impl Serve<()> for Clients {
    type End = ClientEnd;

    ghost log = { λ kept. NO_LOG };

    ghost served = { Serves };

    ghost fails = { failure_of };

    fn serve<R: Wait, D: Door, L: Link>(
        &self,
        alloc: Global,
        rt: &R,
        door: &D,
        pass: &mut D::Pass,
        _kept: &mut (),
        link: &mut L,
    ) -> ClientEnd {
        client_session(alloc, rt, door, pass, link)
    }

    fn failure(&self, end: ClientEnd) -> Option<Failure> {
        match end {
            ClientEnd::Exhausted => Some(Failure::Exhausted),
            ClientEnd::NoMemory => Some(Failure::NoMemory),
            _ => None,
        }
    }
}

/// Serves clients that speak lines on the links of a listener, through a door by its pass, until the desk is to stop. It may
/// wait, and need not return.
pub fn client_worker<R: Wait, L: Link, A: Listen<L>, D: Door>(
    alloc: Global,
    rt: &R,
    door: &D,
    pass: &mut D::Pass,
    listen: &mut A,
) -> ActorEnd
    requires ready { D.is_of door.now pass.old × ((D.carried pass.old).turn ≡ false) }
    ensures door { D.is_of door.now pass.new }
    ensures worked { Worked L.told L.faults Serves failure_of
        (spot (D.carried pass.old) NO_LOG) (spot (D.carried pass.new) NO_LOG)
        (gate (A.told listen.old) (A.faults listen.old)) (gate (A.told listen.new) (A.faults listen.new)) result }
{
    work(alloc, rt, door, pass, listen, &mut (), &Clients)
}

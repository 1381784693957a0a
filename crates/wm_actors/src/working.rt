//! A worker: it accepts links, and serves each.
ghost use Rattle.std.specs.Prelude.{◌≡◌, IfNone, false};
ghost use Rattle.wm_core.specs.Passes.{Pass};
ghost use Rattle.wm_actors.specs.Worked.{Asks, Gate, GoesOn, Turns, Visits, Worked, Working, gate};
ghost use Rattle.wm_actors.specs.Works.{Spot, spot};

use crate::ending::ActorEnd;
use crate::exiting::finish;
use crate::serve::Serve;
use std::alloc::Global;
use std::sync::Wait;
use wm_core::Door;
use wm_ports::{Accepted, Link, Listen};

/// Serves the links of a listener, through a door by its pass, until the desk is to stop. In each round it accepts, serves
/// the link that it was given, if any, and gives it back; then it asks whether the desk is to stop. It may wait, and need
/// not return.
pub fn work<R: Wait, L: Link, A: Listen<L>, D: Door, K, S: Serve<K>>(
    alloc: Global,
    rt: &R,
    door: &D,
    pass: &mut D::Pass,
    listen: &mut A,
    kept: &mut K,
    server: &S,
) -> ActorEnd
    requires ready { D.is_of door.now pass.old × ((D.carried pass.old).turn ≡ false) }
    ensures door { D.is_of door.now pass.new }
    ensures worked { Worked L.told L.faults S.served S.fails
        (spot (D.carried pass.old) (S.log kept.old)) (spot (D.carried pass.new) (S.log kept.new))
        (gate (A.told listen.old) (A.faults listen.old)) (gate (A.told listen.new) (A.faults listen.new)) result }
{
    let mut end = ActorEnd::Stopped;
    for _ in rt.forever() {
        if let Some(found) = next_turn(alloc, rt, door, pass, listen, kept, server) {
            end = found;
            break;
        }
    }
    end
}

/// One round, and the end of the worker where it is the last one.
fn next_turn<R: Wait, L: Link, A: Listen<L>, D: Door, K, S: Serve<K>>(
    alloc: Global,
    rt: &R,
    door: &D,
    pass: &mut D::Pass,
    listen: &mut A,
    kept: &mut K,
    server: &S,
) -> Option<ActorEnd>
    requires ready { D.is_of door.now pass.old × ((D.carried pass.old).turn ≡ false) }
    ensures door { D.is_of door.now pass.new }
    ensures turn { IfNone result ((D.carried pass.new).turn ≡ false) }
    ensures turns { (first : Spot) (at : Gate L) →
        Working L.told L.faults S.served S.fails first (spot (D.carried pass.old) (S.log kept.old)) at (gate (A.told listen.old) (A.faults listen.old)) →
        Turns L.told L.faults S.served S.fails first (spot (D.carried pass.new) (S.log kept.new)) at (gate (A.told listen.new) (A.faults listen.new)) result }
{
    match turn(alloc, rt, door, pass, listen, kept, server) {
        Ok(()) => None,
        Err(found) => Some(finish(alloc, rt, door, pass, found)),
    }
}

/// One round.
fn turn<R: Wait, L: Link, A: Listen<L>, D: Door, K, S: Serve<K>>(
    alloc: Global,
    rt: &R,
    door: &D,
    pass: &mut D::Pass,
    listen: &mut A,
    kept: &mut K,
    server: &S,
) -> Result<(), ActorEnd>
    requires ready { D.is_of door.now pass.old × ((D.carried pass.old).turn ≡ false) }
    ensures door { D.is_of door.now pass.new }
    ensures turn { (D.carried pass.new).turn ≡ false }
    ensures goes_on { (first : Spot) (at : Gate L) →
        Working L.told L.faults S.served S.fails first (spot (D.carried pass.old) (S.log kept.old)) at (gate (A.told listen.old) (A.faults listen.old)) →
        GoesOn L.told L.faults S.served S.fails first (spot (D.carried pass.new) (S.log kept.new)) at (gate (A.told listen.new) (A.faults listen.new)) result }
{
    match listen.accept() {
        Accepted::Link(link) => {
            visit(alloc, rt, door, pass, listen, kept, server, link)?;
            ask(rt, door, pass)
        }
        Accepted::Quiet => ask(rt, door, pass),
        Accepted::Failed => Err(ActorEnd::ListenFault),
    }
}

/// Serves a link, and gives it back. It ends the worker where serving it failed.
fn visit<R: Wait, L: Link, A: Listen<L>, D: Door, K, S: Serve<K>>(
    alloc: Global,
    rt: &R,
    door: &D,
    pass: &mut D::Pass,
    listen: &mut A,
    kept: &mut K,
    server: &S,
    link: L,
) -> Result<(), ActorEnd>
    requires ready { D.is_of door.now pass.old × ((D.carried pass.old).turn ≡ false) }
    requires out { A.has_out listen.old }
    ensures door { D.is_of door.now pass.new }
    ensures turn { (D.carried pass.new).turn ≡ false }
    ensures visits { Visits L.told L.faults S.served S.fails
        (spot (D.carried pass.old) (S.log kept.old)) (spot (D.carried pass.new) (S.log kept.new))
        (gate (A.told listen.old) (A.faults listen.old)) (gate (A.told listen.new) (A.faults listen.new)) link result }
{
    let mut link = link;
    let end = server.serve(alloc, rt, door, pass, kept, &mut link);
    listen.give_back(link);
    match server.failure(end) {
        Some(failure) => Err(ActorEnd::from(failure)),
        None => Ok(()),
    }
}

/// Asks whether the desk is to stop. That ends the worker.
fn ask<R: Wait, D: Door>(rt: &R, door: &D, pass: &mut D::Pass) -> Result<(), ActorEnd>
    requires ready { D.is_of door.now pass.old × ((D.carried pass.old).turn ≡ false) }
    ensures door { D.is_of door.now pass.new }
    ensures turn { (D.carried pass.new).turn ≡ false }
    ensures asks { Asks (D.carried pass.old) (D.carried pass.new) result }
{
    if door.stopped(rt, pass) {
        return Err(ActorEnd::Stopped);
    }
    Ok(())
}

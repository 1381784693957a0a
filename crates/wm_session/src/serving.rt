//! A session: messages are received and answered one after another, until the link or the desk ends.
ghost use Rattle.std.specs.Prelude.{◌≡◌, ◌<◌, ℕ, Bool, [], None, OnOk, false, vec_len};
ghost use Rattle.wm_session.specs.Served.{Served, Stage, stage};
ghost use Rattle.wm_session.specs.Serving.{Between, GoesOn, HasHeard};

use crate::ending::SessionEnd;
use crate::hearing::{Hearer, broken};
use crate::telling::Teller;
use std::alloc::Global;
use std::sync::Wait;
use wm_core::Door;
use wm_criteria::Build;
use wm_ports::Link;

/// Serves an i3-ipc client on its link, through a door by its pass: receives, answers each whole message in order, and
/// after each reply sends the events that the client is subscribed to. After the messages of one receiving, and where
/// nothing is there, it asks whether the desk is to stop, and sends the events up to then. It may wait, and need not
/// return.
pub fn session<R: Wait, D: Door, B: Build, L: Link>(
    alloc: Global,
    rt: &R,
    door: &D,
    pass: &mut D::Pass,
    build: &mut B,
    link: &mut L,
) -> SessionEnd
    requires ready { D.is_of door.now pass.old × ((D.carried pass.old).turn ≡ false) }
    ensures door { D.is_of door.now pass.new }
    ensures served { Served (stage (D.carried pass.old) (L.told link.old) (L.faults link.old) (B.log build.old))
        (stage (D.carried pass.new) (L.told link.new) (L.faults link.new) (B.log build.new)) result }
{
    let Ok(mut hearer) = Hearer::new(alloc) else {
        return SessionEnd::NoMemory;
    };
    let mut teller = Teller::new(alloc);
    let mut end = SessionEnd::NoMemory;
    for _ in rt.forever() {
        if let Err(found) = turn(rt, door, pass, build, link, &mut hearer, &mut teller) {
            end = found;
            break;
        }
    }
    end
}

/// One receiving, and what follows from it.
fn turn<R: Wait, D: Door, B: Build, L: Link>(
    rt: &R,
    door: &D,
    pass: &mut D::Pass,
    build: &mut B,
    link: &mut L,
    hearer: &mut Hearer,
    teller: &mut Teller,
) -> Result<(), SessionEnd>
    requires ready { D.is_of door.now pass.old × ((D.carried pass.old).turn ≡ false) }
    requires queue { hearer.old.decoder.queue ≡ [] }
    requires whole { hearer.old.decoder.fault ≡ None }
    requires heard { HasHeard hearer.old.decoder }
    requires room { 0 < vec_len hearer.old.room }
    ensures door { D.is_of door.now pass.new }
    ensures turn { (D.carried pass.new).turn ≡ false }
    ensures queue { OnOk result (hearer.new.decoder.queue ≡ []) }
    ensures whole { OnOk result (hearer.new.decoder.fault ≡ None) }
    ensures heard { OnOk result (HasHeard hearer.new.decoder) }
    ensures room { 0 < vec_len hearer.new.room }
    ensures goes_on { (first : Stage) → Between first (stage (D.carried pass.old) (L.told link.old) (L.faults link.old) (B.log build.old)) teller.old.talk hearer.old.decoder false →
        GoesOn first (stage (D.carried pass.new) (L.told link.new) (L.faults link.new) (B.log build.new))
        (λ _. Between first (stage (D.carried pass.new) (L.told link.new) (L.faults link.new) (B.log build.new)) teller.new.talk hearer.new.decoder false) result }
{
    let fault = hearer.receive(link)?;
    answer_all(rt, door, pass, build, link, hearer, teller)?;
    match fault {
        Some(fault) => Err(broken(fault)),
        None => teller.ask_stop(rt, door, pass, link),
    }
}

/// Answers the queued messages.
fn answer_all<R: Wait, D: Door, B: Build, L: Link>(
    rt: &R,
    door: &D,
    pass: &mut D::Pass,
    build: &mut B,
    link: &mut L,
    hearer: &mut Hearer,
    teller: &mut Teller,
) -> Result<(), SessionEnd>
    requires ready { D.is_of door.now pass.old × ((D.carried pass.old).turn ≡ false) }
    requires heard { HasHeard hearer.old.decoder }
    ensures door { D.is_of door.now pass.new }
    ensures turn { (D.carried pass.new).turn ≡ false }
    ensures heard { OnOk result (HasHeard hearer.new.decoder) }
    ensures decoder { OnOk result (hearer.new.decoder ≡ record hearer.old.decoder { queue = [] }) }
    ensures room { hearer.new.room ≡ hearer.old.room }
    ensures goes_on { (first : Stage) → (unasked : Bool) → Between first (stage (D.carried pass.old) (L.told link.old) (L.faults link.old) (B.log build.old)) teller.old.talk hearer.old.decoder unasked →
        GoesOn first (stage (D.carried pass.new) (L.told link.new) (L.faults link.new) (B.log build.new))
        (λ _. Between first (stage (D.carried pass.new) (L.told link.new) (L.faults link.new) (B.log build.new)) teller.new.talk hearer.new.decoder unasked) result }
{
    while let Some(message) = hearer.decoder.next() {
        let answered = teller.answer(rt, door, pass, build, &message, link);
        drop(message);
        answered?;
    }
    Ok(())
}

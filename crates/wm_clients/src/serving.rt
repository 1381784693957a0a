//! A client's session: lines are received and answered one after another, until the link or the desk ends.
ghost use Rattle.std.specs.Prelude.{◌≡◌, ◌<◌, ℕ, Option, None, OnOk, false, true, vec_len};
ghost use Rattle.wm_cut.specs.Lines.{first_line};
ghost use Rattle.wm_ports.specs.Linking.{LinkTold};
ghost use Rattle.wm_clients.specs.Served.{ServedClient, Stage, stage};
ghost use Rattle.wm_clients.specs.Serving.{Between, Ends, GoesOn, IsPart};
ghost use Rattle.wm_clients.specs.Telling.{AreFew};

use crate::ending::ClientEnd;
use crate::hearing::{Hearer, check_rest};
use crate::telling::Teller;
use std::alloc::Global;
use std::sync::Wait;
use wm_core::{Door, Step};
use wm_ports::Link;

/// Serves a client on its link, through a door by its pass: receives, takes the step of each line in order, and sends its
/// answer, and then what is asked of the client's windows. After the lines of one receiving, and where nothing is there,
/// it asks whether the desk is to stop, and sends what is asked where it is not. At its end it closes the client's windows,
/// except where the history takes no more steps or there is no memory. It may wait, and need not return.
pub fn client_session<R: Wait, D: Door, L: Link>(
    alloc: Global,
    rt: &R,
    door: &D,
    pass: &mut D::Pass,
    link: &mut L,
) -> ClientEnd
    requires ready { D.is_of door.now pass.old × ((D.carried pass.old).turn ≡ false) }
    ensures door { D.is_of door.now pass.new }
    ensures served { ServedClient (stage (D.carried pass.old) (L.told link.old) (L.faults link.old))
        (stage (D.carried pass.new) (L.told link.new) (L.faults link.new)) result }
{
    let end = converse(alloc, rt, door, pass, link);
    leave(rt, door, pass, end)
}

/// Serves a client up to the end, where its windows are still to be closed.
fn converse<R: Wait, D: Door, L: Link>(
    alloc: Global,
    rt: &R,
    door: &D,
    pass: &mut D::Pass,
    link: &mut L,
) -> ClientEnd
    requires ready { D.is_of door.now pass.old × ((D.carried pass.old).turn ≡ false) }
    ensures door { D.is_of door.now pass.new }
    ensures turn { (D.carried pass.new).turn ≡ false }
    ensures ends { Ends (stage (D.carried pass.old) (L.told link.old) (L.faults link.old))
        (stage (D.carried pass.new) (L.told link.new) (L.faults link.new)) result }
{
    let Ok(mut hearer) = Hearer::new(alloc) else {
        return ClientEnd::NoMemory;
    };
    let mut teller = Teller::new(alloc);
    let mut end = ClientEnd::NoMemory;
    for _ in rt.forever() {
        if let Err(found) = turn(rt, door, pass, link, &mut hearer, &mut teller) {
            end = found;
            break;
        }
    }
    end
}

/// Closes the client's windows, where the door still takes steps and there is memory, and says how the session ended.
fn leave<R: Wait, D: Door>(rt: &R, door: &D, pass: &mut D::Pass, end: ClientEnd) -> ClientEnd
    requires ready { D.is_of door.now pass.old × ((D.carried pass.old).turn ≡ false) }
    ensures door { D.is_of door.now pass.new }
    ensures served { (first : Stage) → (link : Option LinkTold) → (faults : ℕ) → Ends first (stage (D.carried pass.old) link faults) end →
        ServedClient first (stage (D.carried pass.new) link faults) result }
{
    if !end.closes_windows() {
        return end;
    }
    match door.act(rt, pass, &Step::Gone) {
        Ok(answer) => {
            drop(answer);
            end
        }
        Err(refusal) => ClientEnd::from(refusal),
    }
}

/// One receiving, and what follows from it.
fn turn<R: Wait, D: Door, L: Link>(
    rt: &R,
    door: &D,
    pass: &mut D::Pass,
    link: &mut L,
    hearer: &mut Hearer,
    teller: &mut Teller,
) -> Result<(), ClientEnd>
    requires ready { D.is_of door.now pass.old × ((D.carried pass.old).turn ≡ false) }
    requires part { IsPart hearer.old.cutter }
    requires room { 0 < vec_len hearer.old.room }
    requires few { AreFew teller.old.lines (D.carried pass.old).seen }
    ensures door { D.is_of door.now pass.new }
    ensures turn { (D.carried pass.new).turn ≡ false }
    ensures part { OnOk result (IsPart hearer.new.cutter) }
    ensures room { 0 < vec_len hearer.new.room }
    ensures few { AreFew teller.new.lines (D.carried pass.new).seen }
    ensures goes_on { (first : Stage) → Between first (stage (D.carried pass.old) (L.told link.old) (L.faults link.old)) teller.old.sent teller.old.lines hearer.old.cutter false →
        GoesOn first (stage (D.carried pass.new) (L.told link.new) (L.faults link.new))
        (λ _. Between first (stage (D.carried pass.new) (L.told link.new) (L.faults link.new)) teller.new.sent teller.new.lines hearer.new.cutter false) result }
{
    hearer.receive(link)?;
    answer_all(rt, door, pass, link, hearer, teller)?;
    check_rest(&hearer.cutter, teller.lines + 1)?;
    teller.ask_stop(rt, door, pass, link)
}

/// Answers the lines that are whole.
fn answer_all<R: Wait, D: Door, L: Link>(
    rt: &R,
    door: &D,
    pass: &mut D::Pass,
    link: &mut L,
    hearer: &mut Hearer,
    teller: &mut Teller,
) -> Result<(), ClientEnd>
    requires ready { D.is_of door.now pass.old × ((D.carried pass.old).turn ≡ false) }
    requires few { AreFew teller.old.lines (D.carried pass.old).seen }
    ensures door { D.is_of door.now pass.new }
    ensures turn { (D.carried pass.new).turn ≡ false }
    ensures none { OnOk result (first_line hearer.new.cutter ≡ None) }
    ensures room { hearer.new.room ≡ hearer.old.room }
    ensures few { AreFew teller.new.lines (D.carried pass.new).seen }
    ensures goes_on { (first : Stage) → Between first (stage (D.carried pass.old) (L.told link.old) (L.faults link.old)) teller.old.sent teller.old.lines hearer.old.cutter true →
        GoesOn first (stage (D.carried pass.new) (L.told link.new) (L.faults link.new))
        (λ _. Between first (stage (D.carried pass.new) (L.told link.new) (L.faults link.new)) teller.new.sent teller.new.lines hearer.new.cutter true) result }
{
    while let Some(line) = hearer.cutter.line() {
        teller.answer(rt, door, pass, line, link)?;
        hearer.cutter.pass();
    }
    Ok(())
}

//! The timer: it gives the deadlines of transactions that have waited for too long.
ghost use Rattle.std.specs.Prelude.{◌≡◌, List, ℕ, Option, false};
ghost use Rattle.wm_core.specs.Passes.{Looks, Pass};
ghost use Rattle.wm_core.specs.declared.asked.Asked.TheVariants as asked;
ghost use Rattle.wm_history.specs.declared.look.Query.TheVariants as query;
ghost use Rattle.wm_actors.specs.Ticks.{Gives, waiting_after, waiting_in};
ghost use Rattle.wm_actors.specs.Timed.{GoesOn, Ticking, Timed};

use crate::ending::ActorEnd;
use crate::exiting::finish;
use crate::rests::rest_timer;
use crate::timer::Timer;
use std::alloc::Global;
use std::sync::Wait;
use wm_base::NoMemory;
use wm_core::{ClientStep, Door, Query, View};
use wm_ports::Clock;

/// Gives deadlines, through a door by its pass, until the desk is to stop. In each round it asks whether that is so, looks
/// at how far the desk is, takes one number of the clock, and gives the deadline that is due, if any. It may wait, and need
/// not return.
pub fn timer_loop<R: Wait, C: Clock, D: Door>(
    alloc: Global,
    rt: &R,
    door: &D,
    pass: &mut D::Pass,
    clock: &mut C,
    hold_ms: u64,
) -> ActorEnd
    requires ready { D.is_of door.now pass.old × ((D.carried pass.old).turn ≡ false) }
    ensures door { D.is_of door.now pass.new }
    ensures timed { Timed (D.carried pass.old) (D.carried pass.new) hold_ms (C.told clock.old) (C.told clock.new) result }
{
    let mut timer = Timer::new(hold_ms);
    let mut end = ActorEnd::Stopped;
    for _ in rt.forever() {
        if let Err(found) = tick(rt, door, pass, clock, &mut timer) {
            end = finish(alloc, rt, door, pass, found);
            break;
        }
    }
    end
}

/// One round.
fn tick<R: Wait, C: Clock, D: Door>(
    rt: &R,
    door: &D,
    pass: &mut D::Pass,
    clock: &mut C,
    timer: &mut Timer,
) -> Result<(), ActorEnd>
    requires ready { D.is_of door.now pass.old × ((D.carried pass.old).turn ≡ false) }
    ensures door { D.is_of door.now pass.new }
    ensures turn { (D.carried pass.new).turn ≡ false }
    ensures hold { timer.new.hold_ms ≡ timer.old.hold_ms }
    ensures goes_on { (first : Pass) (told : Option (List ℕ)) → Ticking first (D.carried pass.old) told (C.told clock.old) timer.old →
        GoesOn first (D.carried pass.new) told (C.told clock.new) timer.new result }
{
    if door.stopped(rt, pass) {
        return Err(ActorEnd::Stopped);
    }
    let waiting = see_waiting(rt, door, pass)?;
    let now_ms = clock.now_ms();
    let number = timer.decide(now_ms, waiting);
    give(rt, door, pass, number)
}

/// The number of the transaction that waits.
fn see_waiting<R: Wait, D: Door>(
    rt: &R,
    door: &D,
    pass: &mut D::Pass,
) -> Result<Option<u64>, NoMemory>
    requires ready { D.is_of door.now pass.old × ((D.carried pass.old).turn ≡ false) }
    ensures door { D.is_of door.now pass.new }
    ensures sees { Looks (D.carried pass.old) (D.carried pass.new) (asked.Query query.State) (λ waiting start seen. waiting ≡ waiting_after start seen) result }
{
    let view = door.look(rt, pass, &Query::State)?;
    let waiting = waiting_in(&view);
    drop(view);
    Ok(waiting)
}

/// The number of the transaction that waits, by what was seen of how far the desk is.
fn waiting_in(view: &View) -> Option<u64>
    ensures { result ≡ waiting_in view.now }
{
    match view {
        View::State(state) => state.waiting.map(|waiting| waiting.number),
        _ => None,
    }
}

/// Gives the deadline of this number. Where there is none, it rests.
fn give<R: Wait, D: Door>(
    rt: &R,
    door: &D,
    pass: &mut D::Pass,
    number: Option<u64>,
) -> Result<(), ActorEnd>
    requires ready { D.is_of door.now pass.old × ((D.carried pass.old).turn ≡ false) }
    ensures door { D.is_of door.now pass.new }
    ensures gives { Gives (D.carried pass.old) (D.carried pass.new) number result }
{
    let Some(number) = number else {
        rest_timer(rt);
        return Ok(());
    };
    door.act_client(rt, pass, &ClientStep::Deadline { number })?;
    Ok(())
}

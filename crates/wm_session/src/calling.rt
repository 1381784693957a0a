//! The one call of a message is made through a door.
ghost use Rattle.std.specs.Prelude.{◌≡◌, ◌<◌, ◌≤◌, ◌^◌, false, length};
ghost use Rattle.wm_criteria.specs.Building.{Log};
ghost use Rattle.wm_session.specs.Called.{Called, IsFitCall};
ghost use Rattle.wm_talk.specs.declared.calls.Call.TheVariants as calls;

use std::alloc::Global;
use std::sync::Wait;
use wm_base::{NoMemory, Str};
use wm_core::{ActRefusal, Door, Query, Step};
use wm_criteria::{Build, prepare};
use wm_talk::{Call, Got};

/// Makes a call through the door, and says what it gave.
pub fn make_call<R: Wait, D: Door, B: Build>(
    alloc: Global,
    rt: &R,
    door: &D,
    pass: &mut D::Pass,
    build: &mut B,
    call: Call,
) -> Result<Got, ActRefusal>
    requires ready { D.is_of door.now pass.old × ((D.carried pass.old).turn ≡ false) }
    requires fit { IsFitCall call }
    ensures door { D.is_of door.now pass.new }
    ensures called { Called (D.carried pass.old) (D.carried pass.new) call (B.log build.old) (B.log build.new) result }
{
    match call {
        Call::Run(text) => run(alloc, rt, door, pass, build, text),
        Call::Tick(payload) => tick(rt, door, pass, payload),
        Call::Look(query) => see(rt, door, pass, query),
    }
}

/// Runs a text.
fn run<R: Wait, D: Door, B: Build>(
    alloc: Global,
    rt: &R,
    door: &D,
    pass: &mut D::Pass,
    build: &mut B,
    text: Str,
) -> Result<Got, ActRefusal>
    requires ready { D.is_of door.now pass.old × ((D.carried pass.old).turn ≡ false) }
    requires short { length text < 2 ^ 32 }
    ensures door { D.is_of door.now pass.new }
    ensures called { Called (D.carried pass.old) (D.carried pass.new) (calls.Run text) (B.log build.old) (B.log build.new) result }
{
    let Ok(prepared) = prepare(alloc, text.as_str(), build) else {
        return Err(ActRefusal::NoMemory);
    };
    let step = Step::Run(prepared);
    let answer = door.act(rt, pass, &step);
    drop(step);
    Ok(Got::Answer(answer?))
}

/// Tells a text to all who watch the desk.
fn tick<R: Wait, D: Door>(
    rt: &R,
    door: &D,
    pass: &mut D::Pass,
    payload: Str,
) -> Result<Got, ActRefusal>
    requires ready { D.is_of door.now pass.old × ((D.carried pass.old).turn ≡ false) }
    requires short { length payload ≤ 4096 }
    ensures door { D.is_of door.now pass.new }
    ensures called { (log : Log) → Called (D.carried pass.old) (D.carried pass.new) (calls.Tick payload) log log result }
{
    let step = Step::Tick { payload };
    let answer = door.act(rt, pass, &step);
    drop(step);
    Ok(Got::Answer(answer?))
}

/// Looks at the desk.
fn see<R: Wait, D: Door>(
    rt: &R,
    door: &D,
    pass: &mut D::Pass,
    query: Query,
) -> Result<Got, ActRefusal>
    requires ready { D.is_of door.now pass.old × ((D.carried pass.old).turn ≡ false) }
    ensures door { D.is_of door.now pass.new }
    ensures called { (log : Log) → Called (D.carried pass.old) (D.carried pass.new) (calls.Look query) log log result }
{
    match door.look(rt, pass, &query) {
        Ok(view) => Ok(Got::View(view)),
        Err(NoMemory) => Err(ActRefusal::NoMemory),
    }
}

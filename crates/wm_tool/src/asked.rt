//! The call of a message is made on the desk, for caller 0.
ghost use Rattle.std.specs.Prelude.{◌≡◌, ◌+◌, ◌<◌, ◌≤◌, ◌^◌, ◌∷◌, [], None, Some, IfOk, OnOk, length};
ghost use Rattle.wm_history.specs.Act as acts;
ghost use Rattle.wm_core.specs.DeskValue.{Stands};
ghost use Rattle.wm_history.specs.History.{answer, History, opening_of};
ghost use Rattle.wm_history.specs.Look.{look};
ghost use Rattle.wm_talk.specs.declared.calls.Call.TheVariants as calls;
ghost use Rattle.wm_talk.specs.declared.got.Got.TheVariants as gots;
ghost use Rattle.wm_tool.specs.Ipc.{after_call, call_step, got_of, IsFitCall};
ghost use Rattle.wm_script.specs.Out.{entry_of};
ghost use Rattle.wm_tool.specs.Output.{run_entry};
ghost use Rattle.wm_script.specs.Refusals.{refusal_at};
ghost use Rattle.wm_tool.specs.Running.{Notes};

use crate::judging::run_text;
use std::alloc::Global;
use wm_base::{NoMemory, Str};
use wm_core::{Desk, Query, Step};
use wm_criteria::Build;
use wm_script::Refused;
use wm_talk::{Call, Got};

/// Makes a call on the desk, and says what it gave. Patterns that are refused are listed.
pub fn make_call<B: Build>(
    alloc: Global,
    desk: &mut Desk,
    call: Call,
    build: &mut B,
    refused: &mut Vec<Refused>,
) -> Result<Got, NoMemory>
    requires few { desk.old.steps < 2 ^ 48 }
    requires fit { IsFitCall call }
    ensures got { refusal_at desk.old.steps refused.old.items ≡ None → (history : History) → Stands desk.old history →
        IfOk result (λ g. g ≡ got_of (opening_of desk.old.plan) call refused.new.items history) }
    ensures stands { refusal_at desk.old.steps refused.old.items ≡ None → (history : History) → Stands desk.old history →
        OnOk result (Stands desk.new (after_call call refused.new.items history)) }
    ensures steps { OnOk result (desk.new.steps ≡ desk.old.steps + length (call_step call)) }
    ensures plan { OnOk result (desk.new.plan ≡ desk.old.plan) }
    ensures notes { Notes desk.old.steps (call_step call) refused.old.items refused.new.items (B.log build.old) (B.log build.new) }
{
    match call {
        Call::Run(text) => run(alloc, desk, text, build, refused),
        Call::Tick(payload) => tick(desk, payload),
        Call::Look(query) => see(desk, query),
    }
}

/// Runs a text.
fn run<B: Build>(
    alloc: Global,
    desk: &mut Desk,
    text: Str,
    build: &mut B,
    refused: &mut Vec<Refused>,
) -> Result<Got, NoMemory>
    requires few { desk.old.steps < 2 ^ 48 }
    requires short { length text < 2 ^ 32 }
    ensures got { refusal_at desk.old.steps refused.old.items ≡ None → (history : History) → Stands desk.old history →
        IfOk result (λ g. g ≡ got_of (opening_of desk.old.plan) (calls.Run text) refused.new.items history) }
    ensures stands { refusal_at desk.old.steps refused.old.items ≡ None → (history : History) → Stands desk.old history →
        OnOk result (Stands desk.new (after_call (calls.Run text) refused.new.items history)) }
    ensures steps { OnOk result (desk.new.steps ≡ desk.old.steps + 1) }
    ensures plan { OnOk result (desk.new.plan ≡ desk.old.plan) }
    ensures notes { Notes desk.old.steps (Some text ∷ []) refused.old.items refused.new.items (B.log build.old) (B.log build.new) }
{
    let answer = run_text(alloc, desk, 0, text.as_str(), build, refused)?;
    Ok(Got::Answer(answer))
}

/// Tells a text to all who watch the desk.
fn tick(desk: &mut Desk, payload: Str) -> Result<Got, NoMemory>
    requires few { desk.old.steps < 2 ^ 48 }
    requires short { length payload ≤ 4096 }
    ensures got { (history : History) → Stands desk.old history →
        IfOk result (λ g. g ≡ gots.Answer (answer (opening_of desk.old.plan) history (entry_of 0 (acts.Tick payload)))) }
    ensures stands { (history : History) → Stands desk.old history → OnOk result (Stands desk.new (entry_of 0 (acts.Tick payload) ∷ history)) }
    ensures steps { OnOk result (desk.new.steps ≡ desk.old.steps + 1) }
    ensures plan { OnOk result (desk.new.plan ≡ desk.old.plan) }
{
    let step = Step::Tick { payload };
    let answer = desk.step(0, &step);
    drop(step);
    Ok(Got::Answer(answer?))
}

/// Looks at the desk.
fn see(desk: &Desk, query: Query) -> Result<Got, NoMemory>
    ensures { (history : History) → Stands desk.now history →
        IfOk result (λ g. g ≡ gots.View (look (opening_of desk.now.plan) history 0 query)) }
{
    Ok(Got::View(desk.look(0, &query)?))
}

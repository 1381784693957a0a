//! Texts are prepared and run on a desk, and it is noted which of their patterns were refused.
ghost use Rattle.std.specs.Prelude.{◌≡◌, ◌++◌, ◌+◌, ◌<◌, ◌^◌, ◌∷◌, [], length, IfOk, IsTrue, None, OnOk, Some};
ghost use Rattle.wm_core.specs.DeskValue.{Stands};
ghost use Rattle.wm_history.specs.History.{answer, History, opening_of};
ghost use Rattle.wm_criteria.specs.Building.{Grew};
ghost use Rattle.wm_criteria.specs.Prepared.{is_built, refused_by};
ghost use Rattle.wm_criteria.specs.Verdict.{IsVerdict};
ghost use Rattle.wm_tool.specs.Output.{run_entry};
ghost use Rattle.wm_script.specs.Refusals.{refusal_at};
ghost use Rattle.wm_tool.specs.Running.{fresh_by, Notes};

use std::alloc::Global;
use wm_base::NoMemory;
use wm_core::{Answer, Desk, Step};
use wm_criteria::{Build, Prepared, Verdict, prepare};
use wm_script::Refused;

/// Prepares a text that is run at this place of the history. A refused pattern is added to those so far.
pub fn judge<B: Build>(
    alloc: Global,
    text: &str,
    place: u64,
    build: &mut B,
    refused: &mut Vec<Refused>,
) -> Result<Prepared, NoMemory>
    requires { length text.now < 2 ^ 32 }
    ensures text { IfOk result (λ p. p.text ≡ text.now) }
    ensures verdict { IfOk result (λ p. IsVerdict text.now p.verdict) }
    ensures built { IfOk result (λ p. IsTrue (is_built p)) }
    ensures grown { refused.new.items ≡ refused.old.items ++ fresh_by place result }
    ensures grew { Grew (B.log build.old) (B.log build.new) (refused_by text.now result) }
{
    refused.reserve(1)?;
    let prepared = prepare(alloc, text, build)?;
    if let Verdict::PatternRefused { pattern } = prepared.verdict {
        refused.push_reserved(Refused { place, pattern });
    }
    Ok(prepared)
}

/// Runs a text on the desk for the caller of this number, and gives what that is answered.
pub fn run_text<B: Build>(
    alloc: Global,
    desk: &mut Desk,
    who: u32,
    text: &str,
    build: &mut B,
    refused: &mut Vec<Refused>,
) -> Result<Answer, NoMemory>
    requires few { desk.old.steps < 2 ^ 48 }
    requires short { length text.now < 2 ^ 32 }
    ensures answer { refusal_at desk.old.steps refused.old.items ≡ None → (history : History) → Stands desk.old history →
        IfOk result (λ a. a ≡ answer (opening_of desk.old.plan) history (run_entry who refused.new.items history text.now)) }
    ensures stands { refusal_at desk.old.steps refused.old.items ≡ None → (history : History) → Stands desk.old history →
        OnOk result (Stands desk.new (run_entry who refused.new.items history text.now ∷ history)) }
    ensures steps { OnOk result (desk.new.steps ≡ desk.old.steps + 1) }
    ensures plan { OnOk result (desk.new.plan ≡ desk.old.plan) }
    ensures notes { Notes desk.old.steps (Some text.now ∷ []) refused.old.items refused.new.items (B.log build.old) (B.log build.new) }
{
    let text = judge(alloc, text, desk.steps(), build, refused)?;
    let step = Step::Run(text);
    let answer = desk.step(who, &step);
    drop(step);
    answer
}

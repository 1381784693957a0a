//! The script: its lines in their order.
ghost use Rattle.std.specs.Prelude.{◌≡◌, ◌+◌, ◌≤◌, IfErr, IfOk, Ok, length};
ghost use Rattle.wm_fields.specs.Split.{lines_of};
ghost use Rattle.wm_script.specs.Script.{or_standard, script, script_of, with_text, IsFitReading, IsFitScript, IsRefused, IsTaken, OnTaken};
ghost use Rattle.wm_script.specs.declared.script.ScriptRefusal.TheVariants as refusals;

use crate::line::Line;
use crate::reading::{Reading, said_of};
use std::alloc::Global;
use thiserror::Error;
use wm_base::{List, NoMemory as OutOfMemory, OutputPlan, Str};
use wm_binds::{Bind, Draft};
use wm_fields::first_line;
use wm_layouts::{Env, Plan};

/// A script: the plan with which its desk opens, what its keys run, and the lines of callers in order.
#[derive(Drop)]
pub struct Script {
    pub plan: Plan,
    pub binds: List<Bind>,
    pub lines: List<Line>,
}

/// Why bytes are no script.
#[derive(Clone, Copy, Debug, PartialEq, Eq, Error)]
pub enum ScriptRefusal {
    /// This line, counted from 1, is the first one outside the grammar.
    #[error("bad script, line {line}")]
    BadLine { line: u64 },

    /// Memory ran out.
    #[error("no memory")]
    NoMemory,
}

impl From<OutOfMemory> for ScriptRefusal {
    ghost from_gives = { λ _ e. e ≡ refusals.NoMemory };

    fn from(_error: OutOfMemory) -> ScriptRefusal {
        ScriptRefusal::NoMemory
    }
}

/// The script that the bytes are. Otherwise `BadLine` names the first line outside the grammar.
#[tactic(auto, using(crate::proofs::ReadingLemmas::refused, crate::proofs::ReadingLemmas::read, crate::proofs::ReadingLemmas::first_fit, crate::proofs::ReadingLemmas::script_fit))]
pub fn read_script(alloc: Global, bytes: &[u8]) -> Result<Script, ScriptRefusal>
    requires within { length bytes.now ≤ 16777216 }
    ensures ok { IfOk result (λ s. script bytes.now ≡ Ok s) }
    ensures fit { IfOk result IsFitScript }
    ensures few { IfOk result (λ s. length s.lines ≤ length bytes.now) }
    ensures err { IfErr result (IsRefused bytes.now) }
{
    let mut reading = Reading::new(alloc);
    let mut count = 0u64;
    let mut rest = bytes;
    while !rest.is_empty() {
        let (text, after) = first_line(rest);
        count += 1;
        if !take_text(alloc, &mut reading, text)? {
            return Err(ScriptRefusal::BadLine { line: count });
        }
        rest = after;
    }
    Ok(script_of(alloc, reading)?)
}

/// One more line. `false` exactly where it is outside the grammar.
#[tactic(auto, using(crate::proofs::ReadingLemmas::said_fit))]
fn take_text(alloc: Global, reading: &mut Reading, text: &[u8]) -> Result<bool, OutOfMemory>
    requires { length text.now ≤ 16777216 }
    ensures taken { IsTaken (with_text reading.old text.now) reading.new result }
    ensures keeps { IsFitReading reading.old → OnTaken result (IsFitReading reading.new) }
    ensures few { OnTaken result (length reading.new.lines ≤ length reading.old.lines + 1) }
{
    match said_of(alloc, text)? {
        Some(said) => reading.take(alloc, said),
        None => Ok(false),
    }
}

/// What was read makes a script.
fn script_of(alloc: Global, reading: Reading) -> Result<Script, OutOfMemory>
    ensures { IfOk result (λ s. s ≡ script_of reading) }
{
    let Reading {
        draft,
        lines,
        opened: _,
        begun: _,
    } = reading;
    let Draft {
        outputs,
        border,
        inner,
        outer,
        modes,
        homes,
        layouts,
        binds,
        block: _,
        room: _,
    } = draft;
    let outputs = or_standard(alloc, outputs)?;
    let env = Env {
        modes: modes.into_list(),
        layouts,
        homes,
    };
    let plan = Plan {
        outputs,
        border,
        inner,
        outer,
        env,
        config: Str::of(String::new(alloc)),
    };
    Ok(Script {
        plan,
        binds: binds.into_list(),
        lines,
    })
}

/// The outputs, or those of the standard plan where there are none.
fn or_standard(alloc: Global, outputs: List<OutputPlan>) -> Result<List<OutputPlan>, OutOfMemory>
    ensures { IfOk result (λ all. all ≡ or_standard outputs) }
{
    if !outputs.items().is_empty() {
        return Ok(outputs);
    }
    let Plan { outputs, .. } = Plan::standard(alloc)?;
    Ok(outputs)
}

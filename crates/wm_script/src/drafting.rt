//! What lines of the plan give.
ghost use Rattle.std.specs.Prelude.{◌≡◌, ◌&&◌, IfOk, is_some};
ghost use Rattle.wm_grammar.specs.Reading.{batch_of};
ghost use Rattle.wm_script.specs.Script.{bound_in, drafted, is_mode, IsTaken};
ghost use Rattle.wm_script.specs.declared.said.Said.TheVariants as saids;

use crate::said::Said;
use std::alloc::Global;
use wm_base::{NoMemory, OutputPlan, Str, Text};
use wm_binds::{Draft, LineRefusal, push};
use wm_grammar::{ReadRefusal, read};

/// One more line of the plan. `false` exactly where the plan may not have it, or it is none of these lines.
pub(crate) fn take_plan(alloc: Global, draft: &mut Draft, said: Said) -> Result<bool, NoMemory>
    ensures { IsTaken (drafted draft.old said) draft.new result }
{
    match said {
        Said::Output(output) => return add_output(alloc, draft, output),
        Said::Border(border) => draft.border = border,
        Said::Inner(width) => draft.inner = width,
        Said::Outer(width) => draft.outer = width,
        Said::Mode(name) => return add_mode(alloc, draft, name),
        Said::Bind { mode, chord, text } => return bind(alloc, draft, mode, chord, text),
        Said::Layout { name, layout } => push(alloc, &mut draft.layouts, (name, layout))?,
        other => {
            drop(other);
            return Ok(false);
        }
    }
    Ok(true)
}

/// One more output. `false` exactly where another one has its name, or there are eight.
fn add_output(alloc: Global, draft: &mut Draft, output: OutputPlan) -> Result<bool, NoMemory>
    ensures { IsTaken (drafted draft.old (saids.Output output)) draft.new result }
{
    match draft.add_output(alloc, output) {
        Ok(()) => Ok(true),
        Err(LineRefusal::NoMemory) => Err(NoMemory),
        Err(_) => Ok(false),
    }
}

/// There is this mode.
fn add_mode(alloc: Global, draft: &mut Draft, name: Text) -> Result<bool, NoMemory>
    ensures { IsTaken (drafted draft.old (saids.Mode name)) draft.new result }
{
    let added = draft.add_mode(alloc, &name);
    drop(name);
    added?;
    Ok(true)
}

/// The chord runs the text in the mode. `false` exactly where there is no such mode, or the text does not read.
fn bind(
    alloc: Global,
    draft: &mut Draft,
    mode: Text,
    chord: Text,
    text: Str,
) -> Result<bool, NoMemory>
    ensures { IsTaken (bound_in draft.old mode chord text) draft.new result }
{
    match may_bind(alloc, draft, &mode, &text) {
        Ok(true) => match draft.bind(alloc, mode, chord, text) {
            Ok(()) => Ok(true),
            Err(_) => Err(NoMemory),
        },
        other => {
            drop(mode);
            drop(chord);
            drop(text);
            other
        }
    }
}

/// Whether there is the mode, and the text reads.
fn may_bind(alloc: Global, draft: &Draft, mode: &Text, text: &Str) -> Result<bool, NoMemory>
    ensures { IfOk result (λ may. may ≡ (is_mode draft.now mode.now && is_some (batch_of text.now))) }
{
    if mode.as_str() != "default" && !draft.modes.has(mode) {
        return Ok(false);
    }
    does_read(alloc, text.as_str())
}

/// Whether some batch is spelled so.
fn does_read(alloc: Global, text: &str) -> Result<bool, NoMemory>
    ensures { IfOk result (λ reads. reads ≡ is_some (batch_of text.now)) }
{
    match read(alloc, text) {
        Ok(batch) => {
            drop(batch);
            Ok(true)
        }
        Err(ReadRefusal::Bad { at: _ }) => Ok(false),
        Err(ReadRefusal::NoMemory) => Err(NoMemory),
    }
}

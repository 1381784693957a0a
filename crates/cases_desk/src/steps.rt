//! The steps of lines: those that a client sends, texts, keys, and windows that bring a text.
ghost use Rattle.std.specs.Prelude.{◌≡◌, IfOk, IsTrue};
ghost use Rattle.std.specs.List.{list_all};
ghost use Rattle.wm_history.specs.Sizes.{IsFitStep, IsFitThen};
ghost use Rattle.wm_history.specs.declared.step.Choice.{Choice};
ghost use Rattle.wm_criteria.specs.Prepared.{is_built};

use case_data::{Fault, Words};
use std::alloc::Global;
use wm_base::{List, Text};
use wm_binds::Bind;
use wm_core::{Choice, Step};
use wm_criteria::{Prepared, RegexBuild, prepare};

/// How long a line of a client is at most.
const LONGEST: usize = 16_777_216;

/// The step of `run TEXT`, `key CHORD`, `map .. then TEXT`, or of a client's line.
pub fn step_in(alloc: Global, line: &str, binds: &[Bind]) -> Result<Step, Fault>
    ensures { IfOk result (λ step. IsFitStep step) }
{
    let mut words = Words::of(alloc, line);
    match words.word() {
        "run" => Ok(Step::Run(prepared(alloc, words.rest())?)),
        "key" => key_step(alloc, words.last_text()?, binds),
        "map" => map_step(alloc, &mut Words::of(alloc, line)),
        _ => client_step(alloc, line),
    }
}

/// A text of commands with its patterns.
fn prepared(alloc: Global, text: &str) -> Result<Prepared, Fault>
    ensures { IfOk result (λ p. IsTrue (is_built p)) }
{
    if text.len() > LONGEST {
        return Err(Fault::BadLine);
    }
    Ok(prepare(alloc, text, &mut RegexBuild::new())?)
}

/// What a client's line does.
fn client_step(alloc: Global, line: &str) -> Result<Step, Fault>
    ensures { IfOk result (λ step. IsFitStep step) }
{
    if line.len() > LONGEST {
        return Err(Fault::BadLine);
    }
    match wm_lines::client_step(alloc, line.as_bytes())? {
        Some(step) => Ok(step),
        None => Err(Fault::BadLine),
    }
}

/// The step that opens a window, which brings what stands behind `then`, if anything.
fn map_step(alloc: Global, words: &mut Words<'_>) -> Result<Step, Fault>
    ensures { IfOk result (λ step. IsFitStep step) }
{
    let line = words.until(" then ");
    let text = words.rest();
    let step = client_step(alloc, line)?;
    match then_of(alloc, text) {
        Ok(then) => with_then(step, then),
        Err(fault) => {
            drop(step);
            Err(fault)
        }
    }
}

/// The text that a window brings, if there is one.
fn then_of(alloc: Global, text: &str) -> Result<Option<Prepared>, Fault>
    ensures { IfOk result IsFitThen }
{
    if text.is_empty() {
        return Ok(None);
    }
    Ok(Some(prepared(alloc, text)?))
}

/// The same step, where it opens a window, with this text.
fn with_then(step: Step, then: Option<Prepared>) -> Result<Step, Fault>
    requires step { IsFitStep step }
    requires then { IsFitThen then }
    ensures { IfOk result (λ step. IsFitStep step) }
{
    match step {
        Step::Map { props, buffer, .. } => Ok(Step::Map {
            props,
            buffer,
            then,
        }),
        other => {
            drop(other);
            drop(then);
            Err(Fault::BadLine)
        }
    }
}

/// The step that presses a chord, with a choice for each binding of it.
fn key_step(alloc: Global, chord: Text, binds: &[Bind]) -> Result<Step, Fault>
    ensures { IfOk result (λ step. IsFitStep step) }
{
    match choices_of(alloc, &chord, binds) {
        Ok(choices) => Ok(Step::Key {
            chord,
            choices: List::of(choices),
        }),
        Err(fault) => {
            drop(chord);
            Err(fault)
        }
    }
}

/// A choice for each binding of the chord, in order.
fn choices_of(alloc: Global, chord: &Text, binds: &[Bind]) -> Result<Vec<Choice>, Fault>
    ensures { IfOk result (λ choices. IsTrue (list_all (λ (c : Choice). is_built c.prepared) choices.items)) }
{
    let mut choices = Vec::new(alloc);
    for bind in binds {
        if bind.chord.as_str() == chord.as_str() {
            choices.push(choice_of(alloc, bind)?)?;
        }
    }
    if are_built(&choices) {
        Ok(choices)
    } else {
        drop(choices);
        Err(Fault::BadLine)
    }
}

/// What a binding does in its mode.
fn choice_of(alloc: Global, bind: &Bind) -> Result<Choice, Fault> {
    let mode = bind.mode.clone()?;
    match prepared(alloc, bind.text.as_str()) {
        Ok(prepared) => Ok(Choice { mode, prepared }),
        Err(fault) => {
            drop(mode);
            Err(fault)
        }
    }
}

/// Whether the patterns of all choices are built.
fn are_built(choices: &[Choice]) -> bool
    ensures { result ≡ list_all (λ (c : Choice). is_built c.prepared) choices.now }
{
    match choices {
        [] => true,
        [first, rest @ ..] => first.prepared.built() && are_built(rest),
    }
}

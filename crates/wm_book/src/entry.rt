//! Steps as a recorded desk stores them.
ghost use Rattle.std.specs.Prelude.{◌≡◌, map, IfOk};
ghost use Rattle.wm_core.specs.Entries.{bare, bare_choice, bare_if_some, bare_step};
ghost use Rattle.wm_history.specs.declared.step.Step.TheVariants as steps;

use std::alloc::Global;
use wm_base::{Buffer, ConId, Edges, List, NoMemory, Props, Str, Text};
use wm_core::{Choice, Step};
use wm_criteria::Prepared;
use wm_json::copy_str;
use wm_layouts::copy_output;
use wm_tree::copy_props;

/// A step that was taken, without built patterns, and the number of its caller.
#[derive(Drop)]
pub struct Entry {
    pub who: u32,
    pub step: Step,
}

/// The text without built patterns.
#[tactic(auto, using(crate::proofs::RecordLemmas::same_bare))]
fn bare_text(alloc: Global, text: &Prepared) -> Result<Prepared, NoMemory>
    ensures { IfOk result (λ copy. copy ≡ bare text.now) }
{
    text.bare(alloc)
}

/// The step without built patterns.
pub(crate) fn bare_copy(alloc: Global, step: &Step) -> Result<Step, NoMemory>
    ensures { IfOk result (λ copy. copy ≡ bare_step step.now) }
{
    match step {
        Step::Run(text) => Ok(Step::Run(bare_text(alloc, text)?)),
        Step::Map {
            props,
            buffer,
            then,
        } => map_copy(alloc, props, *buffer, then),
        Step::Retitle { con, title } => retitle_copy(*con, title),
        Step::Urgent { con, on } => Ok(Step::Urgent { con: *con, on: *on }),
        Step::Close { con } => Ok(Step::Close { con: *con }),
        Step::Gone => Ok(Step::Gone),
        Step::Client(step) => Ok(Step::Client(*step)),
        Step::OutputAdd { plan } => Ok(Step::OutputAdd {
            plan: copy_output(plan)?,
        }),
        Step::OutputRemove { name } => Ok(Step::OutputRemove {
            name: name.clone()?,
        }),
        Step::Reserve { name, edges } => reserve_copy(name, *edges),
        Step::Tick { payload } => tick_copy(alloc, payload),
        Step::Key { chord, choices } => key_copy(alloc, chord, choices.items()),
    }
}

fn map_copy(
    alloc: Global,
    props: &Props,
    buffer: Buffer,
    then: &Option<Prepared>,
) -> Result<Step, NoMemory>
    ensures { IfOk result (λ copy. copy ≡ steps.Map props.now buffer (bare_if_some then.now)) }
{
    let then = match then {
        Some(text) => Some(bare_text(alloc, text)?),
        None => None,
    };
    Ok(Step::Map {
        props: copy_props(props)?,
        buffer,
        then,
    })
}

fn choice_copy(alloc: Global, choice: &Choice) -> Result<Choice, NoMemory>
    ensures { IfOk result (λ copy. copy ≡ bare_choice choice.now) }
{
    let mode = choice.mode.clone()?;
    let prepared = bare_text(alloc, &choice.prepared)?;
    Ok(Choice { mode, prepared })
}

fn key_copy(alloc: Global, chord: &Text, choices: &[Choice]) -> Result<Step, NoMemory>
    ensures { IfOk result (λ copy. copy ≡ steps.Key chord.now (map bare_choice choices.now)) }
{
    let chord = chord.clone()?;
    let choices = List::of(choices_copy(alloc, choices)?);
    Ok(Step::Key { chord, choices })
}

fn choices_copy(alloc: Global, choices: &[Choice]) -> Result<Vec<Choice>, NoMemory>
    ensures { IfOk result (λ copy. copy.items ≡ map bare_choice choices.now) }
{
    let mut copy = Vec::with_capacity(alloc, choices.len())?;
    for choice in choices {
        copy.push(choice_copy(alloc, choice)?)?;
    }
    Ok(copy)
}

fn retitle_copy(con: ConId, title: &Text) -> Result<Step, NoMemory>
    ensures { IfOk result (λ copy. copy ≡ steps.Retitle con title.now) }
{
    Ok(Step::Retitle {
        con,
        title: title.clone()?,
    })
}

fn tick_copy(alloc: Global, payload: &Str) -> Result<Step, NoMemory>
    ensures { IfOk result (λ copy. copy ≡ steps.Tick payload.now) }
{
    let payload = copy_str(alloc, payload)?;
    Ok(Step::Tick { payload })
}

fn reserve_copy(name: &Text, edges: Edges) -> Result<Step, NoMemory>
    ensures { IfOk result (λ copy. copy ≡ steps.Reserve name.now edges) }
{
    Ok(Step::Reserve {
        name: name.clone()?,
        edges,
    })
}

//! Copies of plans.
ghost use Rattle.std.specs.Prelude.{◌≡◌, IfOk};

use crate::plan::{Env, Plan};
use std::alloc::{AllocError, Global};
use wm_base::{List, NoMemory, OutputPlan, Str, Text};
use wm_saved::SavedLayout;

/// A copy of the plan of an output.
pub fn copy_output(output: &OutputPlan) -> Result<OutputPlan, AllocError>
    ensures { IfOk result (λ copy. copy ≡ output.now) }
{
    Ok(OutputPlan {
        name: output.name.clone()?,
        rect: output.rect,
        reserved: output.reserved,
    })
}

fn copy_outputs(alloc: Global, outputs: &[OutputPlan]) -> Result<List<OutputPlan>, AllocError>
    ensures { IfOk result (λ copy. copy ≡ outputs.now) }
{
    let mut copy = Vec::with_capacity(alloc, outputs.len())?;
    for output in outputs {
        copy.push(copy_output(output)?)?;
    }
    Ok(List::of(copy))
}

fn copy_texts(alloc: Global, texts: &[Text]) -> Result<List<Text>, AllocError>
    ensures { IfOk result (λ copy. copy ≡ texts.now) }
{
    let mut copy = Vec::with_capacity(alloc, texts.len())?;
    for text in texts {
        copy.push(text.clone()?)?;
    }
    Ok(List::of(copy))
}

fn copy_pair(pair: &(Text, Text)) -> Result<(Text, Text), AllocError>
    ensures { IfOk result (λ copy. copy ≡ pair.now) }
{
    let first = pair.0.clone()?;
    let second = pair.1.clone()?;
    Ok((first, second))
}

fn copy_pairs(alloc: Global, pairs: &[(Text, Text)]) -> Result<List<(Text, Text)>, AllocError>
    ensures { IfOk result (λ copy. copy ≡ pairs.now) }
{
    let mut copy = Vec::with_capacity(alloc, pairs.len())?;
    for pair in pairs {
        copy.push(copy_pair(pair)?)?;
    }
    Ok(List::of(copy))
}

fn copy_layout(
    alloc: Global,
    named: &(Text, SavedLayout),
) -> Result<(Text, SavedLayout), AllocError>
    ensures { IfOk result (λ copy. copy ≡ named.now) }
{
    let name = named.0.clone()?;
    match named.1.copy(alloc) {
        Ok(layout) => Ok((name, layout)),
        Err(NoMemory) => Err(AllocError),
    }
}

fn copy_layouts(
    alloc: Global,
    layouts: &[(Text, SavedLayout)],
) -> Result<List<(Text, SavedLayout)>, AllocError>
    ensures { IfOk result (λ copy. copy ≡ layouts.now) }
{
    let mut copy = Vec::with_capacity(alloc, layouts.len())?;
    for named in layouts {
        copy.push(copy_layout(alloc, named)?)?;
    }
    Ok(List::of(copy))
}

fn copy_text(alloc: Global, text: &str) -> Result<Str, AllocError>
    ensures { IfOk result (λ copy. copy ≡ text.now) }
{
    Ok(Str::of(String::from_str(alloc, text)?))
}

impl Env {
    /// A copy of what commands find beside the tree.
    pub fn copy(&self, alloc: Global) -> Result<Env, AllocError>
        ensures { IfOk result (λ copy. copy ≡ self.now) }
    {
        let modes = copy_texts(alloc, self.modes.items())?;
        let homes = copy_pairs(alloc, self.homes.items())?;
        let layouts = copy_layouts(alloc, self.layouts.items())?;
        Ok(Env {
            modes,
            layouts,
            homes,
        })
    }
}

impl Plan {
    /// A copy of the plan.
    pub fn copy(&self, alloc: Global) -> Result<Plan, AllocError>
        ensures { IfOk result (λ copy. copy ≡ self.now) }
    {
        let config = copy_text(alloc, self.config.as_str())?;
        let outputs = copy_outputs(alloc, self.outputs.items())?;
        match self.env.copy(alloc) {
            Ok(env) => Ok(Plan {
                outputs,
                border: self.border,
                inner: self.inner,
                outer: self.outer,
                env,
                config,
            }),
            Err(error) => {
                drop(outputs);
                Err(error)
            }
        }
    }
}

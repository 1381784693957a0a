//! Cases of plans: whether their limits hold.
use crate::desk::NO_EDGES;
use case_data::{Fault, Words};
use std::alloc::Global;
use std::mem;
use wm_base::{Border, Edges, List, OutputPlan};
use wm_layouts::{Plan, is_fit_rect};

/// Whether an output may have a rectangle.
pub fn tell_fit(words: &mut Words<'_>, out: &mut String) -> Result<(), Fault> {
    let rect = words.rect()?;
    Ok(out.push_str(if is_fit_rect(rect) {
        "  fit\n"
    } else {
        "  not fit\n"
    })?)
}

/// Whether the plan is sound that has the parts with ` | ` between them: outputs, `inner N`, `outer N`, `pixel N`,
/// `normal N`. Without any output it has none.
pub fn tell_plan(words: &mut Words<'_>, out: &mut String) -> Result<(), Fault> {
    let mut plan = Plan::standard(words.alloc)?;
    let done = tell_changed(&mut plan, words, out);
    drop(plan);
    done
}

/// Changes a plan as the parts say, and tells whether it is sound then.
fn tell_changed(plan: &mut Plan, words: &mut Words<'_>, out: &mut String) -> Result<(), Fault> {
    change_all(plan, words)?;
    Ok(out.push_str(if plan.sound() {
        "  sound\n"
    } else {
        "  not sound\n"
    })?)
}

fn change_all(plan: &mut Plan, words: &mut Words<'_>) -> Result<(), Fault> {
    let data = words.rest();
    if data != "standard" {
        put_outputs(words.alloc, plan, data)?;
    }
    for part in data.split(" | ") {
        change(plan, &mut Words::of(words.alloc, part))?;
    }
    Ok(())
}

/// Gives a plan the outputs among the parts.
fn put_outputs(alloc: Global, plan: &mut Plan, data: &str) -> Result<(), Fault> {
    let outputs = List::of(outputs_of(alloc, data)?);
    drop(mem::replace(&mut plan.outputs, outputs));
    Ok(())
}

/// Sets a gap or the border of a plan. Other parts change nothing.
fn change(plan: &mut Plan, words: &mut Words<'_>) -> Result<(), Fault> {
    match words.word() {
        "inner" => plan.inner = words.number()?,
        "outer" => plan.outer = words.number()?,
        "pixel" => plan.border = Border::Pixel(words.number()?),
        "normal" => plan.border = Border::Normal(words.number()?),
        _ => {}
    }
    Ok(())
}

/// The outputs among the parts: `output NAME X,Y WxH`, with ` keeps TOP RIGHT BOTTOM LEFT` or without.
fn outputs_of(alloc: Global, data: &str) -> Result<Vec<OutputPlan>, Fault> {
    let mut outputs = Vec::new(alloc);
    for part in data.split(" | ") {
        let mut words = Words::of(alloc, part);
        if words.word() == "output" {
            outputs.push(output_of(&mut words)?)?;
        }
    }
    Ok(outputs)
}

fn output_of(words: &mut Words<'_>) -> Result<OutputPlan, Fault> {
    let name = words.text()?;
    let rect = words.rect()?;
    Ok(OutputPlan {
        name,
        rect,
        reserved: reserved(words)?,
    })
}

fn reserved(words: &mut Words<'_>) -> Result<Edges, Fault> {
    match words.word() {
        "" => Ok(NO_EDGES),
        "keeps" => words.edges(),
        _ => Err(Fault::BadLine),
    }
}

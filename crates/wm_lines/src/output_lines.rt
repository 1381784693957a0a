//! Lines of outputs that come, go, and are partly reserved for bars, and of what all are told.
ghost use Rattle.std.specs.Prelude.{◌≡◌, IfOk, IfSome};
ghost use Rattle.wm_layouts.specs.Plan.{IsFitEdges};
ghost use Rattle.wm_lines.specs.Lines.{added_at, output_at, output_line_of, removed_at, reserved_at, tick_at, IsFitLine};

use std::alloc::Global;
use wm_base::{Edges, NoMemory, OutputPlan};
use wm_core::Step;
use wm_fields::{at_end, edges, gap, long_quoted, name, rect, word_then};

/// What a line says of outputs, or tells all.
pub fn output_line(alloc: Global, text: &[u8]) -> Result<Option<Step>, NoMemory>
    ensures value { IfOk result (λ step. step ≡ output_line_of text.now) }
    ensures fit { IfOk result (λ step. IfSome step IsFitLine) }
{
    if let Some(rest) = word_then(text, b"output-add") {
        return added_line(alloc, rest);
    }
    if let Some(rest) = word_then(text, b"output-remove") {
        return removed_line(alloc, rest);
    }
    if let Some(rest) = word_then(text, b"reserve") {
        return reserved_line(alloc, rest);
    }
    match word_then(text, b"tick") {
        Some(rest) => tick_line(alloc, rest),
        None => Ok(None),
    }
}

/// An output of which nothing is reserved, `NAME X,Y WxH`, to the end of the line.
pub fn output_in(alloc: Global, text: &[u8]) -> Result<Option<OutputPlan>, NoMemory>
    ensures value { IfOk result (λ plan. plan ≡ output_at text.now) }
    ensures edges { IfOk result (λ plan. IfSome plan (λ o. IsFitEdges o.reserved)) }
{
    let Some((name, rest)) = name(alloc, text)? else {
        return Ok(None);
    };
    let Some(rest) = gap(rest) else {
        return Ok(None);
    };
    let Some((rect, rest)) = rect(rest) else {
        return Ok(None);
    };
    let reserved = Edges {
        top: 0,
        right: 0,
        bottom: 0,
        left: 0,
    };
    let plan = OutputPlan {
        name,
        rect,
        reserved,
    };
    Ok(at_end(rest, plan))
}

/// An output that is added.
fn added_line(alloc: Global, text: &[u8]) -> Result<Option<Step>, NoMemory>
    ensures value { IfOk result (λ step. step ≡ added_at text.now) }
    ensures fit { IfOk result (λ step. IfSome step IsFitLine) }
{
    match output_in(alloc, text)? {
        Some(plan) => Ok(Some(Step::OutputAdd { plan })),
        None => Ok(None),
    }
}

/// `NAME`, to the end of the line.
fn removed_line(alloc: Global, text: &[u8]) -> Result<Option<Step>, NoMemory>
    ensures value { IfOk result (λ step. step ≡ removed_at text.now) }
    ensures fit { IfOk result (λ step. IfSome step IsFitLine) }
{
    match name(alloc, text)? {
        Some((name, rest)) => Ok(at_end(rest, Step::OutputRemove { name })),
        None => Ok(None),
    }
}

/// `NAME TOP RIGHT BOTTOM LEFT`, to the end of the line.
fn reserved_line(alloc: Global, text: &[u8]) -> Result<Option<Step>, NoMemory>
    ensures value { IfOk result (λ step. step ≡ reserved_at text.now) }
    ensures fit { IfOk result (λ step. IfSome step IsFitLine) }
{
    let Some((name, rest)) = name(alloc, text)? else {
        return Ok(None);
    };
    match edges(rest) {
        Some((edges, rest)) => Ok(at_end(rest, Step::Reserve { name, edges })),
        None => Ok(None),
    }
}

/// `"T"`, to the end of the line.
fn tick_line(alloc: Global, text: &[u8]) -> Result<Option<Step>, NoMemory>
    ensures value { IfOk result (λ step. step ≡ tick_at text.now) }
    ensures fit { IfOk result (λ step. IfSome step IsFitLine) }
{
    match long_quoted(alloc, text)? {
        Some((payload, rest)) => Ok(at_end(rest, Step::Tick { payload })),
        None => Ok(None),
    }
}

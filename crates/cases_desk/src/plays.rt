//! A desk that a configuration opens, and the lines that are taken on it.
ghost use Rattle.wm_history.specs.Sizes.{IsFitStep};
ghost use Rattle.wm_layouts.specs.Plan.{IsSound};

use crate::seen::{push_seen, push_told};
use crate::steps::step_in;
use case_data::{Fault, Words, string_of};
use std::alloc::Global;
use wm_binds::{Bind, Config};
use wm_core::{Desk, Step};
use wm_layouts::Plan;

/// How many steps are taken at most.
const MOST: u64 = 65_536;

/// From `CONFIG|LINES`, what each line is answered, or what is seen by it.
pub fn tell_desk(words: &mut Words<'_>, out: &mut String) -> Result<(), Fault> {
    let alloc = words.alloc;
    let text = string_of(alloc, words.until("|"))?;
    let lines = string_of(alloc, words.rest())?;
    match Config::read(alloc, text.as_str()) {
        Ok(config) => open(alloc, config, lines.as_str(), out),
        Err(refusal) => Ok(write!(out, "  {refusal}\n")?),
    }
}

/// Opens the desk of a configuration, and takes the lines.
fn open(alloc: Global, config: Config, lines: &str, out: &mut String) -> Result<(), Fault>
    requires { IsSound config.plan }
{
    let Config { plan, binds } = config;
    let told = open_plan(alloc, plan, binds.items(), lines, out);
    drop(binds);
    told
}

/// Opens the desk of a plan, and takes the lines.
fn open_plan(
    alloc: Global,
    plan: Plan,
    binds: &[Bind],
    lines: &str,
    out: &mut String,
) -> Result<(), Fault>
    requires { IsSound plan }
{
    let mut desk = Desk::start(alloc, plan)?;
    let told = take_lines(alloc, &mut desk, binds, lines, out);
    drop(desk);
    told
}

/// Takes the lines, one after another.
fn take_lines(
    alloc: Global,
    desk: &mut Desk,
    binds: &[Bind],
    lines: &str,
    out: &mut String,
) -> Result<(), Fault> {
    for line in lines.split("\n") {
        take_line(alloc, desk, binds, line, out)?;
    }
    Ok(())
}

/// Takes the step of a line, or tells what is seen by `see WHAT`.
fn take_line(
    alloc: Global,
    desk: &mut Desk,
    binds: &[Bind],
    line: &str,
    out: &mut String,
) -> Result<(), Fault> {
    let mut words = Words::of(alloc, line);
    if words.word() == "see" {
        return push_seen(desk, words.rest(), out);
    }
    let step = step_in(alloc, line, binds)?;
    take(alloc, desk, step, out)
}

/// Takes a step, and tells its answer.
fn take(alloc: Global, desk: &mut Desk, step: Step, out: &mut String) -> Result<(), Fault>
    requires { IsFitStep step }
{
    if desk.steps() >= MOST {
        drop(step);
        return Err(Fault::BadLine);
    }
    let answer = desk.step(0, &step);
    drop(step);
    push_told(alloc, &answer?, out)
}

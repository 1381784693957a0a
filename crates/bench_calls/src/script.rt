//! The steps that a number makes, as the lines of a script.
ghost use Rattle.wm_history.specs.Sizes.{IsFitStep};

use crate::desk::started;
use crate::fault::Fault;
use std::alloc::Global;
use wm_core::{ClientStep, Desk, Step};
use wm_generate::{drawn, next, step_of};

/// Writes so many steps of those that a number makes, a line each.
pub fn write(rt: &HostRuntime, number: &str, count: &str) -> Result<(), Fault> {
    let (Ok(number), Ok(count)) = (number.parse::<u32>(), count.parse::<u32>()) else {
        return Err(Fault::BadWords);
    };
    let mut desk = started(rt.alloc())?;
    let written = write_steps(rt, &mut desk, u64::from(number), count);
    drop(desk);
    written
}

/// Writes the steps that come after a number of the sequence, and takes them.
fn write_steps(rt: &HostRuntime, desk: &mut Desk, seed: u64, count: u32) -> Result<(), Fault> {
    let mut number = seed;
    for _ in 0..count {
        number = next(number);
        let step = step_of(rt.alloc(), desk, drawn(number))?;
        let written = write_step(rt, desk, &step);
        drop(step);
        written?;
    }
    Ok(())
}

/// Writes a step as a line, and takes it for caller 0.
fn write_step(rt: &HostRuntime, desk: &mut Desk, step: &Step) -> Result<(), Fault>
    requires { IsFitStep step.now }
{
    if desk.steps() >= 1 << 48 {
        return Err(Fault::Refused);
    }
    let line = line_of(rt.alloc(), step)?;
    println!(rt; "{line}")?;
    drop(desk.step(0, step)?);
    Ok(())
}

/// The line of a step of one of the kinds that numbers make.
fn line_of(alloc: Global, step: &Step) -> Result<String, Fault> {
    let mut line = String::new(alloc);
    match step {
        Step::Run(prepared) => write!(line, "run {}", prepared.text.as_str())?,
        Step::Map { buffer, .. } => {
            let (ink, size) = (buffer.ink.0, buffer.size);
            write!(line, "map {ink:06x} {}x{} title=\"w\"", size.w, size.h)?;
        }
        Step::Close { con } => write!(line, "close {}", con.0)?,
        Step::Client(client) => write_client(&mut line, client)?,
        Step::Tick { .. } => line.push_str("tick \"\"")?,
        _ => return Err(Fault::Refused),
    }
    Ok(line)
}

/// Adds the line of a step of a client or a timer.
fn write_client(line: &mut String, step: &ClientStep) -> Result<(), Fault> {
    match step {
        ClientStep::Ack { con, serial } => write!(line, "ack {} {serial}", con.0)?,
        ClientStep::Buffer { con, buffer } => {
            let (ink, size) = (buffer.ink.0, buffer.size);
            write!(line, "buffer {} {ink:06x} {}x{}", con.0, size.w, size.h)?;
        }
        ClientStep::Deadline { number } => write!(line, "deadline {number}")?,
    }
    Ok(())
}

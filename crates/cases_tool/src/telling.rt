//! What is printed of a case: its name, how its run ended, and what it wrote.
use crate::case::Case;
use crate::lines::push_lines;
use crate::pictures::push_picture;
use crate::replies::push_replies;
use crate::runs::{Ran, run, run_without_faults};
use std::alloc::AllocError;
use std::io;
use wm_tool::{Refused, Status};

/// How many bytes are printed as they are.
const MOST: usize = 16_384;

/// Prints a case.
pub fn print_case(rt: &HostRuntime, case: &Case) -> io::Result<()> {
    let mut out = String::new(rt.alloc());
    push_case(&mut out, case)?;
    print!(rt; "{out}")
}

fn push_case(out: &mut String, case: &Case) -> Result<(), AllocError> {
    let name = case.name.as_str();
    write!(out, "== {name}\n")?;
    let ran = run(case)?;
    push_ran(out, case, &ran)
}

/// Appends how a run ended, and what it wrote.
fn push_ran(out: &mut String, case: &Case, ran: &Ran) -> Result<(), AllocError> {
    push_status(out, &ran.status)?;
    push_written(out, case, &ran.written)
}

/// Appends the number of a status, its text, and the patterns that were refused.
fn push_status(out: &mut String, status: &Status) -> Result<(), AllocError> {
    let number = status.number();
    write!(out, "status {number}")?;
    match status {
        Status::Done { refused } => {
            out.push_str("\n")?;
            push_refused(out, refused.items())
        }
        _ => write!(out, " {status}\n"),
    }
}

/// Appends the patterns that were refused, each with its place.
fn push_refused(out: &mut String, refused: &[Refused]) -> Result<(), AllocError> {
    for pattern in refused {
        let place = pattern.place;
        let pattern = pattern.pattern;
        write!(out, "refused {place} {pattern}\n")?;
    }
    Ok(())
}

/// Appends what was written.
fn push_written(out: &mut String, case: &Case, written: &[u8]) -> Result<(), AllocError> {
    if !case.write_faults.is_empty() && written.len() > MOST {
        return push_part(out, case, written);
    }
    match case.words.as_slice() {
        [word] if word.as_str() == "ipc" => push_replies(out, written),
        [word] if word.as_str() == "draw" => push_picture(out, written),
        _ => push_lines(out, written),
    }
}

/// Appends whether this is a first part of what the case writes where no writing fails, and how long it is.
fn push_part(out: &mut String, case: &Case, part: &[u8]) -> Result<(), AllocError> {
    let whole = run_without_faults(case)?;
    let length = part.len();
    if whole.written.starts_with(part) && length < whole.written.len() {
        write!(out, "  a first part of that, {length} bytes\n")
    } else {
        out.push_str("  no first part\n")
    }
}

//! The program cases_tool: runs of the tool over objects in memory, as files of cases ask for them, and all that they
//! write.
#![tactic(auto)]

mod case;
mod fields;
mod lines;
mod pictures;
mod replies;
mod runs;
mod slow;
mod telling;

use case::Case;
use std::{env, fs, io};
use telling::print_case;

fn main(rt: HostRuntime) -> io::Result<()> {
    for name in env::args(&rt)?.skip(1) {
        print_file(&rt, name.as_str())?;
    }
    Ok(())
}

/// Prints what each case of a file writes.
fn print_file(rt: &HostRuntime, name: &str) -> io::Result<()> {
    let text = fs::read_to_string(rt, name)?;
    print_cases(rt, text.as_str())
}

fn print_cases(rt: &HostRuntime, text: &str) -> io::Result<()> {
    let mut case = Case::new(rt.alloc());
    for line in text.lines() {
        take_line(rt, &mut case, line)?;
    }
    Ok(())
}

/// Adds a line of a file to the case, or prints the case that it ends.
fn take_line(rt: &HostRuntime, case: &mut Case, line: &str) -> io::Result<()> {
    if line.is_empty() || line.starts_with("#") {
        return Ok(());
    }
    if line == "end" {
        print_case(rt, case)?;
        *case = Case::new(rt.alloc());
        return Ok(());
    }
    if !case.take(line)? {
        println!(rt; "bad line: {line}")?;
    }
    Ok(())
}

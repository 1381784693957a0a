//! The program cases_desk: what steps do on a desk that a configuration opens, from files of such cases.
#![tactic(auto)]

mod nodes;
mod plays;
mod seen;
mod steps;

use case_data::{Fault, Words};
use plays::tell_desk;
use std::{env, fs};

fn main(rt: HostRuntime) -> Result<(), Fault> {
    for name in env::args(&rt)?.skip(1) {
        tell_file(&rt, name.as_str())?;
    }
    Ok(())
}

/// Tells the cases of a file.
fn tell_file(rt: &HostRuntime, name: &str) -> Result<(), Fault> {
    let text = fs::read_to_string(rt, name)?;
    tell_lines(rt, text.as_str())
}

/// Tells each line of a file, but for empty ones and those that begin with `#`.
fn tell_lines(rt: &HostRuntime, text: &str) -> Result<(), Fault> {
    for line in text.lines() {
        if !line.is_empty() && !line.starts_with("#") {
            tell_line(rt, line)?;
        }
    }
    Ok(())
}

/// Prints a line and what came of it.
fn tell_line(rt: &HostRuntime, line: &str) -> Result<(), Fault> {
    let mut out = String::new(rt.alloc());
    tell_case(&mut Words::of(rt.alloc(), line), &mut out)?;
    print!(rt; "{line}\n{out}")?;
    Ok(())
}

/// Writes what comes of the case of a line, or that the line is none.
fn tell_case(words: &mut Words<'_>, out: &mut String) -> Result<(), Fault> {
    match tell(words, out) {
        Err(Fault::BadLine) => Ok(out.push_str("  bad line\n")?),
        answer => answer,
    }
}

/// Writes what comes of the case of a line. Its first word says whether it is one.
fn tell(words: &mut Words<'_>, out: &mut String) -> Result<(), Fault> {
    match words.word() {
        "case" => Ok(()),
        "desk" => tell_desk(words, out),
        _ => Err(Fault::BadLine),
    }
}

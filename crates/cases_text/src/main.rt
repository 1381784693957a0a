//! The program cases_text: what texts of commands and criteria read as, print as and match, which plans are sound, and
//! what configurations give, from files of such cases.
#![tactic(auto)]

mod configs;
mod desk;
mod form;
mod matched;
mod patterns;
mod plans;
mod prepared;
mod reads;

use case_data::{Fault, Words};
use std::{env, fs};

fn main(rt: HostRuntime) -> Result<(), Fault> {
    for name in env::args(&rt)?.skip(1) {
        tell_file(&rt, name.as_str())?;
    }
    Ok(())
}

/// Tells the cases of a file.
fn tell_file(rt: &HostRuntime, name: &str) -> Result<(), Fault> {
    let text = fs::read_to_string(rt, name)?;
    tell_lines(rt, text.as_str())
}

/// Tells each line of a file, but for empty ones and those that begin with `#`.
fn tell_lines(rt: &HostRuntime, text: &str) -> Result<(), Fault> {
    for line in text.lines() {
        if !line.is_empty() && !line.starts_with("#") {
            tell_line(rt, line)?;
        }
    }
    Ok(())
}

/// Prints a line and what came of it.
fn tell_line(rt: &HostRuntime, line: &str) -> Result<(), Fault> {
    let mut out = String::new(rt.alloc());
    tell_case(&mut Words::of(rt.alloc(), line), &mut out)?;
    print!(rt; "{line}\n{out}")?;
    Ok(())
}

/// Writes what comes of the case of a line, or that the line is none.
fn tell_case(words: &mut Words<'_>, out: &mut String) -> Result<(), Fault> {
    match tell(words, out) {
        Err(Fault::BadLine) => Ok(out.push_str("  bad line\n")?),
        answer => answer,
    }
}

/// Writes what comes of the case of a line. Its first word says what is called.
fn tell(words: &mut Words<'_>, out: &mut String) -> Result<(), Fault> {
    match words.word() {
        "case" => Ok(()),
        "reads" => reads::tell_one(words, out),
        "both" => reads::tell_both(words, out),
        "long" => reads::tell_long(words, out),
        "plain" => patterns::tell_plain(words, out),
        word => tell_whole(word, words, out),
    }
}

/// Writes what comes of a case of prepared texts, of plans or of matching.
fn tell_whole(word: &str, words: &mut Words<'_>, out: &mut String) -> Result<(), Fault> {
    match word {
        "prepares" => prepared::tell_prepared(words, out),
        "prepares_long" => prepared::tell_long(words, out),
        "plan" => plans::tell_plan(words, out),
        "rect" => plans::tell_fit(words, out),
        "config" => configs::tell_config(words, out),
        "matches" => matched::tell_matches(words, out),
        _ => Err(Fault::BadLine),
    }
}

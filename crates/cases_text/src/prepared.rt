//! Cases of preparing: the verdict on a text, and which of its patterns are built, by two builds.
ghost use Rattle.std.specs.Prelude.{◌<◌, ◌^◌, length};

use crate::reads::long_text;
use case_data::{Fault, Words, string_of};
use regex::Regex;
use std::alloc::{AllocError, Global};
use wm_criteria::{
    Build, BuildFault, ListBuild, Prepared, RegexBuild, Verdict, prepare, prepare_bare,
};

/// The patterns that the build from a list refuses.
const REFUSED: [&str; 2] = ["(", "zz+"];

/// Writes down which patterns a build is asked for and which it refuses.
#[derive(Drop)]
struct Told<B> {
    build: B,
    log: String,
}

impl<B: Build> Build for Told<B> {
    ghost log = { λ told. B.log told.build };

    fn build(&mut self, alloc: Global, pattern: &str) -> Result<Regex, BuildFault> {
        self.log.push_str(" ")?;
        self.log.push_str(pattern)?;
        let built = self.build.build(alloc, pattern);
        if let Err(BuildFault::Refused) = built {
            let _ = self.log.push_str(" refused");
        }
        built
    }
}

/// The verdict on a text by a build that refuses listed patterns, by one that reads what it can, and by none.
pub fn tell_prepared(words: &mut Words<'_>, out: &mut String) -> Result<(), Fault> {
    let text = string_of(words.alloc, words.rest())?;
    tell_text(words.alloc, text.as_str(), out)
}

/// The same of a long text.
pub fn tell_long(words: &mut Words<'_>, out: &mut String) -> Result<(), Fault> {
    let text = long_text(words)?;
    tell_text(words.alloc, text.as_str(), out)
}

fn tell_text(alloc: Global, text: &str, out: &mut String) -> Result<(), Fault> {
    if text.len() >= 1 << 32 {
        return Err(Fault::BadLine);
    }
    let by_list = ListBuild::new(listed(alloc)?);
    tell_by(alloc, text, "list", by_list, out)?;
    tell_by(alloc, text, "regex", RegexBuild::new(), out)?;
    tell_alone(alloc, text, out)
}

/// The patterns that the build from a list refuses, as strings.
fn listed(alloc: Global) -> Result<Vec<String>, AllocError> {
    let mut listed = Vec::new(alloc);
    for pattern in REFUSED {
        listed.push(String::from_str(alloc, pattern)?)?;
    }
    Ok(listed)
}

/// What one build makes of a text, what is told of a bare copy, and which patterns were asked for.
fn tell_by<B: Build + Drop>(
    alloc: Global,
    text: &str,
    name: &str,
    build: B,
    out: &mut String,
) -> Result<(), Fault>
    requires { length text.now < 2 ^ 32 }
{
    let mut told = Told {
        build,
        log: String::new(alloc),
    };
    let done = tell_asked(alloc, text, name, &mut told, out);
    drop(told);
    done
}

fn tell_asked<B: Build>(
    alloc: Global,
    text: &str,
    name: &str,
    told: &mut Told<B>,
    out: &mut String,
) -> Result<(), Fault>
    requires { length text.now < 2 ^ 32 }
{
    write!(out, "  {name}: ")?;
    tell_with(alloc, text, told, out)?;
    write!(out, "; asked for{}\n", told.log)?;
    Ok(())
}

fn tell_with<B: Build>(
    alloc: Global,
    text: &str,
    build: &mut B,
    out: &mut String,
) -> Result<(), Fault>
    requires { length text.now < 2 ^ 32 }
{
    let prepared = prepare(alloc, text, build)?;
    let done = tell_with_copy(alloc, &prepared, out);
    drop(prepared);
    done
}

/// What is told of a text, and of a bare copy.
fn tell_with_copy(alloc: Global, prepared: &Prepared, out: &mut String) -> Result<(), Fault> {
    push_verdict(out, prepared)?;
    out.push_str("; copied ")?;
    tell_copy(alloc, prepared, out)
}

/// What is told of a bare copy.
fn tell_copy(alloc: Global, prepared: &Prepared, out: &mut String) -> Result<(), Fault> {
    let copy = prepared.bare(alloc)?;
    let done = push_verdict(out, &copy);
    drop(copy);
    Ok(done?)
}

/// What is told of a text that was read alone.
fn tell_alone(alloc: Global, text: &str, out: &mut String) -> Result<(), Fault> {
    let alone = prepare_bare(alloc, text)?;
    let done = push_alone(out, &alone);
    drop(alone);
    Ok(done?)
}

fn push_alone(out: &mut String, alone: &Prepared) -> Result<(), AllocError> {
    out.push_str("  alone: ")?;
    push_verdict(out, alone)?;
    out.push_str("\n")
}

/// The verdict in words, and whether all that has to be built is.
fn push_verdict(out: &mut String, prepared: &Prepared) -> Result<(), AllocError> {
    match &prepared.verdict {
        Verdict::Ready(_) => out.push_str("ready")?,
        Verdict::Bad { at } => write!(out, "bad at {at}")?,
        Verdict::PatternRefused { pattern } => write!(out, "pattern {pattern} refused")?,
    }
    out.push_str(if prepared.built() {
        ", built"
    } else {
        ", not built"
    })
}

//! The plain form of a batch: a line for each group, with its keys and its commands.
use case_data::push_shown;
use std::alloc::{AllocError, Global};
use wm_language::{Batch, Group};

/// A line, and how often it stands there.
#[derive(Drop)]
struct Run {
    line: String,
    count: u64,
}

/// The plain form of a batch. Two batches that differ have forms that differ.
pub fn form_of(alloc: Global, batch: &Batch) -> Result<String, AllocError> {
    let mut out = String::new(alloc);
    push_groups(alloc, batch.groups.items(), &mut out)?;
    Ok(out)
}

fn push_groups(alloc: Global, groups: &[Group], out: &mut String) -> Result<(), AllocError> {
    let mut run = Run {
        line: String::new(alloc),
        count: 0,
    };
    for group in groups {
        take_line(&mut run, group_line(alloc, group)?, out)?;
    }
    push_run(out, &run)
}

/// Counts a line that is the last one again, or writes the last one.
fn take_line(run: &mut Run, line: String, out: &mut String) -> Result<(), AllocError> {
    if run.count > 0 && line.as_str() == run.line.as_str() {
        run.count = run.count.saturating_add(1);
        return Ok(());
    }
    push_run(out, run)?;
    *run = Run { line, count: 1 };
    Ok(())
}

/// Writes a line that stands there this often.
fn push_run(out: &mut String, run: &Run) -> Result<(), AllocError> {
    match run.count {
        0 => Ok(()),
        1 => write!(out, "  {}\n", run.line),
        count => write!(out, "  {} {count} times\n", run.line),
    }
}

/// The keys of a group, where it has criteria, and its commands.
fn group_line(alloc: Global, group: &Group) -> Result<String, AllocError> {
    let text = group_text(alloc, group)?;
    let mut line = String::new(alloc);
    push_shown(&mut line, text.as_bytes())?;
    Ok(line)
}

fn group_text(alloc: Global, group: &Group) -> Result<String, AllocError> {
    let mut text = String::new(alloc);
    if let Some(criteria) = &group.criteria {
        write!(text, "{:?} => ", criteria.keys.items())?;
    }
    write!(text, "{:?}", group.commands.items())?;
    Ok(text)
}

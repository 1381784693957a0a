//! The doors of a server over links in memory, and how it ends.
ghost use Rattle.std.specs.Prelude.{◌≡◌, ◌+◌, length, IfOk};

use crate::given::GivenLink;
use crate::links::{frames_of, quiet_link};
use case_data::{Fault, Words};
use std::alloc::{AllocError, Global};
use wm_crew::ServeStatus;
use wm_criteria::RegexBuild;
use wm_ports::MemLink;

/// Writes how a server ended.
pub fn push_status(status: ServeStatus, out: &mut String) -> Result<(), AllocError> {
    write!(out, "  ends with {}\n", status.number())
}

/// Writes how a server ended.
pub fn push_ended(status: Result<ServeStatus, Fault>, out: &mut String) -> Result<(), Fault> {
    Ok(push_status(status?, out)?)
}

/// So many builds.
pub fn builds(alloc: Global, count: usize) -> Result<Vec<RegexBuild>, AllocError>
    ensures { IfOk result (λ builds. length builds.items ≡ count) }
{
    let mut builds = Vec::new(alloc);
    for _ in 0..count {
        builds.push(RegexBuild::new())?;
    }
    Ok(builds)
}

/// Adds so many listeners that give no link.
fn add_quiet<L: Drop>(doors: &mut Vec<GivenLink<L>>, count: usize) -> Result<(), AllocError>
    ensures { IfOk result (λ _. length doors.new.items ≡ length doors.old.items + count) }
{
    for _ in 0..count {
        doors.push(GivenLink::new(None))?;
    }
    Ok(())
}

/// The doors of a server with a link at each of the first two.
pub fn two_doors<L: Drop>(
    alloc: Global,
    first: L,
    second: L,
    quiet: usize,
) -> Result<Vec<GivenLink<L>>, AllocError>
    ensures { IfOk result (λ doors. length doors.items ≡ 2 + quiet) }
{
    let mut doors = Vec::new(alloc);
    doors.push(GivenLink::new(Some(first)))?;
    doors.push(GivenLink::new(Some(second)))?;
    add_quiet(&mut doors, quiet)?;
    Ok(doors)
}

/// The link of the messages that are left.
pub fn last_link(fields: &mut Words<'_>) -> Result<MemLink, Fault> {
    let alloc = fields.alloc;
    quiet_link(alloc, frames_of(alloc, fields.rest())?, 0)
}

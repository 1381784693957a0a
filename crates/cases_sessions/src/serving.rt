//! Sessions of clients on one thread, after what another caller does.
use crate::links::{frames_of, link_of};
use crate::others::take_all;
use crate::seats::shared_by_two;
use crate::speech::{End, Speech, served};
use crate::telling::{last_of, push_counted, push_end, push_lines, push_sent};
use case_data::{Fault, Words, number_of};
use std::alloc::{AllocError, Global};
use std::sync::Wait;
use wm_ports::MemLink;

/// Serves the client of the link on a new desk, on which another caller did this before: how that ended, and the link.
fn serve<R: Wait>(
    alloc: Global,
    rt: &R,
    before: &str,
    link: MemLink,
    speech: Speech,
) -> Result<(End, MemLink), Fault> {
    let (book, seat, mut other) = shared_by_two(alloc)?;
    take_all(alloc, rt, &book, &mut other, before)?;
    Ok(served(alloc, rt, &book, seat, link, speech))
}

/// From `FAILS|QUIET|SPACE|BEFORE|MESSAGES`, how the session ends on such a link, and what was sent on it.
pub fn tell_session<R: Wait>(
    rt: &R,
    fields: &mut Words<'_>,
    out: &mut String,
) -> Result<(), Fault> {
    let alloc = fields.alloc;
    let (link, before) = link_of(fields, Speech::Messages)?;
    let (end, link) = serve(alloc, rt, before, link, Speech::Messages)?;
    push_end(end, out)?;
    push_sent(alloc, link.sent(), out)
}

/// From `FAILS|QUIET|SPACE|BEFORE|LINES`, the same of a client that speaks lines.
pub fn tell_client<R: Wait>(rt: &R, fields: &mut Words<'_>, out: &mut String) -> Result<(), Fault> {
    let alloc = fields.alloc;
    let (link, before) = link_of(fields, Speech::Lines)?;
    let (end, link) = serve(alloc, rt, before, link, Speech::Lines)?;
    push_end(end, out)?;
    push_lines(link.sent(), out)
}

/// The bytes so many times.
fn repeated(alloc: Global, bytes: &[u8], count: u32) -> Result<Vec<u8>, AllocError> {
    let mut all = Vec::new(alloc);
    for _copy in 0..count {
        all.extend_from_slice(bytes)?;
    }
    Ok(all)
}

/// From `SPACE|BEFORE|FIRST|COUNT|MESSAGES`, how a session ends that gets the messages `FIRST` and then the others so many
/// times, and how many messages it sends.
pub fn tell_many<R: Wait>(rt: &R, fields: &mut Words<'_>, out: &mut String) -> Result<(), Fault> {
    let alloc = fields.alloc;
    let space = number_of(fields.until("|"))?;
    let before = fields.until("|");
    let mut bytes = frames_of(alloc, fields.until("|"))?;
    let count = number_of(fields.until("|"))?;
    let later = frames_of(alloc, fields.rest())?;
    bytes.extend_from_slice(&repeated(alloc, &later, count)?)?;
    let link = open_link(alloc, bytes, space)?;
    let (end, link) = serve(alloc, rt, before, link, Speech::Messages)?;
    push_end(end, out)?;
    push_counted(alloc, link.sent(), out)
}

/// A link that gives these bytes, has room for so many, and never fails or is quiet.
fn open_link(alloc: Global, bytes: Vec<u8>, space: u32) -> Result<MemLink, Fault> {
    let (fails, quiet) = (Vec::new(alloc), Vec::new(alloc));
    Ok(MemLink::new(alloc, bytes, space as usize, fails, quiet)?)
}

/// From `SPACE|MESSAGES`, how a session ends that gets the first bytes of them alone, for any number of bytes.
pub fn tell_cuts<R: Wait>(rt: &R, fields: &mut Words<'_>, out: &mut String) -> Result<(), Fault> {
    let alloc = fields.alloc;
    let space = number_of(fields.until("|"))?;
    let bytes = frames_of(alloc, fields.rest())?;
    for count in 0..bytes.len() {
        tell_cut(alloc, rt, &bytes[..count], space, out)?;
    }
    tell_cut(alloc, rt, &bytes, space, out)
}

/// Writes how many bytes came, how many messages were sent, and how the session ended.
fn tell_cut<R: Wait>(
    alloc: Global,
    rt: &R,
    bytes: &[u8],
    space: u32,
    out: &mut String,
) -> Result<(), Fault> {
    let came = bytes.len();
    let link = open_link(alloc, Vec::from_slice(alloc, bytes)?, space)?;
    let (end, link) = serve(alloc, rt, "", link, Speech::Messages)?;
    let (sent, _last) = last_of(alloc, link.sent())?;
    write!(out, "  {came} bytes, {sent} messages")?;
    Ok(push_end(end, out)?)
}

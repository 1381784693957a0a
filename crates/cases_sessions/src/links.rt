//! The link of a case: what comes on it, and which calls of it fail or are quiet.
use crate::speech::Speech;
use case_data::{Fault, Words, bytes_of, number_of};
use std::alloc::Global;
use wm_base::List;
use wm_frames::{Message, encode};
use wm_ports::MemLink;

/// From `FAILS|QUIET|SPACE|BEFORE|BYTES`, the link of a client that speaks so, and what another caller does before the session.
pub fn link_of<'a>(fields: &mut Words<'a>, speech: Speech) -> Result<(MemLink, &'a str), Fault> {
    let alloc = fields.alloc;
    let (fails, quiet) = (numbers(fields)?, numbers(fields)?);
    let space = number_of(fields.until("|"))?;
    let before = fields.until("|");
    let bytes = spoken(alloc, fields.rest(), speech)?;
    Ok((
        MemLink::new(alloc, bytes, space as usize, fails, quiet)?,
        before,
    ))
}

/// How many bytes the links hold that sessions with others beside send on.
const SPACE: usize = 1 << 20;

/// A link that gives these bytes, and is quiet at this call.
pub fn quiet_link(alloc: Global, bytes: Vec<u8>, at: u64) -> Result<MemLink, Fault> {
    let mut quiet = Vec::new(alloc);
    quiet.push(at)?;
    Ok(MemLink::new(alloc, bytes, SPACE, Vec::new(alloc), quiet)?)
}

/// The numbers of the next field, with blanks between them. What is no number counts as 0.
pub fn numbers(fields: &mut Words<'_>) -> Result<Vec<u64>, Fault> {
    let mut numbers = Vec::new(fields.alloc);
    for word in fields.until("|").split_whitespace() {
        numbers.push(word.parse::<u64>().unwrap_or(0))?;
    }
    Ok(numbers)
}

/// The bytes that a client sends who speaks so: messages, or lines.
pub fn spoken(alloc: Global, text: &str, speech: Speech) -> Result<Vec<u8>, Fault> {
    match speech {
        Speech::Messages => frames_of(alloc, text),
        Speech::Lines => Ok(bytes_of(alloc, text)?),
    }
}

/// The bytes of parts with ` ; ` between them.
pub fn frames_of(alloc: Global, text: &str) -> Result<Vec<u8>, Fault> {
    let mut bytes = Vec::new(alloc);
    for part in text.split(" ; ") {
        push_part(&mut Words::of(alloc, part), &mut bytes)?;
    }
    Ok(bytes)
}

/// Appends the bytes behind `raw`, or the frame of a message `KIND PAYLOAD`.
fn push_part(words: &mut Words<'_>, bytes: &mut Vec<u8>) -> Result<(), Fault> {
    match words.word() {
        "" => Ok(()),
        "raw" => Ok(bytes.extend_from_slice(&bytes_of(words.alloc, words.rest())?)?),
        kind => push_frame(number_of(kind)?, words, bytes),
    }
}

fn push_frame(kind: u32, words: &mut Words<'_>, bytes: &mut Vec<u8>) -> Result<(), Fault> {
    let payload = bytes_of(words.alloc, words.rest())?;
    if payload.len() >= 1 << 32 {
        return Err(Fault::BadLine);
    }
    let payload = List::of(payload);
    Ok(encode(&Message { kind, payload }, bytes)?)
}

//! Cases of sources and sinks in memory, which fail at the calls that a case says.
use crate::fields::{bytes, last_number, number, numbers, push_bytes, push_enclosed};
use case_data::{Fault, Words};
use std::alloc::{AllocError, Global};
use wm_ports::{Failed, MemSink, MemSource, Sink, Source};

/// What one call answered.
fn push_answer(out: &mut String, answer: Result<usize, Failed>) -> Result<(), AllocError> {
    match answer {
        Ok(count) => write!(out, "  {count}"),
        Err(Failed) => out.push_str("  failed"),
    }
}

/// From `ROOM|TIMES`, reads this often into a room of this size, which holds dots at first, and writes each answer and
/// the room then.
pub fn push_readings<S: Source>(
    source: &mut S,
    fields: &mut Words<'_>,
    out: &mut String,
) -> Result<(), Fault> {
    let size = number(fields)?;
    let times = last_number(fields)?;
    let mut room = dots(fields.alloc, size)?;
    for _ in 0..times {
        push_reading(source, &mut room, out)?;
    }
    Ok(())
}

fn push_reading<S: Source>(source: &mut S, room: &mut [u8], out: &mut String) -> Result<(), Fault> {
    if room.is_empty() {
        return Err(Fault::BadLine);
    }
    let answer = source.read(room);
    push_answer(out, answer)?;
    out.push_str(" ")?;
    push_enclosed(out, room)
}

/// Writes the same bytes as often as the last field says, and tells each answer.
pub fn push_writings<S: Sink>(
    sink: &mut S,
    bytes: &[u8],
    fields: &mut Words<'_>,
    out: &mut String,
) -> Result<(), Fault> {
    let times = last_number(fields)?;
    for _ in 0..times {
        push_writing(sink, bytes, out)?;
    }
    Ok(())
}

fn push_writing<S: Sink>(sink: &mut S, bytes: &[u8], out: &mut String) -> Result<(), Fault> {
    if bytes.is_empty() {
        return Err(Fault::BadLine);
    }
    let answer = sink.write(bytes);
    push_answer(out, answer)?;
    Ok(out.push_str("\n")?)
}

/// A room of dots.
pub fn dots(alloc: Global, count: u32) -> Result<Vec<u8>, AllocError> {
    vec![in alloc; b'.'; count as usize]
}

/// From `BYTES|FAILS`, a source in memory.
pub fn source_of(fields: &mut Words<'_>) -> Result<MemSource, Fault> {
    let bytes = bytes(fields)?;
    Ok(MemSource::new(bytes, numbers(fields)?))
}

/// From `BYTES|FAILS|ROOM|TIMES`, what a source in memory answers.
pub fn tell_source(fields: &mut Words<'_>, out: &mut String) -> Result<(), Fault> {
    let mut source = source_of(fields)?;
    push_readings(&mut source, fields, out)
}

/// From `FAILS|ROOM`, a sink in memory.
pub fn sink_of(fields: &mut Words<'_>) -> Result<MemSink, Fault> {
    let fails = numbers(fields)?;
    let room = number(fields)?;
    Ok(MemSink::new(fields.alloc, room as usize, fails)?)
}

/// From `BYTES|FAILS|ROOM|TIMES`, what a sink in memory answers where the bytes are written so often, and what it took.
pub fn tell_sink(fields: &mut Words<'_>, out: &mut String) -> Result<(), Fault> {
    let bytes = bytes(fields)?;
    push_taken(&bytes, fields, out)
}

fn push_taken(bytes: &[u8], fields: &mut Words<'_>, out: &mut String) -> Result<(), Fault> {
    let mut sink = sink_of(fields)?;
    push_writings(&mut sink, bytes, fields, out)?;
    push_bytes(out, sink.taken())
}

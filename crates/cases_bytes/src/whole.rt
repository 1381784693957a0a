//! Cases of reading a source to its end and of writing all of some bytes.
use crate::fields::{bytes, last_number, push_bytes};
use crate::memory::{sink_of, source_of};
use case_data::{Fault, Words};
use wm_ports::{Failed, MemSource, ReadFault, read_to_limit, write_all};

/// From `BYTES|FAILS|LIMIT`, all that a source gives, or why it is not read to its end.
pub fn tell_limit(fields: &mut Words<'_>, out: &mut String) -> Result<(), Fault> {
    let mut source = source_of(fields)?;
    let answer = push_read(&mut source, fields, out);
    drop(source);
    answer
}

fn push_read(
    source: &mut MemSource,
    fields: &mut Words<'_>,
    out: &mut String,
) -> Result<(), Fault> {
    let limit = last_number(fields)?;
    match read_to_limit(fields.alloc, source, limit as usize) {
        Ok(all) => push_bytes(out, &all),
        Err(fault) => tell_fault(fault, out),
    }
}

fn tell_fault(fault: ReadFault, out: &mut String) -> Result<(), Fault> {
    match fault {
        ReadFault::Failed => Ok(out.push_str("  failed\n")?),
        ReadFault::TooLarge { read } => Ok(write!(out, "  too large, {read} read\n")?),
        ReadFault::NoMemory => Err(Fault::NoMemory),
    }
}

/// From `BYTES|FAILS|ROOM`, whether all of the bytes are written, and what the sink took.
pub fn tell_whole(fields: &mut Words<'_>, out: &mut String) -> Result<(), Fault> {
    let bytes = bytes(fields)?;
    push_written(&bytes, fields, out)
}

fn push_written(bytes: &[u8], fields: &mut Words<'_>, out: &mut String) -> Result<(), Fault> {
    let mut sink = sink_of(fields)?;
    out.push_str(match write_all(&mut sink, bytes) {
        Ok(()) => "  written\n",
        Err(Failed) => "  failed\n",
    })?;
    push_bytes(out, sink.taken())
}

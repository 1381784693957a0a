//! Cases of a source over a reader and of a sink over a writer, which are interrupted and fail where a case says.
use crate::fields::{bytes, number, numbers, push_bytes};
use crate::memory::{dots, push_readings, push_writings};
use case_data::{Fault, Words};
use std::io::{self, ErrorKind, Read, Write};
use wm_ports::{StdSink, StdSource};

/// Which calls of a stream are interrupted and which fail. The first call has number 1.
#[derive(Drop)]
struct Shaking {
    interrupted: Vec<u64>,
    failing: Vec<u64>,
    calls: u64,
}

impl Shaking {
    /// From `INTERRUPTED|FAILING`, before the first call.
    fn of(fields: &mut Words<'_>) -> Result<Shaking, Fault> {
        let interrupted = numbers(fields)?;
        let failing = numbers(fields)?;
        Ok(Shaking {
            interrupted,
            failing,
            calls: 0,
        })
    }

    fn shake(&mut self) -> io::Result<()> {
        self.calls = self.calls.saturating_add(1);
        if self.interrupted.contains(&self.calls) {
            return Err(io::Error::from(ErrorKind::Interrupted));
        }
        if self.failing.contains(&self.calls) {
            return Err(io::Error::from(ErrorKind::Other));
        }
        Ok(())
    }
}

/// A reader of bytes.
#[derive(Drop)]
struct ShakyReader<'a> {
    bytes: &'a [u8],
    shaking: Shaking,
}

impl Read for ShakyReader<'_> {
    fn read(&mut self, room: &mut [u8]) -> io::Result<usize> {
        self.shaking.shake()?;
        self.bytes.read(room)
    }
}

/// A writer to a slice, which takes at most two bytes at once. Flushes count as calls too.
#[derive(Drop)]
struct ShakyWriter<'a> {
    room: &'a mut [u8],
    shaking: Shaking,
}

impl Write for ShakyWriter<'_> {
    fn write(&mut self, bytes: &[u8]) -> io::Result<usize> {
        self.shaking.shake()?;
        self.room.write(&bytes[..bytes.len().min(2)])
    }

    fn flush(&mut self) -> io::Result<()> {
        self.shaking.shake()
    }
}

/// From `BYTES|INTERRUPTED|FAILING|ROOM|TIMES`, what a source over a reader answers.
pub fn tell_reader(fields: &mut Words<'_>, out: &mut String) -> Result<(), Fault> {
    let bytes = bytes(fields)?;
    let shaking = Shaking::of(fields)?;
    let mut source = StdSource::new(ShakyReader {
        bytes: &bytes,
        shaking,
    });
    push_readings(&mut source, fields, out)
}

/// From `BYTES|INTERRUPTED|FAILING|ROOM|TIMES`, what a sink over a writer answers, which has so much room, and the room
/// then.
pub fn tell_writer(fields: &mut Words<'_>, out: &mut String) -> Result<(), Fault> {
    let bytes = bytes(fields)?;
    let shaking = Shaking::of(fields)?;
    push_room(shaking, &bytes, fields, out)
}

fn push_room(
    shaking: Shaking,
    bytes: &[u8],
    fields: &mut Words<'_>,
    out: &mut String,
) -> Result<(), Fault> {
    let size = number(fields)?;
    let mut room = dots(fields.alloc, size)?;
    push_shaky(&mut room, shaking, bytes, fields, out)?;
    push_bytes(out, &room)
}

fn push_shaky(
    room: &mut [u8],
    shaking: Shaking,
    bytes: &[u8],
    fields: &mut Words<'_>,
    out: &mut String,
) -> Result<(), Fault> {
    let mut sink = StdSink::new(ShakyWriter { room, shaking });
    push_writings(&mut sink, bytes, fields, out)
}

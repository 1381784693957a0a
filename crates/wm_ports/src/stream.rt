//! A source over a reader and a sink over a writer of the standard library.
ghost use Rattle.std.specs.Prelude.{◌≡◌, ◌<◌, ◌≤◌, length, take, IfOk, IfSome, IfNone, OnErr};
ghost use Rattle.std.specs.Io.KnownBytes.{Appends, Consumes, IsAtEnd, Keeps};
ghost use Rattle.wm_defs.specs.Counts.{Rose};

use crate::port::{Failed, Sink, Source};
use std::io::{ErrorKind, Read, Write};

/// A source over a reader. A reading that a signal interrupts is tried again; each other error is a fault.
#[derive(Drop)]
pub struct StdSource<R> {
    reader: R,
    faults: u64,
}

impl<R: Read> StdSource<R> {
    /// A source over this reader, with no faults so far.
    pub fn new(reader: R) -> StdSource<R>
        ensures reader { result.reader ≡ reader }
        ensures faults { result.faults ≡ 0 }
    {
        StdSource { reader, faults: 0 }
    }
}

impl<R: Read> Source for StdSource<R> {
    ghost faults = { λ s. s.faults };

    /// Reads what one reading of the reader gives.
    fn read(&mut self, room: &mut [u8]) -> Result<usize, Failed>
        requires { 0 < length room.old }
        ensures within { IfOk result (λ n. n ≤ length room.new) }
        ensures failed { OnErr result (Rose self.old.faults self.new.faults) }
        ensures counted { self.old.faults ≤ self.new.faults }
        ensures bytes { IfOk result (λ n.
            Consumes (R.remaining self.old.reader) (R.remaining self.new.reader) (take n room.new)) }
        ensures end { IfOk result (λ n. n ≡ 0 → IsAtEnd (R.remaining self.new.reader)) }
        ensures unread { OnErr result
            (Keeps (R.remaining self.old.reader) (R.remaining self.new.reader)) }
    {
        if let Some(n) = read_retrying(&mut self.reader, room) {
            return Ok(n);
        }
        self.faults = self.faults.saturating_add(1);
        Err(Failed)
    }
}

/// A sink over a writer, which keeps no bytes back: each writing is flushed. A writing that a signal interrupts
/// is tried again; each other error is a fault, and so is a writing that takes nothing.
#[derive(Drop)]
pub struct StdSink<W> {
    writer: W,
    faults: u64,
}

impl<W: Write> StdSink<W> {
    /// A sink over this writer, with no faults so far.
    pub fn new(writer: W) -> StdSink<W>
        ensures writer { result.writer ≡ writer }
        ensures faults { result.faults ≡ 0 }
    {
        StdSink { writer, faults: 0 }
    }
}

impl<W: Write> Sink for StdSink<W> {
    ghost faults = { λ s. s.faults };

    /// Takes what one writing of the writer takes. Where that could not be flushed, it fails.
    fn write(&mut self, bytes: &[u8]) -> Result<usize, Failed>
        requires { 0 < length bytes.now }
        ensures some { IfOk result (λ n. 0 < n) }
        ensures within { IfOk result (λ n. n ≤ length bytes.now) }
        ensures failed { OnErr result (Rose self.old.faults self.new.faults) }
        ensures counted { self.old.faults ≤ self.new.faults }
        ensures bytes { IfOk result (λ n.
            Appends (W.contents self.old.writer) (W.contents self.new.writer) (take n bytes.now)) }
    {
        if let Some(n) = write_through(&mut self.writer, bytes) {
            return Ok(n);
        }
        self.faults = self.faults.saturating_add(1);
        Err(Failed)
    }
}

// One reading, tried again where a signal interrupts it. `None` is an error.
fn read_retrying<R: Read>(reader: &mut R, room: &mut [u8]) -> Option<usize>
    requires { 0 < length room.old }
    ensures within { IfSome result (λ n. n ≤ length room.new) }
    ensures bytes { IfSome result (λ n.
        Consumes (R.remaining reader.old) (R.remaining reader.new) (take n room.new)) }
    ensures end { IfSome result (λ n. n ≡ 0 → IsAtEnd (R.remaining reader.new)) }
    ensures unread { IfNone result (Keeps (R.remaining reader.old) (R.remaining reader.new)) }
{
    for _ in 0..u64::MAX {
        match reader.read(room) {
            Ok(n) => return Some(n),
            Err(error) => {
                if error.kind() != ErrorKind::Interrupted {
                    return None;
                }
            }
        }
    }
    None
}

// One writing of at least a byte, flushed. `None` is an error, or that nothing was taken.
fn write_through<W: Write>(writer: &mut W, bytes: &[u8]) -> Option<usize>
    ensures some { IfSome result (λ n. 0 < n) }
    ensures within { IfSome result (λ n. n ≤ length bytes.now) }
    ensures bytes { IfSome result (λ n.
        Appends (W.contents writer.old) (W.contents writer.new) (take n bytes.now)) }
{
    let n = write_retrying(writer, bytes)?;
    if n == 0 || !flush_retrying(writer) {
        return None;
    }
    Some(n)
}

// One writing, tried again where a signal interrupts it. `None` is an error.
fn write_retrying<W: Write>(writer: &mut W, bytes: &[u8]) -> Option<usize>
    ensures within { IfSome result (λ n. n ≤ length bytes.now) }
    ensures bytes { IfSome result (λ n.
        Appends (W.contents writer.old) (W.contents writer.new) (take n bytes.now)) }
    ensures untaken { IfNone result (Keeps (W.contents writer.old) (W.contents writer.new)) }
{
    for _ in 0..u64::MAX {
        match writer.write(bytes) {
            Ok(n) => return Some(n),
            Err(error) => {
                if error.kind() != ErrorKind::Interrupted {
                    return None;
                }
            }
        }
    }
    None
}

// Flushes, and tries again where a signal interrupts that. Answers whether there was no error.
fn flush_retrying<W: Write>(writer: &mut W) -> bool
    ensures { Keeps (W.contents writer.old) (W.contents writer.new) }
{
    for _ in 0..u64::MAX {
        match writer.flush() {
            Ok(()) => return true,
            Err(error) => {
                if error.kind() != ErrorKind::Interrupted {
                    return false;
                }
            }
        }
    }
    false
}

//! Writing all of some bytes, and reading a source to its end.
ghost use Rattle.std.specs.Prelude.{◌≡◌, ◌<◌, ◌≤◌, length, IfErr, IfOk, OnErr, OnOk, vec_len};
ghost use Rattle.wm_defs.specs.Counts.{Rose};
ghost use Rattle.wm_ports.specs.ReadFault.{HasCause};
ghost use Rattle.wm_ports.specs.Told.{ReadsAll, ReadsPart, TakesAll, TakesPart};

use crate::port::{Failed, Sink, Source};
use std::alloc::{AllocError, Global};

/// How many bytes one reading has room for: 64 KiB.
const PIECE: usize = 65536;

/// Why a source was not read to its end.
#[derive(Clone, Copy, Debug, PartialEq, Eq)]
pub enum ReadFault {
    /// A reading failed.
    Failed,
    /// There are more bytes than the limit; this many were read.
    TooLarge { read: u64 },
    NoMemory,
}

impl From<Failed> for ReadFault {
    ghost use Rattle.wm_ports.specs.declared.whole.ReadFault.TheVariants as faults;

    ghost from_gives = { λ _ e. e ≡ faults.Failed };

    fn from(_error: Failed) -> ReadFault {
        ReadFault::Failed
    }
}

impl From<AllocError> for ReadFault {
    ghost use Rattle.wm_ports.specs.declared.whole.ReadFault.TheVariants as faults;

    ghost from_gives = { λ _ e. e ≡ faults.NoMemory };

    fn from(_error: AllocError) -> ReadFault {
        ReadFault::NoMemory
    }
}

/// Writes all of the bytes, in as many writings as it takes. Where one fails, a first part of the bytes was taken.
pub fn write_all<W: Sink>(sink: &mut W, bytes: &[u8]) -> Result<(), Failed>
    ensures ok { OnOk result (TakesAll (W.taken sink.old) (W.taken sink.new) bytes.now) }
    ensures part { OnErr result (TakesPart (W.taken sink.old) (W.taken sink.new) bytes.now) }
    ensures failed { OnErr result (Rose (W.faults sink.old) (W.faults sink.new)) }
    ensures counted { W.faults sink.old ≤ W.faults sink.new }
{
    let mut at = 0;
    while at < bytes.len() {
        at += sink.write(&bytes[at..])?;
    }
    Ok(())
}

// Room of this many bytes.
fn zeros(alloc: Global, count: usize) -> Result<Vec<u8>, AllocError>
    ensures { IfOk result (λ v. vec_len v ≡ count) }
{
    vec![in alloc; 0; count]
}

// Reads a source to its end, each time into this room, and answers its bytes.
fn read_through<R: Source>(
    alloc: Global,
    source: &mut R,
    room: &mut [u8],
    limit: usize,
) -> Result<Vec<u8>, ReadFault>
    requires { 0 < length room.old }
    ensures within { IfOk result (λ v. vec_len v ≤ limit) }
    ensures ok { IfOk result (λ v. ReadsAll (R.rest source.old) (R.rest source.new) v.items) }
    ensures err { IfErr result (λ e. HasCause e limit (R.rest source.old) (R.rest source.new)
        (R.faults source.old) (R.faults source.new)) }
    ensures part { OnErr result (ReadsPart (R.rest source.old) (R.rest source.new)) }
    ensures counted { R.faults source.old ≤ R.faults source.new }
{
    let mut all = Vec::new(alloc);
    'pieces: loop {
        let n = source.read(room)?;
        if n == 0 {
            return Ok(all);
        }
        if n > limit - all.len() {
            return Err(ReadFault::TooLarge {
                read: all.len() as u64 + n as u64,
            });
        }
        all.extend_from_slice(&room[..n])?;
    }
}

/// Reads a source to its end, and answers its bytes. There may be at most `limit`.
pub fn read_to_limit<R: Source>(
    alloc: Global,
    source: &mut R,
    limit: usize,
) -> Result<Vec<u8>, ReadFault>
    ensures within { IfOk result (λ v. vec_len v ≤ limit) }
    ensures ok { IfOk result (λ v. ReadsAll (R.rest source.old) (R.rest source.new) v.items) }
    ensures err { IfErr result (λ e. HasCause e limit (R.rest source.old) (R.rest source.new)
        (R.faults source.old) (R.faults source.new)) }
    ensures part { OnErr result (ReadsPart (R.rest source.old) (R.rest source.new)) }
    ensures counted { R.faults source.old ≤ R.faults source.new }
{
    let mut room = zeros(alloc, PIECE)?;
    read_through(alloc, source, &mut room, limit)
}

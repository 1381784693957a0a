//! Messages, the faults of a stream of frames, and the encoder.
ghost use Rattle.std.specs.Prelude.{◌≡◌, ◌<◌, ◌^◌, ◌++◌, ◌+◌, ◌≤◌, length, vec_len, vec_capacity, OnOk, OnErr};
ghost use Rattle.std.specs.Int.{w32, to_le_bytes};
ghost use Rattle.wm_frames.specs.Frame.{frame};

use std::alloc::AllocError;
use thiserror::Error;
use wm_base::{List, NoMemory};

/// The six bytes that each frame begins with.
pub const MAGIC: [u8; 6] = [105, 51, 45, 105, 112, 99];

/// How many bytes a frame has before its payload: the magic, the length and the type.
pub const HEAD: usize = 14;

/// A message of i3-ipc: its type, and the bytes that go with it.
#[derive(Debug, Drop)]
pub struct Message {
    pub kind: u32,
    pub payload: List<u8>,
}

/// Why a stream of frames goes on no further. A place is counted in bytes from the stream's first,
/// and one above `u64::MAX` is given as `u64::MAX`.
#[derive(Clone, Copy, Debug, PartialEq, Eq, Error)]
pub enum FrameFault {
    /// No frame begins so.
    #[error("no frame begins at byte {at}")]
    Magic { at: u64 },

    /// The frame at this place says that its payload has this many bytes, which are more than 262,144.
    #[error("the frame at byte {at} has {len} bytes")]
    TooLong { at: u64, len: u32 },

    /// Memory ran out.
    #[error("out of memory")]
    NoMemory,
}

impl From<AllocError> for FrameFault {
    ghost use Rattle.std.specs.Prelude.{◌≡◌};
    ghost use Rattle.wm_frames.specs.declared.message.FrameFault.TheVariants.{NoMemory};

    ghost from_gives = { λ _ e. e ≡ NoMemory };

    fn from(_error: AllocError) -> FrameFault {
        FrameFault::NoMemory
    }
}

/// The bytes before a payload of this length.
fn head_of(len: u32, kind: u32) -> [u8; HEAD]
    ensures { result ≡ MAGIC ++ to_le_bytes w32 len ++ to_le_bytes w32 kind }
{
    let [a, b, c, d] = len.to_le_bytes();
    let [e, f, g, h] = kind.to_le_bytes();
    let [i, j, k, l, m, n] = MAGIC;
    [i, j, k, l, m, n, a, b, c, d, e, f, g, h]
}

/// Adds bytes for which there is room.
pub(crate) fn add(out: &mut Vec<u8>, bytes: &[u8])
    requires { vec_len out.old + length bytes.now ≤ vec_capacity out.old }
    ensures items { out.new.items ≡ out.old.items ++ bytes.now }
    ensures len { vec_len out.new ≡ vec_len out.old + length bytes.now }
    ensures capacity { vec_capacity out.old ≤ vec_capacity out.new }
{
    out.extend_from_slice(bytes).unwrap();
}

/// Appends the frame of a message, whose payload's length fits 32 bits. An `Err` appends nothing.
pub fn encode(m: &Message, out: &mut Vec<u8>) -> Result<(), NoMemory>
    requires { length m.now.payload < 2 ^ 32 }
    ensures ok { OnOk result (out.new.items ≡ out.old.items ++ frame m.now) }
    ensures err { OnErr result (out.new.items ≡ out.old.items) }
{
    let payload = m.payload.items();
    let head = head_of(payload.len() as u32, m.kind);
    out.reserve(HEAD + payload.len())?;

    add(out, &head);
    add(out, payload);
    Ok(())
}

//! What stands at the front of some bytes: a whole frame, a part of one, or a fault.
ghost use Rattle.std.specs.Prelude.{◌≡◌, ℕ, ◌+◌, ◌≤◌, length, take, drop};
ghost use Rattle.std.specs.Int.{w32, from_le_bytes};
ghost use Rattle.wm_frames.specs.Front.{agrees, front_of};

use crate::message::{HEAD, MAGIC};

/// The most bytes that a payload has.
pub const MAX_PAYLOAD: u32 = 262_144;

/// What stands at the front of some bytes.
#[derive(Clone, Copy, Debug, PartialEq, Eq)]
pub enum Front {
    /// A whole frame, whose payload has this many bytes.
    Whole(u32),

    /// Less than a whole frame, and nothing is wrong with it.
    Part,

    /// No frame begins so.
    Wrong,

    /// A frame whose payload would have this many bytes, which are too many.
    Long(u32),
}

/// The 32 bits at this place, the lowest byte first.
pub fn number_at(bytes: &[u8], at: usize) -> u32
    requires { at + 4 ≤ length bytes.now }
    ensures { result ≡ from_le_bytes w32 (take 4 (drop at bytes.now)) }
{
    u32::from_le_bytes([bytes[at], bytes[at + 1], bytes[at + 2], bytes[at + 3]])
}

/// Whether the shorter of the two begins the other.
fn agree(left: &[u8], right: &[u8]) -> bool
    ensures { result ≡ agrees left.now right.now }
{
    match left {
        [] => true,
        [first, left @ ..] => match right {
            [] => true,
            [second, right @ ..] => *first == *second && agree(left, right),
        },
    }
}

/// What stands at the front of the bytes.
#[tactic(auto, unfolding(crate::specs::Front::front_of))]
pub fn read_front(bytes: &[u8]) -> Front
    ensures front { result ≡ front_of bytes.now }
    ensures whole { (n : ℕ) → result ≡ Front.Whole n → 14 + n ≤ length bytes.now }
{
    if !agree(&MAGIC, bytes) {
        return Front::Wrong;
    }
    if bytes.len() < 10 {
        return Front::Part;
    }
    let len = number_at(bytes, 6);
    if len > MAX_PAYLOAD {
        return Front::Long(len);
    }
    if bytes.len() < HEAD || bytes.len() - HEAD < len as usize {
        return Front::Part;
    }
    Front::Whole(len)
}

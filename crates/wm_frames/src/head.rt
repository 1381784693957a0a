//! The first fourteen bytes of a frame, as far as they have come.
ghost use Rattle.std.specs.Prelude.{◌≡◌, ◌-◌, ◌≤◌, ◌++◌, [], length, take, min};

use crate::message::HEAD;
use std::marker::Model;

/// The first bytes of a frame, at most fourteen. Contracts see them as a list.
#[derive(Debug, Drop)]
pub struct Head {
    bytes: [u8; HEAD],
    len: usize,
}

impl Model for Head {
    ghost use Rattle.std.specs.Prelude.{List, ℕ, ◌≤◌, take};

    ghost Value = { List ℕ };

    ghost view = { λ h. take h.len h.bytes };

    ghost invariant = { λ h. h.len ≤ 14 };
}

impl Head {
    /// No bytes.
    pub fn new() -> Head
        ensures { result ≡ [] }
    {
        Head {
            bytes: [0; HEAD],
            len: 0,
        }
    }

    /// The same bytes once more.
    pub fn copied(&self) -> Head
        ensures { result ≡ self.now }
    {
        Head {
            bytes: self.bytes,
            len: self.len,
        }
    }

    /// The bytes.
    pub fn bytes(&self) -> &[u8]
        ensures value { result.now ≡ self.now }
        ensures short { length result.now ≤ 14 }
    {
        &self.bytes[..self.len]
    }

    /// Adds the first bytes of the piece, until there are fourteen, and says how many.
    pub fn fill(&mut self, piece: &[u8]) -> usize
        ensures count { result ≡ min (14 - length self.old) (length piece.now) }
        ensures bytes { self.new ≡ self.old ++ take result piece.now }
    {
        let count = piece.len().min(HEAD - self.len);
        for byte in &piece[..count] {
            self.bytes[self.len] = *byte;
            self.len += 1;
        }
        count
    }
}

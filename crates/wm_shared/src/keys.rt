//! The order in which outputs and workspaces are looked for: by a number, and then by id.
ghost use Rattle.std.specs.Prelude.{◌≡◌};
ghost use Rattle.wm_shared.specs.Keys.{comes_before, lesser};

use wm_base::ConId;

/// The place of an output or workspace in an order.
#[derive(Clone, Copy, Debug)]
pub struct Key {
    pub first: u64,
    pub id: ConId,
}

impl Key {
    /// Whether this one comes before the other.
    pub fn comes_before(self, other: Key) -> bool
        ensures { result ≡ comes_before self other }
    {
        self.first < other.first || (self.first == other.first && self.id.0 < other.id.0)
    }
}

/// The one of two that comes first.
pub fn lesser(a: Option<Key>, b: Option<Key>) -> Option<Key>
    ensures { result ≡ lesser a b }
{
    match (a, b) {
        (Some(a), Some(b)) => Some(if b.comes_before(a) { b } else { a }),
        (None, other) | (other, None) => other,
    }
}

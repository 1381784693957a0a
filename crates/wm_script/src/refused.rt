//! Patterns that were refused.

/// A pattern of a text that the step of this place ran was refused. Places and patterns are counted from 0.
#[derive(Clone, Copy, Debug, PartialEq, Eq)]
pub struct Refused {
    pub place: u64,
    pub pattern: u32,
}

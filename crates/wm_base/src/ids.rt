//! Container ids, inks, and the buffers that clients give.
use crate::geometry::Size;

/// The id of an output, a workspace or a container. Ids rise by one and are not used again.
#[derive(Clone, Copy, Debug, PartialEq, Eq, PartialOrd, Ord, Hash)]
pub struct ConId(pub u32);

/// A color: red, green and blue in eight bits each, from `0` to `0xffffff`.
#[derive(Clone, Copy, Debug, PartialEq, Eq, PartialOrd, Ord, Hash)]
pub struct Ink(pub u32);

/// A client's buffer: one color over a width and a height in pixels.
#[derive(Clone, Copy, Debug, PartialEq, Eq, Hash)]
pub struct Buffer {
    pub ink: Ink,
    pub size: Size,
}

//! Frames: what is painted, from below to above.
use wm_base::{Buffer, ConId, Ink, List, Rect, Text};

/// A painted arrangement: the number of its transaction, how many steps led to it, and its quads from below
/// to above.
#[derive(Debug, Drop)]
pub struct Frame {
    pub number: u64,
    pub prefix: u64,
    pub quads: List<Quad>,
}

/// A part of a frame: the container, its rectangle in pixels, and what is painted there.
#[derive(Debug, Drop)]
pub struct Quad {
    pub con: ConId,
    pub rect: Rect,
    pub what: What,
}

/// What a part of a frame shows.
#[derive(Debug, Drop)]
pub enum What {
    /// The ground of a workspace, in black.
    Back,
    /// A title bar in its ink, with its text.
    Title { ink: Ink, text: Text },
    /// A border, or the ground below a window, in its ink.
    Border { ink: Ink },
    /// A window's content, with the buffer that it shows.
    Window { buffer: Buffer },
}

//! Layouts, borders, and the plan of an output.
use crate::geometry::{Edges, Rect};
use crate::text::Text;

/// How a container lays out its children: side by side, one above another, or one of them at a time.
#[derive(Clone, Copy, Debug, PartialEq, Eq, Hash)]
pub enum Layout {
    SplitH,
    SplitV,
    Tabbed,
    Stacked,
}

/// A container's border: a title and a frame, a frame alone, or none. Widths are in pixels, at most 64.
#[derive(Clone, Copy, Debug, PartialEq, Eq, Hash)]
pub enum Border {
    Normal(u32),
    Pixel(u32),
    Bare,
}

/// An output as it is planned: its name, its rectangle, and what bars reserve along its sides.
#[derive(Debug, Drop)]
pub struct OutputPlan {
    pub name: Text,
    pub rect: Rect,
    pub reserved: Edges,
}

//! The parts of the tree's nodes: what an output, a workspace or a container says of itself.
use wm_base::{Border, ConId, Edges, Layout, List, Props, Rect, Size, Text};

/// A node's id, what kind of node it is, and its marks in the order they were added. Only containers have marks.
#[derive(Debug, Drop)]
pub struct Part {
    pub id: ConId,
    pub kind: NodeKind,
    pub marks: List<Text>,
}

/// The root with the current output, an output, a workspace, or a container.
#[derive(Debug, Drop)]
pub enum NodeKind {
    Root { current: ConId },
    Output(OutputPart),
    Space(SpacePart),
    Con(ConPart),
}

/// An output: its name, its rectangle in pixels, what bars reserve along its sides, and the workspace that it shows.
#[derive(Debug, Drop)]
pub struct OutputPart {
    pub name: Text,
    pub rect: Rect,
    pub reserved: Edges,
    pub shown: ConId,
}

/// A workspace: its name, its layout, the last of the two split layouts that it had, and its gaps in pixels.
#[derive(Debug, Drop)]
pub struct SpacePart {
    pub name: Text,
    pub layout: Layout,
    pub last_split: Layout,
    pub inner: u32,
    pub outer: u32,
}

/// What a container's state is: its border, whether it is sticky, fullscreen, and flagged for the scratchpad, and
/// its outer rectangle, or the earlier one of a window that floated.
#[derive(Clone, Copy, Debug, PartialEq, Eq)]
pub struct ConState {
    pub border: Border,
    pub sticky: bool,
    pub fullscreen: bool,
    pub flagged: bool,
    pub rect: Option<Rect>,
}

/// A container: its state, its share of its parent's area among its siblings' shares (0 where it is not tiled), the
/// format of its title, and its kind.
#[derive(Debug, Drop)]
pub struct ConPart {
    pub state: ConState,
    pub share: u32,
    pub title_format: Text,
    pub kind: ConKind,
}

/// A split, a window of the caller with the number `owner`, or a placeholder for a window.
#[derive(Debug, Drop)]
pub enum ConKind {
    Split {
        layout: Layout,
        last_split: Layout,
    },
    Window {
        props: Props,
        owner: u32,
        natural: Size,
    },
    Placeholder {
        props: Props,
        swallows: List<Swallow>,
    },
}

/// What a placeholder's window looks like: patterns that all match.
#[derive(Debug, Drop)]
pub struct Swallow {
    pub keys: List<(SwallowKey, Text)>,
}

/// The property that a pattern is held against.
#[derive(Clone, Copy, Debug, PartialEq, Eq)]
pub enum SwallowKey {
    Class,
    Instance,
    Role,
    Title,
    Machine,
}

//! What a query or an event tells: nodes, workspaces, outputs and events, with the fields of their JSON.
use std::fmt;
use wm_base::{List, Props, Rect, Str, Text};

/// A node of the tree as replies and events show it. Rectangles are in pixels, all 0 where the node is not placed.
/// The last six fields are none where its kind has no such key, and the key is then not written.
#[derive(Drop)]
pub struct NodeView {
    /// `normal`, `pixel` or `none`.
    pub border: Str,
    pub current_border_width: u32,

    /// The rectangle of its title, its place counted from that of its parent's `rect`.
    pub deco_rect: Rect,
    pub floating_nodes: List<NodeView>,

    /// The ids of `nodes` and `floating_nodes`, the most recent first.
    pub focus: List<u32>,
    pub focused: bool,

    /// 0, or 1 for a fullscreen window.
    pub fullscreen_mode: u32,

    /// The natural size, at 0,0.
    pub geometry: Rect,
    pub id: u32,

    /// `splith`, `splitv`, `tabbed`, `stacked` or `output`.
    pub layout: Str,
    pub marks: List<Text>,
    pub name: Text,
    pub nodes: List<NodeView>,

    /// `horizontal`, `vertical` or `none`.
    pub orientation: Str,
    pub rect: Rect,
    pub share: u32,

    /// The sum of the shares of its parent's children, 0 where it is not tiled.
    pub share_sum: u32,
    pub sticky: bool,

    /// `root`, `output`, `workspace`, `con` or `floating_con`; its key is `type`.
    pub kind: Str,

    /// Whether an urgent window is in its subtree.
    pub urgent: bool,
    pub window: Option<u32>,
    pub window_properties: Option<Props>,

    /// Its content, the place counted from that of `rect`.
    pub window_rect: Rect,
    pub window_type: Option<Text>,
    pub num: Option<i32>,
    pub output: Option<Text>,
    pub visible: Option<bool>,
    pub active: Option<bool>,
    pub current_workspace: Option<Text>,
    pub primary: Option<bool>,
}

impl fmt::Debug for NodeView {
    /// Its kind, id and name; its JSON shows all of it.
    fn fmt<W: fmt::Write>(&self, f: &mut fmt::Formatter<W>) -> fmt::Result {
        f.debug_struct("NodeView")
            .field("kind", &self.kind)
            .field("id", &self.id)
            .field("name", &self.name)
            .finish_non_exhaustive()
    }
}

/// A workspace as the list of workspaces shows it.
#[derive(Debug, Drop)]
pub struct WorkspaceView {
    pub focused: bool,
    pub id: u32,
    pub name: Text,

    /// The number that its name begins with, or -1.
    pub num: i32,
    pub output: Text,
    pub rect: Rect,
    pub urgent: bool,
    pub visible: bool,
}

/// An output as the list of outputs shows it.
#[derive(Debug, Drop)]
pub struct OutputView {
    pub active: bool,
    pub current_workspace: Text,
    pub name: Text,
    pub primary: bool,
    pub rect: Rect,
}

/// An event with its number, counted from 1, and its kind: the number of its type without the highest bit.
#[derive(Debug, Drop)]
pub struct EventView {
    pub number: u64,
    pub kind: u32,
    pub body: EventBody,
}

/// What an event tells.
#[derive(Debug, Drop)]
pub enum EventBody {
    /// An output came, went, or changed its rectangle or its reserved edges.
    Output,

    /// A workspace changed; `before`, whose key is `old`, is the one that was focused before.
    Workspace {
        change: Str,
        current: NodeView,
        before: Option<NodeView>,
    },
    Window {
        change: Str,
        container: NodeView,
    },
    Mode {
        change: Text,
    },
    Binding {
        command: Str,
        event_state_mask: List<Text>,
        symbol: Text,
    },
    Tick {
        first: bool,
        payload: Str,
    },
    Shutdown,
}

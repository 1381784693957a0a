//! What a caller asks to see of a desk, and what it sees.
use crate::state::{State, Want};
use wm_base::{List, Str, Text};
use wm_json::{EventView, NodeView, OutputView, WorkspaceView};

/// What a caller asks to see.
#[derive(Clone, Copy, Debug, PartialEq, Eq)]
pub enum Query {
    /// The tree.
    Tree,
    /// The workspaces.
    Workspaces,
    /// The outputs.
    Outputs,
    /// All marks.
    Marks,
    /// The modes that can be set.
    Modes,
    /// The mode.
    Mode,
    /// The text of the configuration.
    Config,
    /// How far the desk is.
    State,
    /// What is asked of the caller's windows above this serial and this number of a step.
    Wants { serial: u64, kill: u64 },
    /// The events above this number.
    Events { above: u64 },
}

/// What a caller sees. Rectangles are in pixels.
#[derive(Drop)]
pub enum View {
    /// The root, and all below it.
    Tree(NodeView),
    /// The workspaces by number, then by id.
    Workspaces(List<WorkspaceView>),
    /// The outputs in the order of the tree.
    Outputs(List<OutputView>),
    /// All marks in byte order.
    Marks(List<Text>),
    /// The modes that can be set, `default` first.
    Modes(List<Text>),
    /// The mode that was set last.
    Mode(Text),
    /// The text of the configuration.
    Config(Str),
    /// How far the desk is.
    State(State),
    /// What is asked of the caller's windows, by rising id.
    Wants(List<Want>),
    /// The events above the number, the oldest first.
    Events(List<EventView>),
    /// Some events above the number are kept no more; `oldest` is the number of the first that is.
    Lagged { oldest: u64 },
}

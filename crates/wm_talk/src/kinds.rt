//! The types of messages.

/// RUN_COMMAND: the payload is a command text.
pub const RUN_COMMAND: u32 = 0;

/// GET_WORKSPACES.
pub const GET_WORKSPACES: u32 = 1;

/// SUBSCRIBE: the payload is a JSON array of names of events.
pub const SUBSCRIBE: u32 = 2;

/// GET_OUTPUTS.
pub const GET_OUTPUTS: u32 = 3;

/// GET_TREE.
pub const GET_TREE: u32 = 4;

/// GET_MARKS.
pub const GET_MARKS: u32 = 5;

/// GET_BAR_CONFIG: the payload is the name of a bar, or empty.
pub const GET_BAR_CONFIG: u32 = 6;

/// GET_VERSION.
pub const GET_VERSION: u32 = 7;

/// GET_BINDING_MODES.
pub const GET_BINDING_MODES: u32 = 8;

/// GET_CONFIG.
pub const GET_CONFIG: u32 = 9;

/// SEND_TICK: the payload is told to all who watch the desk.
pub const SEND_TICK: u32 = 10;

/// SYNC.
pub const SYNC: u32 = 11;

/// GET_BINDING_STATE.
pub const GET_BINDING_STATE: u32 = 12;

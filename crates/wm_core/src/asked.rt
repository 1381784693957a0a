//! What a caller asks of a desk beside its steps.
use wm_history::Query;

/// What a caller asks of a desk. It takes no memory.
#[derive(Clone, Copy, Debug, PartialEq, Eq)]
pub enum Asked {
    /// What it sees.
    Query(Query),
    /// The frame.
    Frame,
    /// Whether the desk is to stop.
    Stopped,
}

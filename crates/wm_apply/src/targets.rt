//! On what the commands of a group act.
use wm_base::{ConId, List};

/// The containers that the criteria matched, by rising id; or the subject that was handed in; or the focused one.
#[derive(Debug, Drop)]
pub enum Targets {
    Matched(List<ConId>),
    Handed(ConId),
    Focused,
}

//! The session of an i3-ipc client: one link, one pass through any door.
#![tactic(auto)]

mod calling;
mod ending;
mod hearing;
mod laws;
mod serving;
mod telling;

pub use ending::SessionEnd;
pub use laws::{a_session_goes_on, a_session_tells_as_a_talk};
pub use serving::session;

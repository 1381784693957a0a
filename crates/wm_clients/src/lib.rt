//! The session of a client that speaks lines: one link, one pass through any door.
#![tactic(auto)]

mod ending;
mod hearing;
mod sent;
mod serving;
mod stepping;
mod telling;

pub use ending::ClientEnd;
pub use sent::Sent;
pub use serving::client_session;

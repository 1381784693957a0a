//! The actors of a server beside one another, each in a thread of its own where one can be had.
#![tactic(auto)]

mod actors;
mod crew;
mod duties;
mod duty;
mod fault;
mod running;
mod serving;
mod status;

pub use actors::{Ran, run_actors};
pub use status::ServeStatus;

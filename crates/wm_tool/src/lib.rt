//! The tool behind the program i3replay: scripts, their frames, frames of i3-ipc, and steps that a number makes.
#![tactic(auto)]

mod asked;
mod drawing;
mod generating;
mod ipc;
mod judging;
mod planning;
mod replay;
mod run;
mod status;
mod telling;
mod words;

pub use run::tool;
pub use status::Status;
pub use wm_script::Refused;

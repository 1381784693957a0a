//! Running a text that reads: its groups of commands, each on the containers that its criteria match or on the focused one.
#![tactic(auto)]

mod applied;
mod batches;
mod bordering;
mod borders;
mod commands;
mod finding;
mod floats;
mod killing;
mod kills;
mod layouts;
mod modes;
mod outputs;
mod quiet;
mod rows;
mod runs;
mod subjects;
mod targets;

pub use applied::{Applied, CommandReply};
pub use batches::{apply, run};
pub use quiet::{is_quiet, run_quiet};

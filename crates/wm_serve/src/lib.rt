//! The server: its words, its configuration, its desk behind one lock, its actors, and its summary.
#![tactic(auto)]

mod callers;
mod desk;
mod once;
mod rehearsed;
mod rehearsing;
mod serving;
mod summing;

pub use desk::run_desk;
pub use rehearsing::rehearse;
pub use serving::serve;

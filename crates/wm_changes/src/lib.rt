//! Changes: the events that two trees, one before and one after, tell of.
#![tactic(auto)]

mod changing;
mod comparing;
mod differing;
mod focusing;
mod laws;
mod lines;
mod outputs;
mod scene;
mod spaces;
mod standing;
mod telling;
mod viewer;
mod windows;
mod words;

pub use changing::changes;
pub use laws::{
    events_are_few, nothing_is_told_of_nothing, windows_are_found, windows_come_and_go,
    workspaces_are_found, workspaces_come_and_go,
};

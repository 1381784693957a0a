//! Saved layouts that are appended to a workspace, and windows that go to their placeholders.
#![tactic(auto)]

mod appending;
mod behind;
mod laws;
mod limits;
mod shapes;
mod swallowing;

pub use appending::append;
pub use laws::{
    appending_adds_all, first_one_swallows, ids_and_marks_stay, placeholder_becomes_window,
};
pub use swallowing::swallow;

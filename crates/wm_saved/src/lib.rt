//! Saved layouts: i3's layout files are read from JSON.
#![tactic(auto)]

mod copies;
mod fields;
mod fit;
mod laws;
mod limits;
mod marks;
mod reading;
mod refusal;
mod saved;
mod swallows;
#[cfg(test)]
mod tests;

pub use laws::{faults_are_at_their_paths, other_fields_are_passed_over};
pub use reading::read_layout;
pub use refusal::LayoutRefusal;
pub use saved::{SavedKind, SavedLayout, SavedNode};

//! Commands on the tree that focus, move, mark and lay out: each does one command to one subject.
#![tactic(auto)]

mod direction;
mod giving;
mod laws;
mod marks;
mod moves;
mod parents;
mod rungs;
mod splits;
mod swaps;

pub use direction::focus_dir;
pub use laws::{marked_is_found, none_is_left, one_has_a_mark};
pub use marks::{mark, marked, unmark};
pub use moves::move_dir;
pub use parents::{focus_child, focus_parent};
pub use splits::{cycle_layout, set_layout, split};
pub use swaps::{move_to_mark, swap};

//! Views: what queries tell of a tree and its arrangement.
#![tactic(auto)]

mod cons;
mod holders;
mod laws;
mod maps;
mod nodes;
mod numbers;
mod order;
mod outputs;
mod placing;
mod root;
mod rows;
mod scratchpad;
mod setting;
mod sight;
mod spaces;
mod walk;

pub use cons::{Above, con_view, space_view};
pub use laws::{focus_is_by_recency, focus_is_of_the_rows, workspaces_are_in_order};
pub use outputs::outputs_view;
pub use root::tree_view;
pub use sight::Sight;
pub use spaces::workspaces_view;

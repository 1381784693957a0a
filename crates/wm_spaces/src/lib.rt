//! Commands on workspaces and outputs: each does one command to the tree.
#![tactic(auto)]

mod coming;
mod moving;
mod names;
mod order;
mod outs;
mod renaming;
mod sending;
mod showing;
mod targets;

pub use coming::{focus_output, output_added, output_removed};
pub use moving::move_workspace;
pub use outs::output_at;
pub use renaming::rename;
pub use sending::{send, send_to, send_to_output};
pub use showing::show;

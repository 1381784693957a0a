//! Views as JSON text, written token by token, with no values of JSON between.
#![tactic(auto)]

mod fields;
mod nodes;
mod spaces;
mod tokens;

pub use nodes::node_json;
pub use spaces::{outputs_json, workspaces_json};

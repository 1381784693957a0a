//! Plans: what a desktop starts with, and what its commands find beside the tree.
#![tactic(auto)]

mod copies;
mod plan;

pub use copies::copy_output;
pub use plan::{Env, Plan, is_fit_rect};

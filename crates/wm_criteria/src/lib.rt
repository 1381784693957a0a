//! Criteria: patterns of the command language, and texts that are read and built once.
#![tactic(auto)]

mod asked;
mod build;
mod focus;
mod form;
mod forms;
mod gathering;
mod groups;
mod holds;
mod laws;
mod list_build;
mod patterns;
mod plain;
mod prepared;
mod preparing;
mod property;
mod regex_build;
mod subject;
mod verdict;

pub use build::{Build, BuildFault};
pub use gathering::matching;
pub use groups::matches;
pub use laws::{any_text_is_asked_for, matches_a_part, matching_is_in_order};
pub use list_build::ListBuild;
pub use plain::{is_plain, plain_search};
pub use prepared::Prepared;
pub use preparing::{prepare, prepare_bare};
pub use regex_build::RegexBuild;
pub use verdict::Verdict;

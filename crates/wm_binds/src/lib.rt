//! Configurations: what a user's i3 configuration says, read to a plan and to bindings.
#![tactic(auto)]

mod config;
mod draft;
mod entry;
mod layout_lines;
mod line;
mod mode_lines;
mod modes;
mod names;
mod naming;
mod plan_lines;
mod reading;
mod table;
mod words;

pub use config::{Bind, Config, ConfigRefusal};
pub use draft::{Draft, LineRefusal, push};
pub use layout_lines::layout_of;
pub use modes::ModeTable;
pub use table::BindTable;
pub use words::text_of;

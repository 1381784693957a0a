//! Commands on the sizes and looks of containers: each does one command to one subject.
#![tactic(auto)]

mod borders;
mod climbing;
mod deals;
mod floating;
mod gaps;
mod handing;
mod resizing;
mod tiled;
mod titles;
mod windows;

pub use borders::{cycle_border, is_wide, next_border, set_border};
pub use floating::resize_set;
pub use gaps::set_gaps;
pub use resizing::resize;
pub use titles::title_format;

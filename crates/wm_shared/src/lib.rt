//! What commands of several crates share: their subjects and refusals, showing workspaces, and the order of outputs.
#![tactic(auto)]

mod keys;
mod neighbours;
mod outputs;
mod rects;
mod refusing;
mod showing;
mod subject;
mod windows;

pub use keys::{Key, lesser};
pub use neighbours::{dir_axis, first_id, is_forward, last_id, layout_axis, neighbour, runs};
pub use outputs::{output_from, output_in, output_of};
pub use rects::{held, is_in_range, output_part_of, rect_of};
pub use refusing::refused;
pub use showing::{
    enter, enter_output, focus, remember, show_space, show_there, shown_on, space_name,
};
pub use subject::{is_hidden, is_space, is_subject, on_workspace};
pub use windows::{natural_by, set_rect, state_of};

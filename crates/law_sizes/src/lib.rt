//! Laws of sizes and of floating windows: what a resize keeps, and the order of a round. They are said over the
//! definitions alone.
#![tactic(auto)]

mod edges;
mod rects;
mod rounds;
mod shares;

pub use edges::{focus_past_an_edge_enters_the_output, the_output_beyond_an_edge_is_the_nearest};
pub use rects::{
    a_growth_keeps_the_rest, a_place_keeps_the_rest, a_shift_keeps_the_rest, a_size_keeps_the_rest,
};
pub use rounds::{floating_windows_go_round_by_id, focusing_in_a_direction_goes_round_by_id};
pub use shares::{
    a_resize_gives_what_is_taken, a_resize_keeps_all_but_shares,
    resizing_there_and_back_changes_nothing,
};

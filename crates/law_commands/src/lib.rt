//! Laws of commands on one subject: what they keep, said over the definitions alone.
#![tactic(auto)]

mod floating;
mod focusing;
mod keeping;
mod sending;
mod turning;

pub use floating::floating_again_gives_the_rectangle_back;
pub use focusing::{
    focus_focuses, focusing_a_child_keeps_the_rest, focusing_a_parent_keeps_the_rest,
    focusing_in_a_direction_keeps_the_rest,
};
pub use keeping::{
    a_move_keeps_all, a_move_to_a_mark_keeps_all, a_sending_keeps_all, a_swap_keeps_all,
    an_output_that_goes_keeps_all,
};
pub use sending::{sending_there_and_back_keeps_what_is_below, showing_twice_is_showing_once};
pub use turning::{moving_there_and_back_changes_nothing, swapping_twice_changes_nothing};

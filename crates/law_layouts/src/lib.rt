//! Laws of layouts, borders, floating windows and the scratchpad, said over the definitions alone.
#![tactic(auto)]

mod afloat;
mod borders;
mod layouts;
mod splitting;
mod stowing;
mod switches;

pub use afloat::{
    toggling_floating_lets_a_window_float, toggling_floating_twice_gives_the_rectangle_back,
    toggling_floating_twice_tiles_a_window_again,
};
pub use borders::{
    toggling_the_border_three_times_changes_nothing, toggling_the_border_three_times_comes_round,
};
pub use layouts::{
    toggling_all_four_times_changes_nothing, toggling_all_four_times_sets_the_layout_that_was,
    toggling_all_visits_all_layouts, toggling_split_twice_changes_nothing,
    toggling_split_twice_sets_the_layout_that_was,
};
pub use splitting::{
    split_h_gives_splith, split_toggle_gives_the_other_split, split_v_gives_splitv,
    splitting_keeps_the_container_tiled, splitting_keeps_the_focus, splitting_keeps_the_workspace,
};
pub use stowing::{
    a_window_is_first_in_the_empty_scratchpad, moving_to_the_scratchpad_hides_a_window,
    showing_a_window_of_the_scratchpad_brings_it, showing_the_scratchpad_brings_its_first_window,
    showing_the_scratchpad_brings_the_window_that_hid,
};
pub use switches::{
    toggling_fullscreen_twice_changes_nothing,
    toggling_fullscreen_twice_leaves_no_other_fullscreen, toggling_sticky_twice_changes_nothing,
};

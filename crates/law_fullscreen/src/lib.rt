//! Laws of fullscreen: whatever step changes a tree, each workspace has at most one fullscreen container.
#![tactic(auto)]

mod steps;

pub use steps::{
    a_closed_container_keeps_one, a_fullscreen_container_is_alone,
    a_fullscreen_container_keeps_one, a_mapped_window_keeps_one, a_moved_container_keeps_one,
    a_raised_node_keeps_one, a_workspace_that_comes_keeps_one, a_workspace_that_moves_keeps_one,
    a_wrapped_container_keeps_one, an_output_that_comes_keeps_one, an_output_that_goes_keeps_one,
    both_counts_agree, exchanged_containers_keep_one, openings_have_one, settling_keeps_one,
    sticky_windows_keep_one,
};

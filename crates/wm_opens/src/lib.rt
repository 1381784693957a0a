//! Laws of windows: which stand in a tree before and after each step, and which may still open, said over the definitions alone.
#![tactic(auto)]

mod steps;
mod swallowing;
mod texts;

pub use steps::{
    a_change_keeps_windows, a_closed_window_is_gone, a_closed_window_takes_no_other,
    a_mapped_window_is_one_more, a_node_that_goes_takes_its_own,
    an_output_that_comes_keeps_windows, an_output_that_goes_keeps_windows,
    an_output_that_goes_opens_none, closing_stays_good, mapping_stays_good, openings_are_tidy,
    raising_keeps_windows, settling_keeps_windows, settling_opens_none,
    windows_are_counted_as_seen,
};
pub use swallowing::{
    a_change_lets_no_other_open, a_swallowed_window_fills_its_placeholder, a_window_may_not_open,
    a_window_never_opens_again, a_window_that_none_swallows_changes_nothing,
    an_output_that_comes_lets_no_other_open, an_output_that_goes_lets_no_other_open,
    closing_lets_no_other_open, mapping_lets_no_other_open, no_other_id_may_open,
    placeholders_are_counted_as_seen, raising_lets_no_other_open, settling_lets_no_other_open,
    steps_let_no_other_open, swallowing_lets_no_other_open, swallowing_spends_its_id,
    swallowing_stays_good, texts_let_no_other_open,
};
pub use texts::{texts_keep_owners, texts_keep_windows, texts_leave_windows, texts_open_no_window};

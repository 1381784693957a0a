//! Laws of workspaces and outputs, said over the definitions alone.
#![tactic(auto)]

mod coming;
mod moving;
mod renaming;
mod sending;
mod settling;
mod showing;
mod stepping;

pub use coming::an_output_that_comes_has_another_name;
pub use moving::a_moved_workspace_is_last_and_shown;
pub use renaming::a_renamed_workspace_has_its_name;
pub use sending::{a_sending_keeps_recency, a_sending_to_a_new_workspace_keeps_recency};
pub use settling::{
    a_step_on_and_a_step_back_settled_change_no_focus, settling_keeps_what_is_shown,
};
pub use showing::{a_shown_workspace_is_focused, going_back_and_forth_changes_no_focus};
pub use stepping::a_step_on_and_a_step_back_change_no_focus;

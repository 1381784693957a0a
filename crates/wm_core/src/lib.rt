//! The desk: one history of steps, what each answers, and the frames that are painted.
#![tactic(auto)]

mod asked;
mod client;
mod committing;
mod copying;
mod desk;
mod door;
mod keys;
mod laws;
mod look;
mod mapping;
mod outputs;
mod refusals;
mod running;
mod screen;
mod stands;
mod starting;
mod state;
mod windows;

pub use asked::Asked;
pub use desk::Desk;
pub use door::Door;
pub use laws::{
    a_window_shows_its_answer, a_window_shows_its_configured_size, at_most_two_end,
    each_window_in_the_frame_is_shown, frames_go_on, marks_are_in_order,
    open_windows_are_those_of_the_tree, the_second_awaits_nobody, windows_are_in_order,
};
pub use refusals::{ActRefusal, Exhausted};
pub use wm_history::{Answer, Choice, ClientStep, Query, State, Step, View, Want};

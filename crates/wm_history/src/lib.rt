//! The history of a desk: steps, what each does, what it is answered, and what is seen after them.
#![tactic(auto)]

mod beside;
mod by_window;
mod client;
mod counting;
mod frame;
mod holding;
mod keys;
mod kills;
mod look;
mod mapping;
mod marking;
mod modes;
mod outputs;
mod owners;
mod replies;
mod screen;
mod state;
mod step;
mod windows;

pub use beside::later_events;
pub use by_window::{forget, renew};
pub use client::{ClientStep, ack_said};
pub use counting::{closed, window_count};
pub use frame::painted;
pub use keys::{bound, choice_for};
pub use kills::{kill_above, noted};
pub use look::{Query, View};
pub use mapping::{NotOpened, has_no_pixels, open, run_then};
pub use marking::marks;
pub use modes::{all_modes, default_mode, set_mode};
pub use outputs::output_named;
pub use owners::{disown, forget_owners, is_caller, own};
pub use replies::replies_to;
pub use screen::first_back;
pub use state::{State, Want, configure_above, in_order};
pub use step::{Answer, Choice, Step};
pub use windows::{detach_all, set_urgent};

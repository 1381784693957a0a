//! Commands on floating windows and the scratchpad: each does one command to the tree.
#![tactic(auto)]

mod floating;
mod full;
mod kinds;
mod laws;
mod places;
mod placing;
mod rounds;
mod scratchpad;
mod sieve;
mod sticking;
mod windows;

pub use floating::set_floating;
pub use full::{fills_alone, set_fullscreen};
pub use kinds::{focus_kind, is_floating};
pub use laws::floats_as_before;
pub use placing::{centre, move_by, place_at};
pub use rounds::{focus_round, shift};
pub use scratchpad::{show_scratchpad, to_scratchpad};
pub use sticking::set_sticky;

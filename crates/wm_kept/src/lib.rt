//! The events of a desk, numbered from 1, of which the last 4,096 are kept.
#![tactic(auto)]

mod above;
mod copying;
mod kept;

pub use above::Above;
pub use kept::{Kept, MOST};

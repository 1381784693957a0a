//! Maps by id, in which a look-up takes as long however many ids there are.
#![tactic(auto)]

mod map;
mod spread;

pub use map::IdMap;

//! Bytes that come in pieces, cut into lines.
#![tactic(auto)]

mod cutter;
mod laws;

pub use cutter::Cutter;
pub use laws::{
    first_line_comes_first, first_line_is_in_front, no_line_is_all_rest, pieces_are_one,
};

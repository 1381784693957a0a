//! The fields of lines: spaces, numbers, inks, sizes, places, quoted texts, names and the properties of a window.
#![tactic(auto)]

mod fields;
mod properties;
mod quoted;
mod splitting;

pub use fields::{
    at_end, behind, buffer, coordinate, edges, gap, number, rect, serial, size, word_then,
};
pub use properties::window_properties;
pub use quoted::{long_quoted, name, quoted_text, short_text};
pub use splitting::first_line;

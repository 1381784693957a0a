//! The words of the server: how long clients are waited for, and whether to rehearse.
#![tactic(auto)]

mod words;

pub use words::{Options, options_of};

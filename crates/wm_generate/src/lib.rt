//! A large input made from a number: the steps that a sequence of numbers gives on a desk.
#![tactic(auto)]

mod generating;
mod numbers;
mod steps;
mod texts;

pub use generating::generate;
pub use numbers::{drawn, next};
pub use steps::step_of;

//! A ticket lock over one value, and what each caller has seen of its history.
#![tactic(auto)]

mod making;
mod plays;
mod rule;
mod seat;
mod stands;
mod steps;
#[cfg(test)]
mod tests;
mod turnstile;
mod view;

pub use seat::Seat;
pub use stands::Stands;
pub use turnstile::Turnstile;
pub use view::{Entry, Mark};

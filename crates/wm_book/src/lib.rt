//! Books: a desk that several callers share, each with a seat, and a desk that stores its first steps.
#![tactic(auto)]

mod book;
mod entry;
mod kept;
mod recorded;
#[cfg(test)]
mod tests;

pub use book::Book;
pub use entry::Entry;
pub use kept::Kept;
pub use recorded::Recorded;

//! Laws of the lines that tell answers.
#![tactic(auto)]

mod answers;

pub use answers::{a_printed_answer_is_no_other, a_printed_answer_reads_back};

//! Laws of the lines of scripts and clients: what each says is what the grammar tells, a case for each kind of line.
#![tactic(auto)]

mod deeds;
mod lines;
mod scripts;
mod steps;

pub use deeds::{a_caller_does_one_thing, a_caller_does_what_the_grammar_tells};
pub use lines::{
    a_line_outside_says_nothing, a_line_says_one_thing, a_line_says_what_the_grammar_tells,
};
pub use scripts::{a_script_is_its_lines, the_first_bad_line_is_the_first_outside};
pub use steps::{
    a_client_takes_what_the_grammar_tells, a_line_takes_one_step,
    a_line_takes_what_the_grammar_tells,
};

//! The pieces of a text in the command language: blanks, words, numbers, keywords, and the commands of these alone.
#![tactic(auto)]

mod keywords;
mod moving;
mod numbers;
mod plain;
mod resizing;
mod verbs;
mod words;

pub use moving::{past_one_to, past_to};
pub use numbers::natural;
pub use plain::{past_with, plain_form};
pub use verbs::{Verb, verb_of};
pub use words::{
    Stop, after, argument, cut, ends, is_text, is_word, past, says, skip, split_word, starts,
    stops_in, trim_end, unquote,
};

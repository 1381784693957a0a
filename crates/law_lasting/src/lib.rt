//! What lasts of every tree: properties that each word, command, text and other step keeps.
#![tactic(auto)]

mod fullscreen;
mod scratchpad;

pub use fullscreen::{
    an_output_that_comes_keeps_one_fullscreen, an_output_that_goes_keeps_one_fullscreen,
    closing_keeps_one_fullscreen, mapping_keeps_one_fullscreen, reserving_keeps_one_fullscreen,
    retitling_keeps_one_fullscreen, swallowing_keeps_one_fullscreen, texts_keep_one_fullscreen,
    urgency_keeps_one_fullscreen,
};
pub use scratchpad::{
    an_output_that_comes_keeps_the_scratchpad, an_output_that_goes_keeps_the_scratchpad,
    closing_keeps_the_scratchpad, going_keeps_the_scratchpad, mapping_keeps_the_scratchpad,
    openings_have_an_empty_scratchpad, reserving_keeps_the_scratchpad,
    retitling_keeps_the_scratchpad, settling_keeps_the_scratchpad, swallowing_keeps_the_scratchpad,
    texts_keep_the_scratchpad, the_scratchpad_has_windows, urgency_keeps_the_scratchpad,
};

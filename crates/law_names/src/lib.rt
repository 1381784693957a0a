//! What lasts of names: those of workspaces differ, and those of outputs do, whatever is done.
#![tactic(auto)]

mod outputs;
mod spaces;

pub use outputs::{
    an_output_that_comes_keeps_output_names, an_output_that_goes_keeps_output_names,
    closing_keeps_output_names, mapping_keeps_output_names, openings_have_output_names,
    reserving_keeps_output_names, retitling_keeps_output_names, settling_keeps_output_names,
    swallowing_keeps_output_names, texts_keep_output_names, urgency_keeps_output_names,
};
pub use spaces::{
    an_output_that_comes_keeps_space_names, an_output_that_goes_keeps_space_names,
    closing_keeps_space_names, mapping_keeps_space_names, new_names_are_free,
    openings_have_space_names, reserving_keeps_space_names, retitling_keeps_space_names,
    settling_keeps_space_names, swallowing_keeps_space_names, texts_keep_space_names,
    urgency_keeps_space_names,
};

//! Reading texts of the command language into batches of commands, and printing batches so that they read again.
#![tactic(auto)]

mod groups;
mod keys;
mod laws;
mod opening;
mod reading;
mod search;
mod texts;

pub use laws::{
    a_text_reads_as_far_as_it_spells, a_text_spells_one_batch_at_most, a_text_spells_to_one_place,
    each_form_has_a_spelling, what_is_printed_is_spelled, what_is_refused_spells_nothing,
    what_is_spelled_can_be_printed, what_is_spelled_reads, what_reads_is_spelled,
};
pub use texts::{print, read};
pub use wm_language::{
    Batch, Command, Criteria, Cycle, GapOp, Group, Key, Kind, LayoutArg, OnOff, OutArg,
    ReadRefusal, Side, SplitArg, SwapArg, Target,
};

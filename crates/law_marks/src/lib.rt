//! What lasts of marks, of urgent windows and of what floats: no mark is there twice, and each urgent id and all that floats is a window.
#![tactic(auto)]

mod afloat;
mod marks;
mod urgent;

pub use afloat::{
    an_output_that_comes_keeps_windows_afloat, an_output_that_goes_keeps_windows_afloat,
    closing_keeps_windows_afloat, mapping_keeps_windows_afloat, openings_float_windows,
    reserving_keeps_windows_afloat, retitling_keeps_windows_afloat, settling_keeps_windows_afloat,
    swallowing_keeps_windows_afloat, texts_keep_windows_afloat, urgency_keeps_windows_afloat,
};
pub use marks::{
    an_output_that_comes_keeps_marks_apart, an_output_that_goes_keeps_marks_apart,
    closing_keeps_marks_apart, mapping_keeps_marks_apart, openings_have_marks_apart,
    reserving_keeps_marks_apart, retitling_keeps_marks_apart, settling_keeps_marks_apart,
    swallowing_keeps_marks_apart, texts_keep_marks_apart, urgency_keeps_marks_apart,
};
pub use urgent::{
    an_output_that_comes_keeps_urgent_windows, an_output_that_goes_keeps_urgent_windows,
    calm_keeps_urgent_windows, closing_keeps_urgent_windows, mapping_keeps_urgent_windows,
    openings_have_none_urgent, reserving_keeps_urgent_windows, retitling_keeps_urgent_windows,
    settling_keeps_urgent_windows, swallowing_keeps_urgent_windows, texts_keep_urgent_windows,
    urgency_keeps_urgent_windows,
};

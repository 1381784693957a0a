//! What the call of a message gave.
use wm_core::{Answer, View};

/// What the call of a message gave: a step was answered, or something was seen.
#[derive(Drop)]
pub enum Got {
    Answer(Answer),
    View(View),
}

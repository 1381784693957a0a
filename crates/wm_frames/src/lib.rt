//! Frames of i3-ipc: a decoder that takes bytes in any pieces, and the encoder.
#![tactic(auto)]

mod decoder;
mod front;
mod head;
mod laws;
mod message;
mod partial;
mod whole;

pub use decoder::Decoder;
pub use laws::{frames_read_back, no_frame_begins_another, one_reading, pieces_are_one};
pub use message::{FrameFault, Message, encode};

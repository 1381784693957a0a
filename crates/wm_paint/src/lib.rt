//! Frames as text and as pixels.
#![tactic(auto)]

mod canvas;
mod escapes;
mod frame;
mod laws;
mod paint;
mod pixels;
mod text;

pub use canvas::Canvas;
pub use frame::{Frame, Quad, What};
pub use laws::{covers_its_pixels, last_quad_gives_the_ink, pixels_tell_canvases};
pub use text::frame_text;

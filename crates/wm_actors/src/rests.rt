//! How long actors rest that have nothing to do.
use std::sync::Wait;
use std::thread::Parker;
use std::time::Duration;

/// How many milliseconds a timer rests after a round that gave no deadline: a small part of a usual hold, so that a
/// deadline comes little later than it is due, and yet an idle desk costs next to nothing.
const TIMER_REST: u64 = 30;

/// How many milliseconds a painter rests after a frame that equals the one before it: less than a screen takes for one
/// picture, so that a change is shown with the next.
const PAINTER_REST: u64 = 8;

/// Waits until a timer is to look again. Nothing is promised of the time.
pub fn rest_timer<R: Wait>(rt: &R) {
    Parker::new().park_timeout(rt, Duration::from_millis(TIMER_REST));
}

/// Waits until a painter is to look again. Nothing is promised of the time.
pub fn rest_painter<R: Wait>(rt: &R) {
    Parker::new().park_timeout(rt, Duration::from_millis(PAINTER_REST));
}

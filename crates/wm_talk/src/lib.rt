//! What an i3-ipc client is told, message by message: the one call of each message, its reply, and the events.
#![tactic(auto)]

mod calls;
mod framing;
mod got;
mod kinds;
mod laws;
mod names;
mod replies;
mod since;
mod talk;
mod telling;
mod texts;
mod views;

pub use calls::{Call, call_of};
pub use framing::push_frames;
pub use got::Got;
pub use laws::{
    events_are_told_once, events_come_after, names_stay, no_event_is_left_out,
    readings_go_to_the_last, telling_goes_on, the_first_tick_is_told_once,
};
pub use talk::Talk;
pub use views::view_json;

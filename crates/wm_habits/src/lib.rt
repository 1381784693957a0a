//! Modelled clients, and links over them.
#![tactic(auto)]

mod actor;
mod actor_link;
mod asking;
mod filling;
mod habit;
mod laws;
mod saying;

pub use actor::Actor;
pub use actor_link::ActorLink;
pub use asking::{Asked, asked_in};
pub use habit::Habit;
pub use laws::{
    answers_come_as_late_as_the_habit, pieces_are_heard_as_one, what_is_asked_is_read,
    what_is_said_is_of_clients,
};

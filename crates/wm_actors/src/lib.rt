//! The actors of a server: each is a call of its own, which goes through any door by one pass.
#![tactic(auto)]

mod clients;
mod ending;
mod exiting;
mod ipc;
mod laws;
mod painting;
mod rests;
mod serve;
mod timer;
mod timing;
mod working;

pub use clients::{Clients, client_worker};
pub use ending::ActorEnd;
pub use ipc::{Ipc, ipc_worker};
pub use laws::an_exit_stops;
pub use painting::painter_loop;
pub use serve::{Failure, Serve};
pub use timer::Timer;
pub use timing::timer_loop;
pub use working::work;

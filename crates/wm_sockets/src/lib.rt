//! Links and listeners over the system's Unix sockets, the files that such sockets have, and the system's clock.
#![tactic(auto)]

mod clocks;
mod files;
mod linking;
mod listening;
#[cfg(test)]
mod tests;
mod watching;

pub use clocks::RealClock;
pub use files::SocketFile;
pub use linking::UnixLink;
pub use listening::UnixListen;

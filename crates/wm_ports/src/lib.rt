//! Sources, sinks, links, listeners and clocks: their contracts, ones in memory that fail where they are told, and real
//! sources and sinks.
#![tactic(auto)]

mod clock_memory;
mod link_memory;
mod links;
mod listen_memory;
mod listens;
mod memory;
mod port;
mod sending;
mod stream;
mod whole;

pub use clock_memory::StepClock;
pub use link_memory::MemLink;
pub use links::{Link, Received, SendFault};
pub use listen_memory::MemListen;
pub use listens::{Accepted, Clock, Listen};
pub use memory::{MemSink, MemSource};
pub use port::{Failed, Sink, Source};
pub use sending::send_all;
pub use stream::{StdSink, StdSource};
pub use whole::{ReadFault, read_to_limit, write_all};

//! Messages of one type over several connections at once, and how many are answered in a second.
use crate::fault::Fault;
use crate::wire::Wire;
use std::alloc::Global;
use std::net::Net;
use std::thread::{self, Threads};
use std::time::{Clock, Duration, Instant};

/// The type of the messages whose replies are the same each time.
const RUN_COMMAND: u32 = 0;

/// What each connection sends: so many messages of one type, with these payloads in turn.
#[derive(Clone, Copy)]
pub struct Messages<'a> {
    pub count: u32,
    pub kind: u32,
    pub payloads: &'a [String],
}

impl Messages<'_> {
    /// The payload of the message of this number, empty where there is none.
    fn payload(&self, number: u32) -> &[u8] {
        match self
            .payloads
            .get(number as usize % self.payloads.len().max(1))
        {
            Some(text) => text.as_bytes(),
            None => b"",
        }
    }
}

/// Sends these messages on each of so many connections, each message after the reply to the one before, and tells how long
/// that took.
pub fn load<R: Threads + Net + Clock + Sync>(
    rt: &R,
    alloc: Global,
    path: &str,
    connections: u32,
    messages: Messages<'_>,
) -> Result<Duration, Fault> {
    let mut wires = Vec::new(alloc);
    for _ in 0..connections {
        wires.push(Wire::connect(rt, alloc, path)?)?;
    }
    let start = Instant::now(rt)?;
    let ends = thread::map_vec(rt, wires, &|wire| ask_all(alloc, wire, messages))?;
    let took = start.elapsed(rt)?;
    for end in ends {
        end?;
    }
    Ok(took)
}

fn ask_all(alloc: Global, mut wire: Wire, messages: Messages<'_>) -> Result<(), Fault> {
    let mut first = Vec::new(alloc);
    for number in 0..messages.count {
        wire.ask(messages.kind, messages.payload(number))?;
        if number == 0 {
            first.extend_from_slice(wire.payload())?;
        }
        if messages.kind == RUN_COMMAND && wire.payload() != first.as_slice() {
            return Err(Fault::Wrong);
        }
    }
    Ok(())
}

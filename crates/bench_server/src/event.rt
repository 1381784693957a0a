//! How long an event takes from the message that causes it to the client that watches.
use crate::fault::Fault;
use crate::wire::Wire;
use std::alloc::Global;
use std::net::Net;
use std::time::{Clock, Instant};

const SUBSCRIBE: u32 = 2;

const SEND_TICK: u32 = 10;

/// The type of the frame of a tick event.
const TICK: u32 = 0x8000_0007;

/// The times in microseconds that half of the events took at most, 99 of 100, and all.
#[derive(Clone, Copy)]
pub struct Spread {
    pub half: u64,
    pub most: u64,
    pub all: u64,
}

/// Sends so many ticks on one connection, and takes the time until each has come on another.
pub fn take_times<R: Net + Clock>(
    rt: &R,
    alloc: Global,
    path: &str,
    count: u32,
) -> Result<Spread, Fault> {
    let mut watcher = Wire::connect(rt, alloc, path)?;
    watcher.ask(SUBSCRIBE, b"[\"tick\"]")?;
    watcher.expect(TICK)?;
    let mut sender = Wire::connect(rt, alloc, path)?;
    let mut times = Vec::new(alloc);
    for _ in 0..count {
        times.push(time_one(rt, &mut sender, &mut watcher)?)?;
    }
    times.sort()?;
    Ok(Spread {
        half: at(&times, 50),
        most: at(&times, 99),
        all: at(&times, 100),
    })
}

/// The microseconds from the sending of a tick until its event has come.
fn time_one(clock: &impl Clock, sender: &mut Wire, watcher: &mut Wire) -> Result<u64, Fault> {
    let start = Instant::now(clock)?;
    sender.send(SEND_TICK, b"t")?;
    watcher.expect(TICK)?;
    let took = start.elapsed(clock)?;
    sender.expect(SEND_TICK)?;
    Ok(u64::try_from(took.as_micros()).unwrap_or(u64::MAX))
}

/// The time that so many of a hundred took at most, where the times rise. 0 where there are none.
fn at(times: &[u64], part: usize) -> u64 {
    let rank = times.len().saturating_mul(part) / 100;
    times.get(rank.saturating_sub(1)).map_or(0, |time| *time)
}

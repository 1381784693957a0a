//! The system's clock.
ghost use Rattle.std.specs.Prelude.{◌≡◌, ◌≤◌, None, IfOk};
ghost use Rattle.wm_ports.specs.Listening.{IsTold};

use std::io;
use std::time::Instant;
use wm_ports::Clock;

/// Milliseconds since the clock was made, by the system's monotonic clock. They never go back: where the system's clock
/// cannot be read, the last number is given again.
#[derive(Debug, Drop)]
pub struct RealClock<R> {
    rt: R,
    start: Instant,
    last_ms: u64,
}

impl<R: std::time::Clock + Drop> RealClock<R> {
    /// A clock that begins at 0 now. An `Err` is the system's, whose clock cannot be read.
    pub fn new(rt: R) -> io::Result<RealClock<R>>
        ensures { IfOk result (λ clock. clock.last_ms ≡ 0) }
    {
        let start = Instant::now(&rt)?;
        Ok(RealClock {
            rt,
            start,
            last_ms: 0,
        })
    }
}

impl<R: std::time::Clock> Clock for RealClock<R> {
    /// The milliseconds until now, at most 2^64 - 1.
    fn now_ms(&mut self) -> u64
        ensures told { IsTold None None result }
        ensures grown { self.old.last_ms ≤ result }
        ensures last { self.new.last_ms ≡ result }
    {
        if let Ok(elapsed) = self.start.elapsed(&self.rt) {
            let now = u64::try_from(elapsed.as_millis()).unwrap_or(u64::MAX);
            self.last_ms = self.last_ms.max(now);
        }
        self.last_ms
    }
}

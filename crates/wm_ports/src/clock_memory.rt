//! A clock in memory, which goes by steps.
ghost use Rattle.std.specs.Prelude.{◌≡◌, Some};
ghost use Rattle.wm_ports.specs.ListenMemory.{after_tick, numbers};
ghost use Rattle.wm_ports.specs.Listening.{IsTold};

use crate::listens::Clock;
use std::marker::Model;

/// A clock that gives a number, then so many more at each call, and stands still at 2^64 - 1.
#[derive(Debug, Drop)]
pub struct StepClock {
    first: u64,
    add: u64,
    now: u64,
    calls: u64,
}

impl Model for StepClock {
    ghost use Rattle.wm_ports.specs.ListenMemory.{ClockState, IsNow};

    ghost Value = { ClockState };

    ghost view = { λ s. record { first = s.first; add = s.add; now = s.now; calls = s.calls } };

    ghost invariant = { λ s. IsNow s.first s.add s.calls s.now };
}

impl StepClock {
    /// A clock that gives `first`, then `add` more at each call.
    pub fn new(first: u64, add: u64) -> StepClock
        ensures first { result.first ≡ first }
        ensures add { result.add ≡ add }
        ensures now { result.now ≡ first }
        ensures calls { result.calls ≡ 0 }
    {
        StepClock {
            first,
            add,
            now: first,
            calls: 0,
        }
    }
}

impl Clock for StepClock {
    ghost told = { λ s. Some (numbers s.first s.add s.calls) };

    /// The next number.
    fn now_ms(&mut self) -> u64
        ensures told { IsTold (Some (numbers self.old.first self.old.add self.old.calls)) (Some (numbers self.new.first self.new.add self.new.calls)) result }
        ensures number { result ≡ self.old.now }
        ensures after { self.new ≡ after_tick self.old }
    {
        let now = self.now;
        self.now = now.saturating_add(self.add);
        self.calls = self.calls.saturating_add(1);
        now
    }
}

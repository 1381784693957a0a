//! What gives bytes, what takes bytes, and how their faults are counted.
ghost use Rattle.std.specs.Prelude.{◌≡◌, ℕ, ◌<◌, ◌≤◌, List, Option, None, length, IfOk, OnErr};
ghost use Rattle.wm_defs.specs.Counts.{Rose};
ghost use Rattle.wm_ports.specs.Told.{Reads, Takes};

/// A reading or a writing failed, and its source or sink has counted the fault.
#[derive(Clone, Copy, Debug, PartialEq, Eq)]
pub struct Failed;

/// What gives bytes.
pub trait Source {
    // How many faults were counted. The count never falls, and stands still at its last value.
    ghost faults: { Self → ℕ };

    // The bytes that readings will give from here on, where the source tells them.
    ghost rest: { Self → Option (List ℕ) } = { λ _. None };

    /// Reads the next bytes to the front of the room, and answers how many; 0 is the end.
    fn read(&mut self, room: &mut [u8]) -> Result<usize, Failed>
        requires { 0 < length room.old }
        ensures within { IfOk result (λ n. n ≤ length room.new) }
        ensures bytes { Reads (rest self.old) (rest self.new) result room.new }
        ensures failed { OnErr result (Rose (faults self.old) (faults self.new)) }
        ensures counted { faults self.old ≤ faults self.new };
}

/// What takes bytes.
pub trait Sink {
    // How many faults were counted. The count never falls, and stands still at its last value.
    ghost faults: { Self → ℕ };

    // The bytes that were taken, where the sink tells them.
    ghost taken: { Self → Option (List ℕ) } = { λ _. None };

    /// Takes the first of the bytes, at least one, and answers how many.
    fn write(&mut self, bytes: &[u8]) -> Result<usize, Failed>
        requires { 0 < length bytes.now }
        ensures some { IfOk result (λ n. 0 < n) }
        ensures within { IfOk result (λ n. n ≤ length bytes.now) }
        ensures bytes { Takes (taken self.old) (taken self.new) result bytes.now }
        ensures failed { OnErr result (Rose (faults self.old) (faults self.new)) }
        ensures counted { faults self.old ≤ faults self.new };
}

//! What bytes are received from and sent to, and how its faults are counted.
ghost use Rattle.std.specs.Prelude.{◌≡◌, ℕ, ◌<◌, ◌≤◌, Option, None, length, IfErr, IfOk};
ghost use Rattle.wm_ports.specs.Linking.{IsBlamed, IsCounted, IsReceived, IsSent, IsWithin, LinkTold};

/// What a receiving answers.
#[derive(Clone, Copy, Debug, PartialEq, Eq)]
pub enum Received {
    /// So many bytes stand at the front of the room.
    Got(usize),
    /// Nothing is there now.
    Quiet,
    /// Nothing is left, and nothing comes any more.
    End,
    /// It failed, and the link has counted the fault.
    Failed,
    NoMemory,
}

/// Why a sending took nothing.
#[derive(Clone, Copy, Debug, PartialEq, Eq)]
pub enum SendFault {
    /// It failed, and the link has counted the fault.
    Failed,
    NoMemory,
}

/// What bytes are received from and sent to.
pub trait Link {
    // How many faults were counted. The count never falls, and stands still at its last value.
    ghost faults: { Self → ℕ };

    // What is left to receive, what was sent, and how many receivings got bytes or were quiet, where the link tells it.
    ghost told: { Self → Option LinkTold } = { λ _. None };

    /// Receives the next bytes, at least one, to the front of the room.
    fn receive(&mut self, room: &mut [u8]) -> Received
        requires { 0 < length room.old }
        ensures within { IsWithin result room.new }
        ensures told { IsReceived (told self.old) (told self.new) result room.new }
        ensures counted { IsCounted result (faults self.old) (faults self.new) }
        ensures grown { faults self.old ≤ faults self.new };

    /// Sends the first of the bytes, at least one, and answers how many.
    fn send(&mut self, bytes: &[u8]) -> Result<usize, SendFault>
        requires { 0 < length bytes.now }
        ensures some { IfOk result (λ n. 0 < n) }
        ensures within { IfOk result (λ n. n ≤ length bytes.now) }
        ensures told { IsSent (told self.old) (told self.new) result bytes.now }
        ensures blamed { IfErr result (λ e. IsBlamed e (faults self.old) (faults self.new)) }
        ensures grown { faults self.old ≤ faults self.new };
}

//! Steps that clients and timers take for the transactions, and what an acknowledgement is answered.
ghost use Rattle.std.specs.Prelude.{◌≡◌};
ghost use Rattle.wm_history.specs.Effect.{ack_said};

use crate::step::Answer;
use wm_base::{Buffer, ConId};
use wm_txn::AckRefusal;

/// One step of a client, or of a timer.
#[derive(Clone, Copy, Debug, PartialEq, Eq)]
pub enum ClientStep {
    /// Acknowledges the configure of this serial for the caller's window.
    Ack { con: ConId, serial: u64 },
    /// Gives a buffer for the caller's window.
    Buffer { con: ConId, buffer: Buffer },
    /// The time of the transaction of this number is over.
    Deadline { number: u64 },
}

/// What an acknowledgement is answered.
pub fn ack_said(acked: Result<(), AckRefusal>) -> Answer
    ensures { result ≡ ack_said acked }
{
    match acked {
        Ok(()) => Answer::Done,
        Err(AckRefusal::NoView) => Answer::NoView,
        Err(AckRefusal::BadSerial { asked, last }) => Answer::BadSerial { asked, last },
    }
}

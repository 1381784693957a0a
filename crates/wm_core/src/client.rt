//! Steps that clients and timers take for the transactions.
ghost use Rattle.wm_history.specs.Act.{Ack, Deadline, Give, client_act};
ghost use Rattle.std.specs.Prelude.{◌≡◌, ◌<◌, ◌^◌};
ghost use Rattle.wm_core.specs.Steps.{Answers};

use crate::desk::Desk;
use wm_base::{Buffer, ConId};
use wm_history::{Answer, ClientStep, ack_said, has_no_pixels};

impl Desk {
    /// Takes one step of a client of the caller with this number, or of a timer. It takes no memory, nor does a commit
    /// that it brings.
    pub fn answer_client(&mut self, who: u32, step: &ClientStep) -> Answer
        requires few { self.old.steps < 2 ^ 48 }
        ensures { Answers self.old self.new result (record { who = who; act = client_act step.now }) }
    {
        match step {
            ClientStep::Ack { con, serial } => self.ack(who, *con, *serial),
            ClientStep::Buffer { con, buffer } => self.give(who, *con, *buffer),
            ClientStep::Deadline { number } => self.time_out(who, *number),
        }
    }

    /// The caller's window acknowledges a serial.
    fn ack(&mut self, who: u32, con: ConId, serial: u64) -> Answer
        requires few { self.old.steps < 2 ^ 48 }
        ensures { Answers self.old self.new result (record { who = who; act = Ack con serial }) }
    {
        if !self.is_window(who, con) {
            return self.stay(Answer::NoView);
        }
        let acked = self.txn.ack(con, serial);
        self.steps += 1;
        ack_said(acked)
    }

    /// The caller's window gives a buffer.
    fn give(&mut self, who: u32, con: ConId, buffer: Buffer) -> Answer
        requires few { self.old.steps < 2 ^ 48 }
        ensures { Answers self.old self.new result (record { who = who; act = Give con buffer }) }
    {
        if !self.is_window(who, con) {
            return self.stay(Answer::NoView);
        }
        if has_no_pixels(buffer.size) {
            return self.stay(Answer::Empty);
        }
        let _ = self.txn.buffer(self.steps, con, buffer);
        self.steps += 1;
        Answer::Done
    }

    /// The time of the transaction of this number is over.
    fn time_out(&mut self, who: u32, number: u64) -> Answer
        requires few { self.old.steps < 2 ^ 48 }
        ensures { Answers self.old self.new result (record { who = who; act = Deadline number }) }
    {
        self.txn.deadline(self.steps, number);
        self.steps += 1;
        Answer::Done
    }
}

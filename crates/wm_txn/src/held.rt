//! What is kept of a window, its last two buffers and its last two configures, and of a transaction that waits.
ghost use Rattle.std.specs.Prelude.{◌≡◌};
ghost use Rattle.wm_txn.specs.Machine.{judge_serial};
ghost use Rattle.wm_txn.specs.Windows.{acked_with, configured_by, buffered_with, closed_held, committed_serial, held_of, is_unanswered, shown_by};

use crate::answers::AckRefusal;
use wm_arrange::Arrangement;
use wm_base::{Buffer, Size};

/// A window. `acked_serial` is the last serial that it acknowledged. `buffer` is the newest one that it gave, under
/// `buffer_serial`, and `saved_buffer` is what it shows while that is a number that is not done. `configure_serial` and
/// `configured_size` are those of its latest configure, and `previous_serial` is the serial of the configure before that.
/// `placed` is the number of the last transaction that has a content of it.
#[derive(Clone, Copy, Debug)]
pub struct Held {
    pub live: bool,
    pub acked_serial: u64,
    pub buffer: Buffer,
    pub buffer_serial: u64,
    pub saved_buffer: Buffer,
    pub configure_serial: u64,
    pub configured_size: Size,
    pub previous_serial: u64,
    pub placed: u64,
}

/// A transaction that has begun: how many entries had come then, and its arrangement.
#[derive(Debug, Drop)]
pub struct Pending {
    pub prefix: u64,
    pub arrangement: Arrangement,
}

impl Held {
    /// A window that was mapped with this buffer.
    pub(crate) fn mapped(buffer: Buffer) -> Held
        ensures { result ≡ held_of buffer }
    {
        Held {
            live: true,
            acked_serial: 0,
            buffer,
            buffer_serial: 0,
            saved_buffer: buffer,
            configure_serial: 0,
            configured_size: buffer.size,
            previous_serial: 0,
            placed: 0,
        }
    }

    /// Whether transaction `number` awaits it and has no answer.
    pub(crate) fn is_unanswered(&self, number: u64) -> bool
        ensures { result ≡ is_unanswered number self.now }
    {
        self.live && self.configure_serial == number && self.buffer_serial < number
    }

    /// The window after transaction `number` places its content with this size: it is configured where its latest
    /// configure was not with that size.
    pub(crate) fn configured_by(self, number: u64, size: Size) -> Held
        ensures { result ≡ configured_by number size self }
    {
        if self.placed == number {
            return self;
        }
        let mut held = self;
        held.placed = number;
        if self.configure_serial == 0 || self.configured_size != size {
            held.previous_serial = self.configure_serial;
            held.configure_serial = number;
            held.configured_size = size;
        }
        held
    }

    /// The serial of the latest configure by a transaction up to `done`.
    pub(crate) fn committed_serial(&self, done: u64) -> u64
        ensures { result ≡ committed_serial done self.now }
    {
        if self.configure_serial <= done {
            self.configure_serial
        } else {
            self.previous_serial
        }
    }

    /// Why it may not acknowledge the serial where the transactions up to `done` have ended, if it may not.
    pub(crate) fn judge_ack(&self, done: u64, serial: u64) -> Result<(), AckRefusal>
        ensures { result ≡ judge_serial done serial self.now }
    {
        let due = serial == self.configure_serial || serial == self.committed_serial(done);
        if due && self.acked_serial < serial {
            return Ok(());
        }
        Err(AckRefusal::BadSerial {
            asked: serial,
            last: self.acked_serial,
        })
    }

    /// The window after it acknowledged the serial.
    pub(crate) fn acked_with(self, serial: u64) -> Held
        ensures { result ≡ acked_with serial self }
    {
        let mut held = self;
        held.acked_serial = serial;
        held
    }

    /// The window after it closed.
    pub(crate) fn closed(self) -> Held
        ensures { result ≡ closed_held self }
    {
        let mut held = self;
        held.live = false;
        held
    }

    /// The window after it gave a buffer, where the transactions up to `done` have ended.
    pub(crate) fn buffered_with(&self, done: u64, buffer: Buffer) -> Held
        ensures { result ≡ buffered_with done buffer self.now }
    {
        let mut held = *self;
        held.saved_buffer = self.shown_by(done);
        held.buffer = buffer;
        held.buffer_serial = self.acked_serial;
        held
    }

    /// The buffer that it shows, where the transactions up to `done` have ended.
    pub(crate) fn shown_by(&self, done: u64) -> Buffer
        ensures { result ≡ shown_by done self.now }
    {
        if self.buffer_serial <= done {
            self.buffer
        } else {
            self.saved_buffer
        }
    }
}

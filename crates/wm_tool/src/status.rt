//! How a run of the tool ended.
ghost use Rattle.std.specs.Prelude.{◌≡◌};
ghost use Rattle.wm_tool.specs.Status.{of_read, of_script, of_stop, status_number, status_text};
ghost use Rattle.wm_tool.specs.declared.status.Status.TheVariants as status;

use crate::replay::Stop;
use std::fmt;
use wm_base::{List, NoMemory};
use wm_ports::ReadFault;
use wm_script::{Refused, ScriptRefusal};

/// How a run of the tool ended. Its number is the exit status of the program.
#[derive(Drop)]
pub enum Status {
    /// All was read and written. The steps of which a pattern was refused are listed.
    Done { refused: List<Refused> },
    /// The words are none of the tool's commands. Nothing was read.
    BadWords,
    /// This line, counted from 1, is the first one outside the grammar. Nothing was written.
    BadScript { line: u64 },
    /// No frame begins at this byte, or the one that does has a payload of more than 262,144 bytes. The replies to
    /// the messages before it were written.
    BadFrames { at: u64 },
    /// The frames end with a part of one, of this many bytes. The replies to the messages before it were written.
    Truncated { bytes: usize },
    /// A byte after the 16,777,216th was read; this many were read. Nothing was written.
    TooLarge { read: u64 },
    /// The source failed. Nothing was written.
    ReadFault,
    /// The sink failed. What was written is a first part of the output.
    WriteFault,
    /// Memory ran out. What was written is a first part of the output.
    NoMemory,
}

impl Status {
    /// The exit status of the program: 0, or 2 to 9.
    pub fn number(&self) -> u8
        ensures { result ≡ status_number self.now }
    {
        match self {
            Status::Done { refused: _ } => 0,
            Status::BadWords => 2,
            Status::BadScript { line: _ } => 3,
            Status::BadFrames { at: _ } => 4,
            Status::Truncated { bytes: _ } => 5,
            Status::TooLarge { read: _ } => 6,
            Status::ReadFault => 7,
            Status::WriteFault => 8,
            Status::NoMemory => 9,
        }
    }
}

/// Its text, as the program says it on standard error.
impl fmt::Display for Status {
    ghost use Rattle.std.specs.Prelude.{Some};

    ghost output = { λ status. Some (status_text status) };

    fn fmt<W: fmt::Write>(&self, f: &mut fmt::Formatter<W>) -> fmt::Result {
        match self {
            Status::Done { refused: _ } => Ok(()),
            Status::BadWords => f.write_str("bad words"),
            Status::BadScript { line } => write!(f, "bad script, line {line}"),
            Status::BadFrames { at } => write!(f, "bad frame at byte {at}"),
            Status::Truncated { bytes } => write!(f, "truncated, {bytes} bytes left"),
            Status::TooLarge { read: _ } => f.write_str("input too large"),
            Status::ReadFault => f.write_str("read fault"),
            Status::WriteFault => f.write_str("write fault"),
            Status::NoMemory => f.write_str("no memory"),
        }
    }
}

impl From<ReadFault> for Status {
    ghost from_gives = { λ fault s. s ≡ of_read fault };

    fn from(fault: ReadFault) -> Status {
        match fault {
            ReadFault::Failed => Status::ReadFault,
            ReadFault::TooLarge { read } => Status::TooLarge { read },
            ReadFault::NoMemory => Status::NoMemory,
        }
    }
}

impl From<ScriptRefusal> for Status {
    ghost from_gives = { λ refusal s. s ≡ of_script refusal };

    fn from(refusal: ScriptRefusal) -> Status {
        match refusal {
            ScriptRefusal::BadLine { line } => Status::BadScript { line },
            ScriptRefusal::NoMemory => Status::NoMemory,
        }
    }
}

impl From<Stop> for Status {
    ghost from_gives = { λ stop s. s ≡ of_stop stop };

    fn from(stop: Stop) -> Status {
        match stop {
            Stop::WriteFault => Status::WriteFault,
            Stop::NoMemory => Status::NoMemory,
        }
    }
}

impl From<NoMemory> for Status {
    ghost from_gives = { λ _ s. s ≡ status.NoMemory };

    fn from(_error: NoMemory) -> Status {
        Status::NoMemory
    }
}

//! How a server ended.
ghost use Rattle.std.specs.Prelude.{◌≡◌};
ghost use Rattle.wm_crew.specs.Status.{status_number, status_of, status_text};

use crate::fault::Fault;
use std::fmt;
use wm_base::Limit;

/// How a server ended. Its number is the exit status of the program.
#[derive(Clone, Copy, Debug, PartialEq, Eq)]
pub enum ServeStatus {
    /// A command said that the desk is to stop, and everything ended.
    Done,
    /// The words are none of the server's. Nothing was read.
    BadWords,
    /// The source of the configuration failed. Nothing was written, and no door was used.
    ReadFault,
    /// The configuration is too long: so many bytes of it were read. Nothing was written, and no door was used.
    TooLarge { read: u64 },
    /// This line, counted from 1, is the first one that is none of a configuration. Nothing was written, and no door was used.
    BadConfig { line: u64 },
    /// This line of the configuration, counted from 1, is the first one that passes this limit. Nothing was written, and no door
    /// was used.
    Full { line: u64, limit: Limit },
    /// The listener of this door, counted from 0, failed; it is the first of those that did.
    ListenFault { door: usize },
    /// The sink of the frames failed.
    WriteFault,
    /// The history takes no more steps.
    Exhausted,
    NoMemory,
}

impl ServeStatus {
    /// The exit status of the program: 0, 2, 3 or 6 to 12.
    pub fn number(&self) -> u8
        ensures { result ≡ status_number self.now }
    {
        match self {
            ServeStatus::Done => 0,
            ServeStatus::BadWords => 2,
            ServeStatus::BadConfig { line: _ } => 3,
            ServeStatus::TooLarge { read: _ } => 6,
            ServeStatus::ReadFault => 7,
            ServeStatus::WriteFault => 8,
            ServeStatus::NoMemory => 9,
            ServeStatus::Full { line: _, limit: _ } => 10,
            ServeStatus::ListenFault { door: _ } => 11,
            ServeStatus::Exhausted => 12,
        }
    }

    /// The status of a fault, or that there was none.
    pub(crate) fn of(fault: Option<Fault>) -> ServeStatus
        ensures { result ≡ status_of fault }
    {
        match fault {
            None => ServeStatus::Done,
            Some(Fault::Listen { door }) => ServeStatus::ListenFault { door },
            Some(Fault::Write) => ServeStatus::WriteFault,
            Some(Fault::Exhausted) => ServeStatus::Exhausted,
            Some(Fault::NoMemory) => ServeStatus::NoMemory,
        }
    }
}

/// Its text, as the program says it on standard error.
impl fmt::Display for ServeStatus {
    ghost use Rattle.std.specs.Prelude.{Some};

    ghost output = { λ status. Some (status_text status) };

    fn fmt<W: fmt::Write>(&self, f: &mut fmt::Formatter<W>) -> fmt::Result {
        match self {
            ServeStatus::Done => Ok(()),
            ServeStatus::BadWords => f.write_str("bad words"),
            ServeStatus::BadConfig { line } => write!(f, "bad configuration, line {line}"),
            ServeStatus::Full { line, limit } => write!(f, "full {}, line {line}", limit.word()),
            ServeStatus::TooLarge { read: _ } => f.write_str("input too large"),
            ServeStatus::ReadFault => f.write_str("read fault"),
            ServeStatus::WriteFault => f.write_str("write fault"),
            ServeStatus::NoMemory => f.write_str("no memory"),
            ServeStatus::ListenFault { door } => write!(f, "listener {door} failed"),
            ServeStatus::Exhausted => f.write_str("history full"),
        }
    }
}

//! Why the program did not end well.
use std::alloc::{AllocError, AllocFailed};
use std::io;

/// Why the program did not end well.
#[derive(Debug, Drop)]
pub enum Fault {
    /// The words are none of the program's.
    BadWords,
    /// A frame, or a reply, is not the one that is owed.
    Wrong,
    /// The system refused something, the peer went, or there is no memory.
    Refused,
}

impl Fault {
    /// The program's exit status.
    pub fn number(&self) -> u8 {
        match self {
            Fault::BadWords => 2,
            Fault::Wrong => 3,
            Fault::Refused => 9,
        }
    }
}

impl From<AllocError> for Fault {
    fn from(_none: AllocError) -> Fault {
        Fault::Refused
    }
}

impl<T: Drop> From<AllocFailed<T>> for Fault {
    fn from(_none: AllocFailed<T>) -> Fault {
        Fault::Refused
    }
}

impl From<io::Error> for Fault {
    fn from(_error: io::Error) -> Fault {
        Fault::Refused
    }
}

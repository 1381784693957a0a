//! Why the program did not end well.
use std::alloc::{AllocError, AllocFailed};
use std::io;
use wm_base::NoMemory;
use wm_tree::TreeRefusal;

/// Why the program did not end well.
#[derive(Debug, Drop)]
pub enum Fault {
    BadWords,
    Refused,
}

impl From<NoMemory> for Fault {
    fn from(_none: NoMemory) -> Fault {
        Fault::Refused
    }
}

impl From<AllocError> for Fault {
    fn from(_none: AllocError) -> Fault {
        Fault::Refused
    }
}

impl<T: Drop> From<AllocFailed<T>> for Fault {
    fn from(_none: AllocFailed<T>) -> Fault {
        Fault::Refused
    }
}

impl From<io::Error> for Fault {
    fn from(_error: io::Error) -> Fault {
        Fault::Refused
    }
}

impl From<TreeRefusal> for Fault {
    fn from(_refusal: TreeRefusal) -> Fault {
        Fault::Refused
    }
}

//! Why a line of data is not done.
use std::alloc::{AllocError, AllocFailed};
use std::io;
use wm_base::{NoMemory, TextRefusal};

/// Why a line is not done.
#[derive(Clone, Copy, Debug)]
pub enum Fault {
    /// The line says nothing that is known here.
    BadLine,
    NoMemory,
    /// A file cannot be read, or what comes out cannot be written.
    Files,
}

impl From<io::Error> for Fault {
    fn from(_error: io::Error) -> Fault {
        Fault::Files
    }
}

impl<T: Drop> From<AllocFailed<T>> for Fault {
    fn from(_error: AllocFailed<T>) -> Fault {
        Fault::NoMemory
    }
}

impl From<AllocError> for Fault {
    fn from(_error: AllocError) -> Fault {
        Fault::NoMemory
    }
}

impl From<NoMemory> for Fault {
    fn from(_none: NoMemory) -> Fault {
        Fault::NoMemory
    }
}

impl From<TextRefusal> for Fault {
    fn from(refusal: TextRefusal) -> Fault {
        match refusal {
            TextRefusal::TooLong { .. } => Fault::BadLine,
            TextRefusal::NoMemory => Fault::NoMemory,
        }
    }
}

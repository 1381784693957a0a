//! What is answered to acknowledgements and buffers, and of the transaction that waits.
use wm_base::ConId;

/// Why an acknowledgement was refused.
#[derive(Clone, Copy, Debug, PartialEq, Eq)]
pub enum AckRefusal {
    /// No open window has the id.
    NoView,
    /// The serial is not one that is due, or is not above the one that the window acknowledged last.
    BadSerial { asked: u64, last: u64 },
}

/// Why a buffer was refused.
#[derive(Clone, Copy, Debug, PartialEq, Eq)]
pub enum BufferRefusal {
    /// No open window has the id.
    NoView,
    /// A side of the buffer is 0.
    Empty,
}

/// The transaction that waits: its number, the least id of the windows that it awaits and that have not answered, and
/// whether that window acknowledged the number.
#[derive(Clone, Copy, Debug, PartialEq, Eq)]
pub struct Waiting {
    pub number: u64,
    pub least: ConId,
    pub acked: bool,
}

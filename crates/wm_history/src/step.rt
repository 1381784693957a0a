//! Steps that callers take, and their answers.
use crate::client::ClientStep;
use wm_base::{Buffer, ConId, Edges, Limit, List, OutputPlan, Props, Str, Text};
use wm_criteria::Prepared;
use wm_json::Reply;

/// One step of a caller. Texts of commands are prepared before they are handed in.
#[derive(Drop)]
pub enum Step {
    /// Runs the commands of a text.
    Run(Prepared),
    /// Opens a window with these properties and this buffer, in a placeholder that takes it or else beside the focused
    /// container, and then runs a text with the window as its subject, of which no replies are told.
    Map {
        props: Props,
        buffer: Buffer,
        then: Option<Prepared>,
    },
    /// Gives the caller's window another title.
    Retitle {
        con: ConId,
        title: Text,
    },
    /// Says whether the caller's window is urgent.
    Urgent {
        con: ConId,
        on: bool,
    },
    /// Closes the caller's window.
    Close {
        con: ConId,
    },
    /// Closes all windows of the caller.
    Gone,
    /// Acknowledges a configure or gives a buffer, or says that a time is over.
    Client(ClientStep),
    /// Presses a chord, which runs the text of the first choice for the mode.
    Key {
        chord: Text,
        choices: List<Choice>,
    },
    /// Sends a tick, which has at most 4,096 bytes.
    Tick {
        payload: Str,
    },
    /// Adds an output.
    OutputAdd {
        plan: OutputPlan,
    },
    /// Removes the output of this name.
    OutputRemove {
        name: Text,
    },
    /// Reserves the edges of an output for bars, in pixels.
    Reserve {
        name: Text,
        edges: Edges,
    },
}

/// What a key does in a mode.
#[derive(Drop)]
pub struct Choice {
    pub mode: Text,
    pub prepared: Prepared,
}

/// What a step is answered. A refused step changes nothing but the count of steps.
#[derive(Debug, Drop)]
pub enum Answer {
    Done,
    /// The window was opened under this id.
    Mapped(ConId),
    /// One reply for each command, or one for a text that does not read or has a pattern that is refused.
    Replies(List<Reply>),
    /// No choice of the key is for the mode.
    Unbound,
    /// No open window of that id belongs to the caller.
    NoView,
    /// A side of the buffer is 0.
    Empty,
    /// The serial is not one that is due, or is not above the one that the window acknowledged last.
    BadSerial { asked: u64, last: u64 },
    /// This limit would be passed.
    Full(Limit),
    /// An output has the name already.
    NameTaken,
    /// No output has the name, or the one that would go is the only one.
    NoTarget,
    /// The rectangle of the output is outside the limits.
    BadRect,
}

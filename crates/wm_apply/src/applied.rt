//! What the commands of a text are answered.
use wm_base::{ConId, ErrorText, List, Text};

/// The reply to one command.
#[derive(Clone, Copy, Debug, PartialEq, Eq)]
pub enum CommandReply {
    /// It was done.
    Done,

    /// It was refused, with this text.
    Error(ErrorText),
}

/// What a text did beside changing the tree: a reply for each command, the mode that was set last, whether the desk is
/// to stop, and the windows that are asked to close.
#[derive(Debug, Drop)]
pub struct Applied {
    pub replies: List<CommandReply>,
    pub mode: Option<Text>,
    pub exit: bool,
    pub kills: List<ConId>,
}

//! Cases of words and texts: each limit with its word, and each error with its text.
use case_data::Fault;
use wm_base::{ErrorText, Limit};

/// Each error that a reply can give.
pub const ERRORS: [ErrorText; 27] = [
    ErrorText::NoMatch,
    ErrorText::NotWindow,
    ErrorText::NotTiled,
    ErrorText::NotFloating,
    ErrorText::NoNeighbour,
    ErrorText::NoOutput,
    ErrorText::NoWorkspace,
    ErrorText::NoMark,
    ErrorText::NoContainer,
    ErrorText::NoMode,
    ErrorText::NoLayout,
    ErrorText::NameTaken,
    ErrorText::AtWorkspace,
    ErrorText::ManyMatch,
    ErrorText::NameReserved,
    ErrorText::NoPrevious,
    ErrorText::CannotResize,
    ErrorText::OutOfRange,
    ErrorText::SameContainer,
    ErrorText::FullContainers,
    ErrorText::FullWorkspaces,
    ErrorText::FullChildren,
    ErrorText::FullDepth,
    ErrorText::FullMarks,
    ErrorText::FullIds,
    ErrorText::ScratchEmpty,
    ErrorText::NoCriteria,
];

const LIMITS: [Limit; 7] = [
    Limit::Containers,
    Limit::Outputs,
    Limit::Workspaces,
    Limit::Children,
    Limit::Depth,
    Limit::Marks,
    Limit::Ids,
];

/// Each error and its text.
pub fn tell_errors(out: &mut String) -> Result<(), Fault> {
    for error in ERRORS {
        write!(out, "  {error:?}: {}\n", error.text())?;
    }
    Ok(())
}

/// Each limit and its word.
pub fn tell_limits(out: &mut String) -> Result<(), Fault> {
    for limit in LIMITS {
        write!(out, "  {limit:?}: {}\n", limit.word())?;
    }
    Ok(())
}

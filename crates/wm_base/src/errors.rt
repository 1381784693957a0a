//! Limits, want of memory, and the texts of refused commands.
ghost use Rattle.std.specs.Prelude.{◌≡◌, codes};
ghost use Rattle.wm_base.specs.ErrorText.{text_of, word_of};

use std::alloc::{AllocError, AllocFailed};

/// Memory ran out. What was called is as it was before.
#[derive(Clone, Copy, Debug, PartialEq, Eq, Hash)]
pub struct NoMemory;

impl From<AllocError> for NoMemory {
    fn from(_error: AllocError) -> NoMemory {
        NoMemory
    }
}

impl<T: Drop> From<AllocFailed<T>> for NoMemory {
    fn from(_error: AllocFailed<T>) -> NoMemory {
        NoMemory
    }
}

/// What a desktop may have only so many of: 4,096 containers, 8 outputs, 256 workspaces, 256 tiled children
/// of one container, 32 levels below a workspace, 1,024 marks and 32 of one container, and ids up to
/// 4,000,000,000.
#[derive(Clone, Copy, Debug, PartialEq, Eq, Hash)]
pub enum Limit {
    Containers,
    Outputs,
    Workspaces,
    Children,
    Depth,
    Marks,
    Ids,
}

impl Limit {
    /// The limit's word in answer lines.
    pub fn word(self) -> &'static str
        ensures { result.now ≡ word_of self }
    {
        match self {
            Limit::Containers => "containers",
            Limit::Outputs => "outputs",
            Limit::Workspaces => "workspaces",
            Limit::Children => "children",
            Limit::Depth => "depth",
            Limit::Marks => "marks",
            Limit::Ids => "ids",
        }
    }
}

/// Why a command did nothing to its container.
#[derive(Clone, Copy, Debug, PartialEq, Eq, Hash)]
pub enum ErrorText {
    NoMatch,
    NotWindow,
    NotTiled,
    NotFloating,
    NoNeighbour,
    NoOutput,
    NoWorkspace,
    NoMark,
    NoContainer,
    NoMode,
    NoLayout,
    NameTaken,
    AtWorkspace,
    ManyMatch,
    NameReserved,
    NoPrevious,
    CannotResize,
    OutOfRange,
    SameContainer,
    FullContainers,
    FullWorkspaces,
    FullChildren,
    FullDepth,
    FullMarks,
    FullIds,
    ScratchEmpty,
    NoCriteria,
}

impl ErrorText {
    /// The text that a reply gives.
    pub fn text(&self) -> &'static str
        ensures { result.now ≡ text_of self.now }
    {
        match self {
            ErrorText::NoMatch => "no container matches",
            ErrorText::NotWindow => "only a window can do this",
            ErrorText::NotTiled => "only a tiled container can do this",
            ErrorText::NotFloating => "only a floating window can do this",
            ErrorText::NoNeighbour => "nothing in that direction",
            ErrorText::NoOutput => "no such output",
            ErrorText::NoWorkspace => "no such workspace",
            ErrorText::NoMark => "no such mark",
            ErrorText::NoContainer => "no such container",
            ErrorText::NoMode => "no such mode",
            ErrorText::NoLayout => "no such layout",
            ErrorText::NameTaken => "that name is taken",
            ErrorText::AtWorkspace => "the focus is a workspace",
            ErrorText::ManyMatch => "more than one container matches",
            ErrorText::NameReserved => "that name is reserved",
            ErrorText::NoPrevious => "no workspace before this one",
            ErrorText::CannotResize => "cannot resize",
            ErrorText::OutOfRange => "out of range",
            ErrorText::SameContainer => "one container is part of the other",
            ErrorText::FullContainers => "too many containers",
            ErrorText::FullWorkspaces => "too many workspaces",
            ErrorText::FullChildren => "too many children",
            ErrorText::FullDepth => "too deep",
            ErrorText::FullMarks => "too many marks",
            ErrorText::FullIds => "no ids left",
            ErrorText::ScratchEmpty => "the scratchpad is empty",
            ErrorText::NoCriteria => "focus needs criteria",
        }
    }
}

/// Why a command was refused. The tree is as it was before.
#[derive(Clone, Copy, Debug, PartialEq, Eq, Hash)]
pub enum Refusal {
    NoTarget(ErrorText),
    Full { limit: Limit },
    NameTaken,
    NoMemory,
}

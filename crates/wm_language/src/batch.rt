//! A batch of commands: groups of commands, each with criteria or without.
use crate::command::Command;
use wm_base::{List, Text};

/// The groups of a text in their order. Blank groups count for nothing.
#[derive(Debug, Drop)]
pub struct Batch {
    pub groups: List<Group>,
}

/// Commands that act on the containers that the criteria match, or on the focused one.
#[derive(Debug, Drop)]
pub struct Group {
    pub criteria: Option<Criteria>,
    pub commands: List<Command>,
}

/// Keys that a container has to meet, all of them. Each stands at most once.
#[derive(Debug, Drop)]
pub struct Criteria {
    pub keys: List<Key>,
}

/// What a container has to be. Texts are patterns unless something else is said.
#[derive(Drop)]
pub enum Key {
    /// A window whose class matches.
    Class(Text),
    /// A window whose instance matches.
    Instance(Text),
    /// A window whose role matches.
    Role(Text),
    /// A window of this kind. The text is no pattern.
    Kind(Text),
    /// A window whose machine matches.
    Machine(Text),
    /// A window whose title matches.
    Title(Text),
    /// A container with a mark that matches.
    Mark(Text),
    /// A container of a workspace whose name matches.
    Workspace(Text),
    /// The window with this id.
    Id(u32),
    /// The container with this id, or the focused one.
    Con(Option<u32>),
    /// The last urgent window, or the first.
    Urgent { latest: bool },
    /// A floating window.
    Floating,
    /// A tiled window.
    Tiling,
    /// Any window.
    All,
}

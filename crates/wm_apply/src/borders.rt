//! What a command makes of the borders of windows.
ghost use Rattle.std.specs.Prelude.{◌≡◌, false, MatchOption};
ghost use Rattle.std.specs.Option.{option_copied};
ghost use Rattle.wm_apply.specs.Bordering.{border_after, change_error, command_of, gives_border, node_error, part_error, restyled, takes};

use crate::kills::is_window_node;
use wm_base::{Border, ConId, ErrorText};
use wm_ids::IdMap;
use wm_language::Command;
use wm_sizes::{is_wide, next_border};
use wm_tree::{ConPart, ConState, NodeKind, Part, StateChange};

/// What a command makes of the borders of windows: this one, or the next one of each.
#[derive(Clone, Copy, Debug, PartialEq, Eq)]
pub enum BorderChange {
    To(Border),
    Next,
}

/// What the command makes of the borders of windows. `None` exactly where it is another command.
pub fn border_change(command: &Command) -> Option<BorderChange>
    ensures { MatchOption result (gives_border command.now ≡ false) (λ change. command.now ≡ command_of change) }
{
    match command {
        Command::SetBorder(border) => Some(BorderChange::To(*border)),
        Command::CycleBorder => Some(BorderChange::Next),
        _ => None,
    }
}

impl BorderChange {
    /// The border after the change, given the one before.
    fn after(self, was: Border) -> Border
        ensures { result ≡ border_after self was }
    {
        match self {
            BorderChange::To(border) => border,
            BorderChange::Next => next_border(was),
        }
    }

    /// Why the change is refused on windows.
    fn error(self) -> Option<ErrorText>
        ensures { result ≡ change_error self }
    {
        match self {
            BorderChange::To(border) if is_wide(border) => Some(ErrorText::OutOfRange),
            BorderChange::To(_) | BorderChange::Next => None,
        }
    }

    /// Why the change is refused on a node.
    fn node_error(self, kind: &NodeKind) -> Option<ErrorText>
        ensures { result ≡ node_error self kind.now }
    {
        match kind {
            NodeKind::Root { .. } | NodeKind::Output(_) => None,
            NodeKind::Space(_) => Some(ErrorText::AtWorkspace),
            NodeKind::Con(con) if con.kind.is_window() => self.error(),
            NodeKind::Con(_) => Some(ErrorText::NotWindow),
        }
    }

    /// Why the change is refused on a node where it is there.
    pub fn part_error(self, part: Option<&Part>) -> Option<ErrorText>
        ensures { result ≡ part_error self (option_copied part.entry) }
    {
        self.node_error(&part?.kind)
    }

    /// Whether the change is made to a node.
    pub fn takes(self, part: Option<&Part>) -> bool
        ensures { result ≡ takes self (option_copied part.entry) }
    {
        match part {
            Some(part) => is_window_node(&part.kind) && self.error().is_none(),
            None => false,
        }
    }
}

/// Another border for the windows listed.
#[derive(Drop)]
pub struct Restyle {
    pub change: BorderChange,
    pub listed: IdMap<()>,
}

impl StateChange for Restyle {
    ghost word = { λ x. restyled x.change x.listed };

    fn state(&self, id: ConId, con: &ConPart) -> ConState {
        if !con.kind.is_window() || self.listed.get(id.0).is_none() {
            return con.state;
        }
        let border = self.change.after(con.state.border);
        ConState {
            border,
            ..con.state
        }
    }
}

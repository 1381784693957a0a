//! Texts that a new node shares with the most recent window, where both have the same.
ghost use Rattle.std.specs.Prelude.{◌≡◌};

use crate::tree::Tree;
use wm_base::{ConId, Props, Text};
use wm_forest::recency::SOON;
use wm_forest::{ConKind, ConPart, NodeKind, Part};

/// Lets the text share the bytes of the other one, where they are the same.
fn share(text: &mut Text, other: &Text)
    ensures { text.new ≡ text.old }
{
    if text.as_str() == other.as_str() {
        if let Ok(shared) = other.clone() {
            *text = shared;
        }
    }
}

/// Lets each property share the bytes of that of another window, where they are the same.
fn share_props(props: &mut Props, other: &Props)
    ensures { props.new ≡ props.old }
{
    share(&mut props.class, &other.class);
    share(&mut props.instance, &other.instance);
    share(&mut props.role, &other.role);
    share(&mut props.kind, &other.kind);
    share(&mut props.machine, &other.machine);
    share(&mut props.title, &other.title);
}

/// Lets the container share what it says as a window with this title format and these properties does.
fn share_con(con: &mut ConPart, format: &Text, other: &Props)
    ensures { con.new ≡ con.old }
{
    share(&mut con.title_format, format);
    if let ConKind::Window { props, .. } = &mut con.kind {
        share_props(props, other);
    }
}

impl Tree {
    /// Lets a new node share the texts that the most recent window has too. The node says what it said, and a copy of
    /// the tree counts the users of one text for both, which is in the cache by then, rather than of a text for each.
    pub(crate) fn share_texts(&self, part: &mut Part)
        ensures { part.new ≡ part.old }
    {
        if let NodeKind::Con(con) = &mut part.kind {
            if let Some((format, props)) = self.recent_texts() {
                share_con(con, format, props);
            }
        }
    }

    /// The title format and the properties of the most recent window, where it is among the first few ids. Nothing but
    /// time depends on it, so that no clause says which it is.
    fn recent_texts(&self) -> Option<(&Text, &Props)> {
        let mut left = SOON;
        let mut rest = &self.recency[..];
        while let [id, after @ ..] = rest {
            let found = self.window_texts(*id);
            if found.is_some() || left == 0 {
                return found;
            }
            left -= 1;
            rest = after;
        }
        None
    }

    /// The title format and the properties of this window.
    fn window_texts(&self, id: ConId) -> Option<(&Text, &Props)> {
        let part = self.container(id)?;
        match &part.kind {
            ConKind::Window { props, .. } => Some((&part.title_format, props)),
            ConKind::Placeholder { .. } | ConKind::Split { .. } => None,
        }
    }
}

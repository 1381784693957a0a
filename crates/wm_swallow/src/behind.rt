//! Room for the marks of saved containers that no container of the tree has.
ghost use Rattle.std.specs.Prelude.{◌≡◌, ◌+◌, ◌<◌, ◌||◌, ◌++◌, MatchOption, if◌then◌else◌, not};
ghost use Rattle.wm_focus.specs.Marks.{bears};
ghost use Rattle.wm_swallow.specs.Behind.{IsRoomLeft, behind_marks};
ghost use Rattle.wm_swallow.specs.Limits.{different, is_held};
ghost use Rattle.wm_swallow.specs.SavedRows.{all_marks, row_below, rows};

use crate::shapes::bears;
use wm_base::Text;
use wm_focus::marked;
use wm_saved::{SavedKind, SavedNode};
use wm_tree::Tree;

/// What stands behind saved containers: nothing, or the rest of a row and what stands behind that.
#[derive(Clone, Copy)]
pub(crate) enum Behind<'a> {
    Nothing,
    Row(&'a [SavedNode], &'a Behind<'a>),
}

impl<'a> Behind<'a> {
    /// Whether one of these containers has the mark.
    fn bears(&self, mark: &Text) -> bool
        ensures { result ≡ bears mark.now (behind_marks self.now) }
    {
        match self {
            Behind::Nothing => false,
            Behind::Row(nodes, behind) => has_mark(nodes, mark) || behind.bears(mark),
        }
    }
}

/// Whether one of these containers or of those below them has the mark.
#[cycle(has)]
fn has_mark(nodes: &[SavedNode], mark: &Text) -> bool
    ensures { result ≡ bears mark.now (all_marks (rows nodes.now)) }
{
    for node in nodes {
        if bears(node.marks.items(), mark) || has_mark_below(&node.kind, mark) {
            return true;
        }
    }
    false
}

/// Whether a container below one of this kind has the mark.
#[cycle(has)]
fn has_mark_below(kind: &SavedKind, mark: &Text) -> bool
    ensures { result ≡ bears mark.now (all_marks (row_below kind.now)) }
{
    match kind {
        SavedKind::Split { nodes, .. } => has_mark(nodes.items(), mark),
        SavedKind::Placeholder { .. } => false,
    }
}

/// How much of the room is left after the marks of these containers and of those below them, which `behind` stands behind: each
/// mark that no container of the tree has takes its place once, where it stands last. `None` where there is not enough.
#[cycle(fill)]
pub(crate) fn room_after_marks(
    tree: &Tree,
    nodes: &[SavedNode],
    behind: &Behind<'_>,
    room: usize,
) -> Option<usize>
    ensures { IsRoomLeft (is_held tree.now.nodes) (all_marks (rows nodes.now)) (behind_marks behind.now) room result }
{
    let mut left = room;
    let mut rest = nodes;
    while let [node, after @ ..] = rest {
        left = room_after_node(tree, node, &Behind::Row(after, &*behind), left)?;
        rest = after;
    }
    Some(left)
}

/// The same of one container and those below it.
#[cycle(fill)]
fn room_after_node(tree: &Tree, node: &SavedNode, behind: &Behind<'_>, room: usize) -> Option<usize>
    ensures { IsRoomLeft (is_held tree.now.nodes) (node.now.marks ++ all_marks (row_below node.now.kind)) (behind_marks behind.now) room result }
{
    let left = room_after_own(tree, node.marks.items(), &node.kind, &*behind, room)?;
    room_after_below(tree, &node.kind, &*behind, left)
}

/// The same of the containers below one of this kind.
#[cycle(fill)]
fn room_after_below(
    tree: &Tree,
    kind: &SavedKind,
    behind: &Behind<'_>,
    room: usize,
) -> Option<usize>
    ensures { IsRoomLeft (is_held tree.now.nodes) (all_marks (row_below kind.now)) (behind_marks behind.now) room result }
{
    match kind {
        SavedKind::Split { nodes, .. } => room_after_marks(tree, nodes.items(), &*behind, room),
        SavedKind::Placeholder { .. } => Some(room),
    }
}

/// The same of the marks of a container of this kind alone.
fn room_after_own(
    tree: &Tree,
    marks: &[Text],
    kind: &SavedKind,
    behind: &Behind<'_>,
    room: usize,
) -> Option<usize>
    ensures { IsRoomLeft (is_held tree.now.nodes) marks.now (all_marks (row_below kind.now) ++ behind_marks behind.now) room result }
{
    room.checked_sub(new_marks(tree, marks, kind, &*behind))
}

/// How many of these marks of a container of this kind no container of the tree has, nor one below the kind or behind; each is
/// counted once.
fn new_marks(tree: &Tree, marks: &[Text], kind: &SavedKind, behind: &Behind<'_>) -> usize
    ensures { result + different (is_held tree.now.nodes) (all_marks (row_below kind.now) ++ behind_marks behind.now)
        ≡ different (is_held tree.now.nodes) (marks.now ++ (all_marks (row_below kind.now) ++ behind_marks behind.now)) }
{
    let mut count = 0;
    let mut rest = marks;
    while let [mark, after @ ..] = rest {
        if is_new(tree, mark, after, kind, &*behind) {
            count += 1;
        }
        rest = after;
    }
    count
}

/// Whether no container of the tree has the mark, nor is it one of these, or stands below the kind or behind.
fn is_new(tree: &Tree, mark: &Text, after: &[Text], kind: &SavedKind, behind: &Behind<'_>) -> bool
    ensures { result ≡ not (bears mark.now (after.now ++ (all_marks (row_below kind.now) ++ behind_marks behind.now)) || is_held tree.now.nodes mark.now) }
{
    let stands_later = bears(after, mark) || has_mark_below(kind, mark) || behind.bears(mark);
    !stands_later && marked(tree, mark).is_none()
}

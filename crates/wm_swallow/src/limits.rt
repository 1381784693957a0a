//! Which limit appending a saved layout would pass.
ghost use Rattle.std.specs.Prelude.{◌≡◌, ◌≢◌, ◌+◌, ◌<◌, ◌||◌, not, nat_lt, true, false, length, if◌then◌else◌, IfOk, OnOk, IfErr, MatchOption, None, ◌++◌};
ghost use Rattle.wm_forest.specs.Counts.{con_count, mark_count, one_con, row_length};
ghost use Rattle.wm_forest.specs.Look.{first_kids, has, only};
ghost use Rattle.wm_swallow.specs.Limits.{different, is_held, passed_by_append, passed_by_marks, passed_in, IsAppendCause};
ghost use Rattle.wm_swallow.specs.SavedRows.{all_marks, fits, is_wide, row_below, row_size, rows, size};

use crate::behind::{Behind, room_after_marks};
use crate::shapes::{MAX_CHILDREN, fits, is_overmarked, is_wide};
use wm_base::{ConId, Limit};
use wm_saved::{SavedKind, SavedNode};
use wm_tree::{Cursor, NodeKind, Tree, TreeRefusal};

/// How many containers a tree has at most.
const MAX_CONTAINERS: usize = 4_096;

/// How many levels there are at most below a workspace.
const MAX_LEVELS: usize = 32;

/// How many marks a tree has at most.
const MAX_MARKS: usize = 1_024;

/// The first id that is not given.
const END_OF_IDS: u32 = 4_000_000_001;

/// Refuses where the workspace is not there, or appending these to it would pass a limit. Takes no memory.
pub(crate) fn check(tree: &Tree, workspace: ConId, nodes: &[SavedNode]) -> Result<(), TreeRefusal>
    ensures fine { OnOk result ((has workspace tree.now.nodes ≡ true) × (passed_by_append workspace (rows nodes.now) tree.now ≡ None)) }
    ensures cause { IfErr result (λ e. (e ≢ TreeRefusal.NoMemory) × IsAppendCause tree.now workspace (rows nodes.now) e) }
{
    let Some(kids) = kids_of(tree.nodes(), workspace) else {
        return Err(TreeRefusal::Missing(workspace));
    };
    if let Some(limit) = passed_by_containers(tree, kids, nodes) {
        return Err(TreeRefusal::Full { limit });
    }
    if let Some(limit) = passed_by_marks(tree, nodes) {
        return Err(TreeRefusal::Full { limit });
    }
    Ok(())
}

/// The row of the node's children. `None` exactly where the node is not here.
fn kids_of<'a>(mut row: Cursor<'a>, id: ConId) -> Option<Cursor<'a>>
    ensures { MatchOption result (has id row.entry ≡ false) (λ kids. (has id row.entry ≡ true) × (kids ≡ first_kids (only id row.entry))) }
{
    while let Some(part) = row.part() {
        if part.id == id {
            return Some(row.kids());
        }
        if let Some(kids) = kids_of(row.kids(), id) {
            return Some(kids);
        }
        if let Some(kids) = kids_of(row.floats(), id) {
            return Some(kids);
        }
        row = row.rest();
    }
    None
}

/// The first of the limits on containers that would be passed by appending these to a workspace with such children.
fn passed_by_containers(tree: &Tree, kids: Cursor<'_>, nodes: &[SavedNode]) -> Option<Limit>
    ensures { result ≡ passed_in kids.entry (rows nodes.now) tree.now }
{
    if !containers_fit(tree, nodes) {
        Some(Limit::Containers)
    } else if !children_fit(kids, nodes) || is_wide(nodes) {
        Some(Limit::Children)
    } else if !fits(MAX_LEVELS, nodes) {
        Some(Limit::Depth)
    } else {
        None
    }
}

/// Whether there is room for these containers beside those of the tree.
fn containers_fit(tree: &Tree, nodes: &[SavedNode]) -> bool
    ensures { result ≡ not (nat_lt 4096 (con_count tree.now.nodes + size (rows nodes.now))) }
{
    match room_beside(tree.nodes(), MAX_CONTAINERS) {
        Some(room) => room_after(nodes, room).is_some(),
        None => false,
    }
}

/// How much of the room is left beside the containers of the row. `None` where they do not fit.
fn room_beside(mut row: Cursor<'_>, mut room: usize) -> Option<usize>
    ensures { MatchOption result (room < con_count row.entry) (λ left. left + con_count row.entry ≡ room) }
{
    while let Some(part) = row.part() {
        room = room_beside_one(&part.kind, room)?;
        room = room_beside(row.kids(), room)?;
        room = room_beside(row.floats(), room)?;
        row = row.rest();
    }
    Some(room)
}

/// How much of the room is left beside one node, where that is a container.
fn room_beside_one(kind: &NodeKind, room: usize) -> Option<usize>
    ensures { MatchOption result (room < one_con kind.now) (λ left. left + one_con kind.now ≡ room) }
{
    match kind {
        NodeKind::Con(_) => room.checked_sub(1),
        NodeKind::Root { .. } | NodeKind::Output(_) | NodeKind::Space(_) => Some(room),
    }
}

/// How much of the room is left after these containers and those below them. `None` where they do not fit.
#[cycle(room)]
fn room_after(nodes: &[SavedNode], room: usize) -> Option<usize>
    ensures { MatchOption result (room < size (rows nodes.now)) (λ left. left + size (rows nodes.now) ≡ room) }
{
    let mut left = room;
    for node in nodes {
        left = room_after_kind(&node.kind, left.checked_sub(1)?)?;
    }
    Some(left)
}

/// How much of the room is left after the containers below one of this kind.
#[cycle(room)]
fn room_after_kind(kind: &SavedKind, room: usize) -> Option<usize>
    ensures { MatchOption result (room < size (row_below kind.now)) (λ left. left + size (row_below kind.now) ≡ room) }
{
    match kind {
        SavedKind::Split { nodes, .. } => room_after(nodes.items(), room),
        SavedKind::Placeholder { .. } => Some(room),
    }
}

/// Whether these have room beside such children of one container.
#[tactic(auto, using(crate::proofs::SavedLemmas::row_length_is))]
fn children_fit(kids: Cursor<'_>, nodes: &[SavedNode]) -> bool
    ensures { result ≡ not (nat_lt 256 (row_length kids.entry + row_size (rows nodes.now))) }
{
    match room_in(kids, MAX_CHILDREN) {
        Some(room) => nodes.len() <= room,
        None => false,
    }
}

/// How much of the room is left beside the nodes of a row. `None` where they do not fit.
fn room_in(mut row: Cursor<'_>, mut room: usize) -> Option<usize>
    ensures { MatchOption result (room < row_length row.entry) (λ left. left + row_length row.entry ≡ room) }
{
    while let Some(_part) = row.part() {
        room = room.checked_sub(1)?;
        row = row.rest();
    }
    Some(room)
}

/// The first of the limits on marks and ids that would be passed by appending these.
fn passed_by_marks(tree: &Tree, nodes: &[SavedNode]) -> Option<Limit>
    ensures { result ≡ passed_by_marks (rows nodes.now) tree.now }
{
    if is_overmarked(nodes) || !marks_fit(tree, nodes) {
        Some(Limit::Marks)
    } else if !ids_fit(tree, nodes) {
        Some(Limit::Ids)
    } else {
        None
    }
}

/// Whether there is room for the marks of these containers that no container of the tree has.
fn marks_fit(tree: &Tree, nodes: &[SavedNode]) -> bool
    ensures { result ≡ not (nat_lt 1024 (mark_count tree.now.nodes + different (is_held tree.now.nodes) (all_marks (rows nodes.now)))) }
{
    match room_beside_marks(tree.nodes(), MAX_MARKS) {
        Some(room) => room_after_marks(tree, nodes, &Behind::Nothing, room).is_some(),
        None => false,
    }
}

/// How much of the room is left beside the marks of the row's nodes. `None` where they do not fit.
fn room_beside_marks(mut row: Cursor<'_>, mut room: usize) -> Option<usize>
    ensures { MatchOption result (room < mark_count row.entry) (λ left. left + mark_count row.entry ≡ room) }
{
    while let Some(part) = row.part() {
        room = room.checked_sub(part.marks.items().len())?;
        room = room_beside_marks(row.kids(), room)?;
        room = room_beside_marks(row.floats(), room)?;
        row = row.rest();
    }
    Some(room)
}

/// Whether there are ids left for these containers and those below them.
fn ids_fit(tree: &Tree, nodes: &[SavedNode]) -> bool
    ensures { result ≡ not (nat_lt 4000000001 (tree.now.next_id + size (rows nodes.now))) }
{
    match END_OF_IDS.checked_sub(tree.next_id()) {
        Some(room) => room_after(nodes, room as usize).is_some(),
        None => false,
    }
}

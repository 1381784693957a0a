//! The windows of a tree, each as it stands there, by rising id.
ghost use Rattle.std.specs.Prelude.{◌≡◌, OnOk};
ghost use Rattle.wm_changes.specs.Differing.{IsNarrowNode, last_of, listed, node_windows, row_windows};
ghost use Rattle.wm_changes.specs.Facts.{IsNarrow, put_windows, window_here, windows};
ghost use Rattle.wm_forest.specs.Look.{con_kind};
ghost use Rattle.wm_tree.specs.Sound.{IsSound};
ghost use Rattle.wm_views.specs.Maps.{value_at};

use crate::standing::{Standing, StandingNode, StandingRow};
use std::collections::BTreeMap;
use std::marker::Model;
use wm_base::{ConId, NoMemory};
use wm_tree::{ConKind, ConPart, NodeKind, Part, Tree};

/// A window as it stands in a tree.
#[derive(Drop)]
pub struct Found<'a> {
    pub part: &'a Part,
    pub state: &'a ConPart,
    pub standing: Standing,
}

impl<'a> Model for Found<'a> {
    ghost use Rattle.wm_changes.specs.Facts.{WindowFact};
    ghost use Rattle.wm_changes.specs.FactCode.{window_code};

    ghost Value = { WindowFact };

    ghost coded = { window_code };

    ghost view = { λ w. record { part = w.part.now; state = w.state.now; standing = w.standing } };
}

/// A node as a window, where it is one.
pub fn window<'a>(standing: Standing, part: &'a Part) -> Option<Found<'a>>
    ensures { listed result ≡ window_here standing part.now (con_kind part.now.kind) }
{
    let NodeKind::Con(state) = &part.kind else {
        return None;
    };
    match state.kind {
        ConKind::Window { .. } => Some(Found {
            part,
            state,
            standing,
        }),
        ConKind::Split { .. } | ConKind::Placeholder { .. } => None,
    }
}

/// Puts a window in under its id, where there is one.
pub fn put<'a>(
    map: &mut BTreeMap<u32, Found<'a>>,
    window: Option<Found<'a>>,
) -> Result<(), NoMemory>
    ensures { OnOk result (map.new.entries ≡ put_windows (listed window.entry) map.old.entries) }
{
    if let Some(found) = window {
        map.insert(found.part.id.0, found)?;
    }
    Ok(())
}

/// Puts in the windows of a row and of what is below it, in the order in which they stand.
#[cycle(gather)]
pub fn gather<'a>(map: &mut BTreeMap<u32, Found<'a>>, row: StandingRow<'a>) -> Result<(), NoMemory>
    requires { IsNarrow row.row }
    ensures { OnOk result (map.new.entries ≡ put_windows (row_windows row.entry) map.old.entries) }
{
    let mut left = row;
    while let Some(node) = left.first() {
        gather_node(map, node)?;
        left = left.rest();
    }
    Ok(())
}

/// Puts in a node, where it is a window, and the windows below it.
#[cycle(gather)]
#[tactic(auto, using(crate::proofs::FactLemmas::windows_three))]
pub fn gather_node<'a>(
    map: &mut BTreeMap<u32, Found<'a>>,
    node: StandingNode<'a>,
) -> Result<(), NoMemory>
    requires { IsNarrowNode node }
    ensures { OnOk result (map.new.entries ≡ put_windows (node_windows node.entry) map.old.entries) }
{
    put(map, window(node.standing, node.part))?;
    let (kids, floats) = node.below();
    gather(map, kids)?;
    gather(map, floats)
}

/// The window with this id.
#[tactic(auto, using(crate::proofs::FoundLemmas::last_found, crate::proofs::FactLemmas::narrow))]
pub fn window_at(tree: &Tree, id: ConId) -> Option<Found<'_>>
    requires { IsSound tree.now }
    ensures { result ≡ value_at (windows tree.now) id }
{
    find(StandingRow::top(tree), id)
}

/// The window with this id in a row and below it, the last one.
#[cycle(find)]
fn find(row: StandingRow<'_>, id: ConId) -> Option<Found<'_>>
    requires { IsNarrow row.row }
    ensures { result ≡ last_of id (row_windows row.entry) }
{
    let mut left = row;
    let mut found = None;
    while let Some(node) = left.first() {
        found = find_node(node, id).or(found);
        left = left.rest();
    }
    found
}

/// The window with this id among a node and what is below it, the last one.
#[cycle(find)]
#[tactic(auto, using(crate::proofs::FoundLemmas::last_three))]
fn find_node(node: StandingNode<'_>, id: ConId) -> Option<Found<'_>>
    requires { IsNarrowNode node }
    ensures { result ≡ last_of id (node_windows node.entry) }
{
    let own = own_window(node.standing, node.part, id);
    if node.is_leaf() {
        return own;
    }
    let (kids, floats) = node.below();
    let below = find(kids, id);
    find(floats, id).or(below).or(own)
}

/// A node as a window, where it is one and has this id.
#[tactic(auto, using(crate::proofs::FoundLemmas::last_own, crate::proofs::FoundLemmas::other_here))]
fn own_window<'a>(standing: Standing, part: &'a Part, id: ConId) -> Option<Found<'a>>
    ensures { result ≡ last_of id (window_here standing part.now (con_kind part.now.kind)) }
{
    if part.id == id {
        window(standing, part)
    } else {
        None
    }
}

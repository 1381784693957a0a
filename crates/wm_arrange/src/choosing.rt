//! Choosing the child that each tabbed or stacked container shows, in one pass over the tree.
ghost use Rattle.std.specs.Prelude.{◌≡◌, ◌≤◌, List, Option, Some, None, false, if◌then◌else◌, IfOk, OnOk};
ghost use Rattle.std.specs.Option.{option_or};
ghost use Rattle.wm_base.specs.declared.ids.ConId.{ConId};
ghost use Rattle.wm_arrange.specs.Choices.{at_place, choice_in, kept, nearest, row_layout, shows_one, sooner, under, ArePlaces, KnowsFirst, KnowsOutput, KnowsOutputs, KnowsRow};
ghost use Rattle.wm_arrange.specs.Maps.{value_at};
ghost use Rattle.wm_forest.specs.Look.{first_kids, output_kind, same};
ghost use Rattle.wm_forest.specs.SoundRow.{tally};
ghost use Rattle.wm_tree.specs.Sound.{IsSound};

use crate::lots::con_layout;
use crate::places::Recency;
use crate::rows::row_from;
use std::alloc::Global;
use wm_base::{ConId, Layout, NoMemory};
use wm_ids::IdMap;
use wm_tree::{Cursor, NodeKind, Part, Tree};

/// A node of a row, with the lowest place of an id that it has or that is below it.
#[derive(Clone, Copy, Debug)]
pub struct Near {
    pub place: usize,
    pub child: ConId,
}

/// The most recent child of each tabbed or stacked workspace or container, by its id. Where none of them is on a
/// workspace that an output shows, nothing is looked for.
pub fn choices(alloc: Global, tree: &Tree) -> Result<IdMap<ConId>, NoMemory>
    requires { IsSound tree.now }
    ensures { IfOk result (λ chosen. KnowsOutputs (value_at chosen) tree.now.recency (first_kids tree.now.nodes)) }
{
    if shows_one_on(tree.nodes().kids()) {
        return all_choices(alloc, tree, tree.nodes().kids());
    }
    Ok(IdMap::new(alloc))
}

/// Whether one of the workspaces that a row of outputs shows may have a tabbed or stacked node.
fn shows_one_on(row: Cursor<'_>) -> bool
    ensures { (known : ConId → Option ConId) (ids : List ConId) → result ≡ false → KnowsOutputs known ids row.entry }
{
    let mut left = row;
    while let Some(part) = left.part() {
        if shows_one_under(&part.kind, left.kids()) {
            return true;
        }
        left = left.rest();
    }
    false
}

/// Whether the workspace that an output shows may have a tabbed or stacked node.
fn shows_one_under(kind: &NodeKind, spaces: Cursor<'_>) -> bool
    ensures { (known : ConId → Option ConId) (ids : List ConId) → result ≡ false → KnowsOutput known ids (output_kind kind.now) spaces.entry }
{
    match kind {
        NodeKind::Output(output) => shows_one_first(&row_from(spaces, output.shown)),
        NodeKind::Root { .. } | NodeKind::Space(_) | NodeKind::Con(_) => false,
    }
}

/// Whether the first node of a row, or one below it, may be tabbed or stacked.
fn shows_one_first(row: &Cursor<'_>) -> bool
    ensures { (known : ConId → Option ConId) (ids : List ConId) → result ≡ false → KnowsFirst known ids row.now }
{
    let Some(part) = row.part() else {
        return false;
    };
    if shows_one(row_layout(&part.kind)) {
        return true;
    }
    shows_one_in(row.kids())
}

/// Whether one of the nodes of a row, or below it, may be tabbed or stacked.
fn shows_one_in(row: Cursor<'_>) -> bool
    ensures { (known : ConId → Option ConId) (ids : List ConId) → result ≡ false → KnowsRow known ids row.entry }
{
    let mut left = row;
    while let Some(part) = left.part() {
        if shows_one(row_layout(&part.kind)) {
            return true;
        }
        if shows_one_in(left.kids()) {
            return true;
        }
        left = left.rest();
    }
    false
}

/// The most recent child of each tabbed or stacked node of a row of outputs, and below it.
fn all_choices(alloc: Global, tree: &Tree, row: Cursor<'_>) -> Result<IdMap<ConId>, NoMemory>
    requires { (c : ConId) → tally c row ≤ 1 }
    ensures { IfOk result (λ chosen. KnowsOutputs (value_at chosen) tree.now.recency row.entry) }
{
    let recency = Recency::new(alloc, tree.recent_ids())?;
    let mut chosen = IdMap::new(alloc);
    choose(&mut chosen, &recency, row)?;
    Ok(chosen)
}

/// Keeps the most recent child of each tabbed or stacked node of a row, and below it, and tells the row's most recent
/// node. What is kept for an id is told where the row has it once.
fn choose(
    chosen: &mut IdMap<ConId>,
    recency: &Recency<'_>,
    row: Cursor<'_>,
) -> Result<Option<Near>, NoMemory>
    requires { ArePlaces recency.now }
    ensures near { IfOk result (λ near. near ≡ nearest recency.now.ids row.entry) }
    ensures chosen { (c : ConId) → tally c row.entry ≤ 1 → OnOk result (value_at chosen.new c ≡ option_or (choice_in recency.now.ids c row.entry) (value_at chosen.old c)) }
{
    let mut near = None;
    let mut left = row;
    while let Some(part) = left.part() {
        let floats = choose(chosen, recency, left.floats())?;
        let kids = choose(chosen, recency, left.kids())?;
        keep(chosen, part, kids)?;
        let own = at_place(part.id, recency.place(part.id));
        let here = under(part.id, sooner(own, sooner(kids, floats)));
        near = sooner(near, here);
        left = left.rest();
    }
    Ok(near)
}

/// Keeps the most recent child of a node, where it is tabbed or stacked and has one.
fn keep(chosen: &mut IdMap<ConId>, part: &Part, near: Option<Near>) -> Result<(), NoMemory>
    ensures { (c : ConId) → OnOk result (value_at chosen.new c ≡ option_or (kept c part.now near) (value_at chosen.old c)) }
{
    match near {
        Some(near) if shows_one(row_layout(&part.kind)) => put(chosen, part.id, near.child),
        Some(_) | None => Ok(()),
    }
}

fn put(chosen: &mut IdMap<ConId>, id: ConId, child: ConId) -> Result<(), NoMemory>
    ensures { (c : ConId) → OnOk result (value_at chosen.new c ≡ (if same id c then Some child else value_at chosen.old c)) }
{
    chosen.insert(id.0, child)?;
    Ok(())
}

/// A node at a place.
fn at_place(child: ConId, place: Option<usize>) -> Option<Near>
    ensures { result ≡ at_place child place }
{
    let place = place?;
    Some(Near { place, child })
}

/// The same place, of the node that holds what is there.
fn under(child: ConId, near: Option<Near>) -> Option<Near>
    ensures { result ≡ under child near }
{
    let Near { place, .. } = near?;
    Some(Near { place, child })
}

/// Of two nodes the one with the lower place, or else the first.
fn sooner(first: Option<Near>, second: Option<Near>) -> Option<Near>
    ensures { result ≡ sooner first second }
{
    match (first, second) {
        (None, second) => second,
        (Some(first), None) => Some(first),
        (Some(first), Some(second)) => {
            Some(if first.place <= second.place {
                first
            } else {
                second
            })
        }
    }
}

/// Whether a container with this layout shows one of its children alone.
fn shows_one(layout: Layout) -> bool
    ensures { result ≡ shows_one layout }
{
    match layout {
        Layout::SplitH | Layout::SplitV => false,
        Layout::Tabbed | Layout::Stacked => true,
    }
}

/// The layout of the children of a workspace or container.
fn row_layout(kind: &NodeKind) -> Layout
    ensures { result ≡ row_layout kind.now }
{
    match kind {
        NodeKind::Root { .. } | NodeKind::Output(_) => Layout::SplitH,
        NodeKind::Space(space) => space.layout,
        NodeKind::Con(con) => con_layout(&con.kind),
    }
}

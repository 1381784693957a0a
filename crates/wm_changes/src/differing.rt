//! The windows in which two trees may differ, found by walking both in step.
ghost use Rattle.std.specs.Prelude.{◌≡◌, IfOk, IsTrue, OnOk, false};
ghost use Rattle.wm_changes.specs.Differences.{differs, is_urged};
ghost use Rattle.wm_changes.specs.Differing.{ArePutIn, IsDiffering, IsNarrowNode, listed, node_windows, row_windows};
ghost use Rattle.wm_changes.specs.Facts.{IsNarrow};
ghost use Rattle.wm_changes.specs.Scene.{IsScene};

use crate::comparing::{is_filled, is_floated, is_marked, is_moved, is_retitled, same_flag};
use crate::scene::Scene;
use crate::standing::{StandingNode, StandingRow};
use crate::windows::{Found, gather, gather_node, put, window};
use std::alloc::Global;
use std::collections::BTreeMap;
use wm_base::{ConId, NoMemory};

/// Windows of a tree and of the one after it, each under its id. Those that do not differ may be left out of both.
#[derive(Drop)]
pub struct Differing<'a, 'b> {
    pub before: BTreeMap<u32, Found<'a>>,
    pub after: BTreeMap<u32, Found<'b>>,
}

/// The windows in which two trees may differ. Rows that are alike put nothing in.
#[tactic(auto, using(crate::proofs::DifferingLemmas::all_put, crate::proofs::FactLemmas::narrow))]
pub fn differing_windows<'a, 'b>(
    alloc: Global,
    before: &Scene<'a>,
    after: &Scene<'b>,
) -> Result<Differing<'a, 'b>, NoMemory>
    requires before { IsScene before.now }
    requires after { IsScene after.now }
    ensures { IfOk result (λ found. IsDiffering before.now.tree.now after.now.tree.now found) }
{
    let mut found = Differing {
        before: BTreeMap::new(alloc),
        after: BTreeMap::new(alloc),
    };
    let old = StandingRow::top(before.tree);
    let new = StandingRow::top(after.tree);
    gather_both(&mut found, before, after, old, new)?;
    Ok(found)
}

/// Puts in the windows of two rows and of what is below them. A node that the other row has not at this place is taken for one
/// that came or went; where the next one is that of the other row, it went.
#[cycle(both)]
fn gather_both<'a, 'b>(
    found: &mut Differing<'a, 'b>,
    before: &Scene<'_>,
    after: &Scene<'_>,
    old: StandingRow<'a>,
    new: StandingRow<'b>,
) -> Result<(), NoMemory>
    requires before { IsScene before.now }
    requires after { IsScene after.now }
    requires old { IsNarrow old.row }
    requires new { IsNarrow new.row }
    ensures { OnOk result (ArePutIn before.now.tree.now after.now.tree.now (row_windows old.entry) (row_windows new.entry) found.old found.new) }
{
    let mut left = old;
    let mut right = new;
    while let (Some(a), Some(b)) = (left.first(), right.first()) {
        if a.part.id == b.part.id {
            gather_pair(found, before, after, a, b)?;
            left = left.rest();
            right = right.rest();
        } else if left.goes_on_with(b.part.id) {
            gather_node(&mut found.before, a)?;
            left = left.rest();
        } else {
            gather_node(&mut found.after, b)?;
            right = right.rest();
        }
    }
    gather(&mut found.before, left)?;
    gather(&mut found.after, right)
}

/// Puts in two nodes, where they are windows, and the windows below them.
#[cycle(both)]
fn gather_pair<'a, 'b>(
    found: &mut Differing<'a, 'b>,
    before: &Scene<'_>,
    after: &Scene<'_>,
    old: StandingNode<'a>,
    new: StandingNode<'b>,
) -> Result<(), NoMemory>
    requires before { IsScene before.now }
    requires after { IsScene after.now }
    requires old { IsNarrowNode old }
    requires new { IsNarrowNode new }
    ensures { OnOk result (ArePutIn before.now.tree.now after.now.tree.now (node_windows old.entry) (node_windows new.entry) found.old found.new) }
{
    let was = window(old.standing, old.part);
    let is = window(new.standing, new.part);
    put_pair(found, before, after, was, is)?;
    if old.is_leaf() && new.is_leaf() {
        return Ok(());
    }
    let (old_kids, old_floats) = old.below();
    let (new_kids, new_floats) = new.below();
    gather_both(found, before, after, old_kids, new_kids)?;
    gather_both(found, before, after, old_floats, new_floats)
}

/// Puts in what there is of two windows, unless they are one that does not differ.
#[tactic(auto, using(crate::proofs::DifferingLemmas::left_out, crate::proofs::DifferingLemmas::put_two))]
fn put_pair<'a, 'b>(
    found: &mut Differing<'a, 'b>,
    before: &Scene<'_>,
    after: &Scene<'_>,
    old: Option<Found<'a>>,
    new: Option<Found<'b>>,
) -> Result<(), NoMemory>
    requires before { IsScene before.now }
    requires after { IsScene after.now }
    ensures { OnOk result (ArePutIn before.now.tree.now after.now.tree.now (listed old.entry) (listed new.entry) found.old found.new) }
{
    if let (Some(was), Some(is)) = (&old, &new)
        && are_alike(before, after, was, is)
    {
        return Ok(());
    }
    put(&mut found.before, old)?;
    put(&mut found.after, new)
}

/// Whether two windows have one id, and nothing differs in them.
#[tactic(auto, using(crate::proofs::DifferingLemmas::same_is))]
fn are_alike(before: &Scene<'_>, after: &Scene<'_>, old: &Found<'_>, new: &Found<'_>) -> bool
    requires before { IsScene before.now }
    requires after { IsScene after.now }
    ensures id { IsTrue result → old.now.part.id ≡ new.now.part.id }
    ensures same { IsTrue result → differs before.now.tree.now after.now.tree.now old.now new.now ≡ false }
{
    old.part.id == new.part.id && !differs(before, after, old, new)
}

/// Whether something differs in a window.
fn differs(before: &Scene<'_>, after: &Scene<'_>, old: &Found<'_>, new: &Found<'_>) -> bool
    requires before { IsScene before.now }
    requires after { IsScene after.now }
    ensures { result ≡ differs before.now.tree.now after.now.tree.now old.now new.now }
{
    is_filled(old, new)
        || is_floated(old, new)
        || is_moved(old, new)
        || is_urged(before, after, new.part.id)
        || is_marked(old, new)
        || is_retitled(old, new)
}

/// Whether a window is urgent now, or no longer is.
pub fn is_urged(before: &Scene<'_>, after: &Scene<'_>, id: ConId) -> bool
    requires before { IsScene before.now }
    requires after { IsScene after.now }
    ensures { result ≡ is_urged before.now.tree.now after.now.tree.now id }
{
    !same_flag(before.is_urgent(id), after.is_urgent(id))
}

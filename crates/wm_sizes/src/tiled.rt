//! Sizes of tiled containers: the children of a node give shares to each other.
ghost use Rattle.std.specs.Prelude.{◌≡◌, ◌≤◌, Some, OnOk};
ghost use Rattle.wm_arrange.specs.Areas.{side_of};
ghost use Rattle.wm_sizes.specs.Climbing.{rung_of, side_axis};
ghost use Rattle.wm_sizes.specs.Laws.{IsSharedAnew, SharesAnew};
ghost use Rattle.wm_sizes.specs.Tiled.{IsFamily, HasFamily, cannot, deal_of, lacks, length_of, partner_of, partners_of, rung_refusal, rung_tree, tiled_refusal, tiled_tree};
ghost use Rattle.wm_forest.specs.Counts.{row_length};
ghost use Rattle.wm_shared.specs.Does.{DoesExactly};
ghost use Rattle.wm_tree.specs.Sound.{IsSound};

use crate::climbing::{Rung, kids_in, rung_of, side_axis};
use crate::deals::{Deal, amount};
use crate::handing::hand_out;
use wm_arrange::area_of;
use wm_base::{Axis, ConId, ErrorText, Rect, Refusal};
use wm_language::Side;
use wm_shared::neighbour;
use wm_tree::{Cursor, Tree};

/// By how much a container grows or shrinks at a side: by hundredths of its parent where `ppt` is above 0, else by
/// pixels.
#[derive(Clone, Copy, Debug, PartialEq, Eq)]
pub struct Growth {
    pub grow: bool,
    pub side: Side,
    pub px: u32,
    pub ppt: u32,
}

/// The length of an area along an axis.
fn side_of(axis: Axis, area: Rect) -> u32
    ensures { result ≡ side_of axis area }
{
    match axis {
        Axis::Across => area.w,
        Axis::Down => area.h,
    }
}

/// The length of a node's area along the axis of the side, in pixels.
fn length_of(t: &Tree, parent: ConId, side: Side) -> u32
    requires { IsSound t.now }
    ensures { result ≡ length_of side parent t.now }
{
    side_of(side_axis(side), area_of(t, parent))
}

/// How many nodes a row has.
fn count(row: &Cursor<'_>) -> u64
    requires { row_length row.now ≤ 256 }
    ensures { result ≡ row_length row.now }
{
    if row.part().is_none() {
        return 0;
    }
    let mut number = 1;
    let mut rest = row.rest();
    while let Some(_part) = rest.part() {
        number += 1;
        rest = rest.rest();
    }
    number
}

/// The one child that gives to the node or takes from it. `None` where all others do, or none is there.
fn partner_of(side: Side, node: ConId, row: &Cursor<'_>) -> Option<ConId>
    ensures { result ≡ partner_of side node row.now }
{
    match side {
        Side::Width | Side::Height => None,
        Side::At(d) => neighbour(d, node, row),
    }
}

/// How many children give to the node or take from it.
fn partners_of(side: Side, row: &Cursor<'_>) -> u64
    requires { row_length row.now ≤ 256 }
    ensures { result ≡ partners_of side row.now }
{
    match side {
        Side::Width | Side::Height => count(row).saturating_sub(1),
        Side::At(_) => 1,
    }
}

/// Whether the node has no neighbour on the side, where it needs one.
fn lacks(side: Side, node: ConId, row: &Cursor<'_>) -> bool
    ensures { result ≡ lacks side node row.now }
{
    match side {
        Side::Width | Side::Height => false,
        Side::At(d) => neighbour(d, node, row).is_none(),
    }
}

/// How the children of the row share anew.
fn deal_of(growth: Growth, node: ConId, length: u32, row: &Cursor<'_>) -> Deal
    requires { IsFamily row.now }
    ensures value { result ≡ deal_of growth node length row.now }
    ensures small { result.amount ≤ 2305843009213693952 }
{
    let sum = row.share_sum();
    Deal {
        node,
        partner: partner_of(growth.side, node, row),
        partners: partners_of(growth.side, row),
        grow: growth.grow,
        amount: amount(sum, length, growth.px, growth.ppt),
        least: sum / 100,
    }
}

/// Whether there is no length of which pixels could be taken, or some share would not be such as it may be.
fn cannot(growth: Growth, length: u32, deal: Deal, row: Cursor<'_>) -> bool
    requires small { deal.amount ≤ 2305843009213693952 }
    requires few { row_length row ≤ 256 }
    ensures { result ≡ cannot growth length deal row.entry }
{
    growth.ppt == 0 && length == 0 || !deal.fits_all(row, 0)
}

/// Lets the children of the rung's parent share anew.
fn share_anew(t: &mut Tree, rung: Rung, growth: Growth) -> Result<(), Refusal>
    requires sound { IsSound t.old }
    requires family { HasFamily rung t.old.nodes }
    ensures does { DoesExactly t.old t.new result (rung_refusal growth (Some rung))
        (rung_tree growth (Some rung)) }
    ensures shares { OnOk result (SharesAnew growth rung t.old t.new) }
{
    let Some(row) = kids_in(t.nodes(), rung.parent) else {
        return Err(Refusal::NoTarget(ErrorText::CannotResize));
    };
    if lacks(growth.side, rung.node, &row) {
        return Err(Refusal::NoTarget(ErrorText::NoNeighbour));
    }
    let length = length_of(t, rung.parent, growth.side);
    let deal = deal_of(growth, rung.node, length, &row);
    if cannot(growth, length, deal, row) {
        return Err(Refusal::NoTarget(ErrorText::CannotResize));
    }
    hand_out(t, rung.parent, deal);
    Ok(())
}

/// Lets the tiled container, or the nearest node above it that has neighbours along the axis, grow or shrink.
pub(crate) fn grow_tiled(t: &mut Tree, con: ConId, growth: Growth) -> Result<(), Refusal>
    requires { IsSound t.old }
    ensures does { DoesExactly t.old t.new result (tiled_refusal con growth)
        (tiled_tree con growth) }
    ensures shares { OnOk result (IsSharedAnew growth (rung_of (side_axis growth.side) con t.old) t.old t.new) }
{
    match rung_of(t, con, side_axis(growth.side)) {
        Some(rung) => share_anew(t, rung, growth),
        None => Err(Refusal::NoTarget(ErrorText::CannotResize)),
    }
}

//! What the children of a container give to one of them, and what it gives to them.
ghost use Rattle.std.specs.Prelude.{◌≡◌, ◌≤◌, ◌+◌};
ghost use Rattle.wm_sizes.specs.Deals.{amount, fits, fits_all, gained, gives, is_partner, part, share_after, siblings, turn_after};
ghost use Rattle.wm_forest.specs.Counts.{row_length};

use wm_base::ConId;
use wm_tree::{Cursor, NodeKind, Sibling};

/// The greatest share.
const GREATEST: u64 = 1_048_576;

/// How children of a container share anew: the node that grows or shrinks, its partner, or `None` where all others
/// are, how many partners there are, the amount that goes over in all, and the least share that who gives keeps.
#[derive(Clone, Copy, Debug, PartialEq, Eq)]
pub struct Deal {
    pub node: ConId,
    pub partner: Option<ConId>,
    pub partners: u64,
    pub grow: bool,
    pub amount: u64,
    pub least: u64,
}

/// So many hundredths of all shares, or where there are none the shares that so many pixels of the length have.
pub(crate) fn amount(sum: u64, length: u32, px: u32, ppt: u32) -> u64
    requires { sum ≤ 268435456 }
    ensures value { result ≡ amount sum length px ppt }
    ensures small { result ≤ 2305843009213693952 }
{
    if ppt > 0 {
        sum * u64::from(ppt) / 100
    } else if length > 0 {
        sum * u64::from(px) / u64::from(length)
    } else {
        0
    }
}

/// A share that becomes larger or smaller.
fn gained(more: bool, share: u32, by: u64) -> u64
    requires { by ≤ 2305843009213693953 }
    ensures { result ≡ gained more share by }
{
    let share = u64::from(share);
    if more {
        share + by
    } else {
        share.saturating_sub(by)
    }
}

impl Deal {
    /// Whether the child gives to the node, or takes from it.
    fn is_partner(self, id: ConId) -> bool
        ensures { result ≡ is_partner self id }
    {
        match self.partner {
            Some(partner) => id != self.node && id == partner,
            None => id != self.node,
        }
    }

    /// What the partner gives or takes that has so many partners before it.
    fn part(self, turn: u64) -> u64
        requires { self.amount ≤ 2305843009213693952 }
        ensures value { result ≡ part self turn }
        ensures small { result ≤ 2305843009213693953 }
    {
        if self.partners == 0 {
            return 0;
        }
        let more = if turn < self.amount % self.partners {
            1
        } else {
            0
        };
        self.amount / self.partners + more
    }

    /// The child's share after the deal.
    pub(crate) fn share_after(self, child: Sibling, turn: u64) -> u64
        requires { self.amount ≤ 2305843009213693952 }
        ensures { result ≡ share_after self child turn }
    {
        if child.id == self.node {
            gained(self.grow, child.share, self.amount)
        } else if self.is_partner(child.id) {
            gained(!self.grow, child.share, self.part(turn))
        } else {
            u64::from(child.share)
        }
    }

    /// How many partners there are before the next child.
    pub(crate) fn turn_after(self, id: ConId, turn: u64) -> u64
        requires { turn ≤ 1000 }
        ensures { result ≡ turn_after self id turn }
    {
        if self.is_partner(id) { turn + 1 } else { turn }
    }

    /// Whether the child gives.
    fn gives(self, id: ConId) -> bool
        ensures { result ≡ gives self id }
    {
        if self.grow {
            self.is_partner(id)
        } else {
            id == self.node
        }
    }

    /// Whether the child's share after the deal is one that it may have.
    fn fits(self, child: Sibling, turn: u64) -> bool
        requires { self.amount ≤ 2305843009213693952 }
        ensures { result ≡ fits self child turn }
    {
        let after = self.share_after(child, turn);
        1 <= after && after <= GREATEST && (!self.gives(child.id) || self.least <= after)
    }

    /// Whether the shares of all children of the row are such as they may have.
    pub(crate) fn fits_all(self, mut row: Cursor<'_>, mut turn: u64) -> bool
        requires small { self.amount ≤ 2305843009213693952 }
        requires few { turn + row_length row ≤ 1000 }
        ensures { result ≡ fits_all self turn (siblings row.entry) }
    {
        while let Some(part) = row.part() {
            let child = Sibling {
                id: part.id,
                share: part.kind.share(),
            };
            if !self.fits(child, turn) {
                return false;
            }
            turn = self.turn_after(part.id, turn);
            row = row.rest();
        }
        true
    }
}

//! The children of a node get their shares after a deal.
ghost use Rattle.std.specs.Prelude.{◌≡◌, ◌+◌, ◌<◌, ◌≤◌, ◌++◌, true, take};
ghost use Rattle.wm_sizes.specs.Deals.{change, changes, dealt, fits, share_after, siblings};
ghost use Rattle.wm_sizes.specs.Tiled.{IsReady, children_of, shares_set};
ghost use Rattle.wm_tree.specs.Sound.{IsSound};

use crate::climbing::kids_in;
use crate::deals::Deal;
use wm_base::ConId;
use wm_tree::{Cursor, Sibling, Tree};

/// How many children a node has at most.
const MOST: usize = 256;

/// The child with its share after the deal, which has so many partners before it.
fn after(deal: Deal, child: Sibling, turn: u64) -> Sibling
    requires small { deal.amount ≤ 2305843009213693952 }
    requires fit { fits deal child turn ≡ true }
    ensures { result ≡ record { id = child.id; share = share_after deal child turn } }
{
    Sibling {
        id: child.id,
        share: deal.share_after(child, turn) as u32,
    }
}

/// Puts the child with its share after the deal into the list at that number, where it is another one. Gives how many
/// there are then.
fn put(deal: Deal, child: Sibling, turn: u64, hand: &mut [Sibling; MOST], number: usize) -> usize
    requires small { deal.amount ≤ 2305843009213693952 }
    requires fit { fits deal child turn ≡ true }
    requires within { number < 256 }
    ensures value { take result hand.new ≡ take number hand.old ++ change deal turn child }
    ensures within { result ≤ number + 1 }
{
    let next = after(deal, child, turn);
    if next.share == child.share {
        return number;
    }
    hand[number] = next;
    number + 1
}

/// Puts the nodes of the row whose shares change first into the list. Gives how many there are.
fn put_row(deal: Deal, row: Cursor<'_>, hand: &mut [Sibling; MOST]) -> usize
    requires { IsReady deal (siblings row) }
    ensures value { take result hand.new ≡ changes deal 0 (siblings row.entry) }
    ensures within { result ≤ 256 }
{
    let mut row = row;
    let mut number = 0;
    let mut turn = 0;
    while let Some(part) = row.part() {
        let child = Sibling {
            id: part.id,
            share: part.kind.share(),
        };
        number = put(deal, child, turn, hand, number);
        turn = deal.turn_after(child.id, turn);
        row = row.rest();
    }
    number
}

/// Puts the children whose shares change first into the list. Gives how many there are.
#[tactic(auto, using(crate::proofs::HandLemmas::no_children))]
fn put_children(t: &Tree, parent: ConId, deal: Deal, hand: &mut [Sibling; MOST]) -> usize
    requires { IsReady deal (siblings (children_of parent t.now)) }
    ensures value { take result hand.new ≡ changes deal 0 (siblings (children_of parent t.now)) }
    ensures within { result ≤ 256 }
{
    match kids_in(t.nodes(), parent) {
        Some(row) => put_row(deal, row, hand),
        None => 0,
    }
}

/// Gives the children their shares after the deal. All shares are read before the first one is set, and only those that
/// change are set, in one walk over the tree.
#[tactic(auto, using(crate::proofs::ChangeLemmas::children_changed))]
pub(crate) fn hand_out(t: &mut Tree, parent: ConId, deal: Deal)
    requires sound { IsSound t.old }
    requires ready { IsReady deal (siblings (children_of parent t.old)) }
    ensures { t.new ≡ shares_set (dealt deal 0 (siblings (children_of parent t.old))) t.old }
{
    let nobody = Sibling {
        id: parent,
        share: 0,
    };
    let mut hand = [nobody; MOST];
    let number = put_children(t, parent, deal, &mut hand);
    t.set_shares(parent, &hand[..number]);
}

//! The list of ids by recency, the most recent first.
ghost use Rattle.std.specs.Prelude.{◌≡◌, ◌<◌, length, true, IfSome};
ghost use Rattle.wm_base.specs.declared.ids.ConId.{ConId};
ghost use Rattle.wm_forest.specs.Look.{has};
ghost use Rattle.wm_forest.specs.Row.{alone};
ghost use Rattle.wm_forest.specs.Recency.{first_held, outside, place_from, raised, without_id};
ghost use Rattle.wm_forest.specs.Sieve.{is_taken};

use crate::holds::Holds;
use crate::row::{Cell, Row};
use crate::sieve::Sieve;
use wm_base::ConId;

/// The place of the id in the list, from 0. `None` exactly where it is not there.
pub fn place(ids: &[ConId], id: ConId) -> Option<usize>
    ensures place { result ≡ place_from 0 id ids.now }
    ensures within { IfSome result (λ at. at < length ids.now) }
{
    let mut at = 0;
    let mut rest = ids;
    while let [first, after @ ..] = rest {
        if *first == id {
            return Some(at);
        }
        at += 1;
        rest = after;
    }
    None
}

/// Puts the id first and keeps the others in their order. Nothing changes where it is not in the list.
pub fn raise(ids: &mut [ConId], id: ConId)
    ensures { ids.new ≡ raised id ids.old }
{
    if let Some(at) = place(ids, id) {
        let front = &mut ids[..=at];
        front.rotate_right(1);
    }
}

/// Takes the ids out that the row holds.
#[tactic(auto, using(crate::proofs::ForestLemmas::outside_end))]
pub fn remove_all(ids: &mut Vec<ConId>, gone: &Row)
    ensures { ids.new.items ≡ outside gone.now ids.old.items }
{
    if !gone.is_end() {
        ids.retain(|id| !gone.has(*id));
    }
}

/// Takes the id out, wherever it stands.
pub fn remove(ids: &mut Vec<ConId>, gone: ConId)
    ensures { ids.new.items ≡ without_id gone ids.old.items }
{
    ids.retain(|id| *id != gone);
}

/// How many ids are asked for one by one before a sieve is made.
pub const SOON: u32 = 8;

/// For how many ids, or fewer, no sieve is made.
const FEW: usize = 24;

/// The first of the ids that is in the row, at any depth. An empty row is not looked for.
#[tactic(auto, using(crate::proofs::ForestLemmas::first_held_end))]
pub fn first_held(ids: &[ConId], row: &Row) -> Option<ConId>
    ensures { result ≡ first_held row.now ids.now }
{
    if row.is_end() {
        None
    } else {
        first_of(ids, row)
    }
}

/// The first of the ids that is the cell's node or below it.
pub fn first_below(ids: &[ConId], cell: &Cell) -> Option<ConId>
    ensures { result ≡ first_held (alone cell.now) ids.now }
{
    first_of(ids, cell)
}

/// The first of the ids that is held. The first few are asked for one by one, and so are the last.
fn first_of<H: Holds>(ids: &[ConId], holder: &H) -> Option<ConId>
    ensures { result ≡ first_held (H.nodes holder.now) ids.now }
{
    let mut left = SOON;
    let mut rest = ids;
    while let [first, after @ ..] = rest {
        if left == 0 && rest.len() > FEW {
            return first_sieved(rest, holder);
        }
        if holder.has_node(*first) {
            return Some(*first);
        }
        left = left.saturating_sub(1);
        rest = after;
    }
    None
}

/// The first of the ids that is held, by a sieve. It stands by itself, since a function makes room for a sieve as it begins.
#[inline(never)]
fn first_sieved<H: Holds>(ids: &[ConId], holder: &H) -> Option<ConId>
    ensures { result ≡ first_held (H.nodes holder.now) ids.now }
{
    let mut sieve = Sieve::new();
    holder.put_into(&mut sieve);
    first_taken(ids, holder, &sieve)
}

/// The first of the ids that is held, where the places of all that are held are taken.
fn first_taken<H: Holds>(ids: &[ConId], holder: &H, sieve: &Sieve) -> Option<ConId>
    requires { (c : ConId) → has c (H.nodes holder.now) ≡ true → is_taken c sieve.now ≡ true }
    ensures { result ≡ first_held (H.nodes holder.now) ids.now }
{
    let mut rest = ids;
    while let [first, after @ ..] = rest {
        if sieve.has_taken(*first) && holder.has_node(*first) {
            return Some(*first);
        }
        rest = after;
    }
    None
}

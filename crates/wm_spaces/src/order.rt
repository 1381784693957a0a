//! The order of workspaces: by the number with which the name begins, those without one last, and then by id.
ghost use Rattle.std.specs.Prelude.{◌≡◌, None};
ghost use Rattle.wm_shared.specs.Keys.{comes_before};
ghost use Rattle.wm_spaces.specs.Order.{best_on, best_with, better, greater, key_if, keys_in, num, number_on, picks, place_of, small, space_key};
ghost use Rattle.wm_forest.specs.Look.{space_kind};

use wm_base::ConId;
use wm_shared::{Key, lesser};
use wm_tree::{Cursor, NodeKind, Part};

/// The greatest number with which a workspace's name begins.
const MAX_NUM: u64 = 2_147_483_647;

/// Which workspaces are looked at: all, all but one, those behind one in the order, those ahead of it, or those of a number.
#[derive(Clone, Copy, Debug)]
pub enum Pick {
    All,
    But(ConId),
    Behind(Key),
    Ahead(Key),
    Numbered(u64),
}

/// The number of the digits at the front, behind those that make n. `None` where it is too large.
#[tactic(auto, using(crate::proofs::OrderLemmas::too_large))]
fn number_on(n: u64, bytes: &[u8]) -> Option<u64>
    ensures { result ≡ small (number_on n bytes.now) }
{
    let mut number = n;
    let mut rest = bytes;
    while let [first, after @ ..] = rest
        && first.is_ascii_digit()
        && number <= MAX_NUM
    {
        number = number * 10 + u64::from(*first - b'0');
        rest = after;
    }
    if number <= MAX_NUM {
        Some(number)
    } else {
        None
    }
}

/// The number with which the name begins. `None` where it begins with none, or with one that is too large.
pub(crate) fn num(name: &str) -> Option<u64>
    ensures { result ≡ num name.now }
{
    match name.as_bytes() {
        [first, rest @ ..] if first.is_ascii_digit() => number_on(u64::from(*first - b'0'), rest),
        _ => None,
    }
}

/// The place of a workspace in the order.
pub(crate) fn space_key(id: ConId, name: &str) -> Key
    ensures { result ≡ space_key id name.now }
{
    Key {
        first: num(name).unwrap_or(MAX_NUM + 1),
        id,
    }
}

impl Pick {
    /// Whether the workspace is looked at.
    fn picks(self, key: Key) -> bool
        ensures { result ≡ picks self key }
    {
        match self {
            Pick::All => true,
            Pick::But(id) => key.id != id,
            Pick::Behind(other) => other.comes_before(key),
            Pick::Ahead(other) => key.comes_before(other),
            Pick::Numbered(n) => key.first == n,
        }
    }
}

fn key_if(pick: Pick, part: &Part) -> Option<Key>
    ensures { result ≡ key_if pick part.now.id (space_kind part.now.kind) }
{
    let NodeKind::Space(space) = &part.kind else {
        return None;
    };
    let key = space_key(part.id, space.name.as_str());
    if pick.picks(key) { Some(key) } else { None }
}

/// The one of two that comes last.
fn greater(a: Option<Key>, b: Option<Key>) -> Option<Key>
    ensures { result ≡ greater a b }
{
    match (a, b) {
        (Some(a), Some(b)) => Some(if a.comes_before(b) { b } else { a }),
        (None, other) | (other, None) => other,
    }
}

/// The one of two that comes last (`back`), or else first.
fn better(back: bool, a: Option<Key>, b: Option<Key>) -> Option<Key>
    ensures { result ≡ better back a b }
{
    if back { greater(a, b) } else { lesser(a, b) }
}

/// The last or first of the workspaces of a row that are looked at.
#[tactic(auto, using(crate::proofs::OrderLemmas::best_of))]
pub(crate) fn best_in(row: Cursor<'_>, pick: Pick, back: bool) -> Option<Key>
    ensures { result ≡ best_with back (keys_in pick row.entry) None }
{
    let mut best = None;
    let mut row = row;
    while let Some(part) = row.part() {
        best = better(back, best, key_if(pick, part));
        row = row.rest();
    }
    best
}

/// The last or first of the workspaces on a row of outputs that are looked at.
#[tactic(auto, using(crate::proofs::OrderLemmas::best_of_all))]
pub(crate) fn best_on(row: Cursor<'_>, pick: Pick, back: bool) -> Option<Key>
    ensures { result ≡ best_on back pick row.entry }
{
    let mut best = None;
    let mut row = row;
    'outputs: while row.part().is_some() {
        best = better(back, best, best_in(row.kids(), pick, back));
        row = row.rest();
    }
    best
}

//! A sieve over the containers of a kind in a workspace, for many questions whether a node is one.
ghost use Rattle.std.specs.Prelude.{◌≡◌, true, Some};
ghost use Rattle.wm_base.specs.declared.ids.ConId.{ConId};
ghost use Rattle.wm_floats.specs.Kinds.{first_of, is_of_space, latest};
ghost use Rattle.wm_floats.specs.Sieve.{Takes, TakesIn, is_wanted};
ghost use Rattle.wm_forest.specs.Sieve.{is_taken};

use crate::kinds::{Kind, is_kind, is_of_space};
use wm_base::ConId;
use wm_tree::{Cursor, NodeKind, Part, Recent, Sieve, Tree};

/// What is looked for: containers of a kind in a workspace.
#[derive(Clone, Copy, Debug, PartialEq, Eq)]
struct Wanted {
    kind: Kind,
    space: ConId,
}

/// Whether a node of this workspace, or of none, is such a container.
fn is_wanted(wanted: Wanted, space: Option<ConId>, tiled: bool, node: &NodeKind) -> bool
    ensures { result ≡ is_wanted wanted.kind wanted.space space tiled node.now }
{
    match space {
        Some(space) => wanted.space == space && is_kind(wanted.kind, tiled, node),
        None => false,
    }
}

/// Takes the place of the node where it is such a container.
fn take(sieve: &mut Sieve, wanted: Wanted, space: Option<ConId>, tiled: bool, part: &Part)
    ensures { Takes wanted.kind wanted.space space tiled part.now sieve.old sieve.new }
{
    if is_wanted(wanted, space, tiled, &part.kind) {
        sieve.take(part.id);
    }
}

/// Takes the places of such containers that the row has, at any depth. The row is in this workspace, or in none, and is
/// one of tiled nodes or not.
fn take_in(sieve: &mut Sieve, wanted: Wanted, space: Option<ConId>, tiled: bool, row: Cursor<'_>)
    ensures { TakesIn wanted.kind wanted.space space tiled row.entry sieve.old sieve.new }
{
    let mut row = row;
    while let Some(part) = row.part() {
        let within = part.space_at(space);
        take(sieve, wanted, within, tiled, part);
        take_in(sieve, wanted, within, true, row.kids());
        take_in(sieve, wanted, within, false, row.floats());
        row = row.rest();
    }
}

/// The first of the ids that is such a container, all of which have their places taken.
fn first_taken(t: &Tree, wanted: Wanted, sieve: &Sieve, ids: Recent<'_>) -> Option<ConId>
    requires { (c : ConId) → is_of_space wanted.kind wanted.space t.now c ≡ true → is_taken c sieve.now ≡ true }
    ensures { result ≡ first_of wanted.kind wanted.space t.now ids.entry }
{
    let mut rest = ids;
    while let Some(id) = rest.next() {
        if sieve.has_taken(id) && is_of_space(t, wanted.kind, wanted.space, id) {
            return Some(id);
        }
    }
    None
}

/// The most recent container of this kind in the workspace, by a sieve. It stands by itself, since a function makes room
/// for a sieve as it begins.
#[inline(never)]
pub(crate) fn latest_sieved(t: &Tree, kind: Kind, w: ConId) -> Option<ConId>
    ensures { result ≡ latest kind (Some w) t.now }
{
    let mut sieve = Sieve::new();
    let wanted = Wanted { kind, space: w };
    take_in(&mut sieve, wanted, None, false, t.nodes());
    first_taken(t, wanted, &sieve, t.recent_ids())
}

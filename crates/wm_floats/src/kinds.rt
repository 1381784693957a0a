//! The most recent tiled or floating container of a workspace.
ghost use Rattle.std.specs.Prelude.{◌≡◌, Some};
ghost use Rattle.wm_floats.specs.Kinds.{is_of, is_of_space, is_placed_of, kind_by, latest};
ghost use Rattle.wm_floats.specs.Sieve.{is_kind};
ghost use Rattle.wm_floats.specs.Switches.{focus_other_refusal, focus_other_tree};
ghost use Rattle.wm_floats.specs.declared.kinds.Kind.TheVariants as kinds;
ghost use Rattle.wm_shared.specs.Does.{DoesExactly};
ghost use Rattle.wm_shared.specs.Subject.{IsSubject};

use crate::sieve::latest_sieved;
use crate::windows::switched;
use wm_base::{ConId, ErrorText, Refusal};
use wm_tree::{ConPart, NodeKind, Placed, SOON, Standing, Tree};

/// Containers that are looked for: tiled ones, floating windows, or floating windows that are flagged for the
/// scratchpad.
#[derive(Clone, Copy, Debug, PartialEq, Eq)]
pub enum Kind {
    Tiled,
    Floating,
    Flagged,
}

/// Whether it is a container that is not tiled: a floating window, or one of the scratchpad.
pub fn is_floating(t: &Tree, con: ConId) -> bool
    ensures { result ≡ is_of kinds.Floating t.now con }
{
    match t.standing(con) {
        Some(Standing::Placed(Placed { tiled, .. }) | Standing::Away(_, tiled)) => !tiled,
        Some(Standing::Above | Standing::Space(_)) | None => false,
    }
}

/// Whether a container, tiled or not, is of this kind.
fn is_of(kind: Kind, tiled: bool, part: &ConPart) -> bool
    ensures { result ≡ is_placed_of kind part.now tiled }
{
    match kind {
        Kind::Tiled => tiled,
        Kind::Floating => !tiled,
        Kind::Flagged => !tiled && part.state.flagged,
    }
}

/// Whether a node of a row, tiled or not, is a container of this kind.
pub(crate) fn is_kind(kind: Kind, tiled: bool, node: &NodeKind) -> bool
    ensures { result ≡ is_kind kind tiled node.now }
{
    match node {
        NodeKind::Con(part) => is_of(kind, tiled, part),
        NodeKind::Root { .. } | NodeKind::Output(_) | NodeKind::Space(_) => false,
    }
}

/// Whether it is a container of this kind in the workspace.
pub(crate) fn is_of_space(t: &Tree, kind: Kind, w: ConId, con: ConId) -> bool
    ensures { result ≡ is_of_space kind w t.now con }
{
    match t.standing(con) {
        Some(Standing::Placed(placed)) => w == placed.space
            && is_of(kind, placed.tiled, placed.part),
        Some(Standing::Above | Standing::Space(_) | Standing::Away(..)) | None => false,
    }
}

/// The most recent container of this kind in the workspace.
pub(crate) fn latest(t: &Tree, kind: Kind, w: ConId) -> Option<ConId>
    ensures { result ≡ latest kind (Some w) t.now }
{
    let mut left = SOON;
    let mut rest = t.recent_ids();
    while let Some(id) = rest.next() {
        if left == 0 {
            return latest_sieved(t, kind, w);
        }
        if is_of_space(t, kind, w, id) {
            return Some(id);
        }
        left -= 1;
    }
    None
}

/// The kind of containers to which focus goes.
fn kind_by(floating: bool) -> Kind
    ensures { result ≡ kind_by floating }
{
    if floating {
        Kind::Floating
    } else {
        Kind::Tiled
    }
}

/// Raises the most recent floating window (`floating`) or tiled container of the subject's workspace; `None` is a tiled
/// one for a floating subject, and a floating one for any other.
pub fn focus_kind(t: &mut Tree, from: ConId, floating: Option<bool>) -> Result<(), Refusal>
    requires { IsSubject t.old from }
    ensures { DoesExactly t.old t.new result (focus_other_refusal from floating)
        (focus_other_tree from floating) }
{
    let (w, floats) = match t.standing(from) {
        Some(Standing::Space(_)) => (from, false),
        Some(Standing::Placed(Placed { space, tiled, .. })) => (space, !tiled),
        Some(Standing::Away(..)) => return Err(Refusal::NoTarget(ErrorText::NoWorkspace)),
        Some(Standing::Above) | None => unreachable!(),
    };
    match latest(t, kind_by(switched(floating, floats)), w) {
        Some(con) => {
            t.raise(con);
            Ok(())
        }
        None => Err(Refusal::NoTarget(ErrorText::NoNeighbour)),
    }
}

//! What the subject of a command is.
ghost use Rattle.std.specs.Prelude.{◌≡◌, true, IfOk, IfErr};
ghost use Rattle.wm_shared.specs.Subject.{IsSubject, IsUnplaced, IsUnplacedCause, is_hidden, is_space, is_subject_kind};
ghost use Rattle.wm_forest.specs.Look.{con_kind, kind_of, space_kind};
ghost use Rattle.wm_tree.specs.Sound.{IsSound};
ghost use Rattle.wm_tree.specs.Standing.{IsPlaced};

use wm_base::{ConId, ErrorText, Refusal};
use wm_tree::{Placed, Standing, Tree};

/// Whether the id names a workspace or a container of the tree, to which a command can be done.
pub fn is_subject(t: &Tree, con: ConId) -> bool
    ensures value { result ≡ is_subject_kind (kind_of space_kind con t.now.nodes) (kind_of con_kind con t.now.nodes) }
    ensures subject { IsSound t.now → result ≡ true → IsSubject t.now con }
{
    match t.standing(con) {
        Some(Standing::Space(_) | Standing::Placed(_) | Standing::Away(..)) => true,
        Some(Standing::Above) | None => false,
    }
}

/// The subject where it is a container on a workspace; else why a command for such containers is not done to it.
pub fn on_workspace(t: &Tree, con: ConId) -> Result<Placed<'_>, Refusal>
    requires { IsSubject t.now con }
    ensures ok { IfOk result (λ placed. IsPlaced placed con t.now) }

    // It is the first error, whatever other ones the command has.
    ensures exact { IfErr result (IsUnplaced con t.now) }
    ensures cause { IfErr result (IsUnplacedCause con t.now) }
{
    match t.standing(con) {
        Some(Standing::Placed(placed)) => Ok(placed),
        Some(Standing::Space(_)) => Err(Refusal::NoTarget(ErrorText::AtWorkspace)),
        Some(Standing::Away(..)) => Err(Refusal::NoTarget(ErrorText::NoWorkspace)),
        Some(Standing::Above) | None => unreachable!(),
    }
}

/// Whether it is in the scratchpad.
pub fn is_hidden(t: &Tree, con: ConId) -> bool
    ensures { result ≡ is_hidden t.now con }
{
    t.workspace_of(con).is_none()
}

/// Whether it is a workspace.
pub fn is_space(t: &Tree, con: ConId) -> bool
    ensures { result ≡ is_space t.now con }
{
    t.space(con).is_some()
}

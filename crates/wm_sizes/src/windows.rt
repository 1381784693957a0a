//! Windows as subjects of commands on their looks: who is none, and their border.
ghost use Rattle.std.specs.Prelude.{◌≡◌};
ghost use Rattle.wm_shared.specs.Does.{Makes};
ghost use Rattle.wm_sizes.specs.Windows.{border_set, look_refusal};

use wm_base::{Border, ConId, ErrorText, Refusal};
use wm_shared::{natural_by, state_of};
use wm_tree::{ConState, Placed, Standing, Tree};

/// Why a command on the look of windows is not done to this one, which may be in the scratchpad.
pub(crate) fn look_refusal(t: &Tree, con: ConId) -> Option<Refusal>
    ensures { result ≡ look_refusal con t.now }
{
    let part = match t.standing(con) {
        Some(Standing::Placed(Placed { part, .. }) | Standing::Away(part, _)) => part,
        Some(Standing::Space(_)) => return Some(Refusal::NoTarget(ErrorText::AtWorkspace)),
        Some(Standing::Above) | None => return Some(Refusal::NoTarget(ErrorText::NotWindow)),
    };
    match natural_by(&part.kind) {
        Some(_) => None,
        None => Some(Refusal::NoTarget(ErrorText::NotWindow)),
    }
}

/// Gives the container this border.
pub(crate) fn put_border(t: &mut Tree, con: ConId, border: Border)
    ensures { Makes t.old t.new (border_set border con) }
{
    if let Some(state) = state_of(t, con) {
        t.set_state(con, ConState { border, ..state });
    }
}

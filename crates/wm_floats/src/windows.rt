//! Windows as subjects of commands: who is none, and flags of their state.
ghost use Rattle.std.specs.Prelude.{◌≡◌, ◌≢◌, None, OnOk, IfOk};
ghost use Rattle.wm_shared.specs.Does.{Makes, Refuses};
ghost use Rattle.wm_shared.specs.Subject.{IsSubject};
ghost use Rattle.wm_shared.specs.Windows.{natural_of};
ghost use Rattle.wm_floats.specs.Switches.{switched};
ghost use Rattle.wm_floats.specs.Windows.{flag_set, full_set, window_refusal};
ghost use Rattle.wm_tree.specs.Standing.{IsPlaced};

use wm_base::{ConId, ErrorText, Refusal};
use wm_shared::{natural_by, on_workspace, state_of};
use wm_tree::{ConState, Placed, Tree};

/// The subject where it is a window on a workspace; else why a command for such windows is not done to it.
pub(crate) fn window_at(t: &Tree, con: ConId) -> Result<Placed<'_>, Refusal>
    requires { IsSubject t.now con }
    ensures first { Refuses result (window_refusal con t.now) }
    ensures size { OnOk result (natural_of con t.now ≢ None) }
    ensures placed { IfOk result (λ placed. IsPlaced placed con t.now) }
{
    let placed = on_workspace(t, con)?;
    if natural_by(&placed.part.kind).is_none() {
        return Err(Refusal::NoTarget(ErrorText::NotWindow));
    }
    Ok(placed)
}

/// Whether a property is on after a command, given whether it is on now: as the command says, or the other way round.
pub(crate) fn switched(on: Option<bool>, now: bool) -> bool
    ensures { result ≡ switched on now }
{
    on.unwrap_or(!now)
}

/// Makes the container fullscreen, or takes that from it.
pub(crate) fn set_full(t: &mut Tree, con: ConId, on: bool)
    ensures { Makes t.old t.new (full_set on con) }
{
    if let Some(state) = state_of(t, con) {
        let fullscreen = on;
        t.set_state(
            con,
            ConState {
                fullscreen,
                ..state
            },
        );
    }
}

/// Flags the container for the scratchpad, or takes that from it.
pub(crate) fn set_flag(t: &mut Tree, con: ConId, on: bool)
    ensures { Makes t.old t.new (flag_set on con) }
{
    if let Some(state) = state_of(t, con) {
        let flagged = on;
        t.set_state(con, ConState { flagged, ..state });
    }
}

//! Sticky windows, which stay in sight whatever workspace their output shows.
ghost use Rattle.wm_floats.specs.Switches.{set_sticky_tree};
ghost use Rattle.wm_floats.specs.Windows.{window_refusal};
ghost use Rattle.wm_shared.specs.Does.{DoesExactly};
ghost use Rattle.wm_shared.specs.Subject.{IsSubject};

use crate::windows::{switched, window_at};
use wm_base::{ConId, Refusal};
use wm_tree::{ConState, Placed, Tree};

/// Makes the window sticky, or no longer so; `None` is the other way round from now.
pub fn set_sticky(t: &mut Tree, con: ConId, on: Option<bool>) -> Result<(), Refusal>
    requires { IsSubject t.old con }
    ensures { DoesExactly t.old t.new result (window_refusal con) (set_sticky_tree con on) }
{
    let Placed { part, .. } = window_at(t, con)?;
    let state = part.state;
    let sticky = switched(on, state.sticky);
    t.set_state(con, ConState { sticky, ..state });
    Ok(())
}

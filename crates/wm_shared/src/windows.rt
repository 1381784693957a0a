//! Windows as subjects of commands: their state and their natural size.
ghost use Rattle.std.specs.Prelude.{◌≡◌};
ghost use Rattle.wm_shared.specs.Does.{Makes};
ghost use Rattle.wm_shared.specs.Windows.{natural_by, rect_set, state_of};

use wm_base::{ConId, Rect, Size};
use wm_tree::{ConKind, ConState, Tree};

/// The natural size of a window. `None` exactly where it is a split or a placeholder.
pub fn natural_by(kind: &ConKind) -> Option<Size>
    ensures { result ≡ natural_by kind.now }
{
    match kind {
        ConKind::Window { natural, .. } => Some(*natural),
        ConKind::Split { .. } | ConKind::Placeholder { .. } => None,
    }
}

/// The state of a container.
pub fn state_of(t: &Tree, con: ConId) -> Option<ConState>
    ensures { result ≡ state_of con t.now }
{
    Some(t.container(con)?.state)
}

/// Gives the container this outer rectangle.
pub fn set_rect(t: &mut Tree, con: ConId, rect: Rect)
    ensures { Makes t.old t.new (rect_set rect con) }
{
    if let Some(state) = state_of(t, con) {
        let rect = Some(rect);
        t.set_state(con, ConState { rect, ..state });
    }
}

//! Growing and shrinking containers.
ghost use Rattle.std.specs.Prelude.{◌≡◌, true, OnOk};
ghost use Rattle.wm_sizes.specs.Climbing.{rung_of, side_axis};
ghost use Rattle.wm_sizes.specs.Laws.{IsSharedAnew};
ghost use Rattle.wm_sizes.specs.Resizing.{resize_refusal, resize_tree};
ghost use Rattle.wm_shared.specs.Does.{DoesExactly};
ghost use Rattle.wm_shared.specs.Subject.{IsSubject};
ghost use Rattle.wm_tree.specs.TreeValue.{is_tiled_con};

use crate::floating::grow_floating;
use crate::tiled::{Growth, grow_tiled};
use wm_base::{ConId, Refusal};
use wm_language::Side;
use wm_shared::on_workspace;
use wm_tree::Tree;

/// Lets a container grow or shrink at a side. A floating window does so by `px` pixels. A tiled one, or the nearest node
/// above it with neighbours along the axis, takes from its neighbour on the side, or from all others for `Width` and
/// `Height`, or gives to them: `ppt` hundredths of its parent where that is above 0, else `px` pixels.
pub fn resize(
    t: &mut Tree,
    con: ConId,
    grow: bool,
    side: Side,
    px: u32,
    ppt: u32,
) -> Result<(), Refusal>
    requires { IsSubject t.old con }
    ensures does { DoesExactly t.old t.new result (resize_refusal con grow side px ppt)
        (resize_tree con grow side px ppt) }

    // The sum of the shares of the children that share anew is as it was, and the node's share grew or shrank by the
    // amount.
    ensures shares { is_tiled_con t.old con ≡ true →
        OnOk result (IsSharedAnew (record { grow = grow; side = side; px = px; ppt = ppt }) (rung_of (side_axis side) con t.old) t.old t.new) }
{
    if on_workspace(t, con)?.tiled {
        let growth = Growth {
            grow,
            side,
            px,
            ppt,
        };
        grow_tiled(t, con, growth)
    } else {
        grow_floating(t, con, side, grow, px)
    }
}

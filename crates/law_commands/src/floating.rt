//! Laws of floating windows.
ghost use Rattle.std.specs.Prelude.{◌≡◌, Some, true, OnOk};
ghost use Rattle.wm_floats.specs.Floating.{earlier, floating_rect};
ghost use Rattle.wm_shared.specs.Subject.{IsSubject};
ghost use Rattle.wm_tree.specs.TreeValue.{is_tiled_con};

use wm_base::{ConId, Refusal};
use wm_floats::set_floating;
use wm_tree::Tree;

/// A tiled window that floats, is tiled and floats again has the rectangle with which it floated first.
pub fn floating_again_gives_the_rectangle_back(t: &mut Tree, con: ConId) -> Result<(), Refusal>
    requires subject { IsSubject t.old con }
    requires tiled { is_tiled_con t.old con ≡ true }
    ensures { OnOk result (earlier con t.new ≡ Some (floating_rect con t.old)) }
{
    set_floating(t, con, Some(true))?;
    set_floating(t, con, Some(false))?;
    set_floating(t, con, Some(true))
}

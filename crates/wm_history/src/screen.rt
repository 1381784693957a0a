//! The first ground of an arrangement.
ghost use Rattle.std.specs.Prelude.{◌≡◌};
ghost use Rattle.wm_history.specs.Screen.{first_back};

use wm_arrange::{Placed, PlacedPart};
use wm_base::Rect;

/// The rectangle of the first ground of a workspace, or one without pixels where there is none.
pub fn first_back(parts: &[Placed]) -> Rect
    ensures { result ≡ first_back parts.now }
{
    let mut rest = parts;
    while let [placed, after @ ..] = rest {
        if let PlacedPart::Back = &placed.part {
            return placed.rect;
        }
        rest = after;
    }
    Rect {
        x: 0,
        y: 0,
        w: 0,
        h: 0,
    }
}

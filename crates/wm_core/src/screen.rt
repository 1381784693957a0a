//! The part of the desktop that a picture of a frame shows.
ghost use Rattle.std.specs.Prelude.{◌≡◌};
ghost use Rattle.wm_core.specs.DeskValue.{StandsFrom};
ghost use Rattle.wm_history.specs.History.{History, Start};
ghost use Rattle.wm_history.specs.Screen.{screen};
ghost use Rattle.wm_paint.specs.CanvasValue.{IsArea};

use crate::desk::Desk;
use wm_base::Rect;
use wm_history::first_back;

impl Desk {
    /// The rectangle of the first output of the tree at the prefix of the frame, in pixels.
    pub fn screen(&self) -> Rect
        ensures rect { (start : Start) (history : History) → StandsFrom start self.now history → result ≡ screen start history }
        ensures area { (start : Start) (history : History) → StandsFrom start self.now history → IsArea result }
    {
        first_back(self.txn.current().parts.items())
    }
}

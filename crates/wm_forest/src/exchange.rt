//! Nodes that come to another place, and two that change places.
ghost use Rattle.std.specs.Prelude.{◌≡◌, false, true};
ghost use Rattle.wm_forest.specs.Change.{arriving, hole};
ghost use Rattle.wm_forest.specs.Exchange.{exchanged_nodes};
ghost use Rattle.wm_forest.specs.Look.{has, only};
ghost use Rattle.wm_forest.specs.Row.{alone};

use crate::change::NOBODY;
use crate::row::{Cell, Row};
use wm_base::{ConId, Rect};

impl Row {
    /// Makes the first node ready for its new place.
    pub fn arrive(&mut self, share: u32, rect: Option<Rect>, away: bool)
        ensures { self.new ≡ arriving share rect away self.old }
    {
        if let Some(cell) = &mut self.first {
            cell.arrive(share, rect, away);
        }
    }

    /// Two containers change places by a cell that is a hole. Each has the share of its old place beside it.
    pub fn exchange(&mut self, spare: &mut Cell, a: (ConId, u32), b: (ConId, u32), away: bool)
        requires hole { alone spare.old ≡ hole }
        requires first { has a.0 self.old ≡ true }
        requires second { has b.0 self.old ≡ true }
        ensures { has b.0 (only a.0 self.old) ≡ false →
            self.new ≡ exchanged_nodes a.0 b.0 a.1 b.1 away self.old }
    {
        self.swap(a.0, spare);
        spare.arrive(b.1, None, away);
        self.swap(b.0, spare);
        spare.arrive(a.1, None, away);
        self.swap(NOBODY, spare);
    }
}

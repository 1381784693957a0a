//! Sticky floating windows, which go along with what their output shows.
ghost use Rattle.std.specs.Prelude.{◌≡◌};
ghost use Rattle.wm_base.specs.declared.ids.ConId.{ConId};
ghost use Rattle.wm_tree.specs.Along.{gone_along, nowhere, AreSpaces};
ghost use Rattle.wm_tree.specs.Sound.{IsSound};
ghost use Rattle.wm_forest.specs.SoundRow.{tally};

use crate::tree::Tree;
use wm_base::{ConId, NOWHERE};
use wm_forest::{NOBODY, Place, Row};

impl Tree {
    /// Puts the sticky floating windows of a workspace last among those of another one, in their order. They keep
    /// their rectangles and lose fullscreen.
    #[tactic(auto, using(wm_forest::proofs::ForestLemmas::append_end))]
    pub fn go_along(&mut self, from: ConId, to: ConId)
        ensures tree { self.new ≡ gone_along from to self.old }
        ensures sound { AreSpaces from to self.old.nodes → IsSound self.old → IsSound self.new }
        ensures kept { AreSpaces from to self.old.nodes → IsSound self.old →
            (i : ConId) → tally i self.new.nodes ≡ tally i self.old.nodes }
    {
        let mut row = Row::new();
        self.nodes.loosen(from, &mut row);
        row.clear_fullscreen(NOBODY);
        self.nodes.put(Place::Float(to, NOWHERE), row);
    }
}

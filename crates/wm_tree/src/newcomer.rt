//! Where a new window goes.
ghost use Rattle.std.specs.Prelude.{◌≡◌, true};
ghost use Rattle.wm_forest.specs.Look.{has};
ghost use Rattle.wm_forest.specs.Place.{IsPlace, named};
ghost use Rattle.wm_tree.specs.Sound.{IsSound};
ghost use Rattle.wm_tree.specs.TreeValue.{newcomer_place, tiling_place};

use crate::tree::Tree;
use wm_base::ConId;
use wm_forest::Place;

impl Tree {
    /// Where a new window goes: last into a focused workspace, after the focused container where that is tiled, and
    /// after the leaf of the workspace where a floating window is focused, or last in it where nothing is tiled.
    pub fn newcomer_place(&self) -> Place
        ensures place { result ≡ newcomer_place self.now }
        ensures there { IsSound self.now → has (named result) self.now.nodes ≡ true }
        ensures fit { IsSound self.now → IsPlace result self.now.nodes }
    {
        self.place_of_newcomer()
    }

    fn place_of_newcomer(&self) -> Place
        ensures { result ≡ newcomer_place self.now }
    {
        let shown = self.shown();
        let focused = self.focused();
        if focused == shown {
            return Place::Last(shown);
        }
        if self.is_tiled(focused) {
            return Place::After(focused);
        }
        self.tiling_place(shown)
    }

    /// The place after the leaf of the workspace, or last in it where nothing is tiled.
    pub fn tiling_place(&self, w: ConId) -> Place
        ensures { result ≡ tiling_place w self.now }
    {
        let leaf = self.leaf(w).unwrap_or(w);
        if self.is_tiled(leaf) {
            Place::After(leaf)
        } else {
            Place::Last(w)
        }
    }
}

//! Changing the gaps of all workspaces.
ghost use Rattle.std.specs.Prelude.{ℕ, ◌≡◌};
ghost use Rattle.wm_forest.specs.Each.{mapped};
ghost use Rattle.wm_tree.specs.Gaps.{part_gapped};
ghost use Rattle.wm_tree.specs.Sound.{IsSound};

use crate::tree::Tree;
use wm_forest::{EachPart, NodeKind, Part};

/// A change of a workspace's inner and outer gap, in pixels.
pub trait GapChange {
    /// What the change makes of an inner and an outer gap.
    ghost word: { Self → ℕ → ℕ → ℕ × ℕ };

    /// The gaps after the change.
    fn gaps(&self, inner: u32, outer: u32) -> (u32, u32)
        ensures { result ≡ word self.now inner outer };
}

/// Changing the gaps of workspaces.
#[derive(Drop)]
struct Regap<'a, G: GapChange>(&'a G);

impl<'a, G: GapChange> EachPart for Regap<'a, G> {
    ghost word = { λ x. part_gapped (G.word x.0.now) };

    fn change(&self, part: &mut Part) {
        if let NodeKind::Space(space) = &mut part.kind {
            (space.inner, space.outer) = self.0.gaps(space.inner, space.outer);
        }
    }
}

impl Tree {
    /// Changes the gaps of each workspace. They are at most 1,000 pixels.
    pub fn change_gaps<G: GapChange>(&mut self, change: &G)
        ensures tree { self.new ≡ record self.old { nodes = mapped (part_gapped (G.word change.now)) self.old.nodes } }
        ensures sound { IsSound self.old → IsSound self.new }
    {
        self.nodes.change_each(&Regap(change));
    }
}

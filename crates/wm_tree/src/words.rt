//! Taking containers out of the tree, changing them, raising and settling.
ghost use Rattle.std.specs.Prelude.{◌≡◌, ◌≢◌, ◌≤◌, ◌+◌, false, true, Err, IsOk, None, Some, slice_get};
ghost use Rattle.wm_forest.specs.Look.{con_kind, has, kind_of, only};
ghost use Rattle.wm_tree.specs.Words.{AreShares, detached, edited, settled, with_raised, with_shares};
ghost use Rattle.wm_forest.specs.Place.{IsTiled};
ghost use Rattle.wm_forest.specs.Recency.{inside, lists, without_id};
ghost use Rattle.wm_forest.specs.Settle.{is_settled, vacated};
ghost use Rattle.wm_tree.specs.Sound.{IsSound};
ghost use Rattle.wm_forest.specs.SoundRow.{tally};
ghost use Rattle.wm_base.specs.declared.ids.ConId.{ConId};
ghost use Rattle.wm_forest.specs.declared.kind.KindEdit.TheVariants as edits;
ghost use Rattle.wm_tree.specs.declared.refusal.TreeRefusal.TheVariants.{Missing};

use crate::refusal::TreeRefusal;
use crate::tree::Tree;
use wm_base::{ConId, Layout};
use wm_forest::{KindEdit, Row, SetShares, Sibling, recency};

impl Tree {
    /// Takes the container out with all that is below it. The id, where it is there, is that of a container.
    #[tactic(auto, using(wm_forest::proofs::ForestLemmas::at_absent, wm_forest::proofs::ForestLemmas::outside_end, wm_forest::proofs::ForestLemmas::only_absent))]
    pub fn detach(&mut self, con: ConId) -> Result<(), TreeRefusal>
        ensures missing { has con self.old.nodes ≡ false → result ≡ Err (Missing con) }
        ensures there { has con self.old.nodes ≡ true → IsOk result }
        ensures tree { self.new ≡ detached con self.old }
        ensures none_new { (v : ConId) → has v self.new.nodes ≡ true → has v self.old.nodes ≡ true }
        ensures gone { IsSound self.old → has con self.new.nodes ≡ false }
        ensures lost { (i : ConId) → tally i self.new.nodes + tally i (only con self.old.nodes) ≡ tally i self.old.nodes }
        ensures sound { (has con self.old.nodes ≡ true → kind_of con_kind con self.old.nodes ≢ None) →
            IsSound self.old → IsSound self.new }
    {
        let Some(gone) = self.nodes.take_out(con) else {
            return Err(TreeRefusal::Missing(con));
        };
        recency::remove_all(&mut self.recency, &gone);
        recency::remove_all(&mut self.urgent, &gone);
        Ok(())
    }

    /// Gives the split or workspace another layout.
    pub fn set_layout(&mut self, con: ConId, l: Layout)
        ensures tree { self.new ≡ edited con (edits.Layout l) self.old }
        ensures sound { IsSound self.old → IsSound self.new }
    {
        self.edit(con, KindEdit::Layout(l));
    }

    /// Gives the tiled container another share, from 1 to 1,048,576.
    pub fn set_share(&mut self, con: ConId, s: u32)
        ensures tree { self.new ≡ edited con (edits.Share s) self.old }
        ensures sound { IsTiled con self.old.nodes → 1 ≤ s → s ≤ 1048576 → IsSound self.old → IsSound self.new }
    {
        self.edit(con, KindEdit::Share(s));
    }

    /// Gives those children of the container that are listed, in the order in which they stand, other shares, from 1 to
    /// 1,048,576.
    pub fn set_shares(&mut self, con: ConId, siblings: &[Sibling])
        ensures tree { self.new ≡ with_shares con siblings.now self.old }
        ensures sound { AreShares siblings.now → IsSound self.old → IsSound self.new }
    {
        drop(self.nodes.change(con, SetShares(siblings)));
    }

    /// Puts the container or workspace first in the order of recency and takes its urgency. A floating window comes
    /// last among the floating windows, and any other window of its workspace loses fullscreen.
    pub fn raise(&mut self, con: ConId)
        ensures tree { self.new ≡ with_raised con self.old }
        ensures sound { IsSound self.old → IsSound self.new }

        // It comes first, and the others keep their order.
        ensures first { lists con self.old.recency ≡ true → slice_get self.new.recency 0 ≡ Some con }
        ensures others { without_id con self.new.recency ≡ without_id con self.old.recency }
    {
        let space = self.workspace_of(con);
        self.nodes.raise_at(con, space);
        recency::raise(&mut self.recency, con);
        recency::remove(&mut self.urgent, con);
    }

    /// Removes splits without children, and then workspaces without containers that are not shown.
    pub fn settle(&mut self)
        ensures tree { self.new ≡ settled self.old }
        ensures sound { IsSound self.old → IsSound self.new }

        // Nothing is left to settle, and where there was nothing the tree is as it was.
        ensures settled { is_settled None self.new.nodes ≡ true }
        ensures same { is_settled None self.old.nodes ≡ true → self.new ≡ self.old }
        ensures twice { settled self.new ≡ self.new }

        // What is taken out and what is left make the whole, and the order of recency keeps what is left.
        ensures taken { (i : ConId) → tally i self.new.nodes + tally i (vacated None self.old.nodes) ≡ tally i self.old.nodes }
        ensures left { IsSound self.old → self.new.recency ≡ inside self.new.nodes self.old.recency }
    {
        self.take_vacant();
    }

    /// Removes what is vacant, where anything is.
    #[tactic(auto, using(crate::proofs::SettledLaws::settled_same))]
    fn take_vacant(&mut self)
        ensures { self.new ≡ settled self.old }
    {
        if !self.nodes.is_settled(None) {
            self.take_all_vacant();
        }
    }

    /// Removes what is vacant.
    #[tactic(auto, using(wm_forest::proofs::ForestLemmas::append_end))]
    fn take_all_vacant(&mut self)
        ensures { self.new ≡ settled self.old }
    {
        let mut taken = Row::new();
        self.nodes.settle(None, &mut taken);
        recency::remove_all(&mut self.recency, &taken);
    }
}

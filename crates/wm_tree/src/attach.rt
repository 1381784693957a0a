//! Putting a container into the tree.
ghost use Rattle.std.specs.Prelude.{◌≡◌, ◌≢◌, ◌≤◌, false, true, Err, None, IfOk, IfErr, OnOk, OnErr, IfSome};
ghost use Rattle.wm_forest.specs.Counts.{newcomer_share, row_length};
ghost use Rattle.wm_forest.specs.Look.{has, same};
ghost use Rattle.wm_forest.specs.Forest.{end, con};
ghost use Rattle.wm_forest.specs.Place.{IsPlace, named, new_part, passed_limit, rect_at, share_at};
ghost use Rattle.wm_tree.specs.Sound.{IsSound};
ghost use Rattle.wm_forest.specs.RootId.{id};
ghost use Rattle.wm_base.specs.declared.ids.ConId.{ConId};
ghost use Rattle.wm_tree.specs.Words.{attached, IsAttachCause};
ghost use Rattle.wm_tree.specs.declared.refusal.TreeRefusal.TheVariants.{Full, Missing};
ghost use Rattle.wm_tree.specs.declared.refusal.TreeRefusal.TheVariants as refusals;

use crate::refusal::{TreeRefusal, full};
use crate::tree::Tree;
use wm_base::{ConId, Limit};
use wm_forest::{NewCon, Place, Row};

/// How many containers a tree has at most.
pub(crate) const MAX_CONTAINERS: usize = 4_096;

/// How many tiled children a container has at most.
pub(crate) const MAX_CHILDREN: usize = 256;

/// The greatest id that is given.
pub(crate) const MAX_ID: u32 = 4_000_000_000;

impl Tree {
    /// Puts a container at a place, under the next id and the least recent of all, and gives its id.
    #[tactic(auto, using(wm_forest::proofs::ForestLemmas::at_same))]
    pub fn attach(&mut self, at: Place, new: NewCon) -> Result<ConId, TreeRefusal>
        ensures ok { OnOk result (self.new ≡ attached at new self.old) }
        ensures id { IfOk result (λ new_id. new_id ≡ id self.old.next_id) }
        ensures room { OnOk result (passed_limit at self.old.nodes self.old.next_id ≡ None) }
        ensures err { OnErr result (self.new ≡ self.old) }
        ensures sound { IsPlace at self.old.nodes → IsSound self.old → IsSound self.new }
        ensures one_new { OnOk result ((v : ConId) → has v self.new.nodes ≡ true →
            same (id self.old.next_id) v ≡ false → has v self.old.nodes ≡ true) }

        // A missing node is reported before a limit, and a limit before want of memory.
        ensures missing { has (named at) self.old.nodes ≡ false → result ≡ Err (Missing (named at)) }
        ensures full { has (named at) self.old.nodes ≡ true →
            IfSome (passed_limit at self.old.nodes self.old.next_id) (λ limit. result ≡ Err (Full limit)) }
        ensures cause { IfErr result (IsAttachCause self.old at) }
    {
        let id = ConId(self.next_id);
        let row = self.newcomer(at, new)?;
        self.recency.reserve(1)?;
        self.nodes.put(at, row);
        self.recency.push_reserved(id);
        self.next_id += 1;
        Ok(id)
    }

    /// A row of the newcomer alone, where its place is there and no limit is passed.
    fn newcomer(&self, at: Place, new: NewCon) -> Result<Row, TreeRefusal>
        ensures row { IfOk result (λ row.
            row ≡ con (new_part (id self.now.next_id) (share_at at self.now.nodes) self.now.border (rect_at at) new) end end end) }
        ensures ok { OnOk result ((has (named at) self.now.nodes ≡ true) × (passed_limit at self.now.nodes self.now.next_id ≡ None)) }
        ensures ids { OnOk result (self.now.next_id ≤ 4000000000) }
        ensures cause { IfErr result (IsAttachCause self.now at) }
    {
        let share = match self.share_at(at) {
            Ok(share) => share,
            Err(refusal) => {
                drop(new);
                return Err(refusal);
            }
        };
        let id = ConId(self.next_id);
        let mut cell = new.cell(self.alloc, id, share, self.border, at.rect())?;
        self.share_texts(&mut cell.part);
        Ok(Row { first: Some(cell) })
    }

    /// The share of a newcomer at this place, where it is there and no limit is passed.
    fn share_at(&self, at: Place) -> Result<u32, TreeRefusal>
        ensures share { IfOk result (λ share. share ≡ share_at at self.now.nodes) }
        ensures ok { OnOk result ((has (named at) self.now.nodes ≡ true) × (passed_limit at self.now.nodes self.now.next_id ≡ None)) }
        ensures ids { OnOk result (self.now.next_id ≤ 4000000000) }
        ensures cause { IfErr result (λ e. (e ≢ TreeRefusal.NoMemory) × IsAttachCause self.now at e) }
    {
        let Some(siblings) = self.nodes.siblings(at) else {
            return Err(TreeRefusal::Missing(at.named()));
        };
        if self.nodes.cons_up_to(MAX_CONTAINERS) == MAX_CONTAINERS {
            return Err(full(Limit::Containers));
        }
        if at.tiles() && siblings.len_up_to(MAX_CHILDREN) == MAX_CHILDREN {
            return Err(full(Limit::Children));
        }
        if self.nodes.room_at(at) == 0 {
            return Err(full(Limit::Depth));
        }
        if self.next_id > MAX_ID {
            return Err(full(Limit::Ids));
        }
        Ok(if at.tiles() {
            siblings.newcomer_share()
        } else {
            0
        })
    }
}

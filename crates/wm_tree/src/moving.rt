//! Moving, wrapping and exchanging containers.
ghost use Rattle.std.specs.Prelude.{◌≡◌, ◌≢◌, ◌≤◌, false, true, Err, None, IfOk, IfErr, OnOk, OnErr, IfSome, MatchOption, IsOk, is_some};
ghost use Rattle.wm_forest.specs.Look.{has, only};
ghost use Rattle.wm_tree.specs.Move.{IsExchange, IsMove, IsOutside, apart, exchanged, is_too_deep, moved, moved_share, passed_by_move, passed_by_wrap, same_space, share_in, wrap_word, wrapped, IsExchangeCause, IsMoveCause, IsWrapCause};
ghost use Rattle.wm_forest.specs.Place.{IsTiled, named, put};
ghost use Rattle.wm_base.specs.declared.ids.ConId.{ConId};
ghost use Rattle.wm_tree.specs.Sound.{IsSound};
ghost use Rattle.wm_forest.specs.SoundRow.{tally};
ghost use Rattle.wm_forest.specs.RootId.{id};
ghost use Rattle.wm_tree.specs.TreeValue.{parent};
ghost use Rattle.wm_tree.specs.declared.refusal.TreeRefusal.TheVariants.{Full, Missing};
ghost use Rattle.wm_tree.specs.declared.refusal.TreeRefusal.TheVariants as refusals;
ghost use Rattle.wm_base.specs.declared.errors.Limit.TheVariants as limits;

use crate::attach::{MAX_CHILDREN, MAX_CONTAINERS, MAX_ID};
use crate::refusal::{TreeRefusal, full};
use crate::tree::Tree;
use std::mem;
use wm_base::{ConId, Layout, Limit};
use wm_forest::{Cell, Edit, KindEdit, NewCon, Place, Row};

/// The share of a container that a split holds alone.
const WHOLE_SHARE: u32 = 65_536;

/// A new split in the place of a container.
#[derive(Drop)]
struct Wrap(Box<Cell>);

impl Edit for Wrap {
    ghost word = { λ x. wrap_word x.0.value.part };

    fn edit(self, row: &mut Row) {
        let Wrap(mut split) = self;
        if let Some(mut cell) = row.first.take() {
            KindEdit::Share(WHOLE_SHARE).make(&mut cell.part.kind);
            split.rest = mem::replace(&mut cell.rest, Row::new());
            split.floats = Row::new();
            split.kids = Row { first: Some(cell) };
            row.first = Some(split);
        }
    }
}

impl Tree {
    /// Takes the container out with its subtree and puts it at the place. It loses fullscreen, with what is below it,
    /// where it comes to another workspace or to the scratchpad. The id that the place names is neither the container
    /// nor in its subtree.
    pub fn move_to(&mut self, con: ConId, at: Place) -> Result<(), TreeRefusal>
        requires { IsOutside con at self.old.nodes }
        ensures ok { OnOk result (self.new ≡ moved con at self.old) }
        ensures err { OnErr result (self.new ≡ self.old) }
        ensures sound { IsMove con at self.old.nodes → IsSound self.old → IsSound self.new }
        ensures kept { OnOk result ((i : ConId) → tally i self.new.nodes ≡ tally i self.old.nodes) }
        ensures missing { has con self.old.nodes ≡ false → result ≡ Err (Missing con) }
        ensures no_place { has con self.old.nodes ≡ true → has (named at) self.old.nodes ≡ false →
            result ≡ Err (Missing (named at)) }
        ensures full { has con self.old.nodes ≡ true → has (named at) self.old.nodes ≡ true →
            IfSome (passed_by_move con at self.old.nodes) (λ limit. result ≡ Err (Full limit)) }
        ensures cause { IfErr result (IsMoveCause self.old con at) }
    {
        let share = self.moved_share(con, at)?;
        let away = self.apart(con, at.named());
        if let Some(mut row) = self.nodes.take_out(con) {
            row.arrive(share, at.rect(), away);
            self.nodes.put(at, row);
        }
        Ok(())
    }

    /// The container's share at its new place, where both are there and no limit is passed.
    fn moved_share(&self, con: ConId, at: Place) -> Result<u32, TreeRefusal>
        ensures share { IfOk result (λ share. share ≡ moved_share con at self.now.nodes) }
        ensures ok { OnOk result ((has con self.now.nodes ≡ true) × (has (named at) self.now.nodes ≡ true) × (passed_by_move con at self.now.nodes ≡ None)) }
        ensures cause { IfErr result (IsMoveCause self.now con at) }
    {
        let Some(cell) = self.nodes.find(con) else {
            return Err(TreeRefusal::Missing(con));
        };
        let Some(siblings) = self.nodes.siblings(at) else {
            return Err(TreeRefusal::Missing(at.named()));
        };
        if at.tiles() && siblings.len_but_up_to(con, MAX_CHILDREN) == MAX_CHILDREN {
            return Err(full(Limit::Children));
        }
        if !cell.fits(self.nodes.room_at(at)) {
            return Err(full(Limit::Depth));
        }
        Ok(if at.tiles() {
            siblings.share_beside(con)
        } else {
            0
        })
    }

    /// Whether two nodes are not in one workspace.
    fn apart(&self, a: ConId, b: ConId) -> bool
        ensures { result ≡ apart self.now a b }
    {
        match (self.workspace_of(a), self.workspace_of(b)) {
            (Some(a), Some(b)) => a != b,
            (None, None) => false,
            (None, Some(_)) | (Some(_), None) => true,
        }
    }

    /// Puts a new split in the container's place, with its share, holding it alone with the share 65,536, and gives
    /// the split's id.
    pub fn wrap(&mut self, con: ConId, layout: Layout) -> Result<ConId, TreeRefusal>
        ensures ok { OnOk result (self.new ≡ wrapped con layout self.old) }
        ensures sound { (has con self.old.nodes ≡ true → IsTiled con self.old.nodes) → IsSound self.old → IsSound self.new }
        ensures id { IfOk result (λ new_id. new_id ≡ id self.old.next_id) }
        ensures err { OnErr result (self.new ≡ self.old) }
        ensures missing { has con self.old.nodes ≡ false → result ≡ Err (Missing con) }
        ensures full { has con self.old.nodes ≡ true →
            IfSome (passed_by_wrap con self.old.nodes self.old.next_id) (λ limit. result ≡ Err (Full limit)) }
        ensures cause { IfErr result (IsWrapCause self.old con) }
    {
        let share = self.wrapped_share(con)?;
        self.recency.reserve(1)?;
        let id = ConId(self.next_id);
        let new = NewCon::Split { layout };
        let mut split = new.cell(self.alloc, id, share, self.border, None)?;
        self.share_texts(&mut split.part);
        drop(self.nodes.change(con, Wrap(split)));
        self.recency.push_reserved(id);
        self.next_id += 1;
        Ok(id)
    }

    /// The share of the container, where it is there and wrapping it passes no limit.
    fn wrapped_share(&self, con: ConId) -> Result<u32, TreeRefusal>
        ensures share { IfOk result (λ share. share ≡ share_in con self.now.nodes) }
        ensures ok { OnOk result ((has con self.now.nodes ≡ true) × (passed_by_wrap con self.now.nodes self.now.next_id ≡ None)) }
        ensures ids { OnOk result (self.now.next_id ≤ 4000000000) }
        ensures cause { IfErr result (λ e. (e ≢ TreeRefusal.NoMemory) × IsWrapCause self.now con e) }
    {
        let Some(cell) = self.nodes.find(con) else {
            return Err(TreeRefusal::Missing(con));
        };
        if self.nodes.cons_up_to(MAX_CONTAINERS) == MAX_CONTAINERS {
            return Err(full(Limit::Containers));
        }
        if !cell.fits(self.nodes.row_room(con).saturating_sub(1)) {
            return Err(full(Limit::Depth));
        }
        if self.next_id > MAX_ID {
            return Err(full(Limit::Ids));
        }
        Ok(cell.part.kind.share())
    }

    /// The two containers change places; the shares stay with the places. Neither is within the other.
    pub fn exchange(&mut self, a: ConId, b: ConId) -> Result<(), TreeRefusal>
        ensures ok { has b (only a self.old.nodes) ≡ false → OnOk result (self.new ≡ exchanged a b self.old) }
        ensures sound { IsExchange a b self.old.nodes → IsSound self.old → IsSound self.new }
        ensures swapped { IsExchange a b self.old.nodes → IsSound self.old →
            OnOk result ((parent self.new a ≡ parent self.old b) × (parent self.new b ≡ parent self.old a)) }
        ensures err { OnErr result (self.new ≡ self.old) }
        ensures missing { has a self.old.nodes ≡ false → result ≡ Err (Missing a) }
        ensures other { has a self.old.nodes ≡ true → has b self.old.nodes ≡ false → result ≡ Err (Missing b) }
        ensures full { has a self.old.nodes ≡ true → has b self.old.nodes ≡ true → is_too_deep a b self.old.nodes ≡ true →
            result ≡ Err (Full limits.Depth) }
        ensures cause { IfErr result (IsExchangeCause self.old a b) }
    {
        let (share_a, share_b) = self.exchanged_shares(a, b)?;
        let away = self.apart(a, b);
        self.spare.empty(self.alloc);
        self.nodes
            .exchange(&mut *self.spare, (a, share_a), (b, share_b), away);
        Ok(())
    }

    /// The shares of two containers, where they are there and changing places passes no limit.
    fn exchanged_shares(&self, a: ConId, b: ConId) -> Result<(u32, u32), TreeRefusal>
        ensures shares { IfOk result (λ shares. (shares.0 ≡ share_in a self.now.nodes) × (shares.1 ≡ share_in b self.now.nodes)) }
        ensures ok { OnOk result ((has a self.now.nodes ≡ true) × (has b self.now.nodes ≡ true) × (is_too_deep a b self.now.nodes ≡ false)) }
        ensures cause { IfErr result (IsExchangeCause self.now a b) }
    {
        let Some(first) = self.nodes.find(a) else {
            return Err(TreeRefusal::Missing(a));
        };
        let Some(second) = self.nodes.find(b) else {
            return Err(TreeRefusal::Missing(b));
        };
        if !first.fits(self.nodes.row_room(b)) || !second.fits(self.nodes.row_room(a)) {
            return Err(full(Limit::Depth));
        }
        Ok((first.part.kind.share(), second.part.kind.share()))
    }
}

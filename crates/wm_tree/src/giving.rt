//! Who has a mark, and giving it to one container alone.
ghost use Rattle.std.specs.Prelude.{◌≡◌, ◌≢◌, ◌++◌, ◌∷◌, [], false, true, Err, None, Some, nat_le, IfOk, IfErr, OnOk, OnErr};
ghost use Rattle.wm_forest.specs.Counts.{mark_count};
ghost use Rattle.wm_forest.specs.Look.{con_kind, has, kind_of};
ghost use Rattle.wm_tree.specs.Marks.{all_or_none, bearer, given_mark, is_full_for, is_marked, taken_off, IsGivingCause};
ghost use Rattle.wm_tree.specs.Move.{marks_in};
ghost use Rattle.wm_tree.specs.Sound.{IsSound};
ghost use Rattle.wm_tree.specs.declared.refusal.TreeRefusal.TheVariants.{Full, Missing};
ghost use Rattle.wm_base.specs.declared.errors.Limit.TheVariants as limits;

use crate::bearers::{TakeOff, bearer, bears};
use crate::marks::{MAX_MARKS, MAX_MARKS_OF_ONE};
use crate::refusal::{TreeRefusal, full};
use crate::tree::Tree;
use wm_base::{ConId, Limit, List, Text};
use wm_forest::{SetMarks, copy_texts_and};

impl Tree {
    /// The first node, depth first, that has the mark and is not the one to be kept.
    pub fn bearer(&self, keep: Option<ConId>, n: &Text) -> Option<ConId>
        ensures { result ≡ bearer keep n.now self.now.nodes }
    {
        bearer(self.nodes(), keep, n)
    }

    /// Whether the node has the mark.
    pub fn is_marked(&self, con: ConId, n: &Text) -> bool
        ensures { result ≡ is_marked con n.now self.now }
    {
        match self.nodes.find(con) {
            Some(cell) => bears(cell.part.marks.items(), n),
            None => false,
        }
    }

    /// Takes the mark off all nodes but the one to be kept.
    #[tactic(auto, using(crate::proofs::BearerLemmas::off_none))]
    pub fn take_mark(&mut self, keep: Option<ConId>, n: &Text)
        ensures tree { self.new ≡ record self.old { nodes = taken_off keep n.now self.old.nodes } }
        ensures sound { IsSound self.old → IsSound self.new }
    {
        if self.bearer(keep, n).is_some() {
            self.take_borne(keep, n);
        }
    }

    /// Takes the mark, which others have, off all nodes but the one to be kept.
    #[tactic(auto, using(crate::proofs::EachLemmas::mapped_off))]
    fn take_borne(&mut self, keep: Option<ConId>, n: &Text)
        ensures tree { self.new ≡ record self.old { nodes = taken_off keep n.now self.old.nodes } }
        ensures sound { IsSound self.old → IsSound self.new }
    {
        let alloc = self.alloc;
        self.nodes.change_each(&TakeOff {
            alloc,
            keep,
            name: n,
        });
    }

    /// Gives the mark, of 1 to 256 bytes, to the container, which has it not, and takes it off any other. It is the last
    /// of the container's marks, or without `add` the only one.
    pub fn give_mark(&mut self, con: ConId, n: &Text, add: bool) -> Result<(), TreeRefusal>
        requires sound { IsSound self.old }
        requires kind { has con self.old.nodes ≡ true → kind_of con_kind con self.old.nodes ≢ None }
        requires other { is_marked con n.now self.old ≡ false }
        ensures ok { OnOk result (self.new ≡ given_mark con n.now add self.old) }
        ensures err { OnErr result (self.new ≡ self.old) }
        ensures sound { IsSound self.new }
        ensures missing { has con self.old.nodes ≡ false → result ≡ Err (Missing con) }
        ensures full { has con self.old.nodes ≡ true → is_full_for con n.now add self.old ≡ true →
            result ≡ Err (Full limits.Marks) }
        ensures cause { IfErr result (IsGivingCause con n.now add self.old) }
    {
        let marks = self.marks_with(con, n, add)?;
        self.take_mark(Some(con), n);
        drop(self.nodes.change(con, SetMarks(marks)));
        Ok(())
    }

    /// The container's marks that stay with this one behind them, where it is there and no limit is passed.
    fn marks_with(&self, con: ConId, n: &Text, add: bool) -> Result<List<Text>, TreeRefusal>
        requires sound { IsSound self.now }
        requires other { is_marked con n.now self.now ≡ false }
        ensures ok { IfOk result (λ marks. marks ≡ all_or_none add (marks_in con self.now.nodes) ++ n.now ∷ []) }
        ensures there { OnOk result ((has con self.now.nodes ≡ true) × (is_full_for con n.now add self.now ≡ false)) }
        ensures cause { IfErr result (IsGivingCause con n.now add self.now) }
    {
        let Some(cell) = self.nodes.find(con) else {
            return Err(TreeRefusal::Missing(con));
        };
        let marks = cell.part.marks.items();
        if self.is_full_for(con, n, marks, add) {
            return Err(full(Limit::Marks));
        }
        Ok(copy_texts_and(self.alloc, staying(marks, add), n)?)
    }

    /// Whether the mark passes a limit, once it is off all others.
    fn is_full_for(&self, con: ConId, n: &Text, own: &[Text], add: bool) -> bool
        requires sound { IsSound self.now }
        requires there { has con self.now.nodes ≡ true }
        requires own { own.now ≡ marks_in con self.now.nodes }
        requires other { is_marked con n.now self.now ≡ false }
        ensures { result ≡ is_full_for con n.now add self.now }
    {
        if add {
            self.is_full_beside(con, n, own)
        } else {
            self.is_full_alone(con, n, own)
        }
    }

    /// The same where the container's own marks stay.
    fn is_full_beside(&self, con: ConId, n: &Text, own: &[Text]) -> bool
        requires sound { IsSound self.now }
        requires own { own.now ≡ marks_in con self.now.nodes }
        ensures { result ≡ is_full_for con n.now true self.now }
    {
        self.stays_full(con, n) || own.len() >= MAX_MARKS_OF_ONE
    }

    /// The same where the container's own marks go.
    fn is_full_alone(&self, con: ConId, n: &Text, own: &[Text]) -> bool
        requires sound { IsSound self.now }
        requires there { has con self.now.nodes ≡ true }
        requires own { own.now ≡ marks_in con self.now.nodes }
        requires other { is_marked con n.now self.now ≡ false }
        ensures { result ≡ is_full_for con n.now false self.now }
    {
        if own.is_empty() {
            self.stays_full(con, n)
        } else {
            false
        }
    }

    /// Whether there are as many marks as there may be, also once this one is off all others.
    #[tactic(auto, using(crate::proofs::GivingLemmas::room_off, crate::proofs::BearerLemmas::off_none))]
    fn stays_full(&self, con: ConId, n: &Text) -> bool
        requires { IsSound self.now }
        ensures { result ≡ nat_le 1024 (mark_count (taken_off (Some con) n.now self.now.nodes)) }
    {
        match self.bearer(Some(con), n) {
            Some(_) => false,
            None => self.nodes.marks_up_to(MAX_MARKS) == MAX_MARKS,
        }
    }
}

/// The marks that stay beside a new one: all where it is added, else none.
fn staying(marks: &[Text], add: bool) -> &[Text]
    ensures { result.now ≡ all_or_none add marks.now }
{
    if add { marks } else { &[] }
}

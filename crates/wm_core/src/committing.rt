//! What a step leaves is taken: the tree, its arrangement, and what goes with its windows.
ghost use Rattle.std.specs.Prelude.{◌≡◌, ℕ, ◌+◌, ◌≤◌, ◌<◌, ◌^◌, ◌*◌, ◌||◌, List, None, Option, IfOk, OnOk, length};
ghost use Rattle.std.specs.Option.{option_map};
ghost use Rattle.wm_arrange.specs.Arranged.{arranged};
ghost use Rattle.wm_base.specs.declared.ids.ConId.{ConId};
ghost use Rattle.wm_history.specs.ByWindow.{left_of, new_or};
ghost use Rattle.wm_changes.specs.Changes.{changes};
ghost use Rattle.wm_json.specs.declared.views.EventBody.{EventBody};
ghost use Rattle.wm_core.specs.DeskValue.{StandsFrom};
ghost use Rattle.wm_history.specs.Follows.{Follows, kill_after, kill_in};
ghost use Rattle.wm_history.specs.Effect.{changing, closed, leaving, passing, refused};
ghost use Rattle.wm_history.specs.Events.{IsToldOn, later_events};
ghost use Rattle.wm_history.specs.History.{done_by, Entry, History, Start};
ghost use Rattle.wm_core.specs.Steps.{Answers, Commits, MayCome, Takes};
ghost use Rattle.wm_history.specs.Windows.{window_count};
ghost use Rattle.wm_history.specs.declared.step.Answer.{Answer};
ghost use Rattle.wm_history.specs.declared.step.Answer.TheVariants.{Done};
ghost use Rattle.wm_tree.specs.Sound as trees;
ghost use Rattle.wm_tree.specs.Words.{settled};

use crate::desk::Desk;
use std::collections::BTreeMap;
use std::mem;
use wm_arrange::{Arrangement, arrange};
use wm_base::{Buffer, ConId, NoMemory, Text};
use wm_changes::changes;
use wm_history::{
    Answer, closed, disown, forget, forget_owners, noted, own, renew, set_mode, window_count,
};
use wm_json::EventBody;
use wm_kept::Kept;
use wm_tree::Tree;

impl Desk {
    /// Counts a step that changes nothing else, and gives its answer.
    pub(crate) fn stay(&mut self, answer: Answer) -> Answer
        requires few { self.old.steps < 2 ^ 48 }
        ensures { (entry : Entry) → done_by self.old.plan.env self.old.mode self.old.tree entry ≡ refused answer self.old.tree → Answers self.old self.new result entry }
    {
        self.steps += 1;
        answer
    }

    /// Counts a step that leaves the tree, sets this mode, if any, stops the desk or not, and tells these events.
    pub(crate) fn pass(
        &mut self,
        answer: Answer,
        set: Option<Text>,
        stops: bool,
        later: Vec<EventBody>,
    ) -> Answer
        requires few { self.old.steps < 2 ^ 48 }
        requires short { length later.items ≤ 3 }
        ensures { (entry : Entry) (event : Option EventBody) → done_by self.old.plan.env self.old.mode self.old.tree entry ≡ passing answer self.old.tree set stops event
            → later.items ≡ later_events self.old.mode self.old.stopped set stops event → Answers self.old self.new result entry }
    {
        self.steps += 1;
        set_mode(&mut self.mode, set);
        self.stopped = either(self.stopped, stops);
        self.events.push_all(later);
        answer
    }

    /// Settles a tree and takes it as the one after this step, which opened no window.
    pub(crate) fn finish(&mut self, tree: Tree) -> Result<Answer, NoMemory>
        requires few { self.old.steps < 2 ^ 48 }
        requires sound { trees.IsSound tree }
        requires follows { Follows self.old.tree tree None }
        ensures { (entry : Entry) → done_by self.old.plan.env self.old.mode self.old.tree entry ≡ leaving Done self.old.tree (settled tree) None → Takes self.old self.new result entry }
    {
        let mut tree = tree;
        tree.settle();
        self.commit(tree, None, false, &[])?;
        Ok(Answer::Done)
    }

    /// Takes a tree as the one after this step, which opened this window with its buffer, if any, and takes whether the
    /// step stops the desk, and the windows that it asks to close. The mode is still to be set.
    pub(crate) fn commit(
        &mut self,
        tree: Tree,
        opened: Option<(ConId, Buffer)>,
        stops: bool,
        closes: &[ConId],
    ) -> Result<(), NoMemory>
        requires { MayCome self.old tree opened }
        ensures commits { (entry : Entry) (answer : Answer) (set : Option (List ℕ)) (event : Option EventBody) → done_by self.old.plan.env self.old.mode self.old.tree entry ≡ changing answer self.old.tree tree opened set stops closes.now event → Commits self.old self.new set (later_events self.old.mode self.old.stopped set stops event) result entry }
        ensures room { OnOk result ((self.new.events.last + 3 ≤ self.new.steps * 65535) × (self.new.steps ≤ 2 ^ 48)) }
    {
        let mut tree = tree;
        let done = self.exchange(&mut tree, opened, stops, closes);
        drop(tree);
        done
    }

    /// The same, with the tree exchanged for the old one. After an `Err` nothing is exchanged.
    fn exchange(
        &mut self,
        tree: &mut Tree,
        opened: Option<(ConId, Buffer)>,
        stops: bool,
        closes: &[ConId],
    ) -> Result<(), NoMemory>
        requires { MayCome self.old tree.old opened }
        ensures commits { (entry : Entry) (answer : Answer) (set : Option (List ℕ)) (event : Option EventBody) → done_by self.old.plan.env self.old.mode self.old.tree entry ≡ changing answer self.old.tree tree.old opened set stops closes.now event → Commits self.old self.new set (later_events self.old.mode self.old.stopped set stops event) result entry }
        ensures room { OnOk result ((self.new.events.last + 3 ≤ self.new.steps * 65535) × (self.new.steps ≤ 2 ^ 48)) }
    {
        let change = self.change_to(tree, opened, closes)?;
        if let Err(error) = own(&mut self.owners, tree, opened) {
            drop(change);
            return Err(error);
        }
        let Change {
            newest,
            windows,
            gone,
            told,
        } = change;
        if let Err(error) = self.txn.admit(self.steps, newest, opened, &gone) {
            disown(&mut self.owners, opened);
            drop(told);
            return Err(error);
        }
        self.steps += 1;
        mem::swap(&mut self.tree, tree);
        self.windows = windows;
        self.stopped = either(self.stopped, stops);
        tell(&mut self.kills, &mut self.events, told, &gone);
        forget_owners(&mut self.owners, &gone);
        Ok(())
    }

    /// What changes with a new tree, in which this window was opened, if any, where these windows are asked to close.
    fn change_to(
        &self,
        tree: &Tree,
        opened: Option<(ConId, Buffer)>,
        closes: &[ConId],
    ) -> Result<Change, NoMemory>
        requires few { self.now.steps < 2 ^ 48 }
        requires sound { trees.IsSound tree.now }
        ensures noted { (v : ConId) → IfOk result (λ change.
            kill_in (new_or (option_map (λ m. m.entries) change.told.noted) self.now.kills) v ≡ kill_after closes.now (self.now.steps + 1) v (kill_in self.now.kills v)) }
        ensures newest { IfOk result (λ change. change.newest.parts ≡ arranged tree.now) }
        ensures windows { IfOk result (λ change. change.windows ≡ window_count tree.now) }
        ensures gone { Follows self.now.tree tree.now opened → IfOk result (λ change. change.gone.items ≡ closed self.now.tree tree.now opened) }
        ensures events { (start : Start) (history : History) → StandsFrom start self.now history → IfOk result (λ change. change.told.events.items ≡ changes self.now.tree (arranged self.now.tree) tree.now (arranged tree.now)) }
        ensures few { IfOk result (λ change. length change.told.events.items ≤ 29443) }
    {
        let noted = noted(&self.kills, closes, self.steps + 1)?;
        let windows = window_count(tree);
        let gone = closed(self.alloc, &self.tree, self.windows, tree, windows, opened)?;
        let (newest, events) = self.rearrange(tree)?;
        Ok(Change {
            newest,
            windows,
            gone,
            told: Told { noted, events },
        })
    }

    /// The arrangement of a new tree, and the events that tell what is new in it.
    fn rearrange(&self, tree: &Tree) -> Result<(Arrangement, Vec<EventBody>), NoMemory>
        requires { trees.IsSound tree.now }
        ensures newest { IfOk result (λ r. r.0.parts ≡ arranged tree.now) }
        ensures events { (start : Start) (history : History) → StandsFrom start self.now history → IfOk result (λ r. r.1.items ≡ changes self.now.tree (arranged self.now.tree) tree.now (arranged tree.now)) }
        ensures few { IfOk result (λ r. length r.1.items ≤ 29443) }
    {
        let newest = arrange(self.alloc, tree)?;
        match changes(self.alloc, &self.tree, self.txn.newest(), tree, &newest) {
            Ok(events) => Ok((newest, events)),
            Err(error) => {
                drop(newest);
                Err(error)
            }
        }
    }
}

/// What changes with a new tree: its arrangement, how many windows it has, the windows that were closed, and what is told.
#[derive(Drop)]
struct Change {
    newest: Arrangement,
    windows: u32,
    gone: Vec<ConId>,
    told: Told,
}

/// What a new tree tells: the steps that asked windows to close, where some are asked, and the events.
#[derive(Drop)]
struct Told {
    noted: Option<BTreeMap<u32, u64>>,
    events: Vec<EventBody>,
}

/// Takes the numbers of the steps that asked windows to close, if any were asked, forgets those of windows that are gone,
/// and tells the events.
fn tell(kills: &mut BTreeMap<u32, u64>, events: &mut Kept, told: Told, gone: &[ConId])
    requires { events.old.last + length told.events.items < 2 ^ 64 }
    ensures kills { (v : ConId) → kill_in kills.new.entries v ≡ left_of gone.now v (kill_in (new_or (option_map (λ m. m.entries) told.noted) kills.old.entries) v) }
    ensures events { IsToldOn events.old told.events.items events.new }
    ensures last { events.new.last ≡ events.old.last + length told.events.items }
{
    renew(kills, told.noted);
    forget(kills, gone);
    events.push_all(told.events);
}

/// Whether one of the two holds.
fn either(one: bool, other: bool) -> bool
    ensures { result ≡ (one || other) }
{
    one || other
}

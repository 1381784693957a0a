//! Marks of containers, and urgent windows.
ghost use Rattle.std.specs.Prelude.{None, ◌≢◌, ◌≡◌, ◌++◌, ◌∷◌, ◌≤◌, [], false, true, Err, IfOk, IfErr, OnOk, OnErr};
ghost use Rattle.wm_forest.specs.Look.{con_kind, has, kind_of};
ghost use Rattle.wm_tree.specs.Marks.{bare, bare_part, bearer, only_mark};
ghost use Rattle.wm_tree.specs.Sound.{IsSound};
ghost use Rattle.wm_tree.specs.Move.{is_full_of_marks, marked, marks_in, unmarked, with_marks, IsMarkCause};
ghost use Rattle.std.specs.Option.{option_copied};
ghost use Rattle.wm_forest.specs.Recency.{lists, without_id};
ghost use Rattle.wm_tree.specs.declared.refusal.TreeRefusal.TheVariants.{Full, Missing};
ghost use Rattle.wm_tree.specs.declared.refusal.TreeRefusal.TheVariants as refusals;
ghost use Rattle.wm_base.specs.declared.errors.Limit.TheVariants as limits;

use crate::refusal::{TreeRefusal, full};
use crate::tree::Tree;
use std::alloc::Global;
use wm_base::{ConId, Limit, List, Text};
use wm_forest::{EachPart, KeepMark, Part, SetMarks, Unmark, copy_texts_and, recency};

/// How many marks a tree has at most.
pub(crate) const MAX_MARKS: usize = 1_024;

/// How many marks a container has at most.
pub(crate) const MAX_MARKS_OF_ONE: usize = 32;

/// Taking all marks from nodes.
#[derive(Drop)]
struct Strip {
    alloc: Global,
}

impl EachPart for Strip {
    ghost word = { λ x. bare_part };

    fn change(&self, part: &mut Part) {
        part.strip(self.alloc);
    }
}

impl Tree {
    /// Puts the mark, of 1 to 256 bytes, last among the container's.
    pub fn add_mark(&mut self, con: ConId, n: &Text) -> Result<(), TreeRefusal>
        requires { bearer None n.now self.old.nodes ≡ None }
        ensures ok { OnOk result (self.new ≡ marked con n.now self.old) }
        ensures sound { (has con self.old.nodes ≡ true → kind_of con_kind con self.old.nodes ≢ None) →
            IsSound self.old → IsSound self.new }
        ensures err { OnErr result (self.new ≡ self.old) }
        ensures missing { has con self.old.nodes ≡ false → result ≡ Err (Missing con) }
        ensures full { has con self.old.nodes ≡ true → is_full_of_marks con self.old.nodes ≡ true →
            result ≡ Err (Full limits.Marks) }
        ensures cause { IfErr result (IsMarkCause self.old con) }
    {
        let marks = self.with_mark(con, n)?;
        drop(self.nodes.change(con, SetMarks(marks)));
        Ok(())
    }

    /// The container's marks with this one last, where it is there and no limit is passed.
    fn with_mark(&self, con: ConId, n: &Text) -> Result<List<Text>, TreeRefusal>
        ensures ok { IfOk result (λ marks. marks ≡ marks_in con self.now.nodes ++ n.now ∷ []) }
        ensures there { OnOk result ((has con self.now.nodes ≡ true) × (is_full_of_marks con self.now.nodes ≡ false)) }
        ensures cause { IfErr result (IsMarkCause self.now con) }
    {
        let Some(cell) = self.nodes.find(con) else {
            return Err(TreeRefusal::Missing(con));
        };
        if self.nodes.marks_up_to(MAX_MARKS) == MAX_MARKS {
            return Err(full(Limit::Marks));
        }
        let marks = cell.part.marks.items();
        if marks.len() >= MAX_MARKS_OF_ONE {
            return Err(full(Limit::Marks));
        }
        Ok(copy_texts_and(self.alloc, marks, n)?)
    }

    /// Takes the mark from the container.
    pub fn remove_mark(&mut self, con: ConId, n: &Text)
        ensures tree { self.new ≡ unmarked con n.now self.old }
        ensures sound { IsSound self.old → IsSound self.new }
    {
        let alloc = self.alloc;
        drop(self.nodes.change(con, Unmark { alloc, name: n }));
    }

    /// Takes all marks but this one from the container, or all.
    pub fn keep_mark(&mut self, con: ConId, kept: Option<&Text>)
        ensures tree { self.new ≡ with_marks con (only_mark (option_copied kept.entry) (marks_in con self.old.nodes)) self.old }
        ensures sound { IsSound self.old → IsSound self.new }
    {
        let alloc = self.alloc;
        drop(self.nodes.change(con, KeepMark { alloc, name: kept }));
    }

    /// Takes all marks from all nodes.
    #[tactic(auto, using(crate::proofs::EachLemmas::mapped_bare))]
    pub fn strip(&mut self)
        ensures tree { self.new ≡ record self.old { nodes = bare self.old.nodes } }
        ensures sound { IsSound self.old → IsSound self.new }
    {
        let alloc = self.alloc;
        self.nodes.change_each(&Strip { alloc });
    }

    /// Puts the window, which is not urgent, last among the urgent ones.
    pub fn add_urgent(&mut self, con: ConId) -> Result<(), TreeRefusal>
        requires { lists con self.old.urgent ≡ false }
        ensures ok { OnOk result (self.new ≡ record self.old { urgent = self.old.urgent ++ con ∷ [] }) }
        ensures sound { IsSound self.old → IsSound self.new }
        ensures err { OnErr result (self.new ≡ self.old) }
        ensures missing { has con self.old.nodes ≡ false → result ≡ Err (Missing con) }
        ensures cause { IfErr result (λ e. (has con self.old.nodes ≡ true) → e ≡ refusals.NoMemory) }
    {
        if !self.nodes.has(con) {
            return Err(TreeRefusal::Missing(con));
        }
        self.urgent.reserve(1)?;
        self.urgent.push_reserved(con);
        Ok(())
    }

    /// Takes the urgency from the container.
    pub fn remove_urgent(&mut self, con: ConId)
        ensures tree { self.new ≡ record self.old { urgent = without_id con self.old.urgent } }
        ensures sound { IsSound self.old → IsSound self.new }
    {
        recency::remove(&mut self.urgent, con);
    }
}

//! Outputs that come and go.
ghost use Rattle.std.specs.Prelude.{◌≡◌, ◌≢◌, ◌≤◌, false, true, Err, None, IfOk, IfErr, OnOk, OnErr, IfSome, IsOk};
ghost use Rattle.wm_forest.specs.Counts.{space_count};
ghost use Rattle.wm_forest.specs.Forest.{end};
ghost use Rattle.wm_forest.specs.Look.{has};
ghost use Rattle.wm_tree.specs.Outputs.{IsOutput, IsOutputCause, handed_on, new_output, passed_by_output, with_output, without_output, yielded};
ghost use Rattle.wm_forest.specs.SoundRow.{IsOutputRect};
ghost use Rattle.wm_forest.specs.Taking.{heir};
ghost use Rattle.wm_tree.specs.Sound.{IsSound};
ghost use Rattle.wm_forest.specs.RootId.{id};
ghost use Rattle.wm_tree.specs.declared.refusal.TreeRefusal.TheVariants.{Full, Missing};

use crate::attach::MAX_ID;
use crate::refusal::{TreeRefusal, full};
use crate::spaces::MAX_SPACES;
use crate::start::output_part;
use crate::tree::Tree;
use wm_base::{ConId, Limit, NoMemory, OutputPlan, Text};
use wm_forest::{Cell, KindEdit, Place, ROOT, Row, TakeIn};

/// How many outputs a tree has at most.
const MAX_OUTPUTS: usize = 8;

impl Tree {
    /// Adds an output, last, under the next id, and gives that. It shows an empty workspace of the name `first` under
    /// the id after it, the least recent of all. Both names are free.
    pub fn add_output(&mut self, o: &OutputPlan, first: &Text) -> Result<ConId, TreeRefusal>
        ensures ok { OnOk result (self.new ≡ with_output o.now first.now self.old) }
        ensures id { IfOk result (λ new_id. new_id ≡ id self.old.next_id) }
        ensures room { OnOk result (passed_by_output self.old.nodes self.old.next_id ≡ None) }
        ensures err { OnErr result (self.new ≡ self.old) }
        ensures sound { IsOutputRect o.now.rect → IsSound self.old → IsSound self.new }
        ensures full { IfSome (passed_by_output self.old.nodes self.old.next_id) (λ limit. result ≡ Err (Full limit)) }
        ensures cause { IfErr result (IsOutputCause self.old) }
    {
        self.room_for_output()?;
        self.recency.reserve(1)?;
        let id = ConId(self.next_id);
        let shown = ConId(self.next_id + 1);
        let row = self.new_output(id, o, shown, first)?;
        self.nodes.put(Place::Last(ROOT), row);
        self.recency.push_reserved(shown);
        self.next_id += 2;
        Ok(id)
    }

    /// A row of an output under this id over an empty workspace of this name, which it shows.
    fn new_output(
        &self,
        id: ConId,
        plan: &OutputPlan,
        shown: ConId,
        first: &Text,
    ) -> Result<Row, NoMemory>
        ensures { IfOk result (λ row. row ≡ new_output id plan.now shown first.now self.now) }
    {
        let part = output_part(self.alloc, id, plan, shown)?;
        let mut cell = Cell::of(self.alloc, part)?;
        cell.set_kids(self.new_space(shown, first)?);
        Ok(Row { first: Some(cell) })
    }

    /// That another output passes no limit.
    fn room_for_output(&self) -> Result<(), TreeRefusal>
        ensures ok { OnOk result (passed_by_output self.now.nodes self.now.next_id ≡ None) }
        ensures ids { OnOk result (self.now.next_id ≤ 3999999999) }
        ensures cause { IfErr result (λ e. (e ≢ TreeRefusal.NoMemory) × IsOutputCause self.now e) }
    {
        if self.nodes.kids_up_to(MAX_OUTPUTS) == MAX_OUTPUTS {
            return Err(full(Limit::Outputs));
        }
        if self.nodes.spaces_up_to(MAX_SPACES) == MAX_SPACES {
            return Err(full(Limit::Workspaces));
        }
        if self.next_id >= MAX_ID {
            return Err(full(Limit::Ids));
        }
        Ok(())
    }

    /// The first of the other outputs.
    pub fn heir(&self, o: ConId) -> Option<ConId>
        ensures { result ≡ heir o self.now.nodes }
    {
        self.nodes.heir(o)
    }

    /// Removes the output. Its workspaces come last on the first of the others, which keeps what it shows and is
    /// current where the removed one was. The id, where it is there, is that of an output, and not of the only one.
    pub fn remove_output(&mut self, o: ConId) -> Result<(), TreeRefusal>
        ensures missing { has o self.old.nodes ≡ false → result ≡ Err (Missing o) }
        ensures there { has o self.old.nodes ≡ true → IsOk result }
        ensures ok { OnOk result (self.new ≡ without_output o self.old) }
        ensures err { OnErr result (self.new ≡ self.old) }
        ensures sound { (has o self.old.nodes ≡ true → IsOutput o self.old.nodes) → IsSound self.old → IsSound self.new }
    {
        if !self.nodes.has(o) {
            return Err(TreeRefusal::Missing(o));
        }
        if let Some(heir) = self.heir(o) {
            self.yield_to(o, heir);
            self.hand_on(o, heir);
        }
        Ok(())
    }

    /// Makes the other output current where this one is.
    fn yield_to(&mut self, o: ConId, heir: ConId)
        ensures { self.new ≡ yielded o heir self.old }
    {
        if self.current() == o {
            self.edit(ROOT, KindEdit::Current(heir));
        }
    }

    /// Takes the output out, and puts what it held last on the other one.
    fn hand_on(&mut self, o: ConId, heir: ConId)
        ensures { self.new ≡ handed_on o heir self.old }
    {
        let gone = self.nodes.take_node(o);
        drop(self.nodes.change(heir, TakeIn(gone)));
    }
}

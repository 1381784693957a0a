//! Workspaces that come and move.
ghost use Rattle.std.specs.Prelude.{◌≡◌, ◌≢◌, ◌≤◌, false, true, Err, None, IfOk, IfErr, OnOk, OnErr, IfSome, IsOk};
ghost use Rattle.wm_forest.specs.Look.{has};
ghost use Rattle.wm_tree.specs.Outputs.{IsOutput, IsSpaceCause, IsSpaceMove, IsSpaceMoveCause, new_space, passed_by_space, space_moved, with_space};
ghost use Rattle.wm_tree.specs.Sound.{IsSound};
ghost use Rattle.wm_forest.specs.RootId.{id};
ghost use Rattle.wm_tree.specs.declared.refusal.TreeRefusal.TheVariants.{Full, Missing};

use crate::attach::MAX_ID;
use crate::refusal::{TreeRefusal, full};
use crate::start::named_space;
use crate::tree::Tree;
use wm_base::{ConId, Limit, NoMemory, Text};
use wm_forest::{Place, Row};

/// How many workspaces a tree has at most.
pub(crate) const MAX_SPACES: usize = 256;

impl Tree {
    /// Adds an empty workspace of this name, last on the output, under the next id and the least recent of all, and
    /// gives its id. The name is free, and the id, where it is there, is that of an output.
    pub fn add_workspace(&mut self, o: ConId, n: &Text) -> Result<ConId, TreeRefusal>
        ensures ok { OnOk result (self.new ≡ with_space o n.now self.old) }
        ensures id { IfOk result (λ new_id. new_id ≡ id self.old.next_id) }
        ensures room { OnOk result (passed_by_space self.old.nodes self.old.next_id ≡ None) }
        ensures err { OnErr result (self.new ≡ self.old) }
        ensures sound { (has o self.old.nodes ≡ true → IsOutput o self.old.nodes) → IsSound self.old → IsSound self.new }
        ensures missing { has o self.old.nodes ≡ false → result ≡ Err (Missing o) }
        ensures full { has o self.old.nodes ≡ true →
            IfSome (passed_by_space self.old.nodes self.old.next_id) (λ limit. result ≡ Err (Full limit)) }
        ensures cause { IfErr result (IsSpaceCause self.old o) }
    {
        self.room_for_space(o)?;
        self.recency.reserve(1)?;
        let id = ConId(self.next_id);
        let space = self.new_space(id, n)?;
        self.nodes.put(Place::Last(o), space);
        self.recency.push_reserved(id);
        self.next_id += 1;
        Ok(id)
    }

    /// That the output is there, and another workspace passes no limit.
    fn room_for_space(&self, o: ConId) -> Result<(), TreeRefusal>
        ensures ok { OnOk result ((has o self.now.nodes ≡ true) × (passed_by_space self.now.nodes self.now.next_id ≡ None)) }
        ensures ids { OnOk result (self.now.next_id ≤ 4000000000) }
        ensures cause { IfErr result (λ e. (e ≢ TreeRefusal.NoMemory) × IsSpaceCause self.now o e) }
    {
        if !self.nodes.has(o) {
            return Err(TreeRefusal::Missing(o));
        }
        if self.nodes.spaces_up_to(MAX_SPACES) == MAX_SPACES {
            return Err(full(Limit::Workspaces));
        }
        if self.next_id > MAX_ID {
            return Err(full(Limit::Ids));
        }
        Ok(())
    }

    /// A row of one empty workspace of this name, with the gaps that new ones get.
    pub(crate) fn new_space(&self, id: ConId, name: &Text) -> Result<Row, NoMemory>
        ensures { IfOk result (λ row. row ≡ new_space id name.now self.now) }
    {
        let part = named_space(self.alloc, id, name.clone()?, self.inner, self.outer);
        Ok(Row::of(self.alloc, part)?)
    }

    /// Takes the workspace from its output, with all that is below it, and puts it last on the other one. Where the ids
    /// are there, `w` is a workspace that is not shown and `o` an output.
    pub fn move_workspace(&mut self, w: ConId, o: ConId) -> Result<(), TreeRefusal>
        ensures ok { OnOk result (self.new ≡ space_moved w o self.old) }
        ensures err { OnErr result (self.new ≡ self.old) }
        ensures sound { IsSpaceMove w o self.old.nodes → IsSound self.old → IsSound self.new }
        ensures there { has w self.old.nodes ≡ true → has o self.old.nodes ≡ true → IsOk result }
        ensures missing { has w self.old.nodes ≡ false → result ≡ Err (Missing w) }
        ensures no_output { has w self.old.nodes ≡ true → has o self.old.nodes ≡ false → result ≡ Err (Missing o) }
        ensures cause { IfErr result (IsSpaceMoveCause self.old w o) }
    {
        if !self.nodes.has(w) {
            return Err(TreeRefusal::Missing(w));
        }
        if !self.nodes.has(o) {
            return Err(TreeRefusal::Missing(o));
        }
        let space = self.nodes.take_node(w);
        self.nodes.put(Place::Last(o), space);
        Ok(())
    }
}
